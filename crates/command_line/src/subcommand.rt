// The tables that describe a subcommand.

// An argument of a subcommand, by its name.
#[derive(Clone, Copy)]
pub enum Argument<'a> {
    // A positional argument, which must be given.
    Positional(&'a str),
    // An option with this long name, which takes a text as its value.
    Option(&'a str),
    // An option with this long name and without a value.
    Flag(&'a str),
}

// A subcommand, and the arguments that it accepts.
#[derive(Clone, Copy)]
pub struct Subcommand<'a> {
    pub name: &'a str,
    pub arguments: &'a [Argument<'a>],
}
