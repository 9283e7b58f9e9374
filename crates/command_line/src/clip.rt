// The arguments of `clip` (own rules).
use crate::subcommand::Subcommand;

pub const WORDS: Subcommand<'static> = Subcommand {
    name: "clip",
    arguments: &[],
};
