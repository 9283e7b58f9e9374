// The arguments of `rehearse` (own rules).
ghost use Rattle.std.specs.Prelude.{◌≡◌, IfSome, option_map};
ghost use Rattle.clap.specs.Words.{found_of, rows_of};
ghost use Rattle.command_line.specs.Asked.{asked_of};
ghost use Rattle.command_line.specs.Rehearse.{rehearse_by};
ghost use Rattle.command_line.specs.Rules.{IsInRange};

use crate::command::Command;
use crate::matches::text;
use crate::subcommand::{Argument, Subcommand};
use clap::ArgMatches;

pub const WORDS: Subcommand<'static> = Subcommand {
    name: "rehearse",
    arguments: &[Argument::Positional("setup")],
};

// Returns the command for the matches of `rehearse`.
pub fn rehearse<'a>(matches: &ArgMatches<'a>) -> Option<Command<'a>>
    ensures command { option_map asked_of result ≡ rehearse_by (rows_of (found_of matches.now)) }
    ensures range { IfSome result (λ c. IsInRange (asked_of c)) }
{
    let setup = text(matches, "setup")?;
    Some(Command::Rehearse { setup })
}
