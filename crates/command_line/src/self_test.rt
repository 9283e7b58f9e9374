// The arguments of `selftest` (own rules).
ghost use Rattle.std.specs.Prelude.{◌≡◌, ◌<◌, ◌^◌, IfSome, option_map};
ghost use Rattle.std.specs.Option.{option_copied};
ghost use Rattle.clap.specs.Words.{found_of, rows_of};
ghost use Rattle.command_line.specs.Asked.{asked_of};
ghost use Rattle.command_line.specs.Rules.{IsInRange};
ghost use Rattle.command_line.specs.SelfTest.{IsPacketCount, packets_in, seed_in, self_test_by};

use crate::command::Command;
use crate::matches::text;
use crate::numbers::{number, number_or};
use crate::subcommand::{Argument, Subcommand};
use clap::ArgMatches;

/// The options of `selftest`.
#[derive(Clone, Copy, Debug, PartialEq, Eq)]
pub struct SelfTestOptions {
    /// The seed from which packets are generated.
    pub seed: u32,
    /// The number of packets to generate, 1 to 1,000,000.
    pub packets: u32,
}

pub const WORDS: Subcommand<'static> = Subcommand {
    name: "selftest",
    arguments: &[Argument::Positional("seed"), Argument::Option("packets")],
};

fn seed(text: &str) -> Option<u32>
    ensures number { result ≡ seed_in text.now }
    ensures range { IfSome result (λ n. n < 2 ^ 32) }
{
    number(text, 0, u32::MAX)
}

// Returns the number of packets, by the text of the option.
fn packets(text: Option<&str>) -> Option<u32>
    ensures number { result ≡ packets_in (option_copied text.entry) }
    ensures range { IfSome result (λ n. IsPacketCount n) }
{
    number_or(text, 1, 1_000_000, 10_000)
}

// Returns the command for the matches of `selftest`.
pub fn self_test<'a>(matches: &ArgMatches<'a>) -> Option<Command<'a>>
    ensures command { option_map asked_of result ≡ self_test_by (rows_of (found_of matches.now)) }
    ensures range { IfSome result (λ c. IsInRange (asked_of c)) }
{
    let seed = seed(text(matches, "seed")?)?;
    let packets = packets(text(matches, "packets"))?;
    Some(Command::SelfTest(SelfTestOptions { seed, packets }))
}
