// The command that `clap` reads: one simple command, without short names, aliases, default values or rules
// between arguments.
ghost use Rattle.std.specs.Prelude.{◌≡◌, false, IfOk, map};
ghost use Rattle.clap.specs.Words.{app_of, rule_of, with_subcommand};
ghost use Rattle.clap.specs.declared.builder.command.Command.TheViews.{out-Command};
ghost use Rattle.command_line.specs.Rules.{bare_app, cli};
ghost use Rattle.command_line.specs.Words.{rule_for, shape_for, with_rules, with_shapes};

use crate::subcommand::{Argument, Subcommand};
use crate::{clip, endpoint, rehearse, self_test, show, sysex8, translate, usb};
use clap::{Arg, ArgAction, Command};
use std::alloc::{AllocError, Global};

const SUBCOMMANDS: [Subcommand<'static>; 8] = [
    translate::WORDS,
    show::WORDS,
    endpoint::WORDS,
    usb::WORDS,
    sysex8::WORDS,
    rehearse::WORDS,
    clip::WORDS,
    self_test::WORDS,
];

fn arg_of<'a>(alloc: Global, argument: Argument<'a>) -> Arg<'a>
    ensures rule { rule_of result ≡ rule_for argument.entry }
    ensures local { result.global ≡ false }
{
    match argument {
        Argument::Positional(id) => Arg::new(alloc, id).required(true).action(ArgAction::Set),
        Argument::Option(id) => Arg::new(alloc, id).long(id).action(ArgAction::Set),
        Argument::Flag(id) => Arg::new(alloc, id).long(id).action(ArgAction::SetTrue),
    }
}

// Adds arguments to a command, in their order.
fn with_arguments<'a>(
    alloc: Global,
    command: Command<'a>,
    arguments: &[Argument<'a>],
) -> Result<Command<'a>, AllocError>
    ensures app { IfOk result
        (λ c. app_of c ≡ with_rules (app_of command.entry) (map rule_for arguments.now)) }
    ensures local { IfOk result (λ c. (out-Command c).has_globals ≡ (out-Command command.entry).has_globals) }
{
    let mut command = command;
    for &argument in arguments {
        command = command.arg(arg_of(alloc, argument))?;
    }
    Ok(command)
}

// Adds a subcommand to a command.
fn with_subcommand<'a>(
    alloc: Global,
    command: Command<'a>,
    below: &Subcommand<'a>,
) -> Result<Command<'a>, AllocError>
    ensures app { IfOk result (λ c. app_of c ≡ with_subcommand (app_of command.entry) (shape_for below.now)) }
{
    let below = with_arguments(alloc, Command::new(alloc, below.name), below.arguments)?;
    let command = command.subcommand(below)?;
    Ok(command)
}

// Adds subcommands to a command, in their order.
fn with_subcommands<'a>(
    alloc: Global,
    command: Command<'a>,
    subcommands: &[Subcommand<'a>],
) -> Result<Command<'a>, AllocError>
    ensures app { IfOk result
        (λ c. app_of c ≡ with_shapes (app_of command.entry) (map shape_for subcommands.now)) }
{
    let mut command = command;
    for below in subcommands {
        command = with_subcommand(alloc, command, below)?;
    }
    Ok(command)
}

// Creates the command without its subcommands. It needs a subcommand. Its arguments come without the
// program's name.
fn bare_command<'a>(alloc: Global) -> Command<'a>
    ensures app { app_of result ≡ bare_app }
{
    Command::new(alloc, "larboardyuzu")
        .no_binary_name(true)
        .subcommand_required(true)
}

// Creates the command with all its subcommands.
#[tactic(auto, unfolding(crate::specs::Rules::cli))]
pub fn parser<'a>(alloc: Global) -> Result<Command<'a>, AllocError>
    ensures app { IfOk result (λ c. app_of c ≡ cli) }
{
    with_subcommands(alloc, bare_command(alloc), &SUBCOMMANDS)
}
