// Carries out each command.
ghost use Rattle.std.specs.Prelude.{◌≡◌, None};
ghost use Rattle.command_line.specs.Asked.{asked_of};
ghost use Rattle.command_line.specs.Rules.{IsInRange};
ghost use Rattle.midi_commands.specs.Command.{plan_of, style_of as style_in};
ghost use Rattle.midi_commands.specs.Run.{Does, IsDonePlan, objects, status_in};

use crate::self_test_line::self_test_line;
use crate::setups::setup_named;
use crate::status::Status;
use clip_pass::run_clip;
use command_line::{Command, LaneStyle};
use down_translator::Style;
use endpoint_pass::{EndpointRun, run_endpoint};
use outside::{Lanes, Shelf, Sink, Source};
use packet_words::Order;
use pass_loop::RunEnd;
use pass_loop::places::put_output;
use rehearsal_pass::{RehearseRun, run_rehearse};
use self_test::count;
use show_pass::{ShowRun, run_show};
use std::alloc::Global;
use sysex8_pass::{Sysex8Run, run_sysex8};
use translation_passes::{BackRun, DownRun, UpRun, run_back, run_down, run_up};
use usb_passes::{PackRun, run_pack, run_split};

// Returns the style in which the lanes are written.
fn style_of(style: LaneStyle) -> Style
    ensures { result ≡ style_in style }
{
    match style {
        LaneStyle::Plain => Style::Plain,
        LaneStyle::Compact => Style::Compact,
    }
}

/// Carries out a command. Returns the end of its pass. If the pass can't start, because the setup or the
/// folder can't be opened or there is no memory, returns the status instead. The lanes are opened after all
/// memory is allocated.
#[tactic(auto, using(crate::proofs::LineLaws::output_failed))]
pub fn perform<S: Source, L: Lanes, W: Sink, N: Sink, K: Shelf>(
    alloc: Global,
    command: &Command<'_>,
    input: &mut S,
    lanes: &mut L,
    output: &mut W,
    notes: &mut N,
    shelf: &mut K,
) -> Result<RunEnd, Status>
    requires range { IsInRange (asked_of command.now) }
    requires folder { L.folder lanes.old ≡ None }
    requires asked { K.asked shelf.old ≡ None }
    ensures says { Does (plan_of (asked_of command.now))
        (objects S.Source L.Lanes W.Sink N.Sink K.Shelf input.old lanes.old output.old notes.old shelf.old)
        (objects S.Source L.Lanes W.Sink N.Sink K.Shelf input.new lanes.new output.new notes.new shelf.new)
        (status_in result) }
    ensures complete { IsDonePlan (plan_of (asked_of command.now))
        (objects S.Source L.Lanes W.Sink N.Sink K.Shelf input.old lanes.old output.old notes.old shelf.old)
        (objects S.Source L.Lanes W.Sink N.Sink K.Shelf input.new lanes.new output.new notes.new shelf.new)
        (status_in result) }
{
    match command {
        Command::Down { folder, options } => {
            let style = style_of(options.style);
            let run = DownRun::new(alloc, style, options.order, options.room, options.paired)?;
            lanes.begin(folder).map_err(Status::of_opening)?;
            Ok(run_down(run, input, lanes, output, notes))
        }
        Command::Up(options) => {
            let run = UpRun::new(
                alloc,
                options.group,
                options.order,
                options.room,
                options.paired,
            )?;
            Ok(run_up(run, input, lanes, output, notes))
        }
        Command::Back(options) => {
            let run = BackRun::new(alloc, options.group, options.room, options.paired)?;
            Ok(run_back(run, input, lanes, output, notes))
        }
        Command::Show(options) => {
            let run = ShowRun::new(alloc, false, options.state, options.order, options.room)?;
            Ok(run_show(alloc, run, input, lanes, output, notes)?)
        }
        Command::ShowBytes(options) => {
            let run = ShowRun::new(alloc, true, options.state, Order::Big, options.room)?;
            Ok(run_show(alloc, run, input, lanes, output, notes)?)
        }
        Command::Endpoint { setup, options } => {
            let setup = setup_named(alloc, setup, shelf)?;
            let run = EndpointRun::new(alloc, setup, options.order, options.room)?;
            Ok(run_endpoint(run, input, lanes, output, notes))
        }
        Command::UsbSplit { folder } => {
            lanes.begin(folder).map_err(Status::of_opening)?;
            Ok(run_split(input, lanes, output, notes))
        }
        Command::UsbPack(options) => {
            let run = PackRun::new(alloc, options.cable, options.room)?;
            Ok(run_pack(run, input, lanes, output, notes))
        }
        Command::Sysex8 { folder, options } => {
            let run = Sysex8Run::new(alloc, options.streams, options.order, options.room)?;
            lanes.begin(folder).map_err(Status::of_opening)?;
            Ok(run_sysex8(run, input, lanes, output, notes))
        }
        Command::Rehearse { setup } => {
            let setup = setup_named(alloc, setup, shelf)?;
            let run = RehearseRun::new(alloc, setup)?;
            Ok(run_rehearse(run, input, lanes, output, notes))
        }
        Command::Clip => Ok(run_clip(input, lanes, output, notes)),
        Command::SelfTest(options) => {
            let counts = count(alloc, options.seed, options.packets)?;
            let line = self_test_line(options.seed, options.packets, &counts);
            match put_output(line.as_slice(), lanes, output, notes) {
                Ok(()) => Ok(RunEnd::Done),
                Err(end) => Ok(end),
            }
        }
    }
}
