// Shows packets or bytes as lines.
ghost use Rattle.std.specs.Prelude.{◌≡◌, ◌≢◌, ◌≤◌, IfOk, IsOk, OnErr, false};
ghost use Rattle.pass_loop.specs.Pass.{seen};
ghost use Rattle.show_pass.specs.Options.{asks_state, show_options};
ghost use Rattle.show_pass.specs.ShowReady.{IsDoneShowing, IsRefusedShowing, ShowEnds, end_of};

use crate::kept_state::new_state;
use crate::show_bytes::show_bytes;
use crate::show_packets::show_packets;
use midi1_bytes::Parser;
use outside::{Lanes, Sink, Source};
use packet_words::Order;
use pass_loop::RunEnd;
use small_types::NoMemory;
use std::alloc::Global;
use std::marker::Model;
use sysex_groups::Groups;
use voice_state::VoiceState;

// The parts that are needed to show packets or bytes.
#[derive(Drop)]
enum Lines {
    Packets { groups: Groups, order: Order },
    Bytes { parser: Parser },
}

/// A pass that shows an input and is ready to begin. In contracts its value is the options.
#[derive(Drop)]
pub struct ShowRun {
    lines: Lines,
    state: Option<VoiceState>,
}

impl Model for ShowRun {
    ghost use Rattle.std.specs.Prelude.{is_some};
    ghost use Rattle.show_pass.specs.Options.{ShowOptions};
    ghost use Rattle.show_pass.specs.ShowReady.{IsNew, options_in};

    ghost Value = { ShowOptions };

    ghost view = { λ r. options_in r.lines (is_some r.state) };

    ghost invariant = { λ r. IsNew r.lines r.state };
}

impl ShowRun {
    /// Creates a pass that shows the bytes of a MIDI 1.0 stream if `bytes` is set, and otherwise packets,
    /// whose words have this byte order. If `state` is set, the lines of the receiver's state come at the
    /// end. `room` is the most bytes of an exclusive between F0 and F7, 6 to 1,048,576 (own rule), for which
    /// the stream, or each group, reserves memory. Returns `NoMemory` if there isn't enough. Only a state
    /// allocates more later.
    pub fn new(
        alloc: Global,
        bytes: bool,
        state: bool,
        order: Order,
        room: u32,
    ) -> Result<ShowRun, NoMemory>
        requires least { 6 ≤ room }
        requires most { room ≤ 1048576 }
        ensures { IfOk result (λ engine. engine ≡ show_options bytes state order room) }
    {
        let state = new_state(alloc, state)?;
        let lines = if bytes {
            let parser = Parser::new(alloc, room)?;
            Lines::Bytes { parser }
        } else {
            let groups = Groups::new(alloc, room)?;
            Lines::Packets { groups, order }
        };
        Ok(ShowRun { lines, state })
    }
}

// Returns the end of a run, with `NoMemory` as an error.
fn told(end: RunEnd) -> Result<RunEnd, NoMemory>
    ensures same { end_of result ≡ end }
    ensures other { IfOk result (λ told. told ≢ RunEnd.NoMemory) }
    ensures memory { OnErr result (end ≡ RunEnd.NoMemory) }
{
    match end {
        RunEnd::NoMemory => Err(NoMemory),
        end => Ok(end),
    }
}

/// Writes the lines of the input to the output, to the end of the input or to the first packet or byte that
/// is refused.
///
/// - For a recording (M2-104-UM), each packet has a line. A packet that makes its group's exclusive too long
///   is refused and has none. Data increments and decrements are shown (own rules).
/// - For a byte stream (MIDI 1.0 Detailed Specification), each completed message has a line. So has each byte
///   that belongs to no message, each message or exclusive that is cut off and, at the end, the one that is
///   still open.
///
/// If the state is asked for, lines for the state in which all packets of each group, or all bytes, leave a
/// receiver come at the end (own rule).
///
/// Returns `Refused` for `InputTooLong` and `ExclusiveTooLong`, and for a recording also for `Truncated`,
/// `BadCount` and `HighBit`, with the number of bytes before the item that is refused. Returns `ReadFault` or
/// `OutputFault` only if the fault count of that object rose. Returns `NoMemory` only if the state is asked
/// for, because otherwise the call doesn't allocate. In that case the lines of the packets or bytes before
/// the one that ran out of memory have been written, whole. The lanes and the notes are unchanged.
pub fn run_show<S: Source, L: Lanes, W: Sink, N: Sink>(
    alloc: Global,
    engine: ShowRun,
    input: &mut S,
    lanes: &mut L,
    output: &mut W,
    notes: &mut N,
) -> Result<RunEnd, NoMemory>
    ensures memory { asks_state engine ≡ false → IsOk result }
    ensures told { IfOk result (λ end. end ≢ RunEnd.NoMemory) }
    ensures ends { ShowEnds engine
        (seen S.Source L.Lanes W.Sink N.Sink input.old lanes.old output.old notes.old)
        (seen S.Source L.Lanes W.Sink N.Sink input.new lanes.new output.new notes.new) (end_of result) }
    ensures complete { IsDoneShowing engine
        (seen S.Source L.Lanes W.Sink N.Sink input.old lanes.old output.old notes.old)
        (seen S.Source L.Lanes W.Sink N.Sink input.new lanes.new output.new notes.new) (end_of result) }
    ensures refused { IsRefusedShowing engine
        (seen S.Source L.Lanes W.Sink N.Sink input.old lanes.old output.old notes.old)
        (seen S.Source L.Lanes W.Sink N.Sink input.new lanes.new output.new notes.new) (end_of result) }
{
    let ShowRun { lines, state } = engine;
    match lines {
        Lines::Packets { groups, order } => {
            let end = show_packets(groups, state, alloc, order, input, lanes, output, notes);
            told(end)
        }
        Lines::Bytes { parser } => {
            let end = show_bytes(parser, state, alloc, input, lanes, output, notes);
            told(end)
        }
    }
}
