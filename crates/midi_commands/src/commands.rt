// The program, with the objects that it is handed.
ghost use Rattle.std.specs.Prelude.{◌≡◌, None, map, string_bytes};
ghost use Rattle.command_line.specs.Rules.{command_of};
ghost use Rattle.midi_commands.specs.WholeInput.{LeavesTheWhole};
ghost use Rattle.midi_commands.specs.Run.{HasLastLine, IsDoneOrNoMemory, Objects, RunSays, objects};

use crate::last_line::put_last;
use crate::laws::a_command_that_is_done_leaves_the_whole;
use crate::perform::perform;
use crate::status::Status;
use command_line::{WordsFault, command_line};
use outside::{Lanes, Shelf, Sink, Source};
use std::alloc::Global;

/// Does what the arguments of a command line, without the program's name, ask for (own rules). The lanes must
/// not have a folder yet, and the shelf must not have been asked for a name.
///
/// - `translate down --folder F` translates the recording of Universal MIDI Packets in `input` to a MIDI 1.0
///   stream for each group, in `lanes`, and lists in `notes` what has no counterpart. With `--compact` it
///   doesn't send again what the receiver of a stream already has since the stream's last System Reset: the
///   running status, a selected parameter, and a bank of which both halves are set.
/// - `translate up` translates the MIDI 1.0 stream in `input` to the words of packets of one group, in
///   `output`. `translate back` writes the stream to which these packets are translated down instead. Both
///   list in `notes` the messages and bytes that gave no packet.
/// - `show` writes a line for each packet of a recording to `output`, and `show --bytes` writes the lines of
///   a stream. With `--state`, the lines for the state in which the input leaves a receiver follow.
/// - `endpoint SETUP` reads the setup of that name from the shelf and answers the packets of a peer in
///   `input`. The words of the replies go to `output`, and a line for each message to `notes`.
/// - `usb split --folder F` splits the USB-MIDI 1.0 events in `input` into a MIDI 1.0 stream for each cable,
///   in `lanes`, and lists in `notes` the events whose code is reserved. `usb pack` packs the MIDI 1.0 stream
///   in `input` into the events of one cable, in `output`, and lists in `notes` the messages and bytes that
///   gave no event.
/// - `sysex8 --folder F` joins the 8-bit exclusives of the recording in `input`, of at most `--streams`
///   streams at once (1 to 64, by default 16). It writes their bytes to `lanes`, and to `notes` a line for
///   each exclusive and for each packet that gives none. Its `--room` is 13 to 1,048,576.
/// - `rehearse SETUP` reads the setup of that name as `endpoint` does, and plays the events in `input`
///   between a MIDI-CI initiator and the responder of the setup. It writes a line for each event to `output`.
///   At the end it writes what the initiator knows of each profile that it watches, and the profiles of the
///   responder.
/// - `clip` writes a line to `output` for each event of the clip file in `input`, with the event's time in
///   ticks, and lines for the start and the end of the clip.
/// - `selftest SEED` translates packets that a generator draws down, up and down again, and writes one line
///   of counts to `output`. `--packets` is their number (1 to 1,000,000, by default 10,000). The input isn't
///   read.
///
/// With `--paired`, each translation treats each controller 1 to 31, except 6, as one value of 14 bits
/// together with the controller whose index is greater by 32. `--group` and `--cable` are 0 to 15, by default
/// 0. `--room`, the most bytes of an exclusive between F0 and F7, is 6 to 1,048,576, by default 1,048,576.
/// With `--little`, each word has its least significant byte first.
///
/// Returns
/// - `Done` if the input was read to its end, or if the line of a self test was written;
/// - `Refused` at the first packet, byte or event that is refused, with the reason and the offset, which is
///   the number of input bytes before it; a clip file without its header is refused at 0, and one without a
///   clip that starts and ends is refused at the end of the input;
/// - `ReadFault`, `LaneFault`, `OutputFault`, `NoteFault` or `ShelfFault` only for an object that the command
///   names and whose count of faults rose in this call;
/// - `Usage` if the arguments give no command;
/// - `SetupSyntax` if the text of the setup isn't UTF-8 or isn't TOML, and `SetupField` with the number of
///   the first rule that the text breaks (`function_blocks::Rule`);
/// - `NoMemory` if the allocator fails, for any reason; except with `--state`, it is returned before anything
///   is read.
///
/// The clauses say what the lanes, the output and the notes contain after each of these. The page
/// `docs/errors.md` has a table of them. A last line in the notes reports every status except `Done` and
/// `NoteFault`.
pub fn run<S: Source, L: Lanes, W: Sink, N: Sink, K: Shelf>(
    alloc: Global,
    words: &[String],
    input: &mut S,
    lanes: &mut L,
    output: &mut W,
    notes: &mut N,
    shelf: &mut K,
) -> Status
    requires folder { L.folder lanes.old ≡ None }
    requires asked { K.asked shelf.old ≡ None }

    // The command of the arguments has been carried out, as far as the status says, and then the last line
    // was written. By status:
    // - `Done`: the input was read to its end, none of its items is refused, exactly their puts were written,
    //   and these mean what the items mean.
    // - `Refused`: this is the first refusal, and exactly the puts of the items before it were written.
    // - A read failed: exactly the puts of the items that lie wholly in the bytes that the source returned
    //   were written.
    // - A place failed: the puts before the one that failed were written, and of that one a front that isn't
    //   all of it.
    // - There was no memory: nothing was read or written. If a state is kept (`grows`), exactly the puts of
    //   the items before the one that needed memory were written.
    // - The setup couldn't be read, or the text isn't a setup: nothing was read or written.
    //
    // An object that the command doesn't name is unchanged. `plan_of` says how each command cuts its input,
    // and what it refuses, puts and means.
    ensures says { (before_last_line : Objects)
        × RunSays (command_of (map string_bytes words.now))
        (objects S.Source L.Lanes W.Sink N.Sink K.Shelf input.old lanes.old output.old notes.old shelf.old)
        before_last_line result
        × HasLastLine before_last_line
        (objects S.Source L.Lanes W.Sink N.Sink K.Shelf input.new lanes.new output.new notes.new shelf.new)
        result }

    // `Done` is returned only if the arguments give a command. If contracts can see the bytes of the input,
    // exactly the puts that the definitions give for all of these bytes were then written: `LeavesAll` has a
    // line for each command. The clause `says` says that everything else is unchanged.
    ensures whole { result ≡ Status.Done → LeavesTheWhole (command_of (map string_bytes words.now))
        (objects S.Source L.Lanes W.Sink N.Sink K.Shelf input.old lanes.old output.old notes.old shelf.old)
        (objects S.Source L.Lanes W.Sink N.Sink K.Shelf input.new lanes.new output.new notes.new shelf.new) }

    // If nothing is refused and nothing fails, the status is `Done`, unless there was no memory.
    ensures complete { IsDoneOrNoMemory (command_of (map string_bytes words.now))
        (objects S.Source L.Lanes W.Sink N.Sink K.Shelf input.old lanes.old output.old notes.old shelf.old)
        (objects S.Source L.Lanes W.Sink N.Sink K.Shelf input.new lanes.new output.new notes.new shelf.new)
        result }
{
    let status = answer(alloc, words, input, lanes, output, notes, shelf);
    put_last(status, lanes, output, notes);
    a_command_that_is_done_leaves_the_whole();
    status
}

// Does what the arguments ask for, without the last line.
fn answer<S: Source, L: Lanes, W: Sink, N: Sink, K: Shelf>(
    alloc: Global,
    words: &[String],
    input: &mut S,
    lanes: &mut L,
    output: &mut W,
    notes: &mut N,
    shelf: &mut K,
) -> Status
    requires folder { L.folder lanes.old ≡ None }
    requires asked { K.asked shelf.old ≡ None }
    ensures says { RunSays (command_of (map string_bytes words.now))
        (objects S.Source L.Lanes W.Sink N.Sink K.Shelf input.old lanes.old output.old notes.old shelf.old)
        (objects S.Source L.Lanes W.Sink N.Sink K.Shelf input.new lanes.new output.new notes.new shelf.new)
        result }
    ensures complete { IsDoneOrNoMemory (command_of (map string_bytes words.now))
        (objects S.Source L.Lanes W.Sink N.Sink K.Shelf input.old lanes.old output.old notes.old shelf.old)
        (objects S.Source L.Lanes W.Sink N.Sink K.Shelf input.new lanes.new output.new notes.new shelf.new)
        result }
{
    match command_line(alloc, words) {
        Ok(command) => {
            let ended = perform(alloc, &command, input, lanes, output, notes, shelf);
            Status::of_end(ended)
        }
        Err(WordsFault::Usage) => Status::Usage,
        Err(WordsFault::NoMemory) => Status::NoMemory,
    }
}
