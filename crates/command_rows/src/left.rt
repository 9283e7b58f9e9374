// A run over objects in memory, and what it leaves.
ghost use Rattle.std.specs.Prelude.{◌<◌};

use crate::given::{Given, given_of};
use crate::texts::{push_lines, words_of};
use anyhow::{Result, bail};
use midi_commands::{Status, run};
use midi_edge::{MemLanes, MemShelf, MemSink, MemSource};
use std::alloc::Global;

// Room for what a run writes: this many bytes, and this many more for each byte of the input. No command
// writes as much, so a row is never cut short by it.
const LEAST_ROOM: usize = 65_536;

const ROOM_FOR_A_BYTE: usize = 256;

// The most pieces of the streams: one for each byte of the input, and this many more.
const LEAST_PIECES: usize = 64;

/// What a run leaves: its status, and what it wrote.
#[derive(Drop)]
pub struct Left {
    pub status: Status,
    pub lanes: MemLanes,
    pub output: MemSink,
    pub notes: MemSink,
}

// How the output of a command is told: as text, or in hexadecimal digits, by words of four bytes or by bytes.
#[derive(Clone, Copy)]
enum Form {
    Text,
    Words,
    Bytes,
}

/// Runs the command of these lines, and returns what it leaves, as a row says it after `leaves`.
pub fn what_is_left(alloc: Global, lines: &str) -> Result<String> {
    let given = given_of(alloc, lines)?;
    let form = form_of(given.words.unwrap_or(""));
    let left = left_by(alloc, given)?;
    let mut told = String::new(alloc);
    tell(&mut told, form, &left)?;
    Ok(told)
}

/// Runs a command over objects in memory.
pub fn left_by(alloc: Global, given: Given<'_>) -> Result<Left> {
    let Some(words) = given.words else {
        bail!("a row has no words");
    };
    let words = words_of(alloc, words)?;
    let mut texts = Vec::new(alloc);
    texts.push((String::from_str(alloc, "a.toml")?, given.setup))?;
    let pieces = given.input.len().saturating_add(LEAST_PIECES);
    let room = given.input.len().saturating_mul(ROOM_FOR_A_BYTE);
    let room = room.saturating_add(LEAST_ROOM);
    let mut input = MemSource::new(given.input, given.cuts, given.reads);
    let mut lanes = MemLanes::new(alloc, room, pieces, given.lane_puts)?;
    let mut output = MemSink::new(alloc, room, given.output_puts)?;
    let mut notes = MemSink::new(alloc, room, given.note_puts)?;
    let mut shelf = MemShelf::new(texts, given.fetches);
    let status = run(
        alloc,
        &words,
        &mut input,
        &mut lanes,
        &mut output,
        &mut notes,
        &mut shelf,
    );
    Ok(Left {
        status,
        lanes,
        output,
        notes,
    })
}

fn form_of(words: &str) -> Form {
    let mut words = words.split_whitespace();
    match (words.next(), words.next()) {
        (Some("translate"), Some("back")) => Form::Bytes,
        (Some("translate" | "usb" | "endpoint"), _) => Form::Words,
        _ => Form::Text,
    }
}

// Adds what is left. The text is another function's, so that each way out of this one has none to drop.
fn tell(told: &mut String, form: Form, left: &Left) -> Result<()> {
    write!(told, "{:?}", left.status)?;
    push_pieces(told, &left.lanes)?;
    let output = left.output.held();
    match form {
        Form::Text => push_lines(told, "output", output)?,
        Form::Words => push_bytes(told, 4, output)?,
        Form::Bytes => push_bytes(told, 1, output)?,
    }
    push_lines(told, "note", left.notes.held())
}

// Adds a line for each piece of the streams.
fn push_pieces(told: &mut String, lanes: &MemLanes) -> Result<()> {
    for k in 0..usize::MAX {
        let Some((lane, piece)) = lanes.entry(k) else {
            return Ok(());
        };
        write!(told, "\nlane {}", lane.get())?;
        push_digits(told, 1, piece)?;
    }
    Ok(())
}

// Adds a line for each sixteen bytes of the output, in groups of so many.
fn push_bytes(told: &mut String, group: usize, bytes: &[u8]) -> Result<()>
    requires { 0 < group }
{
    for line in bytes.chunks(16) {
        told.push_str("\noutput")?;
        push_digits(told, group, line)?;
    }
    Ok(())
}

// Adds the digits of bytes, in groups of so many.
fn push_digits(told: &mut String, group: usize, bytes: &[u8]) -> Result<()>
    requires { 0 < group }
{
    for word in bytes.chunks(group) {
        told.push(' ')?;
        for byte in word {
            write!(told, "{byte:02X}")?;
        }
    }
    Ok(())
}
