// The lines of a rehearsal.
ghost use Rattle.std.specs.Prelude.{◌≡◌, ◌<◌, ◌≤◌, length};
ghost use Rattle.rehearsal_pass.specs.Rehearse.{
  held_text,
  held_word,
  noted_word,
  told_text,
  told_word,
};

use ci_initiator::{Noted, Told};
use ci_text::name_of_heard;
use endpoint_lines::word_of;
use text_lines::{Line, put_decimal, put_text};

// Returns the word for a message that the initiator heard.
fn word_of_noted(noted: Noted) -> &'static str
    ensures word { result.now ≡ noted_word noted }
    ensures size { length result.now ≤ 13 }
{
    match noted {
        Noted::Other => "other",
        Noted::Peer => "peer",
        Noted::Gone => "gone",
        Noted::Told(_) => "told",
        Noted::Inventory => "inventory",
    }
}

// Returns the word for the result of an event.
fn word_of_told(told: Told) -> &'static str
    ensures word { result.now ≡ told_word told }
    ensures size { length result.now ≤ 13 }
{
    match told {
        Told::Asked => "asked",
        Told::Heard(heard) => word_of(name_of_heard(heard)),
        Told::Noted(noted) => word_of_noted(noted),
    }
}

/// Returns the line for an event: its offset, and the word for its result (own rule).
pub(crate) fn told_line(offset: u64, told: Told) -> Line
    ensures text { result ≡ told_text offset told }
    ensures some { 0 < length result }
{
    let mut line = Line::new();
    put_decimal(&mut line, offset);
    put_text(&mut line, " ");
    put_text(&mut line, word_of_told(told));
    put_text(&mut line, "\n");
    line
}

// Returns the word for the state of a watch.
fn word_of_held(held: Option<bool>) -> &'static str
    ensures word { result.now ≡ held_word held }
    ensures size { length result.now ≤ 7 }
{
    match held {
        Some(true) => "on",
        Some(false) => "off",
        None => "unknown",
    }
}

/// Returns the line for the state of a watch, by the watch's number (own rule).
pub(crate) fn held_line(number: usize, held: Option<bool>) -> Line
    ensures text { result ≡ held_text number held }
    ensures some { 0 < length result }
{
    let mut line = Line::new();
    put_text(&mut line, "held ");
    put_decimal(&mut line, number as u64);
    put_text(&mut line, " ");
    put_text(&mut line, word_of_held(held));
    put_text(&mut line, "\n");
    line
}
