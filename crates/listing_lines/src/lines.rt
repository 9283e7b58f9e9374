// Lines of the listing in the notes.
ghost use Rattle.std.specs.Prelude.{◌∷◌, []};
ghost use Rattle.std.specs.Option.{option_to_list};
ghost use Rattle.pass_loop.specs.Places.{Puts};
ghost use Rattle.listing_terms.specs.ByteLines.{lines_in};
ghost use Rattle.listing_lines.specs.Lines.{line_puts};

use listing_terms::{ByteLines, Listed};
use pass_loop::{Outputs, RunEnd};
use text_lines::{Line, fill_listing_line};

/// Writes a line of the listing to the notes. The error is always `NoteFault`, and is returned only if the
/// notes' count of faults rose.
#[inline(never)]
pub fn put_line<O: Outputs>(listed: &Listed, outputs: &mut O) -> Result<(), RunEnd>
    ensures { Puts (line_puts (listed.now ∷ [])) (O.places outputs.old) (O.places outputs.new) result }
{
    let mut line = Line::new();
    fill_listing_line(&mut line, listed);
    outputs.put_notes(line.as_slice())
}

/// Writes a line of the listing to the notes, if there is one. The error is always `NoteFault`, and is
/// returned only if the notes' count of faults rose. Most packets have no line, so only that test is inlined.
#[inline(always)]
pub fn put_listed<O: Outputs>(listed: Option<Listed>, outputs: &mut O) -> Result<(), RunEnd>
    ensures { Puts (line_puts (option_to_list listed)) (O.places outputs.old) (O.places outputs.new) result }
{
    match listed {
        Some(listed) => put_line(&listed, outputs),
        None => Ok(()),
    }
}

/// Writes the lines for a byte to the notes, in order. The error is always `NoteFault`, and is returned only
/// if the notes' count of faults rose. Most bytes have no line, so that is tested first.
#[inline(always)]
pub fn put_lines<O: Outputs>(lines: &ByteLines, outputs: &mut O) -> Result<(), RunEnd>
    ensures { Puts (line_puts (lines_in lines.now)) (O.places outputs.old) (O.places outputs.new) result }
{
    if lines.is_empty() {
        return Ok(());
    }
    // The second line is tested only after the first is written, because nearly all bytes that have a line
    // have only one.
    put_listed(lines.first(), outputs)?;
    put_listed(lines.second(), outputs)
}
