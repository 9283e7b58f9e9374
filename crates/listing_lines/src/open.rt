// The lines for exclusives that are still open.
ghost use Rattle.std.specs.Prelude.{◌≡◌};
ghost use Rattle.std.specs.Option.{option_map, option_to_list};
ghost use Rattle.sysex_groups.specs.Table.{Table, begun_in};
ghost use Rattle.pass_loop.specs.Places.{Puts};
ghost use Rattle.listing_terms.specs.ExclusiveLines.{groups};
ghost use Rattle.listing_lines.specs.Lines.{line_puts};
ghost use Rattle.listing_lines.specs.Open.{open_line, open_puts};

use crate::lines::put_line;
use listing_terms::{Kind, Listed};
use pass_loop::{Outputs, RunEnd};
use small_types::U4;

/// Says which groups have an open exclusive.
pub trait OpenExclusives {
    /// The exclusive that each group has open.
    ghost table: { Self → Table };

    /// Returns the offset of the packet with which the group's open exclusive began, or `None` exactly if no
    /// exclusive is open.
    fn begun_at(&self, group: U4) -> Option<u64>
        ensures { result ≡ option_map (λ begun. begun.start) (begun_in (table self.now) group) };
}

// Lists the exclusive of a group, if it is still open.
fn list_group<H: OpenExclusives, O: Outputs>(
    held: &H,
    group: U4,
    outputs: &mut O,
) -> Result<(), RunEnd>
    ensures { Puts (line_puts (option_to_list (open_line (H.table held.now) group)))
        (O.places outputs.old) (O.places outputs.new) result }
{
    match held.begun_at(group) {
        Some(offset) => {
            let listed = Listed {
                offset,
                group: Some(group),
                kind: Kind::OpenExclusive,
            };
            put_line(&listed, outputs)
        }
        None => Ok(()),
    }
}

/// Writes the lines for the exclusives that are still open to the notes, in order of group (own rule). The
/// error is always `NoteFault`, and is returned only if the notes' count of faults rose.
pub fn list_open<H: OpenExclusives, O: Outputs>(held: &H, outputs: &mut O) -> Result<(), RunEnd>
    ensures { Puts (open_puts (H.table held.now) groups)
        (O.places outputs.old) (O.places outputs.new) result }
{
    for number in 0..16u8 {
        list_group(held, U4::low_bits(number as u32), outputs)?;
    }
    Ok(())
}
