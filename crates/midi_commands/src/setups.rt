// Finds the setup of a name.
ghost use Rattle.std.specs.Prelude.{◌≡◌, None, OnOk, Some};
ghost use Rattle.outside.specs.Outside.{Fetches, HasOpenCause, kept_bytes};
ghost use Rattle.midi_commands.specs.Run.{FindsSetup, shelf_seen};

use crate::status::Status;
use function_blocks::{MOST_BYTES, Setup, SetupFault};
use outside::{OpenFault, Shelf};
use std::alloc::Global;

// The most bytes of a setup that are read: one more than a setup may have, so that a longer text is detected.
const SETUP_LIMIT: usize = MOST_BYTES + 1;

// Reads the text of a setup by its name. If the text is longer than 65,537 bytes, only these first bytes are
// read.
fn fetch_setup<K: Shelf>(name: &str, shelf: &mut K, text: &mut Vec<u8>) -> Result<(), OpenFault>
    requires asked { K.asked shelf.old ≡ None }
    ensures asked { K.asked shelf.new ≡ Some (kept_bytes name.now) }
    ensures texts { K.texts shelf.new ≡ K.texts shelf.old }
    ensures front { OnOk result (Fetches (K.texts shelf.old) name.now 65537 text.old.items text.new.items) }
    ensures cause { HasOpenCause (K.faults shelf.old) (K.faults shelf.new) result }
{
    shelf.fetch(name, SETUP_LIMIT, text)
}

/// Returns the setup of the text that the shelf has under a name, or the status if there is none.
pub fn setup_named<K: Shelf>(alloc: Global, name: &str, shelf: &mut K) -> Result<Setup, Status>
    requires asked { K.asked shelf.old ≡ None }
    ensures { FindsSetup name.now (shelf_seen K.Shelf shelf.old) (shelf_seen K.Shelf shelf.new) result }
{
    let mut text = Vec::new(alloc);
    match fetch_setup(name, shelf, &mut text) {
        Ok(()) => match Setup::read(alloc, text.as_slice()) {
            Ok(setup) => Ok(setup),
            Err(SetupFault::Syntax) => Err(Status::SetupSyntax),
            Err(SetupFault::Field(rule)) => Err(Status::SetupField(rule)),
            Err(SetupFault::NoMemory) => Err(Status::NoMemory),
        },
        Err(OpenFault::Failed) => Err(Status::ShelfFault),
        Err(OpenFault::NoMemory) => Err(Status::NoMemory),
    }
}
