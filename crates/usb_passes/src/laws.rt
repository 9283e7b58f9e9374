// Laws that hold for all inputs.
ghost use Rattle.pass_loop.specs.Bytes.{byte_cutting};
ghost use Rattle.pass_loop.specs.FirstRefusal.{HasOneFirstRefusal};
ghost use Rattle.pass_loop.specs.Pass.{CutsOnce};
ghost use Rattle.usb_passes.specs.Events.{event_cutting};
ghost use Rattle.usb_passes.specs.Laws.{DonePacksTheInput, DoneSplitsTheInput};
ghost use Rattle.usb_passes.specs.Options.{PackOptions};
ghost use Rattle.usb_passes.specs.Pack.{packing};
ghost use Rattle.usb_passes.specs.Split.{splitting};

use pass_loop::laws::{bytes_are_cut_once, items_are_cut_once};
use usb_midi1::laws::events_are_those_of_the_bytes;
use usb_midi1::{EachEvent, Event};

/// A stream is cut into its events in one way, and a front of the stream begins with the same events.
pub fn events_are_cut_once()
    ensures { CutsOnce event_cutting }
{
    items_are_cut_once::<EachEvent, (u64, Event)>();
}

/// A stream of events that is split has one first refusal, and so has a byte stream that is packed. After
/// items that are accepted, it is refused at one offset and for one reason, whichever way of cutting shows
/// that refusal.
pub fn events_and_bytes_have_one_first_refusal()
    ensures split { HasOneFirstRefusal event_cutting splitting }
    ensures packed { (options : PackOptions) → HasOneFirstRefusal byte_cutting (packing options) }
{
    events_are_cut_once();
    bytes_are_cut_once();
}

/// When a split is done, the pairs that were written are exactly the bytes that the events of the whole input
/// carry. The lines are exactly those of the events whose code is reserved, each with its offset.
pub fn a_split_that_is_done_is_that_of_the_input()
    ensures { DoneSplitsTheInput }
{
    events_are_those_of_the_bytes();
}

/// When a packing is done, the output gained exactly the events of the bytes of the whole input, one byte
/// after the other. The notes gained exactly the lines of these bytes and the line for the message that is
/// open at the end. All bytes that the events carry are on the cable, and they complete the messages that the
/// input completes, in the same order.
pub fn a_packing_that_is_done_is_that_of_the_input()
    ensures { DonePacksTheInput }
{}
