// Laws that hold for all streams. The definitions list the bytes of a stream newest first.
ghost use Rattle.item_reader.specs.CutLaws.{CutsStreams};
ghost use Rattle.usb_midi1.specs.Events.{four_bytes};
ghost use Rattle.usb_midi1.specs.Laws.{
  EventsAreThoseOfTheBytes,
  ExclusiveEventsComeInOrder,
  PackedBytesAreTheDefinition,
  SplitEventsMeanTheBytes,
};

use crate::event::EachEvent;
use item_reader::streams_are_cut_once;
use midi_meaning::up_laws::rooms_that_are_not_reached_do_not_matter_in_bytes;
use midi1_bytes::laws::{
    completed_messages_are_in_range, parsed_bytes_are_the_definition,
    written_messages_are_read_again,
};

/// A packer that takes the bytes of a stream, each with its offset, returns for each byte what the definition
/// says, which looks back over all the bytes before it. Its state after some bytes and one more is its state
/// after all of them. At the end it reports what is open there.
pub fn packed_bytes_are_the_definition()
    ensures { PackedBytesAreTheDefinition }
{
    parsed_bytes_are_the_definition();
}

/// From each event of an exclusive on, the events are the one that `exclusive_event` cuts there, followed by
/// the events of the bytes after it. After the last event there are none.
pub fn exclusive_events_come_in_order()
    ensures { ExclusiveEventsComeInOrder }
{}

/// The events that a reader returns for a stream are its bytes, four by four, unless the stream has more
/// bytes than the limit.
pub fn events_are_those_of_the_bytes()
    ensures { EventsAreThoseOfTheBytes }
{}

/// All bytes that the events of a stream carry are on the cable of these events. If no exclusive of the
/// stream is longer than the limit, these bytes complete the same messages as the stream, in the same order.
pub fn split_events_mean_the_bytes()
    ensures { SplitEventsMeanTheBytes }
{
    completed_messages_are_in_range();
    rooms_that_are_not_reached_do_not_matter_in_bytes();
    written_messages_are_read_again();
}

/// Every stream of events is cut in exactly one way, and a front of a stream is cut as that stream begins.
pub fn events_are_cut_once()
    ensures { CutsStreams four_bytes }
{
    streams_are_cut_once::<EachEvent>();
}
