// Laws that hold for all streams of bytes. The bytes are listed newest first.
ghost use Rattle.std.specs.Prelude.{Bool};
ghost use Rattle.up_translator.specs.Laws.{RaisedBytesAreTheDefinition};

use midi_meaning::up_laws::{
    rooms_that_are_not_reached_do_not_matter_in_bytes, what_bytes_leave_is_in_range,
};
use midi1_bytes::laws::{completed_messages_are_in_range, parsed_bytes_are_the_definition};
use param_collector::laws::{control_changes_are_kept, other_messages_change_nothing_kept};

/// Proves that the translator agrees with the definitions, which look back over all bytes so far.
///
/// For one more byte, at its offset, it returns the packets, the lines and the reason for a refusal that
/// the definitions give. The state of a new translator is the one that the definitions give for no bytes,
/// and each byte maintains this as long as no exclusive has exceeded the limit. The same holds for each of
/// several bytes that are taken at once, as long as no byte has been refused. At the end, the line of the
/// open message is the one of the definitions.
pub fn raised_bytes_are_the_definition()
    ensures { (paired : Bool) → RaisedBytesAreTheDefinition paired }
{
    parsed_bytes_are_the_definition();
    completed_messages_are_in_range();
    rooms_that_are_not_reached_do_not_matter_in_bytes();
    what_bytes_leave_is_in_range();
    control_changes_are_kept();
    other_messages_change_nothing_kept();
}
