// Laws that follow from the definitions alone.
ghost use Rattle.sysex8_streams.specs.Laws.{Cut8PayloadIsJoined, FedStreamsAreTheDefinition};
ghost use Rattle.sysex8_streams.specs.Worked.Rows.{WorkedRows};

use sysex_groups::{parts_of_one_group, payload_of_any_size_is_joined};

/// Proves that feeding any parts of all streams to idle slots agrees with the definition that looks back
/// over them: on the exclusive that each stream has begun, and on the result of one more part. If no result
/// was `Full`, the results and bytes of a stream depend only on its own parts.
pub fn fed_streams_are_the_definition()
    ensures { FedStreamsAreTheDefinition }
{
    parts_of_one_group();
}

/// Proves that the packets into which a payload is cut are joined to that payload again, if the limit is at
/// least the payload's length. The last packet ends the payload and no earlier one ends anything, whatever
/// came before them and whatever other streams send between them.
pub fn cut8_payload_is_joined()
    ensures { Cut8PayloadIsJoined }
{
    payload_of_any_size_is_joined();
}

/// Proves that the definitions compute the worked rows.
pub fn worked_rows()
    ensures { WorkedRows }
{}
