// Laws that hold for all histories of packets.
ghost use Rattle.ump_endpoint.specs.Laws.{AnswersAreThoseOfTheHistory};

use ci_responder::held_is_the_history;
use function_blocks::protocol_follows_the_requests;
use sysex_groups::laws::fed_parts_are_the_definition;

/// After any packets, an endpoint handles one more packet as the definitions do, which look back over all
/// packets: whether it is refused and why, the replies to it, what was done with the message that it ends,
/// and what it lost. The MUIDs and profiles in force are those of the definitions, too. With that packet the
/// state becomes the one after all of them.
pub fn answers_are_those_of_the_history()
    ensures { AnswersAreThoseOfTheHistory }
{
    fed_parts_are_the_definition();
    held_is_the_history();
    protocol_follows_the_requests();
}
