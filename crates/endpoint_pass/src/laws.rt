// Laws that hold for all recordings.
ghost use Rattle.pass_loop.specs.FirstRefusal.{HasOneFirstRefusal};
ghost use Rattle.packet_input.specs.Packets.{packet_cutting};
ghost use Rattle.endpoint_pass.specs.Answering.{answering};
ghost use Rattle.endpoint_pass.specs.Laws.{DoneAnswersTheInput};
ghost use Rattle.endpoint_pass.specs.Options.{EndpointOptions};

use packet_input::packets_are_cut_once;

/// A recording of a peer has one first refusal. After packets that are accepted, it is refused at one offset
/// and for one reason, whichever way of cutting shows that refusal.
pub fn a_recording_of_a_peer_has_one_first_refusal()
    ensures { (options : EndpointOptions) →
        HasOneFirstRefusal (packet_cutting options.order) (answering options) }
{
    packets_are_cut_once();
}

/// When `endpoint` is done, the output gained exactly the words of the replies to the packets of the whole
/// input, in order. The notes gained exactly the lines of these packets, in order, and then the lines for the
/// exclusives that are open, for the protocol in force, and for the blocks and profiles.
pub fn a_conversation_that_is_done_is_that_of_the_input()
    ensures { DoneAnswersTheInput }
{}
