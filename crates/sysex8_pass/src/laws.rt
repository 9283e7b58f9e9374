// Laws that hold for all recordings.
ghost use Rattle.packet_input.specs.Packets.{packet_cutting};
ghost use Rattle.pass_loop.specs.FirstRefusal.{HasOneFirstRefusal};
ghost use Rattle.sysex8_pass.specs.Joining.{joining};
ghost use Rattle.sysex8_pass.specs.Laws.{DoneJoinsTheInput};
ghost use Rattle.sysex8_pass.specs.Options.{Sysex8Options};

use packet_input::packets_are_cut_once;

/// A recording whose 8-bit exclusives are joined has one first refusal. After packets that are accepted, it
/// is refused at one offset and for one reason, whichever way of cutting into packets shows that refusal.
pub fn a_join_has_one_first_refusal()
    ensures { (options : Sysex8Options) →
        HasOneFirstRefusal (packet_cutting options.order) (joining options) }
{
    packets_are_cut_once();
}

/// When a join is done, the pieces that were written are exactly the bytes of the exclusives that the packets
/// of the whole input complete, in order, each in its group's lane. If no Start found all slots in use, the
/// exclusives of each stream are those that its own packets alone complete. The lines are exactly those of
/// the packets, in order, with one for each type 5 packet that is left out, and then one for each exclusive
/// that is still open, in order of group, then stream.
pub fn a_join_that_is_done_is_that_of_the_input()
    ensures { DoneJoinsTheInput }
{}
