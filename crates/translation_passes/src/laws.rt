// Laws that hold for all inputs.
ghost use Rattle.pass_loop.specs.Bytes.{byte_cutting};
ghost use Rattle.pass_loop.specs.FirstRefusal.{HasOneFirstRefusal};
ghost use Rattle.translation_passes.specs.Back.{returning};
ghost use Rattle.translation_passes.specs.Down.{carrying};
ghost use Rattle.translation_passes.specs.Laws.{
  DoneCarriesTheInput,
  DoneRaisesTheInput,
  DoneReturnsTheInput,
};
ghost use Rattle.translation_passes.specs.Options.{BackOptions, DownOptions, UpOptions};
ghost use Rattle.packet_input.specs.Packets.{packet_cutting};
ghost use Rattle.translation_passes.specs.Up.{raising};

use packet_input::packets_are_cut_once;
use pass_loop::laws::bytes_are_cut_once;

/// A recording has one first refusal. After packets that are accepted, it is refused at one offset and for
/// one reason, whichever way of cutting shows that refusal.
pub fn a_recording_has_one_first_refusal()
    ensures { (options : DownOptions) →
        HasOneFirstRefusal (packet_cutting options.order) (carrying options) }
{
    packets_are_cut_once();
}

/// A byte stream that is translated up, or up and down again, has one first refusal, too.
pub fn a_stream_has_one_first_refusal()
    ensures raised { (options : UpOptions) → HasOneFirstRefusal byte_cutting (raising options) }
    ensures returned { (options : BackOptions) → HasOneFirstRefusal byte_cutting (returning options) }
{
    bytes_are_cut_once();
}

/// When `translate down` is done, the pairs that were written are exactly the pairs of the packets of the
/// whole input in the style. They are a translation of the packets: after each packet, the bytes so far of
/// each lane mean what the packets so far of its group mean. The notes gained exactly the lines of the
/// listing of the whole recording.
pub fn a_recording_that_is_carried_is_that_of_the_input()
    ensures { DoneCarriesTheInput }
{}

/// When `translate up` is done, the output gained exactly the words of the packets to which the bytes of the
/// whole input are translated up. After each byte, the packets so far mean what the bytes so far mean. The
/// notes gained exactly the lines of the listing of the whole stream.
pub fn a_stream_that_is_raised_is_that_of_the_input()
    ensures { DoneRaisesTheInput }
{}

/// When `translate back` is done, the output gained exactly the plain pieces of the packets to which the
/// bytes of the whole input are translated up. After each byte, the pieces so far mean what the bytes so far
/// mean. The notes gained exactly the lines of the listing of the whole stream.
pub fn a_stream_that_comes_back_is_that_of_the_input()
    ensures { DoneReturnsTheInput }
{}
