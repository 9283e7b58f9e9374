// Laws that hold for all inputs that are shown.
ghost use Rattle.pass_loop.specs.Bytes.{byte_cutting};
ghost use Rattle.pass_loop.specs.FirstRefusal.{HasOneFirstRefusal};
ghost use Rattle.packet_input.specs.Packets.{packet_cutting};
ghost use Rattle.show_pass.specs.Laws.{DoneShowsTheRecording, DoneShowsTheStream};
ghost use Rattle.show_pass.specs.Options.{ByteLineOptions, PacketLineOptions};
ghost use Rattle.show_pass.specs.ShowBytes.{showing_bytes};
ghost use Rattle.show_pass.specs.ShowPackets.{showing};

use packet_input::packets_are_cut_once;
use pass_loop::laws::bytes_are_cut_once;

/// A recording that is shown has one first refusal. After packets that are accepted, it is refused at one
/// offset and for one reason, whichever way of cutting shows that refusal.
pub fn a_recording_that_is_shown_has_one_first_refusal()
    ensures { (options : PacketLineOptions) →
        HasOneFirstRefusal (packet_cutting options.order) (showing options) }
{
    packets_are_cut_once();
}

/// A byte stream that is shown has one first refusal, too.
pub fn a_stream_that_is_shown_has_one_first_refusal()
    ensures { (options : ByteLineOptions) → HasOneFirstRefusal byte_cutting (showing_bytes options) }
{
    bytes_are_cut_once();
}

/// When `show` is done, the output gained exactly the lines of the packets of the whole input, in order. If
/// the state is asked for, the lines for the meaning of the packets follow.
pub fn a_recording_that_is_shown_is_that_of_the_input()
    ensures { DoneShowsTheRecording }
{}

/// When `show --bytes` is done, the output gained exactly the lines of the bytes of the whole input, in
/// order, and then the line for the message that is open at the end. If the state is asked for, the lines for
/// the meaning of the bytes follow.
pub fn a_stream_that_is_shown_is_that_of_the_input()
    ensures { DoneShowsTheStream }
{}
