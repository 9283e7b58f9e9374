// Laws that hold for all runs.
ghost use Rattle.midi_commands.specs.WholeInput.{DoneLeavesTheWhole};

use clip_pass::laws::a_clip_that_is_done_is_that_of_the_input;
use endpoint_pass::laws::a_conversation_that_is_done_is_that_of_the_input;
use rehearsal_pass::laws::a_rehearsal_that_is_done_is_that_of_the_input;
use show_pass::laws::{
    a_recording_that_is_shown_is_that_of_the_input, a_stream_that_is_shown_is_that_of_the_input,
};
use sysex8_pass::laws::a_join_that_is_done_is_that_of_the_input;
use translation_passes::laws::{
    a_recording_that_is_carried_is_that_of_the_input,
    a_stream_that_comes_back_is_that_of_the_input, a_stream_that_is_raised_is_that_of_the_input,
};
use usb_passes::laws::{
    a_packing_that_is_done_is_that_of_the_input, a_split_that_is_done_is_that_of_the_input,
};

/// When a command is done and contracts see the bytes of its input, it has written exactly what its
/// definitions give for all these bytes: the translation of all packets or bytes and the lines of the
/// listing, the lines that are shown, the replies to a peer, the bytes that are split, packed or joined, a
/// rehearsal, or a clip. A self test has written its line. The clause `says` of `run` says that everything
/// else is unchanged.
pub fn a_command_that_is_done_leaves_the_whole()
    ensures { DoneLeavesTheWhole }
{
    a_recording_that_is_carried_is_that_of_the_input();
    a_stream_that_is_raised_is_that_of_the_input();
    a_stream_that_comes_back_is_that_of_the_input();
    a_recording_that_is_shown_is_that_of_the_input();
    a_stream_that_is_shown_is_that_of_the_input();
    a_conversation_that_is_done_is_that_of_the_input();
    a_split_that_is_done_is_that_of_the_input();
    a_packing_that_is_done_is_that_of_the_input();
    a_join_that_is_done_is_that_of_the_input();
    a_rehearsal_that_is_done_is_that_of_the_input();
    a_clip_that_is_done_is_that_of_the_input();
}
