// Laws that hold for all clip files.
ghost use Rattle.pass_loop.specs.FirstRefusal.{HasOneFirstRefusal};
ghost use Rattle.pass_loop.specs.Pass.{CutsOnce};
ghost use Rattle.clip_pass.specs.Clipping.{clipping};
ghost use Rattle.clip_pass.specs.Cutting.{clip_cutting};
ghost use Rattle.clip_pass.specs.Laws.{DoneShowsTheClip};

use midi_clip::clips_are_the_definition;
use packet_input::packets_are_cut_once;

/// A clip file is cut into its packets in one way, and a front of the file begins with the same packets.
pub fn clip_files_are_cut_once()
    ensures { CutsOnce clip_cutting }
{
    packets_are_cut_once();
}

/// A clip file has one first refusal among its packets. After packets that are accepted, it is refused at one
/// offset and for one reason, whichever way of cutting shows that refusal.
pub fn a_clip_file_has_one_first_refusal()
    ensures { HasOneFirstRefusal clip_cutting clipping }
{
    clip_files_are_cut_once();
}

/// When the pass is done, the input is the header and then packets. Among these are one Start of Clip, which
/// starts the clip, and after it one End of Clip, which is the last packet. The output gained exactly the
/// lines of the clip, in which the ticks of each event are the sum of the Delta Clockstamps between the start
/// and the event.
pub fn a_clip_that_is_done_is_that_of_the_input()
    ensures { DoneShowsTheClip }
{
    clips_are_the_definition();
}
