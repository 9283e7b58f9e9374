// Laws over the definitions alone.
ghost use Rattle.ci_initiator.specs.Laws.{
  HeldIsTold,
  KnownIsTheHistory,
  OwnMuidIsTheLeast,
  StageIsTheCourse,
  ViewsTellTheirBytes,
  WatchesAreOfTheSetup,
};

use ci_responder::{block_of_a_group_is_the_one, held_is_the_history};

/// After any messages, what an initiator knows is what the definition finds by searching their history from
/// the newest message back. The peer is the source of the first message that named a peer after the last one
/// that ended a peer. For each watch, the initiator knows what the last message about it said, unless the
/// peer was gone after that message. Each message is noted with the peer that was known before it.
pub fn known_is_the_history()
    ensures { KnownIsTheHistory }
{}

/// The definitions see a message as its bytes and group say, by the positions of M2-101-UM. Any view that the
/// bytes spell gives the same.
pub fn views_tell_their_bytes()
    ensures { ViewsTellTheirBytes }
{}

/// The state of a rehearsal is the one that the definition finds for its course: both sides by the history of
/// the messages that each has heard, and the messages of both. One more event leads to the state of the
/// longer course.
pub fn stage_is_the_course()
    ensures { StageIsTheCourse }
{
    held_is_the_history();
}

/// Messages of a rehearsal may be lost, repeated or delivered out of order. If the initiator nevertheless
/// knows a profile to be enabled, then a reply of the responder said so, in a report or an inventory, and the
/// responder's profile was enabled when that reply was made. The same holds for disabled. The law doesn't say
/// that the profile is still in that state.
pub fn what_is_held_was_told()
    ensures { HeldIsTold }
{}

/// The initiator of a rehearsal has the least MUID from 1 on that no block names (own rule).
pub fn own_muid_is_the_least()
    ensures { OwnMuidIsTheLeast }
{}

/// Each watch of a rehearsal is for a profile of the setup. The law `what_is_held_was_told` is about one
/// profile of the responder for each watch, in the block of the watch's group. The setup names the key of
/// that profile.
pub fn watches_are_of_the_setup()
    ensures { WatchesAreOfTheSetup }
{
    block_of_a_group_is_the_one();
}
