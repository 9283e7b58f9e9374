// Laws over the definitions alone.
ghost use Rattle.ci_responder.specs.RowOrder.{RowsInOrder, WorkedRows};
ghost use Rattle.ci_responder.specs.Laws.{
  BlockOfIsTheOne,
  HeldIsTheHistory,
  StaysOfItsSetup,
  SwitchesStandAlone,
  ViewsTellTheirBytes,
};

/// After any messages on any groups, the state of a responder is the one that the definition finds by
/// searching the history of these messages, from the newest back. This holds for the MUID in force of each
/// block, for how one more message is heard, for the reply to that message, and for whether each profile is
/// enabled. If no two profiles have the same key, hearing one more message leads to the state of the longer
/// history.
pub fn held_is_the_history()
    ensures { HeldIsTheHistory }
{}

/// If a block enables or disables a profile, all profiles with other keys stay as they were.
pub fn switches_stand_alone()
    ensures { SwitchesStandAlone }
{}

/// The definition of the history says which block hears a message: the block of the message's group. That
/// block is active, has MIDI-CI and contains the group. If no two active blocks with MIDI-CI share a group,
/// as in every setup, it is the only such block, and the definition finds it whenever there is one.
pub fn block_of_a_group_is_the_one()
    ensures { BlockOfIsTheOne }
{}

/// The definitions see a message as its bytes and group say, by the positions of M2-101-UM. Any view that the
/// bytes spell gives the same.
pub fn views_tell_their_bytes()
    ensures { ViewsTellTheirBytes }
{}

/// After hearing a message, a responder still belongs to its setup and keeps its limit, so that `reset` can
/// be called with that setup.
pub fn responders_stay_of_their_setup()
    ensures { StaysOfItsSetup }
{}

/// The rows for messages are tried in their order. A message from the block's own MUID is a collision,
/// whatever its version, and any other message of version 00 is heard as an old version. Each of some worked
/// messages is heard as the first row that applies to it.
pub fn rows_stand_in_their_order()
    ensures order { RowsInOrder }
    ensures worked { WorkedRows }
{}
