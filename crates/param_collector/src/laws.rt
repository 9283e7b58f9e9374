// Laws that hold for all collectors.
ghost use Rattle.std.specs.Prelude.{◌≡◌, ℕ, false};
ghost use Rattle.midi1_bytes.specs.Messages.{Message};
ghost use Rattle.midi_meaning.specs.Controllers.{Role, pairing, role_of};
ghost use Rattle.midi_meaning.specs.Messages.{step1};
ghost use Rattle.midi_meaning.specs.Registers.{selected};
ghost use Rattle.midi_meaning.specs.State.{GroupState};
ghost use Rattle.param_collector.specs.Control.{answer_of, holding_after, AreInRange};
ghost use Rattle.param_collector.specs.Holding.{Holding, IsHolding, registers_at};
ghost use Rattle.param_collector.specs.Keeps.{IsMeant, Keeps, is_control_change};

/// Proves that a collector's result for a control change is the one in the meaning of MIDI 1.0. If its
/// registers and MSBs match a state before the control change, they match the next state after it. Whether
/// controllers are paired never changes.
pub fn control_changes_are_kept()
    ensures meant { (holding : Holding) (channel index value : ℕ) → IsHolding holding →
        AreInRange channel (selected (registers_at holding channel)) value →
        IsMeant holding
        (holding_after (pairing holding.paired (role_of index)) holding channel index value)
        channel index value
        (answer_of (pairing holding.paired (role_of index)) holding channel index value) }
    ensures sizes { (holding : Holding) (role : Role) (channel index value : ℕ) → IsHolding holding →
        IsHolding (holding_after role holding channel index value) }
    ensures paired { (holding : Holding) (role : Role) (channel index value : ℕ) →
        (holding_after role holding channel index value).paired ≡ holding.paired }
{}

/// Proves that a message other than a control change leaves the registers and values of a collector
/// unchanged.
pub fn other_messages_change_nothing_kept()
    ensures { (holding : Holding) (group : GroupState) (message : Message) →
        is_control_change message ≡ false → Keeps holding group →
        Keeps holding (step1 holding.paired group message) }
{}
