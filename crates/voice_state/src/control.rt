// The effect of a control change on a channel.
ghost use Rattle.std.specs.Prelude.{◌≡◌, false, OnOk, OnErr};
ghost use Rattle.midi_meaning.specs.Controllers.{pairing, role_of};
ghost use Rattle.midi_meaning.specs.Messages as messages;
ghost use Rattle.midi_meaning.specs.Messages.{raised};
ghost use Rattle.midi_meaning.specs.Packets.{control2};
ghost use Rattle.midi_meaning.specs.Registers.{selected};
ghost use Rattle.midi_meaning.specs.Roles.{role_in};
ghost use Rattle.midi_meaning.specs.State as definition;
ghost use Rattle.voice_state.specs.Kept.{KeepsChannel, with_controllers_reset};
ghost use Rattle.voice_state.specs.Rooms.{AreActsFull, IsControl2Full, IsControlFull, IsEntryFull, IsFullWhere};
ghost use Rattle.voice_state.specs.ForProofs.Widths.{scale_of};

use crate::channel::Channel;
use crate::not_kept::NotKept;
use crate::note_act::NoteAct;
use crate::width::Width;
use midi_meaning::ControlRole;
use voice_messages::U7;

impl Channel {
    /// Applies a control change of the MIDI 1.0 protocol (MIDI 1.0 Detailed Specification, control change;
    /// RP-015). On error the state is unchanged.
    pub(crate) fn control(&mut self, width: Width, index: U7, value: U7) -> Result<(), NotKept>
        ensures step { OnOk result
            ((state : definition.Channel) → KeepsChannel (scale_of width) self.old state
            → KeepsChannel (scale_of width) self.new
            (messages.control (scale_of width) (pairing false (role_of index)) index value state)) }
        ensures unchanged { OnErr result (self.new ≡ self.old) }
        ensures full { IsFullWhere result (IsControlFull (pairing false (role_of index)) self.old) }
        ensures room { self.new.room ≡ self.old.room }
    {
        self.control_as(width, ControlRole::of(index), index, value)
    }

    fn control_as(
        &mut self,
        width: Width,
        role: ControlRole,
        index: U7,
        value: U7,
    ) -> Result<(), NotKept>
        ensures step { OnOk result
            ((state : definition.Channel) → KeepsChannel (scale_of width) self.old state
            → KeepsChannel (scale_of width) self.new
            (messages.control (scale_of width) (pairing false (role_in role)) index value state)) }
        ensures unchanged { OnErr result (self.new ≡ self.old) }
        ensures full { IsFullWhere result (IsControlFull (pairing false (role_in role)) self.old) }
        ensures room { self.new.room ≡ self.old.room }
    {
        match role {
            ControlRole::BankMsb
            | ControlRole::BankLsb
            | ControlRole::NumberMsb(_)
            | ControlRole::NumberLsb(_) => {
                self.registers.take(role, value);
                Ok(())
            }
            ControlRole::DataMsb => self.enter_msb(width, value),
            ControlRole::DataLsb => self.enter_lsb(width, value),
            ControlRole::DataIncrement | ControlRole::DataDecrement => Ok(()),
            ControlRole::ResetAll => self.reset_all(width, index, width.value(value)),
            ControlRole::ChannelMode => {
                let value = width.value(value);
                self.act(NoteAct::Mode { index, value })
            }
            ControlRole::Coarse | ControlRole::Fine | ControlRole::Plain => {
                self.controllers.set(index, width.controller(value));
                Ok(())
            }
        }
    }

    /// Applies a control change of the MIDI 2.0 protocol (M2-104-UM, MIDI 2.0 control change). The indexes
    /// of banks, data entry and parameter numbers have no effect. If the change can't be stored, nothing
    /// changes.
    pub(crate) fn control2(&mut self, index: U7, value: u32) -> Result<(), NotKept>
        ensures step { OnOk result ((state : definition.Channel) → KeepsChannel raised self.old state
            → KeepsChannel raised self.new (control2 (pairing false (role_of index)) index value state)) }
        ensures unchanged { OnErr result (self.new ≡ self.old) }
        ensures full { IsFullWhere result (IsControl2Full (pairing false (role_of index)) self.old) }
        ensures room { self.new.room ≡ self.old.room }
    {
        self.control2_as(ControlRole::of(index), index, value)
    }

    fn control2_as(&mut self, role: ControlRole, index: U7, value: u32) -> Result<(), NotKept>
        ensures step { OnOk result ((state : definition.Channel) → KeepsChannel raised self.old state
            → KeepsChannel raised self.new (control2 (pairing false (role_in role)) index value state)) }
        ensures unchanged { OnErr result (self.new ≡ self.old) }
        ensures full { IsFullWhere result (IsControl2Full (pairing false (role_in role)) self.old) }
        ensures room { self.new.room ≡ self.old.room }
    {
        match role {
            ControlRole::ResetAll => self.reset_all(Width::Midi2, index, value),
            ControlRole::ChannelMode => self.act(NoteAct::Mode { index, value }),
            ControlRole::Coarse | ControlRole::Fine | ControlRole::Plain => {
                self.controllers.set(index, value);
                Ok(())
            }
            _ => Ok(()),
        }
    }

    // Applies a data entry of the MSB to the selected parameter.
    fn enter_msb(&mut self, width: Width, value: U7) -> Result<(), NotKept>
        ensures step { OnOk result
            ((state : definition.Channel) → KeepsChannel (scale_of width) self.old state
            → KeepsChannel (scale_of width) self.new
            (messages.enter_msb (scale_of width) (selected state.registers) value state)) }
        ensures unchanged { OnErr result (self.new ≡ self.old) }
        ensures full { IsFullWhere result (IsEntryFull self.old (selected self.old.registers)) }
        ensures room { self.new.room ≡ self.old.room }
    {
        match self.registers.selected() {
            Some(param) => self
                .params
                .set(&param, width.of_msb(value), self.room.params),
            None => Ok(()),
        }
    }

    // Applies a data entry of the LSB to the selected parameter, which keeps its MSB.
    fn enter_lsb(&mut self, width: Width, value: U7) -> Result<(), NotKept>
        ensures step { OnOk result
            ((state : definition.Channel) → KeepsChannel (scale_of width) self.old state
            → KeepsChannel (scale_of width) self.new
            (messages.enter_lsb (scale_of width) (selected state.registers) value state)) }
        ensures unchanged { OnErr result (self.new ≡ self.old) }
        ensures full { IsFullWhere result (IsEntryFull self.old (selected self.old.registers)) }
        ensures room { self.new.room ≡ self.old.room }
    {
        match self.registers.selected() {
            Some(param) => {
                let old = self.params.value(&param);
                self.params
                    .set_value(&param, width.with_new_lsb(old, value), self.room.params)
            }
            None => Ok(()),
        }
    }

    // Applies Reset All Controllers (RP-015), which is also a channel mode message.
    fn reset_all(&mut self, width: Width, index: U7, value: u32) -> Result<(), NotKept>
        ensures step { OnOk result
            ((state : definition.Channel) → KeepsChannel (scale_of width) self.old state
            → KeepsChannel (scale_of width) self.new
            (messages.reset (scale_of width) (definition.with_act (definition.mode index value) state))) }
        ensures unchanged { OnErr result (self.new ≡ self.old) }
        ensures full { IsFullWhere result (AreActsFull self.old) }
        ensures room { self.new.room ≡ self.old.room }
    {
        self.act(NoteAct::Mode { index, value })?;
        self.reset(width);
        Ok(())
    }

    // Applies the effects of Reset All Controllers other than the mode message.
    fn reset(&mut self, width: Width)
        ensures step { (state : definition.Channel) → KeepsChannel (scale_of width) self.old state
            → KeepsChannel (scale_of width) self.new (messages.reset (scale_of width) state) }
        ensures room { self.new.room ≡ self.old.room }
    {
        self.reset_controllers(width);
        self.poly.clear();
        self.pressure = width.value(U7::low_bits(0));
        self.bend = None;
        self.registers.take(ControlRole::ResetAll, U7::low_bits(0));
    }

    // Sets expression to its maximum, and modulation, hold, portamento, sostenuto and soft pedal to 0.
    fn reset_controllers(&mut self, width: Width)
        ensures step { (state : definition.Channel) → KeepsChannel (scale_of width) self.old state
            → KeepsChannel (scale_of width) self.new (with_controllers_reset (scale_of width) state) }
        ensures room { self.new.room ≡ self.old.room }
    {
        let zero = width.controller(U7::low_bits(0));
        self.controllers.set(U7::low_bits(1), zero);
        self.controllers.set(U7::low_bits(64), zero);
        self.controllers.set(U7::low_bits(65), zero);
        self.controllers.set(U7::low_bits(66), zero);
        self.controllers.set(U7::low_bits(67), zero);
        self.controllers
            .set(U7::low_bits(11), width.controller(U7::low_bits(127)));
    }
}
