// The effect of a channel voice message on a channel.
ghost use Rattle.std.specs.Prelude.{◌≡◌, true, false, if◌then◌else◌, OnOk, OnErr};
ghost use Rattle.midi_meaning.specs.Messages.{note_on, raised, voice_at};
ghost use Rattle.midi_meaning.specs.Packets.{program2, set_param, voice2_at};
ghost use Rattle.midi_meaning.specs.Registers.{is_null};
ghost use Rattle.midi_meaning.specs.State as definition;
ghost use Rattle.voice_state.specs.Acts.{act_of};
ghost use Rattle.voice_state.specs.Kept.{KeepsChannel};
ghost use Rattle.voice_state.specs.Rooms.{IsFull1, IsFull2, IsFullWhere, IsParamFull};
ghost use Rattle.voice_state.specs.ForProofs.Widths.{scale_of};

use crate::channel::Channel;
use crate::not_kept::NotKept;
use crate::note_act::NoteAct;
use crate::width::Width;
use midi_meaning::is_null_param;
use voice_messages::{Bank, Param, U7, Voice1, Voice2};

// Returns a note on, or a note off of velocity 64 if the velocity is 0 (MIDI 1.0 Detailed Specification,
// note on).
fn note_on(width: Width, note: U7, velocity: U7) -> NoteAct
    ensures { act_of result ≡ note_on (scale_of width) note velocity }
{
    if velocity.get() == 0 {
        let velocity = width.velocity(U7::low_bits(64));
        NoteAct::Off { note, velocity }
    } else {
        let velocity = width.velocity(velocity);
        NoteAct::On { note, velocity }
    }
}

impl Channel {
    /// Applies a message of the MIDI 1.0 protocol. If it can't be stored, nothing changes.
    pub(crate) fn voice1(&mut self, width: Width, message: &Voice1) -> Result<(), NotKept>
        ensures step { OnOk result
            ((state : definition.Channel) → KeepsChannel (scale_of width) self.old state
            → KeepsChannel (scale_of width) self.new (voice_at (scale_of width) message.now state)) }
        ensures unchanged { OnErr result (self.new ≡ self.old) }
        ensures full { IsFullWhere result (IsFull1 message.now self.old) }
        ensures room { self.new.room ≡ self.old.room }
    {
        match *message {
            Voice1::NoteOff { note, velocity, .. } => {
                let velocity = width.velocity(velocity);
                self.act(NoteAct::Off { note, velocity })
            }
            Voice1::NoteOn { note, velocity, .. } => self.act(note_on(width, note, velocity)),
            Voice1::Control { index, value, .. } => self.control(width, index, value),
            Voice1::PolyPressure { note, value, .. } => {
                self.poly.set(note, width.value(value));
                Ok(())
            }
            Voice1::Program { program, .. } => {
                self.set_program(program);
                Ok(())
            }
            Voice1::Pressure { value, .. } => {
                self.pressure = width.value(value);
                Ok(())
            }
            Voice1::Bend { value, .. } => {
                self.set_bend(width, width.wide(value));
                Ok(())
            }
        }
    }

    /// Applies a message of the MIDI 2.0 protocol (M2-104-UM, MIDI 2.0 channel voice messages). If it can't
    /// be stored, nothing changes.
    pub(crate) fn voice2(&mut self, message: &Voice2) -> Result<(), NotKept>
        ensures step { OnOk result ((state : definition.Channel) → KeepsChannel raised self.old state
            → KeepsChannel raised self.new (voice2_at false message.now state)) }
        ensures unchanged { OnErr result (self.new ≡ self.old) }
        ensures full { IsFullWhere result (IsFull2 message.now self.old) }
        ensures room { self.new.room ≡ self.old.room }
    {
        match *message {
            Voice2::NoteOff { note, velocity, .. } => self.act(NoteAct::Off { note, velocity }),
            Voice2::NoteOn { note, velocity, .. } => self.act(NoteAct::On { note, velocity }),
            Voice2::Control { index, value, .. } => self.control2(index, value),
            Voice2::Set { param, value, .. } => self.set_param(&param, value),
            Voice2::Shift { param, .. } => self.loosen(&param),
            Voice2::PolyPressure { note, value, .. } => {
                self.poly.set(note, value);
                Ok(())
            }
            Voice2::Program { program, bank, .. } => {
                self.program2(program, bank);
                Ok(())
            }
            Voice2::Pressure { value, .. } => {
                self.pressure = value;
                Ok(())
            }
            Voice2::Bend { value, .. } => {
                self.set_bend(Width::Midi2, value);
                Ok(())
            }
            Voice2::NoteController { .. }
            | Voice2::NoteBend { .. }
            | Voice2::NoteManagement { .. } => Ok(()),
        }
    }

    // Sets the value of a parameter, and selects the parameter. The null parameter accepts no value.
    fn set_param(&mut self, param: &Param, value: u32) -> Result<(), NotKept>
        ensures step { OnOk result ((state : definition.Channel) → KeepsChannel raised self.old state
            → KeepsChannel raised self.new
            (if is_null param.now then state else set_param param.now value state)) }
        ensures unchanged { OnErr result (self.new ≡ self.old) }
        ensures full { IsFullWhere result (IsParamFull self.old param.now) }
        ensures room { self.new.room ≡ self.old.room }
    {
        if is_null_param(param) {
            return Ok(());
        }
        self.params.set(param, value, self.room.params)?;
        self.registers.select(param);
        Ok(())
    }

    // Applies a relative change to a parameter, which keeps its value. The null parameter accepts no
    // change.
    fn loosen(&mut self, param: &Param) -> Result<(), NotKept>
        ensures step { OnOk result ((state : definition.Channel) → KeepsChannel raised self.old state
            → KeepsChannel raised self.new
            (if is_null param.now then state else definition.with_looseness true param.now state)) }
        ensures unchanged { OnErr result (self.new ≡ self.old) }
        ensures full { IsFullWhere result (IsParamFull self.old param.now) }
        ensures room { self.new.room ≡ self.old.room }
    {
        if is_null_param(param) {
            return Ok(());
        }
        self.params.loosen(param, self.room.params)
    }

    // Applies a program change, which may select its bank.
    fn program2(&mut self, program: U7, bank: Option<Bank>)
        ensures step { (state : definition.Channel) → KeepsChannel raised self.old state
            → KeepsChannel raised self.new (program2 bank program state) }
        ensures room { self.new.room ≡ self.old.room }
    {
        match bank {
            None => self.set_program(program),
            Some(bank) => {
                self.registers.take_bank(bank);
                self.set_program(program);
            }
        }
    }
}
