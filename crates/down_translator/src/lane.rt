// The state of a lane in compact style.
ghost use Rattle.std.specs.Prelude.{◌≡◌, ◌<◌, ◌≤◌, ◌++◌, ℕ, IfOk, None, Some, length};
ghost use Rattle.midi1_bytes.specs.Messages.{spelled_voice, voice};
ghost use Rattle.midi1_bytes.specs.RunningStatus.{is_running, running_after, without_status};
ghost use Rattle.midi_meaning.specs.Compact.{has_bank, is_half, is_param, is_selected};
ghost use Rattle.midi_meaning.specs.Controllers.{role_of};
ghost use Rattle.midi_meaning.specs.Registers.{unset_registers, with_bank, with_selected};
ghost use Rattle.midi_meaning.specs.Roles.{registers_after};
ghost use Rattle.midi_meaning.specs.LaneState.{
  at_registers_of,
  channels_after1,
  new_lane,
  registers_at,
};
ghost use Rattle.down_translator.specs.KeptLanes.{after_system};

use crate::pieces::Piece;
use crate::running::RunningStatus;
use crate::statuses::add_unless_running;
use midi_meaning::Registers;
use small_types::{NoMemory, U4};
use std::alloc::Global;
use std::marker::Model;
use voice_messages::{Bank, Param, System, U7, Voice1};

/// The state in which a lane has left its receiver since the lane's last System Reset: the running status,
/// and the registers of sixteen channels. In contracts its value is the definition's state of a lane.
#[derive(Drop)]
pub struct Lane {
    running: RunningStatus,
    channels: Vec<Registers>,
}

impl Model for Lane {
    ghost use Rattle.std.specs.Prelude.{◌≡◌, length};
    ghost use Rattle.midi_meaning.specs.LaneState.{LaneState};

    ghost Value = { LaneState };

    ghost view = { λ lane. record { running = lane.running; channels = lane.channels.items } };

    ghost invariant = { λ lane. length lane.channels.items ≡ 16 };
}

fn is_half(half: Option<U7>, other: U7) -> bool
    ensures { result ≡ is_half half other }
{
    half == Some(other)
}

fn is_param(selected: Option<Param>, param: &Param) -> bool
    ensures { result ≡ is_param selected param.now }
{
    selected == Some(*param)
}

impl Lane {
    /// Creates a lane to which nothing has been written. Returns `NoMemory` if the memory for the registers
    /// can't be allocated.
    pub fn new(alloc: Global) -> Result<Lane, NoMemory>
        ensures { IfOk result (λ lane. lane ≡ new_lane) }
    {
        let Ok(mut channels) = Vec::with_capacity(alloc, 16) else {
            return Err(NoMemory);
        };
        for _ in 0..16usize {
            if channels.push(Registers::unset()).is_err() {
                return Err(NoMemory);
            }
        }
        Ok(Lane {
            running: RunningStatus::none(),
            channels,
        })
    }

    /// Returns the running status.
    #[inline(always)]
    pub fn running(&self) -> Option<u8>
        ensures { result ≡ self.now.running }
    {
        self.running.get()
    }

    /// Returns whether both halves of the channel's bank are these (MIDI 1.0 Detailed Specification, bank
    /// select).
    pub fn has_bank(&self, channel: U4, bank: &Bank) -> bool
        ensures { result ≡ has_bank (registers_at self.now.channels channel) bank.now }
    {
        let registers = &self.channels[channel.get() as usize];
        is_half(registers.bank_msb(), bank.msb) && is_half(registers.bank_lsb(), bank.lsb)
    }

    /// Returns whether this is the channel's selected parameter (MIDI 1.0 Detailed Specification,
    /// registered and non-registered parameter numbers).
    pub fn has_selected(&self, channel: U4, param: &Param) -> bool
        ensures { result ≡ is_selected (registers_at self.now.channels channel) param.now }
    {
        is_param(self.channels[channel.get() as usize].selected(), param)
    }

    /// Appends the bytes of a MIDI 1.0 voice message to a piece, without its status byte if that is the
    /// running status, and stores the effect of the message (MIDI 1.0 Detailed Specification, running
    /// status).
    #[inline(always)]
    pub fn write(&mut self, piece: &mut Piece, message: &Voice1, bytes: &[u8])
        requires spelled { bytes.now ≡ spelled_voice message.now }
        requires room { length piece.old ≤ 9 }
        ensures bytes { piece.new ≡ piece.old ++ without_status self.old.running (spelled_voice message.now) }
        ensures after { self.new ≡ record {
          running = running_after (voice message.now) self.old.running;
          channels = channels_after1 message.now self.old.channels;
        } }
    {
        add_unless_running(piece, self.running.get(), bytes);
        self.running = RunningStatus::some(bytes[0]);
        self.keep_registers(message);
    }

    /// Returns whether a status byte is the running status, and makes it the running status (MIDI 1.0
    /// Detailed Specification, running status).
    #[inline(always)]
    pub fn take_status(&mut self, status: u8) -> bool
        ensures running { result ≡ is_running self.old.running status }
        ensures after { self.new ≡ record { running = Some status; channels = self.old.channels } }
    {
        self.running.take(status)
    }

    #[inline(always)]
    fn keep_registers(&mut self, message: &Voice1)
        ensures { self.new ≡ record {
          running = self.old.running;
          channels = channels_after1 message.now self.old.channels;
        } }
    {
        if let Voice1::Control {
            channel,
            index,
            value,
        } = *message
        {
            self.keep_control(channel, index, value);
        }
    }

    // This function is out of line, so that the code that only control changes need doesn't occupy the
    // registers of the loops.
    #[inline(never)]
    fn keep_control(&mut self, channel: U4, index: U7, value: U7)
        ensures { self.new ≡ record {
          running = self.old.running;
          channels = at_registers_of channel (registers_after (role_of index) value) self.old.channels;
        } }
    {
        self.channels[channel.get() as usize].control(index, value);
    }

    /// Stores the running status, and that a parameter is selected.
    pub fn keep_set(&mut self, running: Option<u8>, channel: U4, param: &Param)
        ensures { self.new ≡ record {
          running = running;
          channels = at_registers_of channel (with_selected param.now) self.old.channels;
        } }
    {
        self.running = RunningStatus::of(running);
        self.channels[channel.get() as usize].select(param);
    }

    /// Stores the running status.
    pub fn keep_running(&mut self, running: Option<u8>)
        ensures { self.new ≡ record { running = running; channels = self.old.channels } }
    {
        self.running = RunningStatus::of(running);
    }

    /// Stores the running status, and a bank.
    pub fn keep_program(&mut self, running: Option<u8>, channel: U4, bank: Bank)
        ensures { self.new ≡ record {
          running = running;
          channels = at_registers_of channel (with_bank bank) self.old.channels;
        } }
    {
        self.running = RunningStatus::of(running);
        self.channels[channel.get() as usize].take_bank(bank);
    }

    /// Stores the effect of a system message: a common one ends the running status, Real Time leaves it
    /// unchanged (MIDI 1.0 Detailed Specification, running status), and System Reset clears the state (own
    /// rule).
    pub fn keep_system(&mut self, message: &System)
        ensures { self.new ≡ after_system message.now self.old }
    {
        match message {
            System::Quarter(_) | System::Position(_) | System::Song(_) | System::Tune => {
                self.end_running();
            }
            System::Reset => self.forget(),
            System::Clock | System::Start | System::Continue | System::Stop | System::Sensing => {}
        }
    }

    /// Ends the running status.
    pub fn end_running(&mut self)
        ensures { self.new ≡ record { running = None; channels = self.old.channels } }
    {
        self.running = RunningStatus::none();
    }

    /// Forgets the running status and the registers: nothing has been written to the lane.
    #[tactic(auto, using(crate::proofs::UnsetLaws::none_set))]
    pub fn forget(&mut self)
        ensures { self.new ≡ new_lane }
    {
        self.running = RunningStatus::none();
        self.forget_registers();
    }

    fn forget_registers(&mut self)
        ensures running { self.new.running ≡ self.old.running }
        ensures unset { (channel : ℕ) → channel < 16
            → registers_at self.new.channels channel ≡ unset_registers }
        ensures sixteen { length self.new.channels ≡ 16 }
    {
        for registers in self.channels.iter_mut() {
            *registers = Registers::unset();
        }
    }
}
