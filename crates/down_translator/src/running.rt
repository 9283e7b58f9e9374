// The running status of a lane.
ghost use Rattle.std.specs.Prelude.{◌≡◌, Some, None};
ghost use Rattle.midi1_bytes.specs.RunningStatus.{is_running};

use std::marker::Model;

/// The running status of a lane, if there is one, as a single number, so that one comparison decides
/// whether a status byte equals it. In contracts its value is the status byte, if there is one.
#[derive(Drop)]
pub struct RunningStatus {
    // The status byte, or 256 if there is none.
    number: u16,
}

impl Model for RunningStatus {
    ghost use Rattle.std.specs.Prelude.{◌≤◌, ℕ, Option};
    ghost use Rattle.down_translator.specs.Running.{running_by};

    ghost Value = { Option ℕ };

    ghost view = { λ running. running_by running.number };

    ghost invariant = { λ running. running.number ≤ 256 };
}

impl RunningStatus {
    /// Creates a value without a running status.
    #[inline(always)]
    pub fn none() -> RunningStatus
        ensures { result ≡ None }
    {
        RunningStatus { number: 256 }
    }

    /// Creates a value with this status byte as the running status.
    #[tactic(auto, using(crate::proofs::RunningLaws::some_running))]
    #[inline(always)]
    pub fn some(status: u8) -> RunningStatus
        ensures { result ≡ Some status }
    {
        RunningStatus {
            number: u16::from(status),
        }
    }

    /// Creates a value with this status byte, or none, as the running status.
    #[inline(always)]
    pub fn of(status: Option<u8>) -> RunningStatus
        ensures { result ≡ status }
    {
        match status {
            Some(status) => RunningStatus::some(status),
            None => RunningStatus::none(),
        }
    }

    /// Returns the status byte, if there is one.
    #[inline(always)]
    pub fn get(&self) -> Option<u8>
        ensures { result ≡ self.now }
    {
        if self.number == 256 {
            None
        } else {
            Some(self.number as u8)
        }
    }

    /// Returns whether this status byte is the running status, and makes it the running status (MIDI 1.0
    /// Detailed Specification, running status).
    #[tactic(auto, using(crate::proofs::RunningLaws::same_running, crate::proofs::RunningLaws::some_running))]
    #[inline(always)]
    pub fn take(&mut self, status: u8) -> bool
        ensures running { result ≡ is_running self.old status }
        ensures after { self.new ≡ Some status }
    {
        let is_running = self.number == u16::from(status);
        self.number = u16::from(status);
        is_running
    }
}
