// The status with which a run ends.
ghost use Rattle.std.specs.Prelude.{◌≡◌, ◌≢◌, OnOk, OnErr, true, false};

use outside::{Failed, OpenFault};
use pass_loop::{Reason, RunEnd};
use small_types::NoMemory;

/// The status with which a run ends.
#[derive(Clone, Copy, Debug, PartialEq, Eq)]
pub enum Status {
    /// The input was read to its end. A self test, which reads none, has written its line.
    Done,
    /// The packet, byte or event at this offset was refused, or the input ends within one or is longer than
    /// its limit, or a clip doesn't begin or end as it should. The offset is the number of input bytes before
    /// that place.
    Refused { reason: Reason, offset: u64 },
    /// A read failed.
    ReadFault,
    /// The folder could not be opened, or a write to a lane failed.
    LaneFault,
    /// A write to the output failed.
    OutputFault,
    /// A write to the notes failed.
    NoteFault,
    /// The setup could not be read.
    ShelfFault,
    /// The words of the command line are no command.
    Usage,
    /// The setup isn't UTF-8, or isn't TOML.
    SetupSyntax,
    /// The rule of this number, 0 to 31, is the first that the setup breaks.
    SetupField(u8),
    /// Memory ran out.
    NoMemory,
}

impl From<NoMemory> for Status {
    ghost use Rattle.midi_commands.specs.declared.status.Status.TheVariants.{NoMemory as no_memory};

    ghost from_gives = { λ _ status. status ≡ no_memory };

    fn from(_: NoMemory) -> Status {
        Status::NoMemory
    }
}

impl Status {
    ghost use Rattle.midi_commands.specs.ExitCode.{exit_code_of, is_fault as is_fault_in};
    ghost use Rattle.midi_commands.specs.Run.{status_in};

    /// Returns the status for the end of a pass, or this status if the pass didn't run.
    pub(crate) fn of_end(ended: Result<RunEnd, Status>) -> Status
        ensures { result ≡ status_in ended }
    {
        match ended {
            Ok(RunEnd::Done) => Status::Done,
            Ok(RunEnd::Refused { reason, offset }) => Status::Refused { reason, offset },
            Ok(RunEnd::ReadFault) => Status::ReadFault,
            Ok(RunEnd::LaneFault) => Status::LaneFault,
            Ok(RunEnd::OutputFault) => Status::OutputFault,
            Ok(RunEnd::NoteFault) => Status::NoteFault,
            Ok(RunEnd::NoMemory) => Status::NoMemory,
            Err(status) => status,
        }
    }

    /// Returns the status if the lanes could not be opened.
    pub(crate) fn of_opening(fault: OpenFault) -> Status
        ensures failed { fault ≡ OpenFault.Failed → result ≡ Status.LaneFault }
        ensures memory { fault ≡ OpenFault.NoMemory → result ≡ Status.NoMemory }
    {
        match fault {
            OpenFault::Failed => Status::LaneFault,
            OpenFault::NoMemory => Status::NoMemory,
        }
    }

    /// Returns the exit code (own rule): 0 for `Done`, 1 for `Refused`; 2 to 6 for faults of reading, of the lanes,
    /// of the output, of the notes and of the shelf; 7 for `Usage`, 8 for `SetupSyntax`, 9 for
    /// `SetupField`, 10 for `NoMemory`.
    pub fn exit_code(self) -> u8
        ensures { result ≡ exit_code_of self }
    {
        match self {
            Status::Done => 0,
            Status::Refused { .. } => 1,
            Status::ReadFault => 2,
            Status::LaneFault => 3,
            Status::OutputFault => 4,
            Status::NoteFault => 5,
            Status::ShelfFault => 6,
            Status::Usage => 7,
            Status::SetupSyntax => 8,
            Status::SetupField(_) => 9,
            Status::NoMemory => 10,
        }
    }

    /// Returns whether a read or a write failed. The exit code is then 2 to 6.
    pub fn is_fault(self) -> bool
        ensures { result ≡ is_fault_in self }
    {
        match self {
            Status::ReadFault
            | Status::LaneFault
            | Status::OutputFault
            | Status::NoteFault
            | Status::ShelfFault => true,
            Status::Done
            | Status::Refused { .. }
            | Status::Usage
            | Status::SetupSyntax
            | Status::SetupField(_)
            | Status::NoMemory => false,
        }
    }

    /// Returns the status after an object has written out the bytes that it had buffered: this fault if the
    /// writing failed and the status was no fault yet, and otherwise the status as it was.
    pub fn after_writing(self, answer: Result<(), Failed>, fault: Status) -> Status
        ensures written { OnOk answer (result ≡ self) }
        ensures fault { is_fault_in self ≡ false → OnErr answer (result ≡ fault) }
        ensures cause { is_fault_in self ≡ true → result ≡ self }
    {
        match answer {
            Err(_) if !self.is_fault() => fault,
            _ => self,
        }
    }
}
