// The numbers that the header gives to what an endpoint did with a message.
ghost use Rattle.std.specs.Prelude.{◌≡◌};
ghost use Rattle.c_endpoint.specs.Numbers.{fault_number as number_of_fault, heard_number as number_of_outcome, hearing_number as number_of_hearing};

use ump_endpoint::{CiFault, Heard, Outcome};

// Returns the number of the first fault of an exclusive.
fn fault_number(fault: CiFault) -> u8
    ensures { result ≡ number_of_fault fault }
{
    match fault {
        CiFault::NotCi => 1,
        CiFault::Short => 2,
        CiFault::BadAddress => 3,
        CiFault::ReservedMuid => 4,
    }
}

// Returns the number of the way in which a MIDI-CI message was heard.
fn hearing_number(heard: Heard) -> u8
    ensures { result ≡ number_of_hearing heard }
{
    match heard {
        Heard::NoBlock => 5,
        Heard::Silent => 6,
        Heard::Collision => 7,
        Heard::OldVersion => 8,
        Heard::NotOurs => 9,
        Heard::Moved => 10,
        Heard::Report => 11,
        Heard::Broadcast => 12,
        Heard::Answered => 13,
        Heard::Passed => 14,
        Heard::Nak => 15,
    }
}

/// Returns the number of what an endpoint did with a message; 0 if a packet ended no message.
pub fn heard_number(outcome: Option<Outcome>) -> u8
    ensures { result ≡ number_of_outcome outcome }
{
    match outcome {
        None => 0,
        Some(Outcome::Unread(fault)) => fault_number(fault),
        Some(Outcome::Heard(heard)) => hearing_number(heard),
        Some(Outcome::Answered) => 13,
        Some(Outcome::NoAnswer) => 16,
        Some(Outcome::BadFormat) => 17,
    }
}
