// The lines for what an endpoint did with a packet.
ghost use Rattle.std.specs.Prelude.{◌≡◌, ◌++◌};
ghost use Rattle.std.specs.Option.{option_to_list};
ghost use Rattle.listing_lines.specs.Lines.{line_puts};
ghost use Rattle.pass_loop.specs.Places.{Puts};
ghost use Rattle.listing_terms.specs.Parts.{group_of as group_in};
ghost use Rattle.endpoint_pass.specs.Answering.{name_of as name_in, name_of_fault as fault_name, outcome_lines};

use ci_text::name_of_heard;
use endpoint_lines::{OutcomeName, fill_endpoint_line};
use listing_lines::put_listed;
use pass_loop::{Outputs, RunEnd};
use small_types::U4;
use text_lines::Line;
use ump_endpoint::{CiFault, Outcome, Taken};
use ump_grammar::Packet;

// Returns the word for an exclusive with this fault.
fn name_of_fault(fault: CiFault) -> OutcomeName
    ensures { result ≡ fault_name fault }
{
    match fault {
        CiFault::NotCi => OutcomeName::NotCi,
        CiFault::Short => OutcomeName::Short,
        CiFault::BadAddress => OutcomeName::BadAddress,
        CiFault::ReservedMuid => OutcomeName::ReservedMuid,
    }
}

// Returns the word for what was done with a message.
fn name_of(outcome: Outcome) -> OutcomeName
    ensures { result ≡ name_in outcome }
{
    match outcome {
        Outcome::Answered => OutcomeName::Answered,
        Outcome::NoAnswer => OutcomeName::NoAnswer,
        Outcome::BadFormat => OutcomeName::BadFormat,
        Outcome::Unread(fault) => name_of_fault(fault),
        Outcome::Heard(heard) => name_of_heard(heard),
    }
}

// Returns the group of a packet that may end a message: the group of an exclusive. A stream packet has none.
fn group_of(packet: &Packet) -> Option<U4>
    ensures { result ≡ group_in packet.now }
{
    match packet {
        Packet::System { group, .. } => Some(*group),
        Packet::Voice1 { group, .. } => Some(*group),
        Packet::Exclusive { group, .. } => Some(*group),
        Packet::Voice2 { group, .. } => Some(*group),
        Packet::Data8 { group, .. } => Some(*group),
        Packet::Flex { group, .. } => Some(*group),
        Packet::Utility { .. } | Packet::Stream { .. } | Packet::Reserved { .. } => None,
    }
}

// Writes the line for the message that a packet ended, if it ended one, to the notes. The line is written
// over another.
fn put_outcome<O: Outputs>(
    line: &mut Line,
    offset: u64,
    packet: &Packet,
    outcome: Option<Outcome>,
    outputs: &mut O,
) -> Result<(), RunEnd>
    ensures { Puts (outcome_lines offset packet.now outcome)
        (O.places outputs.old) (O.places outputs.new) result }
{
    match outcome {
        None => Ok(()),
        Some(outcome) => {
            fill_endpoint_line(line, offset, group_of(packet), name_of(outcome));
            outputs.put_notes(line.as_slice())
        }
    }
}

/// Writes the line for the message that a packet ended to the notes, and then the line for what the packet
/// lost.
pub(crate) fn put_taken<O: Outputs>(
    line: &mut Line,
    offset: u64,
    packet: &Packet,
    taken: &Taken,
    outputs: &mut O,
) -> Result<(), RunEnd>
    ensures { Puts (outcome_lines offset packet.now taken.now.outcome
        ++ line_puts (option_to_list taken.now.listed))
        (O.places outputs.old) (O.places outputs.new) result }
{
    put_outcome(line, offset, packet, taken.outcome, outputs)?;
    put_listed(taken.listed, outputs)
}
