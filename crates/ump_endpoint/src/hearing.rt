// Joins the exclusives of a peer by group, and passes them to the responder.
ghost use Rattle.std.specs.Prelude.{◌≡◌, ◌≤◌, [], length};
ghost use Rattle.ci_messages.specs.Reading.{IsExclusive};
ghost use Rattle.sysex_groups.specs.Exclusives.{IsData};
ghost use Rattle.sysex_groups.specs.Table.{answer_to, with_part};
ghost use Rattle.ump_grammar.specs.Replies.{AddsPackets};
ghost use Rattle.ump_endpoint.specs.Answers.{said_in};
ghost use Rattle.ump_endpoint.specs.Held.{
  after_part,
  after_said,
  cut_listed,
  part_replies,
  part_taken,
  placed_part,
  said_of,
  said_outcome_in,
  said_replies,
};

use crate::taken::{Outcome, Taken};
use ci_messages::laws::views_that_are_read_fit;
use ci_messages::read;
use ci_responder::{Responder, views_tell_their_bytes};
use listing_terms::{BadStep, Kind, Listed};
use small_types::U4;
use sysex_groups::{Fed, Groups};
use ump_grammar::Replies;
use voice_messages::Form;

// Passes a group's exclusive to the responder, and adds the reply to `replies`, which is empty. Returns what
// was done with the exclusive.
fn hear(responder: &mut Responder, replies: &mut Replies, group: U4, message: &[u8]) -> Outcome
    requires message { IsExclusive message.now }
    requires empty { replies.old ≡ [] }
    ensures after { responder.new ≡ after_said responder.old (said_in group message.now) }
    ensures replies { AddsPackets (said_replies responder.old (said_in group message.now)) [] replies.new }
    ensures outcome { result ≡ said_outcome_in responder.old (said_in group message.now) }
{
    views_that_are_read_fit();
    views_tell_their_bytes();
    match read(message) {
        Ok(view) => Outcome::Heard(responder.hear(group, &view, replies)),
        Err(fault) => Outcome::Unread(fault),
    }
}

// Returns the line for a group's exclusive that another one cut off.
fn cut_off(group: U4, cut_at: u64) -> Listed
    ensures { result ≡ cut_listed group cut_at }
{
    Listed {
        offset: cut_at,
        group: Some(group),
        kind: Kind::CutExclusive,
    }
}

/// A part of an exclusive, with its group and form, and the offset of its packet.
#[derive(Clone, Copy, Debug)]
pub(crate) struct PlacedPart<'a> {
    pub(crate) group: U4,
    pub(crate) form: Form,
    pub(crate) bytes: &'a [u8],
    pub(crate) offset: u64,
}

/// Takes one more part of a group's exclusive. If the part ends a message, the reply is added to `replies`,
/// which is empty. An exclusive that is too long is refused.
pub(crate) fn take_part(
    groups: &mut Groups,
    responder: &mut Responder,
    replies: &mut Replies,
    part: PlacedPart<'_>,
) -> Result<Taken, BadStep>
    requires few { length part.bytes.now ≤ 6 }
    requires data_bytes { IsData part.bytes.now }
    requires empty { replies.old ≡ [] }
    ensures groups { let p = part.entry in
        groups.new ≡ with_part (placed_part p.group p.offset p.form p.bytes.now) groups.old }
    ensures responder { let p = part.entry in responder.new ≡ after_part responder.old
        (said_of p.group (answer_to groups.old (placed_part p.group p.offset p.form p.bytes.now))) }
    ensures replies { let p = part.entry in AddsPackets (part_replies responder.old (said_of p.group
        (answer_to groups.old (placed_part p.group p.offset p.form p.bytes.now)))) [] replies.new }
    ensures taken { let p = part.entry in result ≡ part_taken responder.old p.group p.offset
        (answer_to groups.old (placed_part p.group p.offset p.form p.bytes.now)) }
{
    let PlacedPart {
        group,
        form,
        bytes,
        offset,
    } = part;
    match groups.feed(group, form, bytes, offset) {
        Fed::Held => Ok(Taken::nothing()),
        Fed::TooLong => Err(BadStep::ExclusiveTooLong),
        Fed::Stray => Ok(Taken::lost(Listed {
            offset,
            group: Some(group),
            kind: Kind::StrayExclusive,
        })),
        Fed::Restarted { cut_at } => Ok(Taken::lost(cut_off(group, cut_at))),
        Fed::Whole(message) => Ok(Taken::ended(hear(responder, replies, group, message))),
        Fed::RestartedWhole { cut_at, whole } => Ok(Taken {
            outcome: Some(hear(responder, replies, group, whole)),
            listed: Some(cut_off(group, cut_at)),
        }),
    }
}
