// A rehearsal.
ghost use Rattle.std.specs.Prelude.{◌≡◌, ◌<◌, ◌≤◌, ◌++◌, ℕ, List, Option, length};
ghost use Rattle.std.specs.Prelude.{slice_get, true, IfOk, Some};
ghost use Rattle.std.specs.Option.{option_map};
ghost use Rattle.function_blocks.specs.Profiles.{profiles_are_distinct};
ghost use Rattle.ci_responder.specs.Held.{after as responder_after, heard_in, message_in};
ghost use Rattle.ci_responder.specs.Keys.{state_in};
ghost use Rattle.ci_responder.specs.Read.{received_in};
ghost use Rattle.ci_responder.specs.Replies.{message_of_reply};
ghost use Rattle.ci_initiator.specs.Asks.{group_asked};
ghost use Rattle.ci_initiator.specs.Incoming.{incoming_in};
ghost use Rattle.ci_initiator.specs.Known.{after, asked_by, noted_in, watches_of};
ghost use Rattle.ci_initiator.specs.Stage.{
  Steps,
  ask_of as ask_of_number,
  ask_with,
  event_of as event_of_kind,
  first_stage,
  next_by,
  next_stage,
  note_with,
  reply_sent,
  reply_with,
};
ghost use Rattle.ci_initiator.specs.Watching.{HasIds, IsLeastUnnamed};

use crate::ask::Ask;
use crate::event::{Event, EventFault, Told};
use crate::initiator::Initiator;
use crate::message::{Messages, Sent};
use crate::noted::Noted;
use crate::watching::{own_muid, watches};
use ci_messages::laws::views_that_are_read_fit;
use ci_messages::read;
use ci_responder::{CiMessage, Heard, Key, Responder};
use function_blocks::Setup;
use small_types::NoMemory;
use std::alloc::Global;
use std::marker::Model;
use voice_messages::U4;

/// The largest System Exclusive message that the responder says it accepts, in bytes.
const ROOM: u32 = 512;

/// An initiator and the responder of a setup (M2-101-UM), and the messages that each has sent. The events
/// choose which messages are delivered (own rule). In contracts its value is both sides and the two lists of
/// messages.
#[derive(Drop)]
pub struct Rehearsal {
    pub(crate) initiator: Initiator,
    pub(crate) responder: Responder,
    pub(crate) asks: Messages,
    pub(crate) replies: Messages,
}

impl Model for Rehearsal {
    ghost use Rattle.ci_initiator.specs.Stage.{Stage};

    ghost Value = { Stage };

    ghost view = { λ r. record {
      initiator = r.initiator;
      responder = r.responder;
      asks = r.asks;
      replies = r.replies;
    } };
}

// Returns the request for a number.
fn ask_of(number: u16) -> Ask
    ensures { result ≡ ask_of_number number }
{
    if number == 0 {
        return Ask::Discover;
    }
    let rest = (number - 1) % 3;
    let watch = ((number - 1) / 3) as usize;
    if rest == 0 {
        Ask::Inquire(watch)
    } else if rest == 1 {
        Ask::On(watch)
    } else {
        Ask::Off(watch)
    }
}

// Returns the event for a kind and a number.
fn event_of(kind: u8, number: u16) -> Option<Event>
    ensures { result ≡ event_of_kind kind number }
{
    match kind {
        0 => Some(Event::Ask(ask_of(number))),
        1 => Some(Event::ToResponder(number as usize)),
        2 => Some(Event::ToInitiator(number as usize)),
        _ => None,
    }
}

// Passes a message to the responder. Returns what the responder did with it, and the reply.
fn respond(responder: &mut Responder, sent: &Sent) -> (Heard, Option<CiMessage>)
    ensures heard { result.0 ≡ heard_in responder.old (received_in sent.now.group sent.now.bytes) }
    ensures after { responder.new
        ≡ responder_after responder.old (received_in sent.now.group sent.now.bytes) }
    ensures reply { result.1 ≡ message_in responder.old (received_in sent.now.group sent.now.bytes) }
{
    views_that_are_read_fit();
    ci_responder::views_tell_their_bytes();
    match read(sent.bytes.as_slice()) {
        Ok(view) => responder.hear_message(sent.group, &view),
        // Both sides send only messages without a fault, and `read` accepts these.
        Err(_) => unreachable!(),
    }
}

// Passes a message to the initiator.
fn note(initiator: &mut Initiator, sent: &Sent) -> Noted
    ensures noted { result ≡ noted_in initiator.old (incoming_in sent.now.group sent.now.bytes) }
    ensures after { initiator.new ≡ after initiator.old (incoming_in sent.now.group sent.now.bytes) }
{
    views_that_are_read_fit();
    crate::laws::views_tell_their_bytes();
    match read(sent.bytes.as_slice()) {
        Ok(view) => initiator.hear(sent.group, &view),
        // Both sides send only messages without a fault, and `read` accepts these.
        Err(_) => unreachable!(),
    }
}

impl Rehearsal {
    /// Creates the rehearsal of a setup (own rule). The responder is the setup's. The initiator has the least
    /// MUID from 1 on that the setup doesn't name. It watches the profiles of one function block, in the
    /// order of the setup: the block of the first profile whose block has MIDI-CI. If there is no such
    /// profile, it watches nothing. A profile of the whole function block is watched on the block's first
    /// group. Allocates all the memory that the rehearsal will ever need. Returns `NoMemory` if there isn't
    /// enough.
    pub fn new(alloc: Global, setup: &Setup) -> Result<Rehearsal, NoMemory>
        ensures first { IfOk result (λ rehearsal. rehearsal ≡ first_stage setup.now) }
        ensures least { IfOk result (λ rehearsal.
            IsLeastUnnamed setup.now.blocks rehearsal.initiator.muid) }
        ensures distinct { IfOk result (λ rehearsal. profiles_are_distinct setup.now.profiles ≡ true) }
        ensures ids { IfOk result (λ rehearsal. HasIds setup.now.profiles) }
    {
        // says that no two profiles have the same block, place and id
        let _distinct = setup.profile_count();
        let watches = watches(alloc, setup)?;
        Ok(Rehearsal {
            initiator: Initiator::new(alloc, own_muid(setup), watches.as_slice())?,
            responder: Responder::new(alloc, setup, ROOM)?,
            asks: Messages::new(alloc)?,
            replies: Messages::new(alloc)?,
        })
    }

    /// Returns the number of watches, at most 64 (own rule).
    pub fn watches(&self) -> usize
        ensures value { result ≡ length self.now.initiator.watched }
        ensures few { result ≤ 64 }
    {
        self.initiator.watches()
    }

    /// Returns whether the responder last told the initiator that the profile of watch `k` is enabled
    /// (M2-101-UM, profile configuration). Watches are counted from 0. Returns `None` exactly if the
    /// initiator knows nothing of it.
    pub fn holds(&self, k: usize) -> Option<bool>
        requires { k < length self.now.initiator.watched }
        ensures { option_map (λ watched. watched.held) (slice_get self.now.initiator.watched k)
            ≡ Some result }
    {
        self.initiator.holds(k)
    }

    /// Returns whether a profile of the responder is enabled (M2-101-UM, profile configuration), or `None`
    /// exactly if the setup doesn't name the profile.
    pub fn profile_is_on(&self, key: &Key) -> Option<bool>
        ensures { result ≡ state_in self.now.responder.states key.now }
    {
        self.responder.profile_is_on(key)
    }

    /// Handles the event of a kind and a number (own rule; the messages are those of M2-101-UM). Returns the
    /// result of the event. The call doesn't allocate. After an error nothing has changed.
    ///
    /// - Kind 0 lets the initiator ask. Number 0 is Discovery. Numbers 1 + 3k, 2 + 3k and 3 + 3k are a
    ///   Profile Inquiry, Set Profile On and Set Profile Off for watch k, on the group of that watch.
    ///   Discovery is sent on the group of watch 0, or on group 0 if there is no watch.
    /// - Kind 1 delivers the initiator's message of this number, counted from 0, to the responder.
    /// - Kind 2 delivers the reply of this number, counted from 0, to the initiator.
    ///
    /// Returns `BadEvent` exactly if the kind is above 2, the message or the watch isn't there, or the
    /// initiator asks for more than Discovery and knows no peer. Otherwise, returns `TooMany` exactly if the
    /// kind is 0 and the initiator has sent 1,024 messages, or if the kind is 1 and there are 1,024 replies.
    pub fn event(&mut self, kind: u8, number: u16) -> Result<Told, EventFault>
        ensures { Steps (next_by self.old (event_of_kind kind number)) self.old self.new result }
    {
        match event_of(kind, number) {
            Some(event) => self.take(event),
            None => Err(EventFault::BadEvent),
        }
    }

    fn take(&mut self, event: Event) -> Result<Told, EventFault>
        ensures { Steps (next_stage self.old event) self.old self.new result }
    {
        match event {
            Event::Ask(what) => self.ask(what),
            Event::ToResponder(number) => self.to_responder(number),
            Event::ToInitiator(number) => self.to_initiator(number),
        }
    }

    fn ask(&mut self, what: Ask) -> Result<Told, EventFault>
        ensures { Steps (ask_with self.old (group_asked (watches_of self.old.initiator) what)
            (asked_by self.old.initiator what)) self.old self.new result }
    {
        let Some(bytes) = self.initiator.asked(what) else {
            return Err(EventFault::BadEvent);
        };
        if self.asks.is_full() {
            return Err(EventFault::TooMany);
        }
        let group = self.initiator.group_asked(what);
        self.asks.push(Sent { group, bytes });
        Ok(Told::Asked)
    }

    fn to_responder(&mut self, number: usize) -> Result<Told, EventFault>
        ensures { Steps (reply_with self.old (slice_get self.old.asks number)) self.old self.new result }
    {
        let Some(sent) = self.asks.get(number) else {
            return Err(EventFault::BadEvent);
        };
        if self.replies.is_full() {
            return Err(EventFault::TooMany);
        }
        let group = sent.group;
        let (heard, reply) = respond(&mut self.responder, sent);
        keep_reply(&mut self.replies, group, reply);
        Ok(Told::Heard(heard))
    }

    fn to_initiator(&mut self, number: usize) -> Result<Told, EventFault>
        ensures { Steps (note_with self.old (slice_get self.old.replies number)) self.old self.new result }
    {
        let Some(sent) = self.replies.get(number) else {
            return Err(EventFault::BadEvent);
        };
        let noted = note(&mut self.initiator, sent);
        Ok(Told::Noted(noted))
    }
}

// Stores a reply, if there is one.
fn keep_reply(replies: &mut Messages, group: U4, reply: Option<CiMessage>)
    requires { length replies.old < 1024 }
    ensures { (payload : Option (List ℕ)) → reply ≡ message_of_reply payload →
        replies.new ≡ replies.old ++ reply_sent group payload }
{
    if let Some(bytes) = reply {
        replies.push(Sent { group, bytes });
    }
}
