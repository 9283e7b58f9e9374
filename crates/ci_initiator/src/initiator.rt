// The initiator.
ghost use Rattle.std.specs.Prelude.{◌≡◌, ◌<◌, ◌≤◌, ◌^◌, ℕ, List, [], true, length};
ghost use Rattle.std.specs.Prelude.{slice_get, is_some, IfOk, IfSome, Some};
ghost use Rattle.std.specs.Option.{option_map};
ghost use Rattle.ci_messages.specs.Writing.{IsView};
ghost use Rattle.ci_responder.specs.Replies.{IsMessage};
ghost use Rattle.ci_initiator.specs.declared.watch.Watch.{Watch};
ghost use Rattle.ci_initiator.specs.Asks.{asked_with, group_asked, group_of_watch};
ghost use Rattle.ci_initiator.specs.Incoming.{incoming_of};
ghost use Rattle.ci_initiator.specs.Known.{after, after_by, are_different, asked_by, known_at, noted_in};
ghost use Rattle.ci_initiator.specs.Known.{watches_of};

use crate::ask::Ask;
use crate::asking::{Question, discovery, inquiry, set_off, set_on};
use crate::noted::Noted;
use crate::rows::{hold, noted_row};
use crate::watch::{Watch, Watched};
use ci_messages::{CiView, Muid};
use ci_responder::CiMessage;
use small_types::{NoMemory, ShortList};
use std::alloc::Global;
use std::marker::Model;
use voice_messages::U4;

/// Asks a peer for its profiles, and remembers what the peer says about those that are watched (M2-101-UM,
/// profile configuration). In contracts its value is the initiator's own MUID, the peer's MUID, and what is
/// known of each watch.
#[derive(Drop)]
pub struct Initiator {
    pub(crate) muid: Muid,
    pub(crate) peer: Option<Muid>,
    pub(crate) watched: Vec<Watched>,
}

impl Model for Initiator {
    ghost use Rattle.ci_initiator.specs.Known.{IsKnown, Known};

    ghost Value = { Known };

    ghost view = { λ i. record { muid = i.muid; peer = i.peer; watched = i.watched.items } };

    ghost invariant = { λ i. IsKnown (record { muid = i.muid; peer = i.peer; watched = i.watched.items }) };
}

impl Initiator {
    /// Creates an initiator with its own MUID, below 0FFFFF00 (M2-101-UM, MUID), and at most 64 watches that
    /// are all different (`watches_differ`). At first no peer is known, and nothing is known of any watch.
    /// Allocates all the memory that the initiator will ever need. Returns `NoMemory` if there isn't enough.
    pub fn new(alloc: Global, muid: u32, watches: &[Watch]) -> Result<Initiator, NoMemory>
        requires muid { muid < 0x0FFFFF00 }
        requires few { length watches.now ≤ 64 }
        requires different { are_different watches.now ≡ true }
        ensures { IfOk result (λ initiator. initiator ≡ known_at muid watches.now []) }
    {
        let muid = Muid::unreserved(muid);
        let Ok(mut watched) = Vec::with_capacity(alloc, watches.len()) else {
            return Err(NoMemory);
        };
        for k in 0..watches.len() {
            let watch = watches[k];
            let Ok(()) = watched.push(Watched { watch, held: None }) else {
                return Err(NoMemory);
            };
        }
        Ok(Initiator {
            muid,
            peer: None,
            watched,
        })
    }

    /// Returns whether `ask` can write this request (own rule): the watch must be there and a peer must be
    /// known. Discovery needs neither.
    pub fn can_ask(&self, what: Ask) -> bool
        ensures { result ≡ is_some (asked_by self.now what) }
    {
        match what {
            Ask::Discover => true,
            Ask::Inquire(k) => self.question(k).is_some(),
            Ask::On(k) => self.question(k).is_some(),
            Ask::Off(k) => self.question(k).is_some(),
        }
    }

    // Returns the initiator, the peer and the watch of a request, or `None` if no peer is known or the watch
    // isn't there.
    fn question(&self, k: usize) -> Option<Question>
        ensures { (write : ℕ → ℕ → Watch → List ℕ) →
            asked_with write self.now.muid self.now.peer (slice_get (watches_of self.now) k)
            ≡ option_map (λ found. write found.muid found.peer found.watch) result }
    {
        let peer = self.peer?;
        let watched = self.watched.get(k)?;
        Some(Question {
            muid: self.muid,
            peer,
            watch: watched.watch,
        })
    }

    /// Creates a request as a message of version 02 (M2-101-UM). Discovery goes to all devices at the
    /// function block, with an identity of zeros, the category of profiles, 512 as the largest System
    /// Exclusive message and the output path 0. Any other request goes to the peer at the watch's address,
    /// and Set Profile On has 1 as the number of channels for a channel and 0 otherwise. Returns the message,
    /// or `None` exactly if the request isn't Discovery and the watch isn't there or no peer is known.
    pub fn asked(&self, what: Ask) -> Option<CiMessage>
        ensures { result ≡ asked_by self.now what }
    {
        match what {
            Ask::Discover => Some(discovery(self.muid)),
            Ask::Inquire(k) => match self.question(k) {
                Some(question) => Some(inquiry(&question)),
                None => None,
            },
            Ask::On(k) => match self.question(k) {
                Some(question) => Some(set_on(&question)),
                None => None,
            },
            Ask::Off(k) => match self.question(k) {
                Some(question) => Some(set_off(&question)),
                None => None,
            },
        }
    }

    /// Writes a request, from F0 to F7 (M2-101-UM), into an empty list. `ci_messages::read` accepts these
    /// bytes. Unless the request is Discovery, the watch must be there and a peer must be known, which
    /// `can_ask` tests.
    pub fn ask(&self, what: Ask, into: &mut ShortList<u8, 512>)
        requires asks { is_some (asked_by self.now what) ≡ true }
        requires empty { into.old ≡ [] }
        ensures bytes { asked_by self.now what ≡ Some into.new }
        ensures message { IsMessage into.new }
    {
        if let Some(message) = self.asked(what) {
            into.extend(message.as_slice());
        }
    }

    /// Hears a message that `ci_messages::read` returned, on the message's group (M2-101-UM). Returns what
    /// the initiator notes about it. The call doesn't allocate.
    pub fn hear(&mut self, group: U4, view: &CiView<'_>) -> Noted
        requires { IsView view.now }
        ensures noted { result ≡ noted_in self.old (incoming_of group view.now) }
        ensures after { self.new ≡ after self.old (incoming_of group view.now) }
    {
        let noted = noted_row(self.muid, self.peer, self.watched.as_slice(), group, view);
        self.note(noted, group, view);
        noted
    }

    // Applies a message that is noted as `noted`.
    fn note(&mut self, noted: Noted, group: U4, view: &CiView<'_>)
        requires { IsView view.now }
        ensures { self.new ≡ after_by noted self.old (incoming_of group view.now) }
    {
        match noted {
            Noted::Other => {}
            Noted::Peer => self.peer = Muid::new(view.source),
            Noted::Gone => {
                self.peer = None;
                hold(self.watched.as_mut_slice(), noted, group, view);
            }
            Noted::Told(_) => hold(self.watched.as_mut_slice(), noted, group, view),
            Noted::Inventory => hold(self.watched.as_mut_slice(), noted, group, view),
        }
    }

    /// Returns the number of watches, at most 64 (own rule).
    pub fn watches(&self) -> usize
        ensures value { result ≡ length self.now.watched }
        ensures few { result ≤ 64 }
    {
        self.watched.len()
    }

    /// Returns the group on which a request is sent (own rule): the group of the watch, or for Discovery the
    /// group of watch 0. The group is 0 if there is no such watch.
    pub fn group_asked(&self, what: Ask) -> U4
        ensures { result ≡ group_asked (watches_of self.now) what }
    {
        match what {
            Ask::Discover => self.group_of(0),
            Ask::Inquire(k) => self.group_of(k),
            Ask::On(k) => self.group_of(k),
            Ask::Off(k) => self.group_of(k),
        }
    }

    fn group_of(&self, k: usize) -> U4
        ensures { result ≡ group_of_watch (slice_get (watches_of self.now) k) }
    {
        match self.watched.get(k) {
            Some(watched) => watched.watch.group,
            None => U4::low_bits(0),
        }
    }

    /// Returns whether the peer last said that the profile of watch `k` is enabled (M2-101-UM, profile
    /// configuration). Watches are counted from 0. Returns `None` exactly if nothing is known.
    pub fn holds(&self, k: usize) -> Option<bool>
        requires { k < length self.now.watched }
        ensures { option_map (λ watched. watched.held) (slice_get self.now.watched k) ≡ Some result }
    {
        self.watched[k].held
    }

    /// Returns the peer's MUID, below 2^28 (M2-101-UM, MUID), or `None` exactly if no peer is known.
    pub fn peer(&self) -> Option<u32>
        ensures value { result ≡ self.now.peer }
        ensures fits { IfSome result (λ muid. muid < 2 ^ 28) }
    {
        match self.peer {
            Some(muid) => Some(muid.get()),
            None => None,
        }
    }
}
