// The responder.
ghost use Rattle.std.specs.Prelude.{◌≡◌, ◌<◌, ◌≤◌, [], true, length, is_some, IfOk, IfSome};
ghost use Rattle.ump_grammar.specs.Replies.{AddsPackets};
ghost use Rattle.ci_messages.specs.Writing.{IsView};
ghost use Rattle.ci_responder.specs.ForProofs.Actions.{Suits, heard_of};
ghost use Rattle.ci_responder.specs.Held.{
  after,
  blocks_by,
  change_at,
  heard_in,
  message_in,
  muid_in,
  next,
  replies_in,
  sender_of,
  states_by,
};
ghost use Rattle.ci_responder.specs.History.{responder_at};
ghost use Rattle.ci_responder.specs.Keys.{state_in};
ghost use Rattle.ci_responder.specs.Messages.{said_in, received_of};
ghost use Rattle.ci_responder.specs.Replies.{message_of_reply, reply_to};
ghost use Rattle.ci_responder.specs.Reset.{IsOf};

use crate::action::Action;
use crate::blocks::{block_of, muid_of, spend};
use crate::heard::Heard;
use crate::kept::CiBlock;
use crate::keys::Key;
use crate::message::CiMessage;
use crate::opening::{first_states, kept_blocks};
use crate::owner::Owner;
use crate::packets::push_message;
use crate::profiles::{set, state};
use crate::reset::{reset_blocks, reset_states};
use ci_messages::CiView;
use function_blocks::{Identity, Setup};
use indexmap::IndexMap;
use small_types::{NoMemory, ShortList, U4};
use std::alloc::Global;
use std::marker::Model;
use ump_grammar::Replies;

/// Answers MIDI-CI messages for the function blocks of a setup (M2-101-UM). In contracts its value is the
/// number of used-up MUIDs for each block, and for each profile whether it is enabled.
#[derive(Drop)]
pub struct Responder {
    blocks: Vec<CiBlock>,
    pub(crate) states: IndexMap<Key, bool>,
    pub(crate) identity: Identity,
    pub(crate) product_id: ShortList<u8, 42>,
    pub(crate) room: u32,
}

impl Model for Responder {
    ghost use Rattle.ci_responder.specs.Held.{Held, IsHeld};

    ghost Value = { Held };

    ghost view = { λ r. record {
      blocks = r.blocks.items;
      states = r.states.entries;
      identity = r.identity;
      product_id = r.product_id;
      room = r.room;
    } };

    ghost invariant = { λ r. IsHeld (record {
      blocks = r.blocks.items;
      states = r.states.entries;
      identity = r.identity;
      product_id = r.product_id;
      room = r.room;
    }) };
}

impl Responder {
    /// Creates a responder that has used up no MUID, with the profiles as the setup has them (M2-101-UM).
    /// `room` is the largest System Exclusive message that the responder says it accepts, 6 to 1,048,576
    /// bytes. Allocates all the memory that the responder will ever need. Returns `NoMemory` if there isn't
    /// enough.
    pub fn new(alloc: Global, setup: &Setup, room: u32) -> Result<Responder, NoMemory>
        requires least { 6 ≤ room }
        requires most { room ≤ 1048576 }
        ensures { IfOk result (λ responder. responder ≡ responder_at setup.now room []) }
    {
        let blocks = kept_blocks(alloc, setup)?;
        let states = first_states(alloc, setup)?;
        let mut product_id = ShortList::new();
        product_id.extend(setup.product_id().as_bytes());
        Ok(Responder {
            blocks,
            states,
            identity: setup.identity(),
            product_id,
            room,
        })
    }

    /// Returns the responder to the state in which `new` creates it with the same setup and `room` (own
    /// rule): no MUID is used up, and each profile is enabled or disabled as the setup says. `setup` must be
    /// the one that was passed to `new`. The call doesn't allocate.
    pub fn reset(&mut self, setup: &Setup)
        requires { IsOf setup.now self.old }
        ensures { self.new ≡ responder_at setup.now self.old.room [] }
    {
        reset_blocks(self.blocks.as_mut_slice());
        reset_states(&mut self.states, setup.profiles());
    }

    /// Returns the MUID in force of a function block, counted from 0 (M2-101-UM, MUID). The MUID is below
    /// 0FFFFF00. Returns `None` exactly if there is no such block, or if it has no MIDI-CI or has used up its
    /// MUIDs.
    pub fn muid(&self, block: u8) -> Option<u32>
        ensures value { result ≡ muid_in self.now.blocks block }
        ensures fits { IfSome result (λ muid. muid < 0x0FFFFF00) }
    {
        match muid_of(self.blocks.as_slice(), block as usize) {
            Some(muid) => Some(muid.get()),
            None => None,
        }
    }

    /// Returns whether a profile is enabled (M2-101-UM, profile configuration), or `None` exactly if the
    /// setup doesn't name the profile.
    pub fn profile_is_on(&self, key: &Key) -> Option<bool>
        ensures { result ≡ state_in self.now.states key.now }
    {
        state(&self.states, key)
    }

    /// Hears a message that `ci_messages::read` returned, on the message's group (M2-101-UM). Adds the
    /// packets of the reply to `replies`, which is empty. The reply is for the same group and has at most 114
    /// words. Returns what the block did with the message. The call doesn't allocate.
    pub fn hear(&mut self, group: U4, view: &CiView<'_>, replies: &mut Replies) -> Heard
        requires view { IsView view.now }
        requires empty { replies.old ≡ [] }
        ensures heard { result ≡ heard_in self.old (received_of group view.now) }
        ensures after { self.new ≡ after self.old (received_of group view.now) }
        ensures replies { AddsPackets (replies_in self.old (received_of group view.now)) [] replies.new }
        ensures few { length replies.new ≤ 114 }
    {
        let (heard, reply) = self.hear_message(group, view);
        if let Some(message) = reply {
            push_message(replies, group, &message);
        }
        heard
    }

    /// Hears a message as `hear` does (M2-101-UM). Returns what the block did with the message, and the reply
    /// as a message for the same group, or `None` if there is no reply.
    pub fn hear_message(&mut self, group: U4, view: &CiView<'_>) -> (Heard, Option<CiMessage>)
        requires { IsView view.now }
        ensures heard { result.0 ≡ heard_in self.old (received_of group view.now) }
        ensures after { self.new ≡ after self.old (received_of group view.now) }
        ensures reply { result.1 ≡ message_in self.old (received_of group view.now) }
    {
        let Some(number) = block_of(self.blocks.as_slice(), group) else {
            return (Heard::NoBlock, None);
        };
        let Some(muid) = muid_of(self.blocks.as_slice(), number) else {
            return (Heard::Silent, None);
        };
        let owner = Owner {
            group,
            block: number as u8,
            muid,
        };
        let action = self.action(&owner, view);
        self.act(&owner, view, action)
    }

    // Uses up the block's MUID, so that the block takes the next of its list or becomes silent.
    fn take_next_muid(&mut self, owner: &Owner)
        requires { is_some (muid_in self.old.blocks owner.now.block) ≡ true }
        ensures { self.new ≡ record self.old { blocks = change_at next owner.now.block self.old.blocks } }
    {
        spend(self.blocks.as_mut_slice(), owner.block as usize);
    }

    // Carries out an action. Returns how the message is heard, and the reply.
    fn act(
        &mut self,
        owner: &Owner,
        view: &CiView<'_>,
        action: Action,
    ) -> (Heard, Option<CiMessage>)
        requires view { IsView view.now }
        requires in_force { is_some (muid_in self.old.blocks owner.now.block) ≡ true }
        requires suits { Suits self.old.states owner.now.block (received_of owner.now.group view.now) action }
        ensures heard { result.0 ≡ heard_of action }
        ensures after { self.new ≡ record self.old {
          blocks = blocks_by (heard_of action) owner.now.block self.old.blocks;
          states = states_by (heard_of action) (said_in view.now.body) owner.now.block
              (received_of owner.now.group view.now) self.old.states;
        } }
        ensures reply { result.1 ≡ message_of_reply
            (reply_to (sender_of self.old owner.now.block owner.now.muid) (heard_of action)
            (received_of owner.now.group view.now)) }
    {
        match action {
            Action::PassOver(heard) => (heard, None),
            Action::Invalidate => {
                let reply = self.invalidate(owner, view);
                self.take_next_muid(owner);
                (Heard::Collision, Some(reply))
            }
            Action::Move => {
                self.take_next_muid(owner);
                (Heard::Moved, None)
            }
            Action::TellDevice { path } => {
                (Heard::Answered, Some(self.tell_device(owner, view, path)))
            }
            Action::TellProductId => (Heard::Answered, Some(self.tell_product_id(owner, view))),
            Action::TellProfiles => (Heard::Answered, Some(self.tell_profiles(owner, view))),
            Action::Switch(switch) => {
                let reply = self.report(owner, view, switch.id, switch.on);
                set(&mut self.states, switch.number, switch.on);
                (Heard::Answered, Some(reply))
            }
            Action::Nak => (Heard::Nak, Some(self.nak(owner, view))),
        }
    }
}
