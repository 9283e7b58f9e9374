// Messages that were sent.
ghost use Rattle.std.specs.Prelude.{
  ◌≡◌,
  ◌<◌,
  ◌≤◌,
  ◌∷◌,
  ◌++◌,
  [],
  length,
  nat_lt,
  not,
  slice_get,
  vec_capacity,
  vec_len,
  IfOk,
};
ghost use Rattle.std.specs.Option.{option_map};

use ci_responder::CiMessage;
use small_types::NoMemory;
use std::alloc::Global;
use std::marker::Model;
use voice_messages::U4;

/// A message that was sent on a group.
#[derive(Debug, Drop)]
pub struct Sent {
    pub group: U4,
    /// The bytes of the message, from F0 to F7.
    pub bytes: CiMessage,
}

/// The most messages that one side sends.
const MOST_MESSAGES: usize = 1024;

/// The messages that one side has sent, by number. Memory for 1,024 is reserved.
#[derive(Drop)]
pub(crate) struct Messages {
    sent: Vec<Sent>,
}

impl Model for Messages {
    ghost use Rattle.std.specs.Prelude.{◌≤◌, List, vec_capacity};
    ghost use Rattle.ci_initiator.specs.declared.message.Sent.{Sent};

    ghost Value = { List Sent };

    ghost view = { λ m. m.sent.items };

    ghost invariant = { λ m. 1024 ≤ vec_capacity m.sent };
}

// Adds a message. Memory for it is reserved.
fn keep(messages: &mut Vec<Sent>, sent: Sent)
    requires { vec_len messages.old < vec_capacity messages.old }
    ensures items { messages.new.items ≡ messages.old.items ++ sent ∷ [] }
    ensures capacity { vec_capacity messages.old ≤ vec_capacity messages.new }
{
    match messages.push(sent) {
        Ok(()) => {}
        // Memory is reserved for 1,024 messages, and fewer are stored, so the push doesn't allocate.
        Err(_) => unreachable!(),
    }
}

impl Messages {
    /// Creates an empty list of messages.
    pub(crate) fn new(alloc: Global) -> Result<Messages, NoMemory>
        ensures { IfOk result (λ messages. messages ≡ []) }
    {
        match Vec::with_capacity(alloc, MOST_MESSAGES) {
            Ok(sent) => Ok(Messages { sent }),
            Err(_) => Err(NoMemory),
        }
    }

    /// Returns whether there are 1,024 messages.
    pub(crate) fn is_full(&self) -> bool
        ensures { result ≡ not (nat_lt (length self.now) 1024) }
    {
        self.sent.len() >= MOST_MESSAGES
    }

    /// Returns the message with this number, counted from 0.
    pub(crate) fn get(&self, number: usize) -> Option<&Sent>
        ensures { option_map (λ sent. sent.now) result ≡ slice_get self.now number }
    {
        self.sent.get(number)
    }

    /// Adds a message.
    pub(crate) fn push(&mut self, sent: Sent)
        requires { length self.old < 1024 }
        ensures { self.new ≡ self.old ++ sent ∷ [] }
    {
        keep(&mut self.sent, sent);
    }
}
