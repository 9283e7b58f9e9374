// Replies to stream messages.
ghost use Rattle.std.specs.Prelude.{◌≡◌, ◌<◌, ◌≤◌, ◌+◌, ◌*◌, ◌^◌, [], ◌∷◌, length, slice_get};
ghost use Rattle.std.specs.List.{All};
ghost use Rattle.system_stream.specs.Layout.{FitsPlaces, flag, packet_of};
ghost use Rattle.system_stream.specs.Texts.{limit_of};
ghost use Rattle.function_blocks.specs.Blocks.{IsBlock};
ghost use Rattle.function_blocks.specs.ForProofs.Pushing.{Pushes};
ghost use Rattle.function_blocks.specs.Replies.{
  asked,
  block_info_of,
  block_replies,
  notice_of,
  replies_from,
  replies_of_named,
  requested,
  text_packets,
};

use crate::endpoint::is_supported;
use crate::setup::{Block, Config, Identity};
use crate::whole::Setup;
use system_stream::{StreamMessage, TextKind, cut_text, write};
use ump_grammar::Replies;
use ump_grammar::fields::bits;

// The block number that stands for all blocks.
const ALL_BLOCKS: u8 = 255;

// Returns whether this bit of a filter is set.
pub(crate) fn asks(filter: u8, bit: u32) -> bool
    requires { bit < 8 }
    ensures { result ≡ flag filter bit }
{
    bits(u32::from(filter), bit, 1) == 1
}

/// Adds the packet of a message.
#[tactic(auto, using(crate::proofs::PushLaws::pushes_one))]
pub(crate) fn push_message(replies: &mut Replies, message: &StreamMessage)
    requires message { FitsPlaces message.now }
    requires room { length replies.old + 4 ≤ 1024 }
    ensures { Pushes (packet_of message.now ∷ []) replies.old replies.new }
{
    replies.push(&write(message));
}

/// Adds the packet of a message if it is asked for.
pub(crate) fn push_asked(replies: &mut Replies, is_asked: bool, message: &StreamMessage)
    requires message { FitsPlaces message.now }
    requires room { length replies.old + 4 ≤ 1024 }
    ensures { Pushes (asked is_asked (packet_of message.now ∷ [])) replies.old replies.new }
{
    if is_asked {
        push_message(replies, message);
    }
}

/// Adds the packets of a text.
fn push_text(replies: &mut Replies, kind: TextKind, block: u8, text: &[u8])
    requires some { 0 < length text.now }
    requires limit { length text.now ≤ limit_of kind }
    requires room { length replies.old + 28 ≤ 1024 }
    ensures pushes { Pushes (text_packets kind block text.now) replies.old replies.new }
    ensures few { length (text_packets kind block text.now) ≤ 7 }
{
    let mut k = 0;
    while let Some(packet) = cut_text(kind, block, text, k) {
        replies.push(&packet);
        k += 1;
    }
}

/// Adds the packets of a text if it is asked for.
fn push_asked_text(replies: &mut Replies, is_asked: bool, kind: TextKind, block: u8, text: &[u8])
    requires some { 0 < length text.now }
    requires limit { length text.now ≤ limit_of kind }
    requires room { length replies.old + 28 ≤ 1024 }
    ensures pushes { Pushes (asked is_asked (text_packets kind block text.now)) replies.old replies.new }
    ensures few { length (asked is_asked (text_packets kind block text.now)) ≤ 7 }
{
    if is_asked {
        push_text(replies, kind, block, text);
    }
}

fn block_info(number: u8, block: &Block) -> StreamMessage
    requires block { IsBlock block.now }
    requires number { number < 2 ^ 7 }
    ensures value { result ≡ block_info_of number block.now }
    ensures fits { FitsPlaces result }
{
    StreamMessage::BlockInfo {
        active: block.active,
        block: number,
        hint: block.hint,
        midi1: block.midi1,
        direction: block.direction,
        first: block.first,
        count: block.count,
        ci: block.ci,
        sysex8: block.sysex8,
    }
}

/// Adds the replies about one block that the filter asks for: the info for bit 0 and the name for bit 1.
fn push_block(replies: &mut Replies, filter: u8, number: u8, block: &Block)
    requires block { IsBlock block.now }
    requires number { number < 2 ^ 7 }
    requires room { length replies.old + 32 ≤ 1024 }
    ensures pushes { Pushes (block_replies filter number block.now) replies.old replies.new }
    ensures few { length replies.new ≤ length replies.old + 32 }
{
    push_asked(replies, asks(filter, 0), &block_info(number, block));
    push_asked_text(
        replies,
        asks(filter, 1),
        TextKind::BlockName,
        number,
        block.name.as_slice(),
    );
}

/// Adds the replies about each block that the filter asks for, in order of number.
fn push_blocks(replies: &mut Replies, filter: u8, blocks: &[Block])
    requires blocks { All IsBlock blocks.now }
    requires few { length blocks.now ≤ 32 }
    requires empty { length replies.old ≡ 0 }
    ensures { Pushes (replies_from filter 0 blocks.now) replies.old replies.new }
{
    for (number, block) in blocks.iter().enumerate() {
        push_block(replies, filter, number as u8, block);
    }
}

fn notice(protocol: u8) -> StreamMessage
    ensures value { result ≡ notice_of protocol }
    ensures fits { FitsPlaces result }
{
    StreamMessage::ConfigNotice { protocol, jr: 0 }
}

impl Setup {
    ghost use Rattle.std.specs.Prelude.{IsTrue, ◌↔◌};
    ghost use Rattle.ump_grammar.specs.Replies.{AddsPackets};
    ghost use Rattle.function_blocks.specs.Replies.{
      blocks_replies,
      discovery_replies,
      identity_message as identity_message_of,
      info_of,
      protocol_after,
      stream_replies,
    };

    /// Adds the replies to a stream message (M2-104-UM, UMP stream messages) to `replies`, which is empty,
    /// and returns whether there are any. The call doesn't allocate. The replies have at most 1,024 words: an
    /// info and seven packets of a name for each of 32 blocks.
    ///
    /// The replies depend on the message:
    /// - Endpoint Discovery: the info, the identity, the name, the product instance id and a notice of the
    ///   protocol in force, each if the filter asks for it.
    /// - A request for a protocol: a notice of the protocol then in force. If the setup supports the
    ///   requested protocol, that protocol comes into force first.
    /// - Function Block Discovery: the info and the name, each if the filter asks for it, of the block with
    ///   this number, or of all blocks for the number 255. If no block has the number, there are no replies.
    /// - Any other message: no replies.
    pub fn answer(
        &self,
        message: &StreamMessage,
        config: &mut Config,
        replies: &mut Replies,
    ) -> bool
        requires { replies.old ≡ [] }
        ensures replies { AddsPackets (stream_replies self.now config.old.protocol message.now)
            [] replies.new }
        ensures protocol { config.new.protocol ≡
            protocol_after self.now config.old.protocol message.now }
        ensures some { IsTrue result ↔
            (0 < length (stream_replies self.now config.old.protocol message.now)) }
    {
        self.push_replies(message, config, replies);
        !replies.words().is_empty()
    }

    fn push_replies(&self, message: &StreamMessage, config: &mut Config, replies: &mut Replies)
        requires { length replies.old ≡ 0 }
        ensures replies { Pushes (stream_replies self.now config.old.protocol message.now)
            replies.old replies.new }
        ensures protocol { config.new.protocol ≡
            protocol_after self.now config.old.protocol message.now }
    {
        match message {
            StreamMessage::Discovery { filter, .. } => {
                self.push_discovery(*filter, config.protocol, replies);
            }
            StreamMessage::ConfigRequest { protocol, .. } => {
                config.protocol = self.protocol_after_request(config.protocol, *protocol);
                push_message(replies, &notice(config.protocol));
            }
            StreamMessage::BlockDiscovery { block, filter } => {
                self.push_named_blocks(*block, *filter, replies);
            }
            _ => {}
        }
    }

    // Returns the protocol in force after a request for `wanted`.
    fn protocol_after_request(&self, in_force: u8, wanted: u8) -> u8
        ensures { result ≡ requested self.now in_force wanted }
    {
        if is_supported(self.endpoint.midi1, self.endpoint.midi2, u32::from(wanted)) {
            wanted
        } else {
            in_force
        }
    }

    fn info(&self) -> StreamMessage
        ensures value { result ≡ info_of self.now }
        ensures fits { FitsPlaces result }
    {
        StreamMessage::Info {
            major: 1,
            minor: 1,
            fixed: self.endpoint.fixed,
            blocks: self.block_count(),
            midi2: self.endpoint.midi2,
            midi1: self.endpoint.midi1,
            receives_jr: false,
            sends_jr: false,
        }
    }

    fn identity_message(&self) -> StreamMessage
        ensures value { result ≡ identity_message_of self.now }
        ensures fits { FitsPlaces result }
    {
        let Identity {
            manufacturer,
            family,
            model,
            revision,
        } = self.identity();
        StreamMessage::Identity {
            manufacturer,
            family,
            model,
            revision,
        }
    }

    fn push_discovery(&self, filter: u8, protocol: u8, replies: &mut Replies)
        requires { length replies.old ≡ 0 }
        ensures { Pushes (discovery_replies self.now protocol filter) replies.old replies.new }
    {
        let name = self.endpoint.name.as_slice();
        let id = self.endpoint.id.as_slice();
        push_asked(replies, asks(filter, 0), &self.info());
        push_asked(replies, asks(filter, 1), &self.identity_message());
        push_asked_text(replies, asks(filter, 2), TextKind::EndpointName, 0, name);
        push_asked_text(replies, asks(filter, 3), TextKind::ProductId, 0, id);
        push_asked(replies, asks(filter, 4), &notice(protocol));
    }

    fn push_named_blocks(&self, number: u8, filter: u8, replies: &mut Replies)
        requires { length replies.old ≡ 0 }
        ensures { Pushes (blocks_replies self.now number filter) replies.old replies.new }
    {
        if number == ALL_BLOCKS {
            push_blocks(replies, filter, self.blocks.as_slice());
        } else {
            self.push_one_block(number, filter, replies);
        }
    }

    // Adds the replies about the block of this number that the filter asks for, if there is such a block.
    fn push_one_block(&self, number: u8, filter: u8, replies: &mut Replies)
        requires { length replies.old ≡ 0 }
        ensures { Pushes (replies_of_named filter number (slice_get self.now.blocks number))
            replies.old replies.new }
    {
        match self.block(number) {
            Some(block) => push_block(replies, filter, number, block),
            None => {}
        }
    }
}
