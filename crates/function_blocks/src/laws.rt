// Laws over the definitions alone.
ghost use Rattle.std.specs.Prelude.{ℕ, ◌≡◌, ◌≤◌, ◌*◌, ◌∷◌, List, None, Some, length};
ghost use Rattle.std.specs.List.{All};
ghost use Rattle.ump_grammar.specs.Replies.{word_count};
ghost use Rattle.ump_grammar.specs.declared.packet.Packet.{Packet};
ghost use Rattle.system_stream.specs.declared.message.StreamMessage.{StreamMessage};
ghost use Rattle.function_blocks.specs.InForce.{message_read, protocol_at, replies_at};
ghost use Rattle.function_blocks.specs.Laws.{SetupsKeepTheRules};
ghost use Rattle.function_blocks.specs.Replies.{protocol_after, stream_replies};
ghost use Rattle.function_blocks.specs.Setups.{SetupData, IsSetup};

/// The replies to one message have at most 1,024 words for any setup, four for each packet: an info and seven
/// packets of a name for each of 32 blocks.
pub fn replies_are_few()
    ensures { (setup : SetupData) (protocol : ℕ) (message : StreamMessage) → IsSetup setup →
        4 * length (stream_replies setup protocol message) ≤ 1024 }
{}

/// Each reply is a packet of four words.
pub fn replies_have_four_words()
    ensures { (setup : SetupData) (protocol : ℕ) (message : StreamMessage) →
        All (λ packet. word_count packet ≡ 4) (stream_replies setup protocol message) }
{}

/// If the messages of any packets are answered one after the other, the protocol in force is the one that the
/// definition finds by looking back over all the packets, and the replies are those of the definition. A
/// packet without a message, such as one of a bad format, doesn't change the protocol.
pub fn protocol_follows_the_requests()
    ensures protocol { (setup : SetupData) (past : List Packet) (packet : Packet) (message : StreamMessage) →
        message_read packet ≡ Some message →
        protocol_after setup (protocol_at setup past) message ≡ protocol_at setup (packet ∷ past) }
    ensures replies { (setup : SetupData) (past : List Packet) (packet : Packet) (message : StreamMessage) →
        message_read packet ≡ Some message →
        stream_replies setup (protocol_at setup past) message ≡ replies_at setup past packet }
    ensures unread { (setup : SetupData) (past : List Packet) (packet : Packet) → message_read packet ≡ None →
        protocol_at setup (packet ∷ past) ≡ protocol_at setup past }
{}

/// The setup that a text gives keeps all rules (`Rule`). Each number is in its range, and each name is UTF-8
/// and short enough. There are at most 32 blocks and 64 profiles. No two active blocks with MIDI-CI share a
/// group, and no MUID appears twice. Each profile belongs to a block whose `ci` isn't 0 and applies at a
/// place of that block. No two profiles have the same block, place and id.
pub fn setups_keep_the_rules()
    ensures { SetupsKeepTheRules }
{}
