// Laws that follow from the definitions alone.
ghost use Rattle.std.specs.Prelude.{
  ◌≡◌,
  ◌≢◌,
  ◌<◌,
  ◌≤◌,
  ◌+◌,
  ◌-◌,
  ◌==◌,
  if◌then◌else◌,
  ℕ,
  List,
  true,
  false,
  length,
  slice_index,
};
ghost use Rattle.std.specs.List.{All};
ghost use Rattle.system_stream.specs.Cut.{message_at, part_count, sent, sent_part};
ghost use Rattle.system_stream.specs.Joining.{text_answer, opened_text, state_over};
ghost use Rattle.system_stream.specs.Layout.{IsWritten, has_bad_format, message_in, packet_of};
ghost use Rattle.system_stream.specs.Parts.{Part, answer_at, held, whole};
ghost use Rattle.system_stream.specs.Texts.{is_text, limit_of};
ghost use Rattle.system_stream.specs.declared.message.StreamMessage.{StreamMessage};
ghost use Rattle.system_stream.specs.declared.texts.TextKind.{TextKind};

/// Proves that the packet of a message is read as that message, if its fields fit their places.
pub fn written_messages_are_read()
    ensures format { (message : StreamMessage) → IsWritten message →
        has_bad_format (packet_of message) ≡ false }
    ensures message { (message : StreamMessage) → IsWritten message →
        message_in (packet_of message) ≡ message }
{}

/// Proves that joining any parts of a kind, one after the other, agrees with the definition that looks back
/// over all of them: on which text is open, and on the result of one more part.
pub fn joined_parts_are_the_definition()
    ensures open_text { (kind : TextKind) (past : List Part) →
        (state_over kind past).text ≡ opened_text kind past }
    ensures answers { (kind : TextKind) (past : List Part) (part : Part) →
        text_answer (state_over kind past) part ≡ answer_at kind past part }
{}

/// Proves that the packets into which a text is cut are joined to that text again, if the text doesn't end
/// in a zero byte and its bytes are a text of its kind. The last packet returns the text, and the packets
/// before it are stored, whatever came before them.
pub fn cut_text_is_joined()
    ensures { (kind : TextKind) (block : ℕ) (text : List ℕ) →
        0 < length text → length text ≤ limit_of kind →
        slice_index text (length text - 1) ≢ 0 → is_text kind text ≡ true →
        (past : List Part) (k : ℕ) → k < part_count kind text →
        answer_at kind (sent kind block text past k) (sent_part kind block text k) ≡
        (if k + 1 == part_count kind text then whole text else held) }
{}

/// Proves that the packets into which a text is cut are read as its parts.
pub fn cut_packets_are_read()
    ensures { (kind : TextKind) (block : ℕ) (text : List ℕ) → block < 256 → All (λ byte. byte < 256) text →
        (k : ℕ) → k < part_count kind text →
        message_in (packet_of (message_at kind block text k)) ≡ message_at kind block text k }
{}
