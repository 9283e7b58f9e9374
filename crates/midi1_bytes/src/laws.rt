// Laws that hold for all streams of bytes. The bytes are listed newest first.
ghost use Rattle.std.specs.Prelude.{◌≡◌, [], ◌∷◌, reverse, Some, None};
ghost use Rattle.voice_messages.specs.declared.voice1.Voice1.TheVariants as voice1;
ghost use Rattle.voice_messages.specs.declared.voice1.System.TheVariants as system;
ghost use Rattle.midi1_bytes.specs.Fronts.{first_voice};
ghost use Rattle.midi1_bytes.specs.Laws.{
  CompletedMessagesAreInRange,
  ParsedBytesAreTheDefinition,
  RunningStatusIsThatOfTheMessages,
  StatusesThatRunCanBeLeftOut,
  WrittenMessagesAreReadAgain,
};
ghost use Rattle.midi1_bytes.specs.Messages.{voice, real_time};
ghost use Rattle.midi1_bytes.specs.Steps.{completed};

/// Proves that written messages are read back after any bytes that leave nothing open, and that they leave
/// nothing open.
pub fn written_messages_are_read_again()
    ensures { WrittenMessagesAreReadAgain }
{}

/// Proves that messages are read back, and leave nothing open, if they are written without each status byte
/// that equals the running status.
///
/// The running status may be that of some last bytes of the stream alone, as long as it is that of all its
/// bytes if it is set; and then this stays so. A system message or an exclusive is written whole, something
/// is written for each message, and a status byte that is written doesn't equal the running status.
pub fn statuses_that_run_can_be_left_out()
    ensures { StatusesThatRunCanBeLeftOut }
{}

/// Proves that the bytes written for messages depend only on the running status, not on the bytes before
/// them. A voice message sets the running status to its status byte, a system common message or an
/// exclusive ends it, and a Real Time message leaves it unchanged.
pub fn running_status_is_that_of_the_messages()
    ensures { RunningStatusIsThatOfTheMessages }
{}

/// Proves that the fields of the message that a byte completes are in range.
pub fn completed_messages_are_in_range()
    ensures { CompletedMessagesAreInRange }
{}

/// Proves that a parser agrees with the definition that looks back over all the bytes before each byte,
/// whatever the limit. The parser takes the bytes of a stream, each with its offset, and returns for each
/// byte what the definition says. It begins in the state after no bytes, and one more byte turns the state
/// after some bytes into the state after all of them. At the end it returns what is open there.
pub fn parsed_bytes_are_the_definition()
    ensures { ParsedBytesAreTheDefinition }
{}

/// Proves a row: a clock stands between the data bytes of a note under running status, and the bytes
/// complete a note, the clock, and a note.
pub fn a_clock_stands_between_data_bytes()
    ensures { completed (reverse (0x90 ∷ 0x3c ∷ 0x64 ∷ 0x3e ∷ 0xf8 ∷ 0x64 ∷ [])) ≡
        voice (voice1.NoteOn 0 0x3c 0x64)
        ∷ real_time system.Clock
        ∷ voice (voice1.NoteOn 0 0x3e 0x64)
        ∷ [] }
{}

/// Proves rows for the message at the front of some bytes. The bytes begin with a note on that has its
/// status byte or comes under running status, whatever follows it. They don't if a clock comes between its
/// bytes, or if its last byte is missing. A program change has one data byte, and another byte must follow
/// it.
#[tactic(auto, unfolding(crate::specs::Sorts::sort_of))]
pub fn bytes_begin_with_whole_voice_messages()
    ensures with_status { first_voice None (0x90 ∷ 0x3c ∷ 0x64 ∷ 0x3e ∷ []) ≡
        Some (voice1.NoteOn 0 0x3c 0x64) }
    ensures under_running_status { first_voice (Some 0x90) (0x3c ∷ 0x64 ∷ 0xf8 ∷ []) ≡
        Some (voice1.NoteOn 0 0x3c 0x64) }
    ensures without_status { first_voice None (0x3c ∷ 0x64 ∷ []) ≡ None }
    ensures with_clock { first_voice None (0x90 ∷ 0x3c ∷ 0xf8 ∷ 0x64 ∷ []) ≡ None }
    ensures cut { first_voice (Some 0x90) (0x3c ∷ []) ≡ None }
    ensures program { first_voice None (0xc0 ∷ 0x05 ∷ 0x90 ∷ []) ≡ Some (voice1.Program 0 5) }
    ensures last { first_voice None (0xc0 ∷ 0x05 ∷ []) ≡ None }
{}
