// The names in the header by their numbers, without their prefix.
ghost use Rattle.std.specs.Prelude.{◌≡◌, map};
ghost use Rattle.c_answers.specs.Numbers.{number_of};
ghost use Rattle.c_endpoint.specs.Numbers.{heard_number};
ghost use Rattle.c_pure.specs.Names.{heard_names, kind_names, status_names, AreShort, IsNamed};
ghost use Rattle.c_pure.specs.Words.{heard_word, kind_word, line_number, status_word, AreWordsOf};

use c_answers::{Status, put_bytes};

// The names of the statuses, from 0 on.
const STATUSES: [&str; 24] = [
    "DONE",
    "NO_MEMORY",
    "HANDLE_CLOSED",
    "ALREADY_OPEN",
    "BAD_ROOM",
    "BAD_WORD_COUNT",
    "SMALL_BUFFER",
    "BAD_COUNT",
    "HIGH_BIT",
    "DATA_INCREMENT",
    "DATA_DECREMENT",
    "EXCLUSIVE_TOO_LONG",
    "BAD_GROUP",
    "NOTHING",
    "OTHER_KIND",
    "BAD_STREAMS",
    "SETUP_SYNTAX",
    "SETUP_RULE",
    "BAD_BITS",
    "BAD_VALUE",
    "STATE_FULL",
    "BAD_FLAGS",
    "BAD_SIZE",
    "BAD_CHANNEL",
];

// The names of the kinds of lines, from 0 on.
const KINDS: [&str; 22] = [
    "NO_LINE",
    "UTILITY",
    "STREAM",
    "RESERVED",
    "DATA8",
    "FLEX",
    "NOTE_ATTRIBUTE",
    "NOTE_CONTROLLER",
    "NOTE_BEND",
    "NOTE_MANAGEMENT",
    "NULL_PARAMETER",
    "RELATIVE_PARAMETER",
    "MISPLACED_CONTROLLER",
    "FINE_CONTROLLER",
    "STRAY_EXCLUSIVE",
    "CUT_EXCLUSIVE",
    "OPEN_EXCLUSIVE",
    "STRAY",
    "UNDEFINED",
    "CUT_MESSAGE",
    "OPEN_MESSAGE",
    "IGNORED_DATA_ENTRY",
];

// The names of what an endpoint did with a message, from 0 on.
const HEARD: [&str; 18] = [
    "NOTHING",
    "NOT_CI",
    "SHORT",
    "BAD_ADDRESS",
    "RESERVED_MUID",
    "NO_BLOCK",
    "SILENT",
    "COLLISION",
    "OLD_VERSION",
    "NOT_OURS",
    "MOVED",
    "REPORT",
    "BROADCAST",
    "ANSWERED",
    "PASSED",
    "NAK",
    "NO_ANSWER",
    "BAD_FORMAT",
];

// Writes the name with this number, and the length of the name in bytes.
fn put_name(names: &[&str], number: u32, text: &mut [u8], length: &mut usize) -> Status
    ensures { IsNamed (map (λ name. name.now) names.now) number
        text.old (number_of result) text.new length.new }
{
    *length = 0;
    let Some(name) = names.get(number as usize) else {
        return Status::Nothing;
    };
    if text.len() < name.len() {
        return Status::SmallBuffer;
    }
    *length = put_bytes(name.as_bytes(), text);
    Status::Done
}

/// Writes the name of a status to the front of the buffer, as the header has it after its prefix, and the
/// name's length in bytes to `length` (own rule). Returns `Nothing` if no status has the number. Returns
/// `SmallBuffer` if the name doesn't fit, which never happens with 32 bytes. In both cases nothing is written
/// to the buffer, and the length is 0.
pub fn status_name(number: u32, text: &mut [u8], length: &mut usize) -> Status
    ensures { IsNamed status_names number text.old (number_of result) text.new length.new }
{
    put_name(&STATUSES, number, text, length)
}

/// Writes the name of a kind of line, in the same way as `status_name`.
pub fn kind_name(number: u32, text: &mut [u8], length: &mut usize) -> Status
    ensures { IsNamed kind_names number text.old (number_of result) text.new length.new }
{
    put_name(&KINDS, number, text, length)
}

/// Writes the name of what an endpoint did with a message, in the same way as `status_name`.
pub fn heard_name(number: u32, text: &mut [u8], length: &mut usize) -> Status
    ensures { IsNamed heard_names number text.old (number_of result) text.new length.new }
{
    put_name(&HEARD, number, text, length)
}

/// Each of these names fits in a buffer of 32 bytes.
pub fn words_have_at_most_32_bytes()
    ensures statuses { AreShort status_names }
    ensures kinds { AreShort kind_names }
    ensures heard { AreShort heard_names }
{}

/// The name at the number of each status is that status's own, and there are no other names. The same is true
/// for the kinds of lines, where 0 stands for no line, and for what an endpoint did with a message.
pub fn words_are_those_of_the_numbers()
    ensures statuses { AreWordsOf number_of status_word status_names }
    ensures kinds { AreWordsOf line_number kind_word kind_names }
    ensures heard { AreWordsOf heard_number heard_word heard_names }
{}
