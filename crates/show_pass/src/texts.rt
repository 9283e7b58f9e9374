// The texts that the stream packets of a recording carry.
ghost use Rattle.std.specs.Prelude.{◌≡◌, None, Some};
ghost use Rattle.std.specs.Option.{option_map};
ghost use Rattle.ump_grammar.specs.Ranges.{IsPacket};
ghost use Rattle.system_stream.specs.Joining.{after_part, text_answer, idle};
ghost use Rattle.system_stream.specs.declared.texts.TextKind.TheVariants as kinds;
ghost use Rattle.midi_lines.specs.TextLines.{joined_text};
ghost use Rattle.pass_loop.specs.Places.{Puts};
ghost use Rattle.show_pass.specs.Texts.{AreOfTheirKinds, line_of_text, new_texts, part_view, text_in, text_of, text_puts, texts_after};

use midi_lines::{Line, fill_text_line};
use pass_loop::{Outputs, RunEnd};
use system_stream::{StreamMessage, TextJoin, TextKind, read};
use ump_grammar::Packet;
use voice_messages::Form;

/// The texts of each kind, joined from their parts.
#[derive(Drop)]
pub(crate) struct Texts {
    names: TextJoin,
    products: TextJoin,
    blocks: TextJoin,
}

// A part of a text, borrowed from its message.
#[derive(Clone, Copy)]
struct TextPart<'a> {
    kind: TextKind,
    form: Form,
    block: u8,
    bytes: &'a [u8],
}

impl Texts {
    /// Creates texts of which none is open.
    pub(crate) fn new() -> Texts
        ensures { result ≡ new_texts }
    {
        Texts {
            names: TextJoin::new(TextKind::EndpointName),
            products: TextJoin::new(TextKind::ProductId),
            blocks: TextJoin::new(TextKind::BlockName),
        }
    }
}

// Returns the part of a text that a message carries, if it carries one.
fn text_part(message: &StreamMessage) -> Option<TextPart<'_>>
    ensures { option_map part_view result ≡ text_in message.now }
{
    match message {
        StreamMessage::Name { form, text } => Some(TextPart {
            kind: TextKind::EndpointName,
            form: *form,
            block: 0,
            bytes: text,
        }),
        StreamMessage::ProductId { form, text } => Some(TextPart {
            kind: TextKind::ProductId,
            form: *form,
            block: 0,
            bytes: text,
        }),
        StreamMessage::BlockName { form, block, text } => Some(TextPart {
            kind: TextKind::BlockName,
            form: *form,
            block: *block,
            bytes: text,
        }),
        _ => None,
    }
}

// Joins a part to the texts of its kind, and writes the line for the text that it ends, if it ends one.
fn put_joined<O: Outputs>(
    join: &mut TextJoin,
    part: &TextPart<'_>,
    line: &mut Line,
    outputs: &mut O,
) -> Result<(), RunEnd>
    requires kind { join.old.kind ≡ part.now.kind }
    ensures after { join.new ≡ after_part join.old (part_view part.now).1 }
    ensures puts { Puts (text_puts (joined_text part.now.kind (text_answer join.old (part_view part.now).1)))
        (O.places outputs.old) (O.places outputs.new) result }
{
    let joined = join.part(part.form, part.block, part.bytes);
    if fill_text_line(line, part.kind, &joined) {
        outputs.put_output(line.as_slice())
    } else {
        Ok(())
    }
}

// Does the same as `put_joined` for a part of any kind.
fn put_part<O: Outputs>(
    texts: &mut Texts,
    part: &TextPart<'_>,
    line: &mut Line,
    outputs: &mut O,
) -> Result<(), RunEnd>
    requires kinds { AreOfTheirKinds texts.old }
    ensures after { texts.new ≡ texts_after (Some (part_view part.now)) texts.old }
    ensures puts { Puts (text_puts (line_of_text (Some (part_view part.now)) texts.old))
        (O.places outputs.old) (O.places outputs.new) result }
{
    match part.kind {
        TextKind::EndpointName => put_joined(&mut texts.names, part, line, outputs),
        TextKind::ProductId => put_joined(&mut texts.products, part, line, outputs),
        TextKind::BlockName => put_joined(&mut texts.blocks, part, line, outputs),
    }
}

/// Handles one more packet, and writes the line for the text that it ends, if it ends one, to the output.
/// `line` is overwritten.
pub(crate) fn put_text<O: Outputs>(
    texts: &mut Texts,
    line: &mut Line,
    packet: &Packet,
    outputs: &mut O,
) -> Result<(), RunEnd>
    requires packet { IsPacket packet.now }
    requires kinds { AreOfTheirKinds texts.old }
    ensures after { texts.new ≡ texts_after (text_of packet.now) texts.old }
    ensures puts { Puts (text_puts (line_of_text (text_of packet.now) texts.old))
        (O.places outputs.old) (O.places outputs.new) result }
{
    match packet {
        Packet::Stream { .. } => match read(packet) {
            Ok(message) => match text_part(&message) {
                Some(part) => put_part(texts, &part, line, outputs),
                None => Ok(()),
            },
            Err(_) => Ok(()),
        },
        _ => Ok(()),
    }
}
