// Joins the parts of a text.
ghost use Rattle.std.specs.Prelude.{◌≡◌, IsTrue, is_some};

use crate::joined::Joined;
use crate::texts::{TextKind, without_trailing_zeros};
use small_types::ShortList;
use std::marker::Model;
use voice_messages::Form;

/// Joins texts of one kind from the parts in their packets (M2-104-UM, UMP stream messages), without heap
/// memory. In contracts its value is the kind, and the open text if there is one: the block that its parts
/// name, and the bytes joined so far.
#[derive(Drop)]
pub struct TextJoin {
    kind: TextKind,
    block: Option<u8>,
    bytes: ShortList<u8, 98>,
}

impl Model for TextJoin {
    ghost use Rattle.std.specs.Option.{option_map};
    ghost use Rattle.system_stream.specs.Joining.{State};

    ghost Value = { State };

    ghost view = { λ j. record {
      kind = j.kind;
      text = option_map (λ block. record { block = block; bytes = j.bytes }) j.block;
    } };
}

impl TextJoin {
    ghost use Rattle.std.specs.Borrow.{sem};
    ghost use Rattle.std.specs.Option.{option_map};
    ghost use Rattle.system_stream.specs.Joined.{joined_view};
    ghost use Rattle.system_stream.specs.Joining.{after_part, answer_of, text_answer, idle, text_with};
    ghost use Rattle.system_stream.specs.Lend.{KeepsJoining};
    ghost use Rattle.voice_messages.specs.declared.voice2.Form.TheVariants as form;

    /// Creates a joiner for one kind of text, with no text open.
    pub fn new(kind: TextKind) -> TextJoin
        ensures { result ≡ idle kind }
    {
        TextJoin {
            kind,
            block: None,
            bytes: ShortList::new(),
        }
    }

    /// Joins one more part. `bytes` are the bytes of the part, including the zeros that fill it. `block` is
    /// the number of the block that the part names; if packets of this kind name no block, always pass the
    /// same number.
    ///
    /// A `Complete` or `Start` begins a new text and silently replaces an open one. After `Whole` and `Bad`
    /// no text is open.
    pub fn part(&mut self, form: Form, block: u8, bytes: &[u8]) -> Joined<'_>
        ensures answer { joined_view result ≡
            text_answer self.old (record { form = form; block = block; bytes = bytes.now }) }
        ensures* after { sem 𝓛 (KeepsJoining self.entry
            (after_part self.old (record { form = form; block = block; bytes = bytes.now }))) }
    {
        if !self.append(form, block, bytes) {
            return Joined::Bad;
        }
        match form {
            Form::Start | Form::Continue => Joined::Held,
            Form::Complete | Form::End => self.finish(),
        }
    }

    /// Appends a part to the text that it belongs to. Returns whether there is such a text and it stays
    /// within the limit. If not, no text is open afterwards.
    fn append(&mut self, form: Form, block: u8, bytes: &[u8]) -> bool
        ensures joined { result ≡
            is_some (text_with self.old (record { form = form; block = block; bytes = bytes.now })) }
        ensures state { self.new ≡ record {
          kind = self.old.kind;
          text = option_map (λ joined. record { block = block; bytes = joined })
              (text_with self.old (record { form = form; block = block; bytes = bytes.now }));
        } }
    {
        let begins = matches!(form, Form::Complete | Form::Start);
        if begins {
            self.bytes.clear();
        }
        let goes_on = begins || self.block == Some(block);
        if !goes_on || self.bytes.len() + bytes.len() > self.kind.limit() {
            self.block = None;
            return false;
        }
        self.block = Some(block);
        self.bytes.extend(bytes);
        true
    }

    /// Ends the open text.
    fn finish(&mut self) -> Joined<'_>
        requires { IsTrue (is_some self.old.text) }
        ensures answer { joined_view result ≡
            answer_of self.old.kind form.End (option_map (λ text. text.bytes) self.old.text) }
        ensures* after { sem 𝓛 (KeepsJoining self.entry (idle self.old.kind)) }
    {
        self.block = None;
        let text = without_trailing_zeros(self.bytes.as_slice());
        if self.kind.is_text(text) {
            Joined::Whole(text)
        } else {
            Joined::Bad
        }
    }
}
