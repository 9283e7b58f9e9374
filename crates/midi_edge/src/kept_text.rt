// The first bytes of a text, stored without heap memory.
ghost use Rattle.std.specs.Prelude.{◌≡◌, None, Some};
ghost use Rattle.outside.specs.Outside.{kept_bytes};

use std::marker::Model;

const MOST: usize = 4096;

/// The first 4,096 bytes of a text, or nothing. In contracts its value is these bytes, if there are any.
#[derive(Drop)]
pub struct KeptText {
    is_set: bool,
    len: usize,
    bytes: [u8; 4096],
}

impl Model for KeptText {
    ghost use Rattle.std.specs.Prelude.{ℕ, ◌≤◌, List, Option};
    ghost use Rattle.midi_edge.specs.KeptText.{kept_text as kept};

    ghost Value = { Option (List ℕ) };

    ghost view = { λ k. kept k.is_set k.len k.bytes };

    ghost invariant = { λ k. k.len ≤ 4096 };
}

impl KeptText {
    /// Creates a `KeptText` that stores nothing.
    pub fn new() -> Self
        ensures { result ≡ None }
    {
        KeptText {
            is_set: false,
            len: 0,
            bytes: [0; 4096],
        }
    }

    /// Replaces the stored text with the first bytes of `text`.
    pub fn keep(&mut self, text: &str)
        ensures { self.new ≡ Some (kept_bytes text.now) }
    {
        let len = text.len().min(MOST);
        self.bytes[..len].copy_from_slice(&text.as_bytes()[..len]);
        self.len = len;
        self.is_set = true;
    }
}
