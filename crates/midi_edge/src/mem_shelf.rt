// A shelf in memory.
ghost use Rattle.std.specs.Prelude.{◌≡◌, ◌≢◌, ℕ, List, ◌++◌, None, Some, Err, MatchBool, OnOk, OnErr, option_copied, take};
ghost use Rattle.outside.specs.Outside.{HasOpenCause, Fetches, kept_bytes};
ghost use Rattle.midi_edge.specs.MemShelf.{text_named as first_named, is_failing, after_fetch};

use crate::kept_text::KeptText;
use outside::{OpenFault, Shelf};
use std::marker::Model;

// Returns the first text with this name, or `None`.
fn text_named<'a>(texts: &'a [(String, Vec<u8>)], name: &str) -> Option<&'a [u8]>
    ensures { option_copied result ≡ first_named texts.now name.now }
{
    texts
        .iter()
        .find(|text| text.0.as_str() == name)
        .map(|text| text.1.as_slice())
}

// Appends the first bytes of a text, at most `limit`.
fn add_front(into: &mut Vec<u8>, text: &[u8], limit: usize) -> Result<(), OpenFault>
    ensures ok { OnOk result (into.new.items ≡ into.old.items ++ take limit text.now) }
    ensures err { OnErr result ((more : List ℕ) × (into.new.items ≡ into.old.items ++ more)) }
    ensures cause { result ≢ Err OpenFault.Failed }
{
    let count = limit.min(text.len());
    match into.extend_from_slice(&text[..count]) {
        Ok(()) => Ok(()),
        Err(_) => Err(OpenFault::NoMemory),
    }
}

/// A shelf of named texts that fails at the calls that you list. In contracts its value is its
/// `ShelfState`.
#[derive(Drop)]
pub struct MemShelf {
    texts: Vec<(String, Vec<u8>)>,
    fails: Vec<u64>,
    calls: u64,
    faults: u64,
    name: KeptText,
}

impl Model for MemShelf {
    ghost use Rattle.midi_edge.specs.MemShelf.{ShelfState};

    ghost Value = { ShelfState };

    ghost view = { λ s. record {
      asked = s.name;
      texts = s.texts.items;
      fails = s.fails.items;
      calls = s.calls;
      faults = s.faults;
    } };
}

impl MemShelf {
    /// Creates a shelf of these texts. If several have the same name, the first one counts. Calls are
    /// counted from 0, up to `u64::MAX`: call number k fails exactly if `fails` contains k or if no text
    /// has the name.
    pub fn new(texts: Vec<(String, Vec<u8>)>, fails: Vec<u64>) -> MemShelf
        ensures { result ≡ record {
          asked = None;
          texts = texts.items;
          fails = fails.items;
          calls = 0;
          faults = 0;
        } }
    {
        MemShelf {
            texts,
            fails,
            calls: 0,
            faults: 0,
            name: KeptText::new(),
        }
    }

    /// Returns the number of failed calls, saturating at `u64::MAX`.
    pub fn faults(&self) -> u64
        ensures { result ≡ self.now.faults }
    {
        self.faults
    }
}

impl Shelf for MemShelf {
    ghost asked = { λ s. s.asked };

    ghost texts = { λ s. Some (first_named s.texts) };

    ghost faults = { λ s. s.faults };

    fn fetch(&mut self, name: &str, limit: usize, into: &mut Vec<u8>) -> Result<(), OpenFault>
        requires { self.old.asked ≡ None }
        ensures asked { self.new.asked ≡ Some (kept_bytes name.now) }
        ensures texts { Some (first_named self.new.texts) ≡ Some (first_named self.old.texts) }
        ensures ok { OnOk result
            (Fetches (Some (first_named self.old.texts)) name.now limit into.old.items into.new.items) }
        ensures err { OnErr result ((more : List ℕ) × (into.new.items ≡ into.old.items ++ more)) }
        ensures cause { HasOpenCause self.old.faults self.new.faults result }
        ensures failed { MatchBool (is_failing self.old name.now) (result ≡ Err OpenFault.Failed)
            (result ≢ Err OpenFault.Failed) }
        ensures exact { self.new ≡ after_fetch self.old name.now }
    {
        self.name.keep(name);
        let call = self.calls;
        self.calls = call.saturating_add(1);
        if !self.fails.contains(&call) {
            if let Some(text) = text_named(&self.texts, name) {
                return add_front(into, text, limit);
            }
        }
        self.faults = self.faults.saturating_add(1);
        Err(OpenFault::Failed)
    }
}
