// Tables of values by an index of seven bits.
ghost use Rattle.std.specs.Prelude.{◌≡◌, ℕ, ◌<◌, ◌==◌, None, Option, IfOk};
ghost use Rattle.std.specs.Option.{option_map};
ghost use Rattle.midi_meaning.specs.State.{put};
ghost use Rattle.std.specs.Iterator.{YieldsFirst};
ghost use Rattle.voice_state.specs.Facts.{in_order};
ghost use Rattle.voice_state.specs.Tables.{at, table_fact};

use crate::fact::Fact;
use small_types::{NoMemory, U4};
use std::alloc::Global;
use std::marker::Model;
use voice_messages::U7;

/// The kind of values in a table.
#[derive(Clone, Copy, Debug)]
pub(crate) enum Content {
    KeyPressures,
    Controllers,
}

impl Content {
    // Returns the fact about a value.
    fn fact(self, group: U4, channel: U4, index: U7, value: u32) -> Fact
        ensures { result ≡ table_fact self group channel index value }
    {
        match self {
            Content::KeyPressures => Fact::Poly {
                group,
                channel,
                note: index,
                value,
            },
            Content::Controllers => Fact::Control {
                group,
                channel,
                index,
                value,
            },
        }
    }
}

/// The pressures of 128 keys, or the values of 128 controllers, each if it was set. In contracts its value
/// is the list of them.
#[derive(Drop)]
pub(crate) struct Table {
    cells: Vec<Option<u32>>,
}

impl Model for Table {
    ghost use Rattle.std.specs.Prelude.{◌≡◌, ℕ, List, Option, length};

    ghost Value = { List (Option ℕ) };

    ghost view = { λ t. t.cells.items };

    ghost invariant = { λ t. length t.cells.items ≡ 128 };
}

impl Table {
    /// Creates a table with no value set. Allocates all the memory that the table will ever need.
    pub(crate) fn new(alloc: Global) -> Result<Table, NoMemory>
        ensures { IfOk result (λ table. (index : ℕ) → at table index ≡ None) }
    {
        match Vec::from_elem(alloc, None, 128) {
            Ok(cells) => Ok(Table { cells }),
            Err(_) => Err(NoMemory),
        }
    }

    /// Sets a value.
    pub(crate) fn set(&mut self, index: U7, value: u32)
        ensures { (other : ℕ) → at self.new other ≡ put ◌==◌ (at self.old) index value other }
    {
        self.cells[index.get() as usize] = Some(value);
    }

    /// Empties the table.
    pub(crate) fn clear(&mut self)
        ensures { (index : ℕ) → at self.new index ≡ None }
    {
        self.cells.fill(None);
    }

    /// Returns the facts about the values that are set, by index.
    pub(crate) fn facts(&self, content: Content, group: U4, channel: U4) -> TableFacts<'_>
        ensures { (map : ℕ → Option ℕ) → ((index : ℕ) → at self.now index ≡ map index)
            → result ≡ in_order (table_fact content group channel) map }
    {
        TableFacts {
            table: self,
            content,
            group,
            channel,
            index: 0,
        }
    }

    // Returns the fact about the value at an index, if it is set.
    fn fact(&self, content: Content, group: U4, channel: U4, index: u8) -> Option<Fact>
        requires { index < 128 }
        ensures { result ≡ option_map (table_fact content group channel index) (at self.now index) }
    {
        let value = self.cells[index as usize]?;
        Some(content.fact(group, channel, U7::low_bits(index as u32), value))
    }
}

/// The remaining facts about a table. In contracts its value is the list of them.
#[derive(Drop)]
pub(crate) struct TableFacts<'a> {
    table: &'a Table,
    content: Content,
    group: U4,
    channel: U4,
    index: u8,
}

impl<'a> Model for TableFacts<'a> {
    ghost use Rattle.std.specs.Prelude.{List};
    ghost use Rattle.voice_state.specs.Tables.{table_fact, table_left};
    ghost use Rattle.voice_state.specs.declared.fact.Fact.{Fact};

    ghost Value = { List Fact };

    ghost view = { λ it. table_left (table_fact it.content it.group it.channel) it.table.now it.index };
}

impl TableFacts<'_> {
    /// Returns the next fact, if one is left.
    pub(crate) fn take_first(&mut self) -> Option<Fact>
        ensures { YieldsFirst (λ left. left) self.old result self.new }
    {
        while self.index < 128 {
            let index = self.index;
            self.index += 1;
            let fact = self
                .table
                .fact(self.content, self.group, self.channel, index);
            if fact.is_some() {
                return fact;
            }
        }
        None
    }
}
