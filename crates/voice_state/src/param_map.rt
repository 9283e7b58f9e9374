// The parameters of one kind.
ghost use Rattle.std.specs.Prelude.{◌≡◌, ◌≤◌, ℕ, ◌<◌, ◌==◌, [], length, None, IfErr, IfOk, OnOk, OnErr};
ghost use Rattle.std.specs.List.{insert};
ghost use Rattle.midi_meaning.specs.State as definition;
ghost use Rattle.std.specs.Iterator.{YieldsFirst};
ghost use Rattle.voice_state.specs.Facts.{param_fact, params_in_order};
ghost use Rattle.voice_state.specs.Params.{number_of, param_of, state_at, IsAt, IsGapFor, IsOf};
ghost use Rattle.voice_state.specs.Rooms.{IsFullWhere};

use crate::fact::Fact;
use crate::not_kept::NotKept;
use small_types::{NoMemory, U4};
use std::alloc::Global;
use std::marker::Model;
use voice_messages::{ParamKind, U7};

/// The state of a parameter: its value, if it was set, and whether a relative change has arrived since.
#[derive(Clone, Copy, Debug)]
pub(crate) struct ParamState {
    pub value: Option<u32>,
    pub loose: bool,
}

// Returns the number of a parameter, which has 14 bits.
fn number_of(bank: U7, index: U7) -> u16
    ensures number { result ≡ number_of bank index }
    ensures below { result < 16384 }
    ensures in_range { index < 128 }
{
    bank.get() as u16 * 128 + index.get() as u16
}

// Returns the fact about a parameter.
fn param_fact(group: U4, channel: U4, kind: ParamKind, number: u16, state: ParamState) -> Fact
    requires { number < 16384 }
    ensures { result ≡ param_fact group channel (param_of kind number) state.value state.loose }
{
    let (value, loose) = (state.value, state.loose);
    let bank = U7::low_bits(number as u32 / 128);
    let index = U7::low_bits(number as u32);
    match kind {
        ParamKind::Registered => Fact::Registered {
            group,
            channel,
            bank,
            index,
            value,
            loose,
        },
        ParamKind::Assignable => Fact::Assignable {
            group,
            channel,
            bank,
            index,
            value,
            loose,
        },
    }
}

/// The parameters of a kind that were set or changed, in the order of their numbers. In contracts its value
/// is the list of them.
#[derive(Drop)]
pub(crate) struct ParamMap {
    entries: Vec<(u16, ParamState)>,
}

impl Model for ParamMap {
    ghost use Rattle.std.specs.Prelude.{ℕ, List, ◌<◌, All};
    ghost use Rattle.voice_state.specs.Params.{IsInOrder};
    ghost use Rattle.voice_state.specs.declared.param_map.ParamState.{ParamState};

    ghost Value = { List (ℕ × ParamState) };

    ghost view = { λ p. p.entries.items };

    ghost invariant = { λ p. IsInOrder p.entries.items × All (λ entry. entry.0 < 16384) p.entries.items };
}

impl ParamMap {
    /// Creates an empty list and allocates memory for `taken` entries. Returns `NoMemory` if the memory
    /// can't be allocated.
    pub(crate) fn new(alloc: Global, taken: usize) -> Result<ParamMap, NoMemory>
        ensures { IfOk result (λ map. map ≡ []) }
    {
        match Vec::with_capacity(alloc, taken) {
            Ok(entries) => Ok(ParamMap { entries }),
            Err(_) => Err(NoMemory),
        }
    }

    /// Empties the list, which keeps its memory.
    pub(crate) fn clear(&mut self)
        ensures { self.new ≡ [] }
    {
        self.entries.clear();
    }

    // Returns the index of the parameter with this number, or else the index at which it would be added.
    fn place(&self, number: u16) -> Result<usize, usize>
        ensures found { IfOk result (IsAt self.now number) }
        ensures absent { IfErr result (IsGapFor self.now number) }
    {
        self.entries
            .binary_search_by_key(&number, |&(other, _)| other)
    }

    /// Returns the state of a parameter.
    pub(crate) fn get(&self, bank: U7, index: U7) -> Option<ParamState>
        ensures state { result ≡ state_at self.now (number_of bank index) }
        ensures in_range { index < 128 }
    {
        match self.place(number_of(bank, index)) {
            Ok(place) => Some(self.entries[place].1),
            Err(_) => None,
        }
    }

    /// Replaces the state of a parameter, or adds the parameter if there are fewer than `room`. Otherwise
    /// nothing changes.
    pub(crate) fn put(
        &mut self,
        bank: U7,
        index: U7,
        state: ParamState,
        room: usize,
    ) -> Result<(), NotKept>
        ensures put { OnOk result ((number : ℕ)
            → state_at self.new number
            ≡ definition.put ◌==◌ (state_at self.old) (number_of bank index) state number) }
        ensures in_range { index < 128 }
        ensures unchanged { OnErr result (self.new ≡ self.old) }
        ensures full { IsFullWhere result
            ((room ≤ length self.old) × (state_at self.old (number_of bank index) ≡ None)) }
    {
        let number = number_of(bank, index);
        match self.place(number) {
            Ok(place) => {
                self.entries[place] = (number, state);
                Ok(())
            }
            Err(place) => self.add(place, number, state, room),
        }
    }

    // Adds a parameter at its index if there are fewer than `room`. Otherwise nothing changes.
    fn add(
        &mut self,
        place: usize,
        number: u16,
        state: ParamState,
        room: usize,
    ) -> Result<(), NotKept>
        requires place { IsGapFor self.old number place }
        requires below { number < 16384 }
        ensures added { OnOk result (self.new ≡ insert self.old place (number, state)) }
        ensures unchanged { OnErr result (self.new ≡ self.old) }
        ensures full { IsFullWhere result (room ≤ length self.old) }
    {
        if room <= self.entries.len() {
            return Err(NotKept::Full);
        }
        match self.entries.insert(place, (number, state)) {
            Ok(()) => Ok(()),
            Err(_) => Err(NotKept::NoMemory),
        }
    }

    /// Returns the facts about the parameters, in the order of their numbers.
    pub(crate) fn facts(&self, kind: ParamKind, group: U4, channel: U4) -> ParamFacts<'_>
        ensures { (state : definition.Channel) → IsOf kind self.now state
            → result ≡ params_in_order group channel kind state }
    {
        ParamFacts {
            entries: self.entries.as_slice(),
            kind,
            group,
            channel,
        }
    }
}

/// The remaining facts about parameters. In contracts its value is the list of them.
#[derive(Drop)]
pub(crate) struct ParamFacts<'a> {
    entries: &'a [(u16, ParamState)],
    kind: ParamKind,
    group: U4,
    channel: U4,
}

impl<'a> Model for ParamFacts<'a> {
    ghost use Rattle.std.specs.Prelude.{List, ◌<◌, All, map};
    ghost use Rattle.voice_state.specs.Params.{entry_fact};
    ghost use Rattle.voice_state.specs.declared.fact.Fact.{Fact};

    ghost Value = { List Fact };

    ghost view = { λ it. map (entry_fact it.group it.channel it.kind) it.entries.now };

    ghost invariant = { λ it. All (λ entry. entry.0 < 16384) it.entries.now };
}

impl ParamFacts<'_> {
    /// Returns the next fact, if one is left.
    pub(crate) fn take_first(&mut self) -> Option<Fact>
        ensures { YieldsFirst (λ left. left) self.old result self.new }
    {
        let ((number, state), others) = self.entries.split_first()?;
        self.entries = others;
        Some(param_fact(self.group, self.channel, self.kind, *number, *state))
    }
}
