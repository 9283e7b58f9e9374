// The parameters of a channel.
ghost use Rattle.std.specs.Prelude.{◌≡◌, ◌<◌, true, IfOk, OnOk, OnErr};
ghost use Rattle.midi_meaning.specs.Messages as messages;
ghost use Rattle.midi_meaning.specs.State as definition;
ghost use Rattle.voice_state.specs.KeptParams.{state_in, AreFull, KeepsParams, PutsParam};
ghost use Rattle.voice_state.specs.Rooms.{IsFullWhere};

use crate::not_kept::NotKept;
use crate::param_map::{ParamMap, ParamState};
use small_types::NoMemory;
use std::alloc::Global;
use voice_messages::{Param, ParamKind};

/// The parameters of a channel that were set or changed.
#[derive(Drop)]
pub(crate) struct Params {
    pub registered: ParamMap,
    pub assignable: ParamMap,
}

impl Params {
    /// Creates empty lists and allocates memory for `taken` parameters of each kind. Returns `NoMemory` if
    /// the memory can't be allocated.
    pub(crate) fn new(alloc: Global, taken: usize) -> Result<Params, NoMemory>
        ensures { IfOk result (λ params. (scale : messages.Scale)
            → KeepsParams params (messages.start_channel scale)) }
    {
        let registered = ParamMap::new(alloc, taken)?;
        let assignable = ParamMap::new(alloc, taken)?;
        Ok(Params {
            registered,
            assignable,
        })
    }

    /// Empties both lists, which keep their memory.
    pub(crate) fn clear(&mut self)
        ensures { (scale : messages.Scale) → KeepsParams self.new (messages.start_channel scale) }
    {
        self.registered.clear();
        self.assignable.clear();
    }

    /// Returns the value of a parameter, if it was set.
    pub(crate) fn value(&self, param: &Param) -> Option<u32>
        ensures { (state : definition.Channel) → KeepsParams self.now state
            → result ≡ state.params param.now }
    {
        match self.get(param) {
            Some(state) => state.value,
            None => None,
        }
    }

    // Returns whether a relative change has arrived since a parameter was set.
    fn is_loose(&self, param: &Param) -> bool
        ensures { (state : definition.Channel) → KeepsParams self.now state → result ≡ state.loose param.now }
    {
        match self.get(param) {
            Some(state) => state.loose,
            None => false,
        }
    }

    /// Sets the value of a parameter, which is no longer loose. If it would be one more than `room` of its
    /// kind, or if the memory can't be allocated, nothing changes.
    pub(crate) fn set(&mut self, param: &Param, value: u32, room: usize) -> Result<(), NotKept>
        ensures set { OnOk result ((state : definition.Channel) → KeepsParams self.old state
            → KeepsParams self.new (definition.with_param param.now value state)) }
        ensures unchanged { OnErr result (self.new ≡ self.old) }
        ensures full { IsFullWhere result (AreFull room self.old param.now) }
    {
        let state = ParamState {
            value: Some(value),
            loose: false,
        };
        self.put(param, state, room)
    }

    /// Sets the value of a parameter and leaves its looseness unchanged. If it would be one more than
    /// `room` of its kind, or if the memory can't be allocated, nothing changes.
    pub(crate) fn set_value(
        &mut self,
        param: &Param,
        value: u32,
        room: usize,
    ) -> Result<(), NotKept>
        ensures set { OnOk result ((state : definition.Channel) → KeepsParams self.old state
            → KeepsParams self.new (definition.with_value param.now value state)) }
        ensures unchanged { OnErr result (self.new ≡ self.old) }
        ensures full { IsFullWhere result (AreFull room self.old param.now) }
    {
        let loose = self.is_loose(param);
        let state = ParamState {
            value: Some(value),
            loose,
        };
        self.put(param, state, room)
    }

    /// Makes a parameter loose and leaves its value unchanged. If it would be one more than `room` of its
    /// kind, or if the memory can't be allocated, nothing changes.
    pub(crate) fn loosen(&mut self, param: &Param, room: usize) -> Result<(), NotKept>
        ensures loosened { OnOk result ((state : definition.Channel) → KeepsParams self.old state
            → KeepsParams self.new (definition.with_looseness true param.now state)) }
        ensures unchanged { OnErr result (self.new ≡ self.old) }
        ensures full { IsFullWhere result (AreFull room self.old param.now) }
    {
        let value = self.value(param);
        self.put(param, ParamState { value, loose: true }, room)
    }

    fn get(&self, param: &Param) -> Option<ParamState>
        ensures state { result ≡ state_in self.now param.now }
        ensures in_range { param.now.index < 128 }
    {
        match param.kind {
            ParamKind::Registered => self.registered.get(param.bank, param.index),
            ParamKind::Assignable => self.assignable.get(param.bank, param.index),
        }
    }

    fn put(&mut self, param: &Param, state: ParamState, room: usize) -> Result<(), NotKept>
        ensures put { OnOk result (PutsParam self.old self.new param.now state) }
        ensures in_range { param.now.index < 128 }
        ensures unchanged { OnErr result (self.new ≡ self.old) }
        ensures full { IsFullWhere result (AreFull room self.old param.now) }
    {
        match param.kind {
            ParamKind::Registered => self.registered.put(param.bank, param.index, state, room),
            ParamKind::Assignable => self.assignable.put(param.bank, param.index, state, room),
        }
    }
}
