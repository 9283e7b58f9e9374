// The handle: a struct that the C caller owns.
ghost use Rattle.std.specs.Prelude.{◌≡◌, Option, Some, None};
ghost use Rattle.std.specs.Option.{option_map};
ghost use Rattle.std.specs.Coded.{coded_option};
ghost use Rattle.c_handles.specs.contracts.engine.Engine.{the_row};
ghost use Rattle.c_handles.specs.declared.engine.Engine.{Engine};
ghost use Rattle.c_answers.specs.Numbers.{number_of};
ghost use Rattle.c_handles.specs.Filled.{IsFilled};

use crate::engine::Engine;
use crate::parted::Parted;
use c_answers::Status;
use std::alloc::Global;
use std::marker::Model;

/// A struct that the C caller owns: the address of an engine on the heap if the handle is open, or nothing if
/// it is closed. In contracts its value is the engine that it holds.
#[repr(C)]
pub struct Handle {
    at: *mut u8,
    // 1 if the handle is open and 0 if it is closed. It is as wide as the pointer, so that the struct has no
    // padding, which a call would copy too.
    is_open: usize,
    pub ghost holds: { Option Engine } by { coded_option the_row.coded },
}

impl Model for Handle {
    ghost use Rattle.c_handles.specs.Held.{held};
    ghost use Rattle.c_handles.specs.contracts.engine.Engine.{the_row};

    ghost also_owns = { λ h. held the_row h.is_open h.at h.holds };
}

// Only one call at a time uses a handle, and no engine depends on the thread that opened it.
unsafe impl Send for Handle {}

impl Handle {
    /// Creates a closed handle, which is all zero.
    #[inline(always)]
    pub fn closed() -> Handle
        ensures { result.holds ≡ None }
    {
        Handle {
            at: std::ptr::null_mut(),
            is_open: 0,
        }
    }

    // Creates an open handle from a box that was taken apart.
    #[inline(always)]
    fn of(parted: Parted<Engine, Global>) -> Handle
        ensures { result.holds ≡ Some parted.value }
    {
        let Parted { alloc: _, address } = parted;
        Handle {
            at: address as *mut u8,
            is_open: 1,
        }
    }

    // Returns the engine that the handle holds, as a box that was taken apart.
    #[inline(always)]
    fn into_parted(self, alloc: Global) -> Option<Parted<Engine, Global>>
        ensures { option_map (λ l. l.value) result ≡ self.holds }
    {
        let Handle { at, is_open } = self;
        if is_open != 0 {
            Some(Parted {
                alloc,
                address: at as *mut Engine,
            })
        } else {
            None
        }
    }

    // Gives up a handle and returns its flag. It frees nothing, so giving up an open handle would leak its
    // engine. `put` calls it only for a closed one.
    #[inline(always)]
    fn let_go(self) -> usize
        ensures { result ≡ self.is_open }
    {
        let Handle { at: _, is_open } = self;
        is_open
    }

    /// Returns the engine that the handle holds, or `None` exactly if the handle is closed.
    #[inline(always)]
    pub fn into_box(self, alloc: Global) -> Option<Box<Engine>>
        ensures { option_map (λ b. b.value) result ≡ self.holds }
    {
        match self.into_parted(alloc) {
            None => None,
            Some(parted) => Some(parted.into_box()),
        }
    }

    /// Takes the engine out of the handle, as a box that was taken apart, and leaves the handle closed. The
    /// caller must turn it into a box again with `into_box`; otherwise its memory leaks, and no clause
    /// prevents that.
    #[inline(always)]
    pub fn take_parted(&mut self, alloc: Global) -> Option<Parted<Engine, Global>>
        ensures closed { self.new.holds ≡ None }
        ensures value { option_map (λ l. l.value) result ≡ self.old.holds }
    {
        std::mem::replace(self, Handle::closed()).into_parted(alloc)
    }

    /// Takes the engine out of the handle, and leaves the handle closed. Returns `None` exactly if the handle
    /// was closed.
    #[inline(always)]
    pub fn take(&mut self, alloc: Global) -> Option<Box<Engine>>
        ensures closed { self.new.holds ≡ None }
        ensures value { option_map (λ b. b.value) result ≡ self.old.holds }
    {
        std::mem::replace(self, Handle::closed()).into_box(alloc)
    }

    /// Opens a closed handle with this engine.
    #[inline(always)]
    pub fn put(&mut self, value: Box<Engine>)
        requires { self.old.holds ≡ None }
        ensures { self.new.holds ≡ Some value.value }
    {
        let _was_open = std::mem::replace(self, Handle::of(Parted::of(value))).let_go();
    }

    /// Opens a closed handle with this engine, for which it allocates memory. Returns `NoMemory` if there
    /// isn't enough; the handle then stays closed.
    pub fn fill(&mut self, alloc: Global, engine: Engine) -> Status
        requires { self.old.holds ≡ None }
        ensures { IsFilled engine (number_of result) self.new.holds }
    {
        match Box::new(alloc, engine) {
            Ok(held) => {
                self.put(held);
                Status::Done
            }
            Err(_) => Status::NoMemory,
        }
    }
}
