// The width of the stored values.
ghost use Rattle.std.specs.Prelude.{◌≡◌, ◌*◌, ℕ};
ghost use Rattle.midi_meaning.specs.Messages.{with_new_lsb};
ghost use Rattle.voice_state.specs.ForProofs.Widths.{scale_of};

use bit_scaling::{down14, up7, up14, velocity_up};
use voice_messages::{U7, U14};

/// The width of the values that are stored for messages of the MIDI 1.0 protocol.
#[derive(Clone, Copy, Debug)]
pub(crate) enum Width {
    /// Unchanged, in 7 and 14 bits.
    Midi1,
    /// Scaled up to 16 and 32 bits (M2-115-U).
    Midi2,
}

impl Width {
    pub(crate) fn velocity(self, velocity: U7) -> u16
        ensures { result ≡ (scale_of self).velocity velocity }
    {
        match self {
            Width::Midi1 => velocity.get() as u16,
            Width::Midi2 => velocity_up(velocity),
        }
    }

    /// Returns a pressure or the value of a channel mode message.
    pub(crate) fn value(self, value: U7) -> u32
        ensures { result ≡ (scale_of self).value value }
    {
        match self {
            Width::Midi1 => value.get() as u32,
            Width::Midi2 => up7(value),
        }
    }

    /// Returns the value of any controller.
    pub(crate) fn controller(self, value: U7) -> u32
        ensures { (index : ℕ) → result ≡ (scale_of self).controller index value }
    {
        self.value(value)
    }

    /// Returns a value of 14 bits.
    pub(crate) fn wide(self, value: U14) -> u32
        ensures { result ≡ (scale_of self).wide value }
    {
        match self {
            Width::Midi1 => value.get() as u32,
            Width::Midi2 => up14(value),
        }
    }

    /// Returns the centre of a bend.
    pub(crate) fn centre(self) -> u32
        ensures { result ≡ (scale_of self).wide 8192 }
    {
        self.wide(U14::low_bits(8192))
    }

    /// Returns the value of a parameter after a data entry of its MSB, which sets the LSB to 0 (own rule).
    pub(crate) fn of_msb(self, msb: U7) -> u32
        ensures { result ≡ (scale_of self).wide (msb * 128) }
    {
        self.wide(U14::low_bits(msb.get() as u32 * 128))
    }

    /// Returns the value of a parameter after a data entry of its LSB, which keeps the MSB of the old
    /// value, or 0 if there is none.
    pub(crate) fn with_new_lsb(self, old: Option<u32>, lsb: U7) -> u32
        ensures { result ≡ with_new_lsb (scale_of self) old lsb }
    {
        let old = old.unwrap_or(0);
        let lsb = lsb.get() as u32;
        match self {
            Width::Midi1 => old / 128 * 128 + lsb,
            Width::Midi2 => up14(U14::low_bits(down14(old).get() as u32 / 128 * 128 + lsb)),
        }
    }
}
