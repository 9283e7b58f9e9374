// Scaling down: takes the upper bits of a value.
ghost use Rattle.std.specs.Prelude.{◌≡◌};
ghost use Rattle.bit_scaling.specs.Scaling.{down7, down14, release_down, velocity_down};

use voice_messages::{U7, U14};

/// Returns the upper 7 of 32 bits (M2-115-U).
#[tactic(auto, unfolding(crate::specs::Scaling::down7))]
pub fn down7(value: u32) -> U7
    ensures { result ≡ down7 value }
{
    U7::low_bits(value >> 25)
}

/// Returns the upper 14 of 32 bits (M2-115-U).
#[tactic(auto, unfolding(crate::specs::Scaling::down14))]
pub fn down14(value: u32) -> U14
    ensures { result ≡ down14 value }
{
    U14::low_bits(value >> 18)
}

/// Returns the upper 7 bits of the 16-bit velocity of a note off (M2-115-U).
#[tactic(auto, unfolding(crate::specs::Scaling::release_down))]
pub fn release_down(velocity: u16) -> U7
    ensures { result ≡ release_down velocity }
{
    U7::low_bits((velocity >> 9) as u32)
}

/// Returns the upper 7 bits of the 16-bit velocity of a note on, or 1 if they are 0, since a MIDI 1.0 note
/// on of velocity 0 would be a note off (M2-104-UM, translation of note on).
#[tactic(auto, unfolding(crate::specs::Scaling::velocity_down))]
pub fn velocity_down(velocity: u16) -> U7
    ensures { result ≡ velocity_down velocity }
{
    let upper = (velocity >> 9) as u32;
    if upper == 0 {
        U7::low_bits(1)
    } else {
        U7::low_bits(upper)
    }
}
