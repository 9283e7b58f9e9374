// Scaling up: shifts a value up to the centre. Above the centre, it also repeats the bits below the highest
// one after the value. The part of a value above the centre is 0 for a value up to the centre, so one sum
// covers both cases without a branch. A branch on random values would be mispredicted.
ghost use Rattle.std.specs.Prelude.{◌≡◌, ◌<◌, ◌^◌};
ghost use Rattle.bit_scaling.specs.Scaling.{up, IsScaling};

use voice_messages::{U7, U14};

/// Scales a value of `narrow` bits up to `wide` bits (M2-115-U, min-centre-max scaling). It scales from 7
/// to 16, from 7 to 32 and from 14 to 32 bits.
pub fn up(value: u32, narrow: u32, wide: u32) -> u32
    requires scaling { IsScaling narrow wide }
    requires fits { value < 2 ^ narrow }
    ensures { result ≡ up value narrow wide }
{
    match (narrow, wide) {
        (7, 16) => velocity_up(U7::low_bits(value)) as u32,
        (7, 32) => up7(U7::low_bits(value)),
        _ => up14(U14::low_bits(value)),
    }
}

/// Scales a velocity of 7 bits up to 16 bits (M2-115-U).
#[tactic(auto, using(crate::proofs::ScalingLaws::raised_7_16))]
pub fn velocity_up(velocity: U7) -> u16
    ensures { result ≡ up velocity 7 16 }
{
    let velocity = velocity.get() as u16;
    let above = velocity.saturating_sub(64);
    (velocity << 9) + (above << 3) + (above >> 3)
}

/// Scales a value of 7 bits up to 32 bits (M2-115-U).
#[tactic(auto, using(crate::proofs::ScalingLaws::raised_7_32))]
pub fn up7(value: U7) -> u32
    ensures { result ≡ up value 7 32 }
{
    let value = value.get() as u32;
    let above = value.saturating_sub(64);
    (value << 25) + (above << 19) + (above << 13) + (above << 7) + (above << 1) + (above >> 5)
}

/// Scales a value of 14 bits up to 32 bits (M2-115-U).
#[tactic(auto, using(crate::proofs::ScalingLaws::raised_14_32))]
pub fn up14(value: U14) -> u32
    ensures { result ≡ up value 14 32 }
{
    let value = value.get() as u32;
    let above = value.saturating_sub(8192);
    (value << 18) + (above << 5) + (above >> 8)
}
