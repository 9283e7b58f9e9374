// Scales values between widths.
ghost use Rattle.std.specs.Prelude.{◌≡◌, ◌<◌, ◌^◌};
ghost use Rattle.bit_scaling.specs.Scaling.{IsScaling};
ghost use Rattle.c_answers.specs.Numbers.{number_of};
ghost use Rattle.c_pure.specs.Scaling.{IsLowered, IsRaised, raises_value};

use bit_scaling::{down7, down14, release_down, up};
use c_answers::Status;

// Scales a value up, unless it has more bits than its width.
fn raise(value: u32, narrow: u32, wide: u32, scaled: &mut u32) -> Status
    requires { IsScaling narrow wide }
    ensures { raises_value value narrow wide scaled.old (number_of result) scaled.new }
{
    if value >= 1 << narrow {
        return Status::BadValue;
    }
    *scaled = up(value, narrow, wide);
    Status::Done
}

/// Scales a value of 7 bits up to 16 or 32, or a value of 14 bits to 32. The least, the centre and the
/// greatest value stay the least, the centre and the greatest (M2-115-U, min-centre-max). For example, 64 of
/// 7 bits becomes 32,768 of 16 bits. `narrow` and `wide` are widths in bits. Returns `BadBits` for other
/// widths, and `BadValue` if the value has more than `narrow` bits; nothing is written then.
pub fn scale_up(value: u32, narrow: u8, wide: u8, scaled: &mut u32) -> Status
    ensures { IsRaised value narrow wide scaled.old (number_of result) scaled.new }
{
    match (narrow, wide) {
        (7, 16) => raise(value, 7, 16, scaled),
        (7, 32) => raise(value, 7, 32, scaled),
        (14, 32) => raise(value, 14, 32, scaled),
        _ => Status::BadBits,
    }
}

/// Scales a value down: writes the upper 7 of 16 bits, or the upper 7 or 14 of 32 (M2-115-U, downscaling).
/// `wide` and `narrow` are widths in bits. Returns `BadBits` for other widths, and `BadValue` if the value
/// has more than `wide` bits; nothing is written then.
pub fn scale_down(value: u32, wide: u8, narrow: u8, scaled: &mut u32) -> Status
    ensures { IsLowered value wide narrow scaled.old (number_of result) scaled.new }
{
    *scaled = match (wide, narrow) {
        (16, 7) => match u16::try_from(value) {
            Ok(velocity) => release_down(velocity).get() as u32,
            Err(_) => return Status::BadValue,
        },
        (32, 7) => down7(value).get() as u32,
        (32, 14) => down14(value).get() as u32,
        _ => return Status::BadBits,
    };
    Status::Done
}
