// Reads numbers of the command line (own rule): 1 to 10 decimal digits, in a range.
ghost use Rattle.std.specs.Prelude.{◌≡◌, ◌≤◌, ◌<◌, IfSome};
ghost use Rattle.std.specs.Option.{option_copied};
ghost use Rattle.std.specs.List.{list_all};
ghost use Rattle.std.specs.Char.{is_ascii_digit};
ghost use Rattle.command_line.specs.Numbers.{IsRoom, cable_in, group_in, number_of, number_or as number_or_absent, room_in};

use small_types::U4;

fn is_digits(text: &str) -> bool
    ensures { result ≡ list_all is_ascii_digit text.now }
{
    text.as_bytes().iter().all(|byte| byte.is_ascii_digit())
}

// Returns the number that 1 to 10 digits spell, or `None` if the text is no such number or the number isn't
// in the range.
pub fn number(text: &str, least: u32, most: u32) -> Option<u32>
    ensures number { result ≡ number_of least most text.now }
    ensures range { IfSome result (λ n. (least ≤ n) × (n ≤ most)) }
{
    if text.is_empty() || text.len() > 10 || !is_digits(text) {
        return None;
    }
    let value = match text.parse::<u64>() {
        Ok(value) => value,
        Err(_) => return None,
    };
    if value < least as u64 || value > most as u64 {
        return None;
    }
    Some(value as u32)
}

// Returns the number of an option's text as `number` does, or `absent` if the option isn't given.
pub fn number_or(text: Option<&str>, least: u32, most: u32, absent: u32) -> Option<u32>
    requires absent { (least ≤ absent) × (absent ≤ most) }
    ensures number { result ≡ number_or_absent least most absent (option_copied text.entry) }
    ensures range { IfSome result (λ n. (least ≤ n) × (n ≤ most)) }
{
    match text {
        Some(text) => number(text, least, most),
        None => Some(absent),
    }
}

// Returns the limit of an exclusive, by the text of the option.
pub fn room(text: Option<&str>) -> Option<u32>
    ensures number { result ≡ room_in (option_copied text.entry) }
    ensures range { IfSome result (λ n. IsRoom n) }
{
    number_or(text, 6, 1_048_576, 1_048_576)
}

// Returns the group, by the text of the option.
pub fn group(text: Option<&str>) -> Option<U4>
    ensures number { result ≡ group_in (option_copied text.entry) }
    ensures range { IfSome result (λ g. g < 16) }
{
    let value = number_or(text, 0, 15, 0)?;
    U4::new(value as u8)
}

// Returns the cable, by the text of the option. A cable has the range of a group.
pub fn cable(text: Option<&str>) -> Option<U4>
    ensures number { result ≡ cable_in (option_copied text.entry) }
    ensures range { IfSome result (λ c. c < 16) }
{
    group(text)
}
