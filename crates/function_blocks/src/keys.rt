// Reads the values of a table's keys.
ghost use Rattle.std.specs.Prelude.{
  ◌≡◌,
  ◌<◌,
  ◌≤◌,
  map,
  length,
  Some,
  Ok,
  Err,
  IfSome,
  MatchResult,
  option_map,
  is_some,
};
ghost use Rattle.std.specs.List.{All, list_all};
ghost use Rattle.std.specs.Option.{option_copied};
ghost use Rattle.std.specs.Str.{IsUtf8};
ghost use Rattle.toml.specs.Data.{as_table, get_member};
ghost use Rattle.toml.specs.View.{array_view, items_view, table_view, view};
ghost use Rattle.function_blocks.specs.Keys.{
  are_tables as are_all_tables,
  array_at as array_of,
  at_most as at_most_of,
  entries_at as entries_of_key,
  entries_in as entries_of_value,
  exactly as exactly_of,
  flag_at as flag_of,
  limited_text_at as limited_text_of,
  number_at as number_of_key,
  number_in as number_of_value,
  numbers_at as numbers_of_key,
  numbers_in as numbers_of,
  short_numbers_at as short_numbers_of,
  table_at as table_of,
  text_at as text_of,
};

use crate::rules::{Rule, SetupFault, broken};
use small_types::ShortList;
use toml::{Table, Value};

fn value_at<'a>(table: &'a Table, key: &str) -> Option<&'a Value>
    ensures { option_map (λ v. view v.now) result ≡ get_member key.now (table_view table.now) }
{
    table.get(key)
}

pub(crate) fn table_at<'a>(table: &'a Table, key: &str) -> Option<&'a Table>
    ensures { option_map (λ t. table_view t.now) result ≡ table_of key.now (table_view table.now) }
{
    value_at(table, key)?.as_table()
}

pub(crate) fn text_at<'a>(table: &'a Table, key: &str) -> Option<&'a str>
    ensures { option_copied result ≡ text_of key.now (table_view table.now) }
{
    value_at(table, key)?.as_str()
}

pub(crate) fn flag_at(table: &Table, key: &str) -> Option<bool>
    ensures { result ≡ flag_of key.now (table_view table.now) }
{
    value_at(table, key)?.as_bool()
}

fn array_at<'a>(table: &'a Table, key: &str) -> Option<&'a Vec<Value>>
    ensures { option_map (λ v. array_view v.now) result ≡ array_of key.now (table_view table.now) }
{
    value_at(table, key)?.as_array()
}

/// Returns the text of a key, if it has 1 to `N` bytes of UTF-8.
#[tactic(auto, using(crate::proofs::FitLaws::limited_itself))]
pub(crate) fn limited_text_at<const N: usize>(table: &Table, key: &str) -> Option<ShortList<u8, N>>
    ensures value { result ≡ limited_text_of N key.now (table_view table.now) }
    ensures some { IfSome result (λ text. 0 < length text) }
    ensures few { IfSome result (λ text. length text ≤ N) }
    ensures utf8 { IfSome result (λ text. IsUtf8 text) }
{
    let text = text_at(table, key)?;
    if text.is_empty() || text.len() > N {
        return None;
    }
    let mut bytes = ShortList::new();
    bytes.extend(text.as_bytes());
    Some(bytes)
}

// Returns a value if it is a number from `least` to `most`.
fn number_in(value: &Value, least: u32, most: u32) -> Option<u32>
    ensures value { result ≡ number_of_value least most (view value.now) }
    ensures least { IfSome result (λ n. least ≤ n) }
    ensures most { IfSome result (λ n. n ≤ most) }
{
    match value {
        Value::Integer(number) => {
            let number = *number;
            if number < least as i64 || number > most as i64 {
                None
            } else {
                Some(number as u32)
            }
        }
        _ => None,
    }
}

/// Returns the value of a key if it is a number from `least` to `most`.
pub(crate) fn number_at(table: &Table, key: &str, least: u32, most: u32) -> Option<u32>
    ensures value { result ≡ number_of_key least most key.now (table_view table.now) }
    ensures least { IfSome result (λ n. least ≤ n) }
    ensures most { IfSome result (λ n. n ≤ most) }
{
    number_in(value_at(table, key)?, least, most)
}

// Returns the numbers of a list of at most `N` values, if each is a number from 0 to `most`.
fn small_numbers_in<const N: usize>(values: &[Value], most: u8) -> Option<ShortList<u8, N>>
    requires { length values.now ≤ N }
    ensures value { result ≡ numbers_of most (items_view values.now) }
    ensures count { IfSome result (λ numbers. length numbers ≡ length values.now) }
    ensures most { IfSome result (λ numbers. All (λ n. n ≤ most) numbers) }
{
    let mut numbers = ShortList::new();
    for value in values {
        match number_in(value, 0, most as u32) {
            Some(number) => numbers.push(number as u8),
            None => return None,
        }
    }
    Some(numbers)
}

#[tactic(auto, using(crate::proofs::KeyLaws::count_items_of_view))]
fn exactly<const N: usize>(values: &Vec<Value>, most: u8) -> Option<ShortList<u8, N>>
    ensures value { result ≡ exactly_of N most (array_view values.now) }
    ensures count { IfSome result (λ numbers. length numbers ≡ N) }
    ensures most { IfSome result (λ numbers. All (λ n. n ≤ most) numbers) }
{
    if values.len() != N {
        return None;
    }
    small_numbers_in(values.as_slice(), most)
}

/// Returns the value of a key if it is a list of exactly `N` numbers from 0 to `most`.
pub(crate) fn numbers_at<const N: usize>(
    table: &Table,
    key: &str,
    most: u8,
) -> Option<ShortList<u8, N>>
    ensures value { result ≡ numbers_of_key N most key.now (table_view table.now) }
    ensures count { IfSome result (λ numbers. length numbers ≡ N) }
    ensures most { IfSome result (λ numbers. All (λ n. n ≤ most) numbers) }
{
    exactly(array_at(table, key)?, most)
}

/// Returns the `N` numbers of a list as an array.
pub(crate) fn array<const N: usize>(numbers: &ShortList<u8, N>) -> [u8; N]
    requires { length numbers.now ≡ N }
    ensures { result ≡ numbers.now }
{
    let mut array = [0; N];
    array.copy_from_slice(numbers.as_slice());
    array
}

// Returns the numbers of a list of at most `N` values, if each is a number from 0 to `most`.
fn wide_numbers_in<const N: usize>(values: &[Value], most: u32) -> Option<ShortList<u32, N>>
    requires { length values.now ≤ N }
    ensures value { result ≡ numbers_of most (items_view values.now) }
    ensures few { IfSome result (λ numbers. length numbers ≤ N) }
    ensures most { IfSome result (λ numbers. All (λ n. n ≤ most) numbers) }
{
    let mut numbers = ShortList::new();
    for value in values {
        match number_in(value, 0, most) {
            Some(number) => numbers.push(number),
            None => return None,
        }
    }
    Some(numbers)
}

#[tactic(auto, using(crate::proofs::KeyLaws::count_items_of_view))]
fn at_most<const N: usize>(values: &Vec<Value>, most: u32) -> Option<ShortList<u32, N>>
    ensures value { result ≡ at_most_of N most (array_view values.now) }
    ensures few { IfSome result (λ numbers. length numbers ≤ N) }
    ensures most { IfSome result (λ numbers. All (λ n. n ≤ most) numbers) }
{
    if values.len() > N {
        return None;
    }
    wide_numbers_in(values.as_slice(), most)
}

/// Returns the value of a key if it is a list of at most `N` numbers from 0 to `most`.
pub(crate) fn short_numbers_at<const N: usize>(
    table: &Table,
    key: &str,
    most: u32,
) -> Option<ShortList<u32, N>>
    ensures value { result ≡ short_numbers_of N most key.now (table_view table.now) }
    ensures few { IfSome result (λ numbers. length numbers ≤ N) }
    ensures most { IfSome result (λ numbers. All (λ n. n ≤ most) numbers) }
{
    at_most(array_at(table, key)?, most)
}

#[tactic(auto, using(crate::proofs::KeyLaws::list_of_view))]
fn entries_in(value: &Value) -> Option<&[Value]>
    ensures { option_map (λ s. map view s.now) result ≡ entries_of_value (view value.now) }
{
    Some(value.as_array()?.as_slice())
}

fn are_each_tables(values: &[Value]) -> bool
    ensures { result ≡ list_all (λ v. is_some (as_table (view v))) values.now }
{
    values.iter().all(|value| value.is_table())
}

fn are_tables(values: &[Value], most: usize) -> bool
    ensures { result ≡ are_all_tables most (map view values.now) }
{
    values.len() <= most && are_each_tables(values)
}

/// Returns the entries of a key whose value is a list of at most `most` tables. If the key is absent, there
/// are no entries. Any other value breaks the rule.
pub(crate) fn entries_at<'a>(
    table: &'a Table,
    key: &str,
    most: usize,
    rule: Rule,
) -> Result<&'a [Value], SetupFault>
    ensures value { MatchResult result
        (λ s. entries_of_key rule most key.now (table_view table.now) ≡ Ok (map view s.now))
        (λ e. entries_of_key rule most key.now (table_view table.now) ≡ Err e) }
    ensures few { MatchResult result (λ s. length s.now ≤ most) (λ e. Unit {0}) }
{
    let Some(value) = value_at(table, key) else {
        return Ok(&[]);
    };
    let Some(values) = entries_in(value) else {
        return Err(broken(rule));
    };
    if !are_tables(values, most) {
        return Err(broken(rule));
    }
    Ok(values)
}
