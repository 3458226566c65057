ghost use Rattle.std.specs.Prelude.{◌≡◌, IfSome, ◌≤◌, map};
ghost use Rattle.std.specs.Option.{option_map, option_copied};
ghost use Rattle.toml.specs.Data.{get_member};
ghost use Rattle.toml.specs.View.{view, table_view};
ghost use Rattle.cluster_file.specs.Tables.{value_at, elements_of, elements_at, text_at, truth_at, whole_at, within, is_two};

use crate::keys::KeyName;
use toml::{Table, Value};

/// The value at a key; None exactly where there is none.
fn member<'a>(table: &'a Table, key: &str) -> Option<&'a Value>
    ensures { option_map (λ v. view v.now) result ≡ get_member key.now (table_view table.now) }
{
    table.get(key)
}

/// The value at a key of a cluster file; None exactly where there is none.
pub fn value_at(table: &Table, key: KeyName) -> Option<&Value>
    ensures { option_map (λ v. view v.now) result ≡ value_at key (table_view table.now) }
{
    member(table, key.text())
}

/// The string at a key; the empty one where there is none.
pub fn text_at(table: &Table, key: KeyName) -> &str
    ensures { result.now ≡ text_at key (table_view table.now) }
{
    match value_at(table, key) {
        Some(value) => value.as_str().unwrap_or(""),
        None => "",
    }
}

/// The truth value at a key; false where there is none.
pub fn truth_at(table: &Table, key: KeyName) -> bool
    ensures { result ≡ truth_at key (table_view table.now) }
{
    match value_at(table, key) {
        Some(value) => value.as_bool().unwrap_or(false),
        None => false,
    }
}

/// The whole number at a key; the default where there is none.
pub fn whole_at(table: &Table, key: KeyName, default: u32) -> i64
    ensures { result ≡ whole_at key default (table_view table.now) }
{
    match value_at(table, key) {
        Some(value) => value.as_integer().unwrap_or(i64::from(default)),
        None => i64::from(default),
    }
}

/// The elements of the array at a key; none where there is no array.
pub fn elements_at(table: &Table, key: KeyName) -> &[Value]
    ensures { map view result.now ≡ elements_at key (table_view table.now) }
{
    match value_at(table, key) {
        Some(value) => elements_of(value),
        None => &[],
    }
}

/// The elements of an array; none of another value.
pub fn elements_of(value: &Value) -> &[Value]
    ensures { map view result.now ≡ elements_of (view value.now) }
{
    match value.as_array() {
        Some(array) => array.as_slice(),
        None => &[],
    }
}

/// The number, where it lies between two others or is one of them.
pub fn within(least: u64, most: u64, number: i64) -> Option<u64>
    ensures value { result ≡ within least most number }
    ensures range { IfSome result (λ n. (least ≤ n) × (n ≤ most)) }
{
    if number < 0 {
        return None;
    }
    let number = number as u64;
    if least <= number && number <= most {
        Some(number)
    } else {
        None
    }
}

/// The number, where it lies between two others or is one of them.
pub fn within_u32(least: u32, most: u32, number: i64) -> Option<u32>
    ensures value { result ≡ within least most number }
    ensures range { IfSome result (λ n. (least ≤ n) × (n ≤ most)) }
{
    match within(u64::from(least), u64::from(most), number) {
        Some(number) => Some(number as u32),
        None => None,
    }
}

/// Whether the number of the file's version is 2, by which its other tables are read.
pub fn is_two(version: i64) -> bool
    ensures { result ≡ is_two version }
{
    version == 2
}
