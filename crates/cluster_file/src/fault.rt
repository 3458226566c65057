ghost use Rattle.std.specs.Prelude.{◌≡◌, ◌<◌, IfOk, map, drop};
ghost use Rattle.std.specs.Option.{option_map, option_copied};
ghost use Rattle.toml.specs.View.{view, table_view};
ghost use Rattle.std.specs.List.{list_all};
ghost use Rattle.cluster_file.specs.Faults.{is_known, unknown_key, is_missing, is_table, is_text, has_kind, is_wrong, first_key, fault_in, fault_number, top_fault, table_fault, elements_fault, section_fault, sections_fault, document_fault};
ghost use Rattle.cluster_file.specs.Keys.{spelled};

use crate::keys::{Key, KeyName, Kind, SECTIONS, Section, keys_of, top_keys};
use crate::places::{escaped, key_place};
use crate::refusal::Refusal;
use crate::tables::{elements_at, elements_of, is_two, value_at, whole_at};
use sprite_ids::{Bytes, NoMemory};
use std::alloc::Global;
use toml::{Table, Value};

/// What may be wrong with the keys of a table.
#[derive(Clone, Copy, Debug, PartialEq, Eq)]
pub enum Fault {
    /// It has a key that a cluster file hasn't there.
    UnknownKey,
    /// It hasn't a key that it must have.
    MissingKey,
    /// It has a key with a value of another type.
    WrongType,
}

impl Fault {
    /// The number of the refusal.
    fn number(self) -> u8
        ensures { result ≡ fault_number self }
    {
        match self {
            Fault::UnknownKey => 3,
            Fault::MissingKey => 4,
            Fault::WrongType => 5,
        }
    }
}

/// The first place of a document that has the fault: at the top, and then in the sections in order.
pub fn document_fault(
    alloc: Global,
    fault: Fault,
    document: &Table,
) -> Result<Option<Refusal>, NoMemory>
    ensures { IfOk result (λ r. r ≡ document_fault fault (table_view document.now)) }
{
    if let Some(refusal) = top_fault(alloc, fault, document)? {
        return Ok(Some(refusal));
    }
    sections_fault(alloc, fault, document, &SECTIONS)
}

fn top_fault(alloc: Global, fault: Fault, document: &Table) -> Result<Option<Refusal>, NoMemory>
    ensures { IfOk result (λ r. r ≡ top_fault fault (table_view document.now)) }
{
    match fault_in(alloc, fault, top_keys(), document)? {
        Some(at) => Ok(Some(Refusal {
            number: fault.number(),
            at,
        })),
        None => Ok(None),
    }
}

fn sections_fault(
    alloc: Global,
    fault: Fault,
    document: &Table,
    sections: &[Section],
) -> Result<Option<Refusal>, NoMemory>
    ensures { IfOk result (λ r. r ≡ sections_fault fault (table_view document.now) sections.now) }
{
    for section in sections {
        if let Some(refusal) = section_fault(alloc, fault, document, *section)? {
            return Ok(Some(refusal));
        }
    }
    Ok(None)
}

fn section_fault(
    alloc: Global,
    fault: Fault,
    document: &Table,
    section: Section,
) -> Result<Option<Refusal>, NoMemory>
    ensures { IfOk result (λ r. r ≡ section_fault fault (table_view document.now) section) }
{
    let is_two = is_two(whole_at(document, KeyName::Version, 0));
    let elements = elements_at(document, section.key());
    elements_fault(alloc, fault, section, keys_of(is_two, section), elements)
}

fn elements_fault(
    alloc: Global,
    fault: Fault,
    section: Section,
    keys: &[Key],
    elements: &[Value],
) -> Result<Option<Refusal>, NoMemory>
    ensures { IfOk result (λ r. r ≡ elements_fault fault section keys.now 1 (map view elements.now)) }
{
    for place in 0..elements.len() {
        let table = elements[place].as_table();
        if let Some(refusal) = table_fault(alloc, fault, section, keys, place + 1, table)? {
            return Ok(Some(refusal));
        }
    }
    Ok(None)
}

fn table_fault(
    alloc: Global,
    fault: Fault,
    section: Section,
    keys: &[Key],
    element: usize,
    table: Option<&Table>,
) -> Result<Option<Refusal>, NoMemory>
    ensures { IfOk result (λ r. r ≡ table_fault fault section keys.now element (option_map (λ t. table_view t.now) table.entry)) }
{
    let Some(table) = table else {
        return Ok(None);
    };
    match fault_in(alloc, fault, keys, table)? {
        Some(key) => Ok(Some(Refusal {
            number: fault.number(),
            at: key_place(alloc, section, element, key.as_slice())?,
        })),
        None => Ok(None),
    }
}

/// How the first key of a table is printed that has the fault.
fn fault_in(
    alloc: Global,
    fault: Fault,
    keys: &[Key],
    table: &Table,
) -> Result<Option<Bytes>, NoMemory>
    ensures { IfOk result (λ key. key ≡ fault_in fault keys.now (table_view table.now)) }
{
    match fault {
        Fault::UnknownKey => match unknown_key(keys, table) {
            Some(text) => Ok(Some(escaped(alloc, text.as_bytes())?)),
            None => Ok(None),
        },
        Fault::MissingKey => printed(alloc, missing_key(keys, table)),
        Fault::WrongType => printed(alloc, wrong_key(keys, table)),
    }
}

fn printed(alloc: Global, key: Option<KeyName>) -> Result<Option<Bytes>, NoMemory>
    ensures { IfOk result (λ text. text ≡ option_map spelled key) }
{
    match key {
        Some(key) => Ok(Some(Bytes::of_slice(alloc, key.text().as_bytes())?)),
        None => Ok(None),
    }
}

/// The first key of the table that is none of these; a table's keys stand in byte order.
fn unknown_key<'a>(keys: &[Key], table: &'a Table) -> Option<&'a str>
    ensures { option_copied result ≡ unknown_key keys.now (table_view table.now) }
{
    for (key, _value) in table.iter() {
        if !is_known(keys, key.as_str()) {
            return Some(key.as_str());
        }
    }
    None
}

fn is_known(keys: &[Key], text: &str) -> bool
    ensures { result ≡ is_known keys.now text.now }
{
    for key in keys {
        if key.name.text().as_bytes() == text.as_bytes() {
            return true;
        }
    }
    false
}

/// The first of the keys that the table must have and hasn't.
fn missing_key(keys: &[Key], table: &Table) -> Option<KeyName>
    ensures { result ≡ first_key (is_missing (table_view table.now)) keys.now }
{
    for key in keys {
        if is_missing(table, *key) {
            return Some(key.name);
        }
    }
    None
}

fn is_missing(table: &Table, key: Key) -> bool
    ensures { result ≡ is_missing (table_view table.now) key }
{
    key.required && value_at(table, key.name).is_none()
}

/// The first of the keys at which the table has a value of another type.
fn wrong_key(keys: &[Key], table: &Table) -> Option<KeyName>
    ensures { result ≡ first_key (is_wrong (table_view table.now)) keys.now }
{
    for key in keys {
        if is_wrong(table, *key) {
            return Some(key.name);
        }
    }
    None
}

fn is_wrong(table: &Table, key: Key) -> bool
    ensures { result ≡ is_wrong (table_view table.now) key }
{
    match value_at(table, key.name) {
        Some(value) => !has_kind(key.kind, value),
        None => false,
    }
}

fn has_kind(kind: Kind, value: &Value) -> bool
    ensures { result ≡ has_kind kind (view value.now) }
{
    match kind {
        Kind::Whole => value.is_integer(),
        Kind::Text => value.is_str(),
        Kind::Truth => value.is_bool(),
        Kind::Tables => value.is_array() && are_tables(elements_of(value)),
        Kind::Texts => value.is_array() && are_texts(elements_of(value)),
    }
}

fn are_tables(elements: &[Value]) -> bool
    ensures { result ≡ list_all is_table (map view elements.now) }
{
    for element in elements {
        if !element.is_table() {
            return false;
        }
    }
    true
}

fn are_texts(elements: &[Value]) -> bool
    ensures { result ≡ list_all is_text (map view elements.now) }
{
    for element in elements {
        if !element.is_str() {
            return false;
        }
    }
    true
}
