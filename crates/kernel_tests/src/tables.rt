use crate::queues::is_none;
use kernel_steps::Table;
use std::alloc::Global;

// A call on a table of numbers under numbers, with what it gives.
#[derive(Clone, Copy)]
enum Step {
    // Puts the value under the key.
    Put(u32, u32),
    // Puts the value in the place of the one under the key.
    Set(u32, u32),
    // Puts the second value in the place of the one under the key, where it is lent for change, and tells whether it was.
    Lend(u32, u32, bool),
    // Whether a value is under the key.
    Has(u32, bool),
    // The value under the key.
    Get(u32, Option<u32>),
    // Takes the value under the key.
    Take(u32, Option<u32>),
    // The keys.
    Keys(&'static [u32]),
    // How many there are.
    Len(usize),
}

static STEPS: [Step; 21] = [
    Step::Len(0),
    Step::Take(1, None),
    Step::Put(5, 50),
    Step::Put(2, 20),
    Step::Put(9, 90),
    Step::Put(7, 70),
    Step::Put(2, 21),
    Step::Len(4),
    Step::Keys(&[2, 5, 7, 9]),
    Step::Get(2, Some(21)),
    Step::Get(3, None),
    Step::Set(3, 30),
    Step::Set(5, 51),
    Step::Get(5, Some(51)),
    Step::Has(3, false),
    Step::Lend(5, 52, true),
    Step::Lend(3, 30, false),
    Step::Get(5, Some(52)),
    Step::Take(5, Some(52)),
    Step::Take(5, None),
    Step::Keys(&[2, 7, 9]),
];

// Whether the table's keys are these.
fn are_keys(alloc: Global, table: &Table<u32, u32>, keys: &[u32]) -> bool {
    match table.keys(alloc) {
        Ok(found) => found.as_slice() == keys,
        Err(_) => false,
    }
}

// Puts the value in the place of the one under the key, where there is one, and tells whether there is.
fn lends(table: &mut Table<u32, u32>, key: u32, value: u32) -> bool {
    match table.get_mut(&key) {
        Some(place) => {
            *place = value;
            true
        }
        None => false,
    }
}

// Whether the call gives what it should.
fn does(alloc: Global, table: &mut Table<u32, u32>, step: Step) -> bool {
    match step {
        Step::Put(key, value) => table.put(key, value).is_ok(),
        Step::Set(key, value) => {
            table.set(&key, value);
            true
        }
        Step::Lend(key, value, is_there) => lends(table, key, value) == is_there,
        Step::Has(key, is_there) => table.has(&key) == is_there,
        Step::Get(key, value) => table.get(&key).copied() == value,
        Step::Take(key, value) => table.take(&key) == value,
        Step::Keys(keys) => are_keys(alloc, table, keys),
        Step::Len(count) => table.len() == count,
    }
}

// The place of the first call that gives something else.
fn first_other(alloc: Global, steps: &[Step]) -> Option<usize> {
    let mut table = Table::new(alloc);
    for (place, step) in steps.iter().enumerate() {
        if !does(alloc, &mut table, *step) {
            return Some(place);
        }
    }
    None
}

#[test]
fn a_table_has_its_keys_ascending(rt: HostRuntime) {
    is_none(&rt, first_other(rt.alloc(), &STEPS));
}
