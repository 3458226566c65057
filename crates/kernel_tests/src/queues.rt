use kernel_steps::Queue;
use std::alloc::Global;
use std::process::Abort;

/// Asserts that no step gives something else, and tells the place of the one that does.
pub fn is_none(rt: &impl Abort, other: Option<usize>) {
    assert_eq!(rt; other, None);
}

// A call on a queue of numbers under numbers, with what it gives.
#[derive(Clone, Copy)]
enum Step {
    // Puts the value under the key.
    Push(u32, u32),
    // Whether a value is under the key.
    Has(u32, bool),
    // Whether that value is under the key.
    HasRow(u32, u32, bool),
    // The first under the key.
    First(u32, Option<u32>),
    // All under the key.
    Values(u32, &'static [u32]),
    // Puts the value in the place of the first under the key.
    Set(u32, u32),
    // Takes the first under the key.
    Take(u32, Option<u32>),
    // Takes the value under the key.
    TakeRow(u32, u32, bool),
    // Takes all under the key.
    RemoveAll(u32),
    // Takes the value under all keys.
    RemoveValue(u32),
    // How many there are.
    Len(usize),
    // The rows.
    Rows(&'static [(u32, u32)]),
}

static STEPS: [Step; 34] = [
    Step::Len(0),
    Step::Take(1, None),
    Step::Push(1, 10),
    Step::Push(2, 20),
    Step::Push(1, 11),
    Step::Push(1, 10),
    Step::Push(3, 20),
    Step::Len(5),
    Step::Has(2, true),
    Step::Has(4, false),
    Step::HasRow(1, 11, true),
    Step::HasRow(2, 11, false),
    Step::First(1, Some(10)),
    Step::First(4, None),
    Step::Values(1, &[10, 11, 10]),
    Step::Values(4, &[]),
    Step::Set(1, 12),
    Step::Set(4, 40),
    Step::Rows(&[(1, 12), (2, 20), (1, 11), (1, 10), (3, 20)]),
    Step::Take(1, Some(12)),
    Step::TakeRow(1, 10, true),
    Step::TakeRow(1, 10, false),
    Step::TakeRow(3, 11, false),
    Step::Rows(&[(2, 20), (1, 11), (3, 20)]),
    Step::Push(2, 21),
    Step::RemoveValue(20),
    Step::Rows(&[(1, 11), (2, 21)]),
    Step::Push(1, 13),
    Step::RemoveAll(1),
    Step::Has(1, false),
    Step::Rows(&[(2, 21)]),
    Step::RemoveValue(20),
    Step::RemoveAll(1),
    Step::Len(1),
];

// Whether the queue's values under the key are these.
fn are_values(alloc: Global, queue: &Queue<u32, u32>, key: u32, values: &[u32]) -> bool {
    match queue.values(alloc, &key) {
        Ok(found) => found.as_slice() == values,
        Err(_) => false,
    }
}

// Whether the call that looks gives what it should.
fn tells(alloc: Global, queue: &Queue<u32, u32>, step: Step) -> bool {
    match step {
        Step::Has(key, is_there) => queue.has(&key) == is_there,
        Step::HasRow(key, value, is_there) => queue.has_row(&key, &value) == is_there,
        Step::First(key, value) => queue.first(&key).copied() == value,
        Step::Values(key, values) => are_values(alloc, queue, key, values),
        Step::Len(count) => queue.len() == count,
        Step::Rows(rows) => queue.rows() == rows,
        _ => false,
    }
}

// Whether the call gives what it should.
fn does(alloc: Global, queue: &mut Queue<u32, u32>, step: Step) -> bool {
    match step {
        Step::Push(key, value) => queue.push(key, value).is_ok(),
        Step::Set(key, value) => {
            queue.set(&key, value);
            true
        }
        Step::Take(key, value) => queue.take(&key) == value,
        Step::TakeRow(key, value, is_there) => queue.take_row(&key, &value) == is_there,
        Step::RemoveAll(key) => {
            queue.remove_all(&key);
            true
        }
        Step::RemoveValue(value) => {
            queue.remove_value(&value);
            true
        }
        _ => tells(alloc, queue, step),
    }
}

// The place of the first call that gives something else.
fn first_other(alloc: Global, steps: &[Step]) -> Option<usize> {
    let mut queue = Queue::new(alloc);
    for (place, step) in steps.iter().enumerate() {
        if !does(alloc, &mut queue, *step) {
            return Some(place);
        }
    }
    None
}

#[test]
fn a_queue_keeps_the_order_under_each_key(rt: HostRuntime) {
    is_none(&rt, first_other(rt.alloc(), &STEPS));
}
