ghost use Rattle.std.specs.Prelude.{◌≡◌, ◌<◌, ◌∷◌, ◌++◌, [], Some, IfOk, OnErr, OnOk, length, option_map, slice_get};
ghost use Rattle.std.specs.List.{list_any, position, remove};
ghost use Rattle.sprite_ids.specs.Lists.{changed, less, without};
ghost use Rattle.kernel_steps.specs.Rows.{all_under, first_under, has_value, is_row, is_under, with_value};

use sprite_ids::{Copying, Items, NoMemory};
use std::alloc::Global;
use std::marker::Model;

/// Values that wait under keys, in the order in which they came; a key may have several. Contracts see it as the list of
/// keys and values in that order (this project).
#[derive(Debug, Drop)]
pub struct Queue<K, V> {
    rows: Vec<(K, V)>,
}

impl<K, V> Model for Queue<K, V> {
    ghost use Rattle.std.specs.Prelude.{List};

    ghost Value = { List (K × V) };

    ghost view = { λ queue. queue.rows.items };
}

impl<K, V> Queue<K, V> {
    /// Nothing waits.
    pub fn new(alloc: Global) -> Queue<K, V>
        ensures { result ≡ [] }
    {
        Queue {
            rows: Vec::new(alloc),
        }
    }

    /// How many values wait, under all keys.
    pub fn len(&self) -> usize
        ensures { result ≡ length self.now }
    {
        self.rows.len()
    }

    /// The keys and values, in the order in which they came.
    pub fn rows(&self) -> &[(K, V)]
        ensures { result.now ≡ self.now }
    {
        self.rows.as_slice()
    }

    /// Puts the value behind all others. After want of memory, the one error, all is as before.
    pub fn push(&mut self, key: K, value: V) -> Result<(), NoMemory>
    where
        K: Drop,
        V: Drop,
        ensures ok { OnOk result (self.new ≡ self.old ++ (key, value) ∷ []) }
        ensures err { OnErr result (self.new ≡ self.old) }
    {
        self.rows.push((key, value))?;
        Ok(())
    }

    /// Whether a value waits under the key.
    pub fn has(&self, key: &K) -> bool
    where
        K: PartialEq,
        ensures { result ≡ list_any (is_under K.eq key.now) self.now }
    {
        self.rows.iter().any(|row| row.0 == *key)
    }

    /// The first value that waits under the key, lent; None exactly where none does.
    pub fn first(&self, key: &K) -> Option<&V>
    where
        K: PartialEq,
        ensures { option_map (λ value. value.now) result ≡ first_under K.eq key.now self.now }
    {
        match self.rows.iter().find(|row| row.0 == *key) {
            None => None,
            Some(row) => Some(&row.1),
        }
    }

    /// Whether this value waits under the key.
    pub fn has_row(&self, key: &K, value: &V) -> bool
    where
        K: PartialEq,
        V: PartialEq,
        ensures { result ≡ list_any (is_row K.eq V.eq key.now value.now) self.now }
    {
        self.rows.iter().any(|row| row.0 == *key && row.1 == *value)
    }

    /// The values that wait under the key, in the order in which they came. The one error is want of memory.
    pub fn values(&self, alloc: Global, key: &K) -> Result<Items<V>, NoMemory>
    where
        K: PartialEq,
        V: Copying + Drop,
        ensures { IfOk result (λ values. values ≡ all_under K.eq key.now self.now) }
    {
        let mut values = Items::new(alloc);
        for row in self.rows.as_slice() {
            if row.0 == *key {
                values.push(row.1.copy(alloc)?)?;
            }
        }
        Ok(values)
    }

    /// Puts the value in the place of the first that waits under the key; where none does, all is as before. It takes no
    /// memory.
    pub fn set(&mut self, key: &K, value: V)
    where
        K: PartialEq,
        V: Drop,
        ensures { self.new ≡ changed (is_under K.eq key.now) (with_value value) self.old }
    {
        set_first(&mut self.rows, key, value);
    }

    /// Takes the first value that waits under the key; None exactly where none does, and then all is as before.
    pub fn take(&mut self, key: &K) -> Option<V>
    where
        K: PartialEq + Drop,
        ensures value { result ≡ first_under K.eq key.now self.old }
        ensures rows { self.new ≡ less (is_under K.eq key.now) self.old }
    {
        match self.place(key) {
            None => None,
            Some(place) => {
                let (_key, value) = self.take_at(place);
                Some(value)
            }
        }
    }

    /// Takes out the key and value at that place, counted from 0 in the order in which they came: for a row that the caller
    /// found in `rows`.
    pub fn take_at(&mut self, place: usize) -> (K, V)
        requires { place < length self.old }
        ensures rows { self.new ≡ remove self.old place }
        ensures value { slice_get self.old place ≡ Some result }
    {
        self.rows.remove(place)
    }

    /// Takes out the first row of this key and value, and tells whether there was one; else all is as before.
    pub fn take_row(&mut self, key: &K, value: &V) -> bool
    where
        K: PartialEq + Drop,
        V: PartialEq + Drop,
        ensures found { result ≡ list_any (is_row K.eq V.eq key.now value.now) self.old }
        ensures rows { self.new ≡ less (is_row K.eq V.eq key.now value.now) self.old }
    {
        match self.row_place(key, value) {
            None => false,
            Some(place) => {
                let _row = self.take_at(place);
                true
            }
        }
    }

    /// Takes out all that waits under the key.
    pub fn remove_all(&mut self, key: &K)
    where
        K: PartialEq + Drop,
        V: Drop,
        ensures { self.new ≡ without (is_under K.eq key.now) self.old }
    {
        remove_under(&mut self.rows, key);
    }

    /// Takes out this value under whatever key it waits.
    pub fn remove_value(&mut self, value: &V)
    where
        K: Drop,
        V: PartialEq + Drop,
        ensures { self.new ≡ without (has_value V.eq value.now) self.old }
    {
        remove_with(&mut self.rows, value);
    }

    // The place of the first row of this key and value.
    fn row_place(&self, key: &K, value: &V) -> Option<usize>
    where
        K: PartialEq,
        V: PartialEq,
        ensures { result ≡ position (is_row K.eq V.eq key.now value.now) self.now }
    {
        self.rows
            .iter()
            .position(|row| row.0 == *key && row.1 == *value)
    }

    // The place of the first value that waits under the key.
    fn place(&self, key: &K) -> Option<usize>
    where
        K: PartialEq,
        ensures { result ≡ position (is_under K.eq key.now) self.now }
    {
        place_in(self.rows.as_slice(), key)
    }
}

// Puts the value in the place of the first under the key, where there is one.
fn set_first<K: PartialEq, V: Drop>(rows: &mut Vec<(K, V)>, key: &K, value: V)
    ensures { rows.new.items ≡ changed (is_under K.eq key.now) (with_value value) rows.old.items }
{
    match place_in(rows.as_slice(), key) {
        None => {}
        Some(place) => rows[place].1 = value,
    }
}

// The place of the first row of that key.
fn place_in<K: PartialEq, V>(rows: &[(K, V)], key: &K) -> Option<usize>
    ensures { result ≡ position (is_under K.eq key.now) rows.now }
{
    rows.iter().position(|row| row.0 == *key)
}

// Takes out the rows of that key.
fn remove_under<K: PartialEq + Drop, V: Drop>(rows: &mut Vec<(K, V)>, key: &K)
    ensures { rows.new.items ≡ without (is_under K.eq key.now) rows.old.items }
{
    let mut at = 0;
    'rows: while at < rows.len() {
        if rows[at].0 == *key {
            rows.remove(at);
        } else {
            at += 1;
        }
    }
}

// Takes out the rows of that value.
fn remove_with<K: Drop, V: PartialEq + Drop>(rows: &mut Vec<(K, V)>, value: &V)
    ensures { rows.new.items ≡ without (has_value V.eq value.now) rows.old.items }
{
    let mut at = 0;
    'rows: while at < rows.len() {
        if rows[at].1 == *value {
            rows.remove(at);
        } else {
            at += 1;
        }
    }
}
