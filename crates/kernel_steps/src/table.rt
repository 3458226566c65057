ghost use Rattle.std.specs.Prelude.{◌≡◌, [], IfOk, OnErr, OnOk, is_some, length, option_map};
ghost use Rattle.std.specs.BTreeMap.{insert_entry, is_at};
ghost use Rattle.std.specs.Borrow.{LendsSo, sem};
ghost use Rattle.kernel_steps.specs.contracts.table.Table.{the_row};
ghost use Rattle.std.specs.Map.{keys_of, lookup, remove_entry, set_value};

use sprite_ids::{Copying, Items, NoMemory};
use std::alloc::Global;
use std::collections::BTreeMap;
use std::marker::Model;

/// Values under keys, one a key. Contracts see it as the list of keys and values, by ascending key (this project).
#[derive(Debug, Drop)]
pub struct Table<K: Ord, V> {
    entries: BTreeMap<K, V>,
}

impl<K: Ord, V> Model for Table<K, V> {
    ghost use Rattle.std.specs.Prelude.{List};

    ghost Value = { List (K × V) };

    ghost view = { λ table. table.entries.entries };
}

impl<K: Ord, V> Table<K, V> {
    /// No values.
    pub fn new(alloc: Global) -> Table<K, V>
        ensures { result ≡ [] }
    {
        Table {
            entries: BTreeMap::new(alloc),
        }
    }

    /// How many values there are.
    pub fn len(&self) -> usize
        ensures { result ≡ length self.now }
    {
        self.entries.len()
    }

    /// Puts the value under the key, in the place of one that is there. After want of memory, the one error, all is as
    /// before.
    pub fn put(&mut self, key: K, value: V) -> Result<(), NoMemory>
    where
        K: Drop,
        V: Drop,
        ensures ok { OnOk result (self.new ≡ insert_entry K.cmp self.old key value) }
        ensures err { OnErr result (self.new ≡ self.old) }
    {
        self.entries.insert(key, value)?;
        Ok(())
    }

    /// Puts the value in the place of the one under the key; where there is none, all is as before. It takes no memory.
    pub fn set(&mut self, key: &K, value: V)
    where
        V: Drop,
        ensures { self.new ≡ set_value (is_at (K.cmp key.now)) self.old value }
    {
        match self.get_mut(key) {
            Some(place) => *place = value,
            None => {}
        }
    }

    /// Whether there is a value under the key.
    pub fn has(&self, key: &K) -> bool
        ensures { result ≡ is_some (lookup (is_at (K.cmp key.now)) self.now) }
    {
        self.entries.contains_key(key)
    }

    /// The value under the key, lent; None exactly where there is none.
    pub fn get(&self, key: &K) -> Option<&V>
        ensures { option_map (λ value. value.now) result ≡ lookup (is_at (K.cmp key.now)) self.now }
    {
        self.entries.get(key)
    }

    /// The value under the key, lent for change; None exactly where there is none.
    pub fn get_mut(&mut self, key: &K) -> Option<&mut V>
        ensures* writes_back { sem 𝓛 (LendsSo (the_row K.row V.row (record { cmp = K.cmp }) (record { eq = K.eq }) (record { partial_cmp = K.partial_cmp })) V.row self.entry result (λ n w. n ≡ set_value (is_at (K.cmp key.now)) self.old w) (λ n. n ≡ self.old)) }
        ensures value { option_map (λ value. value.now) result ≡ lookup (is_at (K.cmp key.now)) self.old }
    {
        self.entries.get_mut(key)
    }

    /// Takes the value under the key; None exactly where there is none, and then all is as before.
    pub fn take(&mut self, key: &K) -> Option<V>
    where
        K: Drop,
        ensures value { result ≡ lookup (is_at (K.cmp key.now)) self.old }
        ensures entries { self.new ≡ remove_entry (is_at (K.cmp key.now)) self.old }
    {
        self.entries.remove(key)
    }

    /// The keys and values as they are kept, lent: a walk over them takes no memory.
    pub fn entries(&self) -> &BTreeMap<K, V>
        ensures { result.now.entries ≡ self.now }
    {
        &self.entries
    }

    /// The keys in ascending order. The one error is want of memory.
    pub fn keys(&self, alloc: Global) -> Result<Items<K>, NoMemory>
    where
        K: Copying + Drop,
        ensures { IfOk result (λ keys. keys ≡ keys_of self.now) }
    {
        let mut keys = Items::new(alloc);
        for key in self.entries.keys() {
            keys.push(key.copy(alloc)?)?;
        }
        Ok(keys)
    }
}
