ghost use Rattle.std.specs.Prelude.{◌≡◌, ◌<◌, ◌++◌, ◌∷◌, [], List, ℕ, map, IfOk, OnOk, OnErr, length, option_map, position};
ghost use Rattle.std.specs.Map.{lookup, remove_entry};
ghost use Rattle.indexmap.specs.IndexMap.{insert_entry, set_value_at};
ghost use Rattle.server_names.specs.Names.{is_at, is_part, is_listed, entries_in, entry_in, last_of, parent, count, listed_at, names_in, put, unlisted};

use crate::name::{Entry, Name};
use indexmap::IndexMap;
use sprite_ids::{Bytes, Copying, Items, NoMemory};
use std::alloc::Global;
use std::marker::Model;

/// The directories of a domain, each with its entries. A directory without an entry needn't be there. Contracts see them in
/// the order in which they got their first entries, each with its entries in the order in which they were made.
#[derive(Debug, Drop)]
pub(crate) struct Directories {
    alloc: Global,
    lists: IndexMap<Name, Items<(Bytes, Entry)>>,
}

impl Model for Directories {
    ghost use Rattle.server_names.specs.Names.{Tree};

    ghost Value = { Tree };

    ghost view = { λ directories. directories.lists.entries };
}

impl Directories {
    /// No entries.
    pub(crate) fn new(alloc: Global) -> Directories
        ensures { result ≡ [] }
    {
        Directories {
            alloc,
            lists: IndexMap::new(alloc),
        }
    }

    /// The allocator.
    pub(crate) fn alloc(&self) -> Global {
        self.alloc
    }

    /// The entry of that name in the directory.
    pub(crate) fn entry_in(&self, directory: &Name, part: &Bytes) -> Option<&Entry>
        ensures { option_map (λ entry. entry.now) result ≡ entry_in self.now directory.now part.now }
    {
        entry_of(self.entries_in(directory), part)
    }

    /// How many entries the directory has.
    pub(crate) fn count_in(&self, directory: &Name) -> usize
        ensures { result ≡ count self.now directory.now }
    {
        self.entries_in(directory).len()
    }

    /// The names of the directory's entries.
    pub(crate) fn names_in(&self, directory: &Name) -> Result<Vec<Vec<u8>>, NoMemory>
        ensures { IfOk result (λ names. map (λ name. name.items) names.items ≡ names_in self.now directory.now) }
    {
        names_of(self.alloc, self.entries_in(directory))
    }

    /// Puts an entry of that path behind the others of its directory. After want of memory all is as before.
    pub(crate) fn put(&mut self, path: &[Bytes], entry: Entry) -> Result<(), NoMemory>
        requires { 0 < length path.now }
        ensures ok { OnOk result (self.new ≡ put self.old path.now entry) }
        ensures err { OnErr result (self.new ≡ self.old) }
    {
        let directory = Name::of(self.alloc, parent(path))?;
        let part = last_of(path).copy(self.alloc)?;
        match self.lists.get_index_of(&directory) {
            Some(at) => self.push_at(at, part, entry),
            None => self.begin(directory, part, entry),
        }
    }

    /// Takes the entry of that name out of the directory, where it is there.
    pub(crate) fn take(&mut self, directory: &Name, part: &Bytes)
        ensures { self.new ≡ unlisted self.old directory.now part.now }
    {
        match self.lists.get_index_of(directory) {
            Some(at) => self.take_at(at, part),
            None => (),
        }
    }

    /// Forgets the directory with its entries.
    pub(crate) fn forget(&mut self, directory: &Name)
        ensures { self.new ≡ remove_entry (is_at directory.now) self.old }
    {
        self.lists.shift_remove(directory);
    }

    // The entries of the directory.
    fn entries_in(&self, directory: &Name) -> &[(Bytes, Entry)]
        ensures { result.now ≡ entries_in self.now directory.now }
    {
        match self.lists.get(directory) {
            Some(entries) => entries.as_slice(),
            None => &[],
        }
    }

    // Puts an entry behind the others of the directory at that place.
    fn push_at(&mut self, at: usize, part: Bytes, entry: Entry) -> Result<(), NoMemory>
        ensures ok { OnOk result (self.new ≡ set_value_at self.old at (listed_at self.old at ++ (part, entry) ∷ [])) }
        ensures err { OnErr result (self.new ≡ self.old) }
    {
        let Some(entries) = self.lists.get_index_mut(at) else {
            return Ok(());
        };
        entries.push((part, entry))?;
        Ok(())
    }

    // Gives a directory its first entry.
    fn begin(&mut self, directory: Name, part: Bytes, entry: Entry) -> Result<(), NoMemory>
        ensures ok { OnOk result (self.new ≡ insert_entry is_at self.old directory ((part, entry) ∷ [])) }
        ensures err { OnErr result (self.new ≡ self.old) }
    {
        let mut entries = Items::new(self.alloc);
        entries.push((part, entry))?;
        self.lists.insert(directory, entries)?;
        Ok(())
    }

    // Takes the entry of that name out of the directory at that place.
    fn take_at(&mut self, at: usize, part: &Bytes)
        ensures { self.new ≡ set_value_at self.old at (remove_entry (is_part part.now) (listed_at self.old at)) }
    {
        let Some(entries) = self.lists.get_index_mut(at) else {
            return;
        };
        take_out(entries, part);
    }
}

/// The parts of the directory that has the path's last part.
pub(crate) fn parent(path: &[Bytes]) -> &[Bytes]
    ensures { result.now ≡ parent path.now }
{
    let (parent, _) = path.split_at(path.len().saturating_sub(1));
    parent
}

/// The path's last part.
pub(crate) fn last_of(path: &[Bytes]) -> &Bytes
    requires { 0 < length path.now }
    ensures { result.now ≡ last_of path.now }
{
    &path[path.len() - 1]
}

// The entry of that name.
fn entry_of<'a>(entries: &'a [(Bytes, Entry)], part: &Bytes) -> Option<&'a Entry>
    ensures { option_map (λ entry. entry.now) result ≡ lookup (is_part part.now) entries.now }
{
    for listed in entries {
        if *part == listed.0 {
            return Some(&listed.1);
        }
    }
    None
}

// The names of the entries.
fn names_of(alloc: Global, entries: &[(Bytes, Entry)]) -> Result<Vec<Vec<u8>>, NoMemory>
    ensures { IfOk result (λ names. map (λ name. name.items) names.items ≡ map (λ listed. listed.0) entries.now) }
{
    let mut names = Vec::new(alloc);
    for listed in entries {
        names.push(Vec::from_slice(alloc, listed.0.as_slice())?)?;
    }
    Ok(names)
}

// Takes the entry of that name out of the list, where it is there.
fn take_out(entries: &mut Items<(Bytes, Entry)>, part: &Bytes)
    ensures { entries.new ≡ remove_entry (is_part part.now) entries.old }
{
    match place_of(entries.as_slice(), part) {
        Some(at) => {
            let _ = entries.remove(at);
        }
        None => (),
    }
}

// The place of the entry of that name.
fn place_of(entries: &[(Bytes, Entry)], part: &Bytes) -> Option<usize>
    ensures { result ≡ position (is_listed part.now) entries.now }
{
    entries.iter().position(|listed| *part == listed.0)
}
