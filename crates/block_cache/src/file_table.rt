ghost use Rattle.std.specs.Prelude.{◌≡◌, [], OnOk, OnErr, IsSome};
ghost use Rattle.std.specs.List.{list_all};
ghost use Rattle.std.specs.Map.{values_of};
ghost use Rattle.block_cache.specs.Files.{is_low, grown, known, state_of, with_state};

use crate::file_state::FileState;
use indexmap::IndexMap;
use sprite_ids::{FileId, NoMemory};
use std::alloc::Global;
use std::marker::Model;

/// What is known of each file. Contracts see the files with their states. That each counter is low is told without a walk,
/// since the files of which one isn't are counted.
#[derive(Debug, Drop)]
pub(crate) struct FileTable {
    states: IndexMap<FileId, FileState>,
    high: u64,
}

impl Model for FileTable {
    ghost use Rattle.std.specs.Prelude.{◌≡◌};
    ghost use Rattle.block_cache.specs.Files.{Files, high_of};

    ghost Value = { Files };

    ghost view = { λ table. table.states.entries };

    ghost invariant = { λ table. table.high ≡ high_of table.states.entries };
}

impl FileTable {
    // No files.
    pub fn new(alloc: Global) -> FileTable
        ensures { result ≡ [] }
    {
        FileTable {
            states: IndexMap::new(alloc),
            high: 0,
        }
    }

    // What is kept of the file.
    pub fn state(&self, file: &FileId) -> Option<FileState>
        ensures { result ≡ state_of self.now file.now }
    {
        self.states.get(file).copied()
    }

    // What is known of the file.
    pub fn known(&self, file: &FileId) -> FileState
        ensures { result ≡ known self.now file.now }
    {
        match self.states.get(file) {
            Some(state) => *state,
            None => FileState::new(),
        }
    }

    // Gives the file another state.
    pub fn put(&mut self, file: &FileId, state: FileState) -> Result<(), NoMemory>
        ensures ok { OnOk result (self.new ≡ with_state self.old file.now state) }
        ensures err { OnErr result (self.new ≡ self.old) }
    {
        let others = self.high - self.known(file).high();
        let high = others.checked_add(state.high()).ok_or(NoMemory)?;
        self.states.insert(*file, state)?;
        self.high = high;
        Ok(())
    }

    // Lets the size of the file grow, of which something is known.
    pub fn grow(&mut self, file: &FileId, end: u32)
        requires { IsSome (state_of self.old file.now) }
        ensures { self.new ≡ with_state self.old file.now (grown (known self.old file.now) end) }
    {
        grow(&mut self.states, file, end);
    }

    // Whether the stamps and versions of all files are at most 2,000,000,000.
    pub fn are_low(&self) -> bool
        ensures { result ≡ list_all is_low (values_of self.now) }
    {
        self.high == 0
    }
}

// Lets the size of a file grow, of which something is known.
fn grow(states: &mut IndexMap<FileId, FileState>, file: &FileId, end: u32)
    requires { IsSome (state_of states.old.entries file.now) }
    ensures { states.new.entries ≡ with_state states.old.entries file.now (grown (known states.old.entries file.now) end) }
{
    let Some(state) = states.get(file).copied() else {
        return;
    };
    match states.insert(*file, state.grown(end)) {
        Ok(_) => {}
        Err(_) => unreachable!(),
    }
}
