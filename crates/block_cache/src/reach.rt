ghost use Rattle.std.specs.Prelude.{◌≡◌, [], OnOk, OnErr};
ghost use Rattle.block_cache.specs.Reach.{end_of, raised};

use indexmap::IndexMap;
use sprite_ids::{FileId, NoMemory};
use std::alloc::Global;
use std::marker::Model;

/// For each file a number above those of its blocks that are held, so that a walk over a file's blocks ends there. A file that
/// isn't there has none. Contracts see the files and the numbers.
#[derive(Debug, Drop)]
pub(crate) struct Reach {
    ends: IndexMap<FileId, u16>,
}

impl Model for Reach {
    ghost use Rattle.block_cache.specs.Reach.{Ends};

    ghost Value = { Ends };

    ghost view = { λ reach. reach.ends.entries };
}

impl Reach {
    // No files.
    pub fn new(alloc: Global) -> Reach
        ensures { result ≡ [] }
    {
        Reach {
            ends: IndexMap::new(alloc),
        }
    }

    // The number of the file, or 0.
    pub fn end(&self, file: &FileId) -> u16
        ensures { result ≡ end_of self.now file.now }
    {
        match self.ends.get(file) {
            Some(end) => *end,
            None => 0,
        }
    }

    // Raises the number of the file to that one, where it is less.
    pub fn raise(&mut self, file: &FileId, end: u16) -> Result<(), NoMemory>
        ensures ok { OnOk result (self.new ≡ raised self.old file.now end) }
        ensures err { OnErr result (self.new ≡ self.old) }
    {
        let end = self.end(file).max(end);
        self.ends.insert(*file, end)?;
        Ok(())
    }
}
