ghost use Rattle.std.specs.Prelude.{◌≡◌, [], OnOk, OnErr, is_some, option_map};
ghost use Rattle.swap_pages.specs.Swap.{bytes_of, put, without};

use indexmap::IndexMap;
use sprite_ids::{Bytes, NoMemory, Pid};
use std::alloc::Global;
use std::marker::Model;

/// A page of a process, as it is found.
#[derive(Clone, Copy, Debug, PartialEq, Eq, Hash)]
pub struct PageKey {
    pub pid: Pid,
    /// Which page of the process it is, from 0.
    pub page: u8,
}

/// The pages that are kept, each once. Contracts see their bytes, in the order in which they were first put.
#[derive(Debug, Drop)]
pub struct Swap {
    pages: IndexMap<PageKey, Bytes>,
}

impl Model for Swap {
    ghost use Rattle.swap_pages.specs.Swap.{Pages};

    ghost Value = { Pages };

    ghost view = { λ swap. swap.pages.entries };
}

impl Swap {
    /// No pages. It takes no memory, and keeps the allocator.
    pub fn new(alloc: Global) -> Swap
        ensures { result ≡ [] }
    {
        Swap {
            pages: IndexMap::new(alloc),
        }
    }

    /// Keeps the page; one of that process and number that was kept before is dropped, and the new one has its place. After
    /// want of memory, the one error, the pages are as before and the bytes are dropped.
    pub fn put(&mut self, pid: Pid, page: u8, bytes: Vec<u8>) -> Result<(), NoMemory>
        ensures ok { OnOk result (self.new ≡ put self.old pid page bytes.items) }
        ensures err { OnErr result (self.new ≡ self.old) }
    {
        self.pages
            .insert(PageKey { pid, page }, Bytes::of_vec(bytes))?;
        Ok(())
    }

    /// Whether the page is kept.
    pub fn has(&self, pid: Pid, page: u8) -> bool
        ensures { result ≡ is_some (bytes_of self.now pid page) }
    {
        self.pages.contains_key(&PageKey { pid, page })
    }

    /// Takes the page out; None exactly where it isn't kept.
    pub fn take(&mut self, pid: Pid, page: u8) -> Option<Vec<u8>>
        ensures bytes { option_map (λ bytes. bytes.items) result ≡ bytes_of self.old pid page }
        ensures pages { self.new ≡ without self.old pid page }
    {
        let bytes = self.pages.shift_remove(&PageKey { pid, page })?;
        Some(bytes.into_vec())
    }
}
