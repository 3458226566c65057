ghost use Rattle.std.specs.Prelude.{◌≡◌, IsTrue, IfOk, OnOk, OnErr, Some, [], false};
ghost use Rattle.version_table.specs.Lists.{is_any};
ghost use Rattle.version_table.specs.Opens.{count_in, open_at, stream_mode};
ghost use Rattle.version_table.specs.Files.{is_busy, is_ready, is_roomy, decided, answered, is_last, settled, settled_grant, is_closed, current, IsPrepared};
ghost use Rattle.version_table.specs.Decisions.{decision_of};
ghost use Rattle.version_table.specs.Laws.{CachedIsUnshared, CachingIsUnshared, CachingIsHolder, UncachedIsStopped};
ghost use Rattle.version_table.specs.Versions.{file_of, with_file, with_closed, forgotten};

use crate::action::{Action, Decision};
use crate::files;
use crate::versioned::Versioned;
use lru::LruCache;
use sprite_ids::{FileId, Grant, Kernel, Mode, NoMemory, StreamNo};
use std::alloc::Global;
use std::marker::Model;

/// Who has the files of one server open, with their versions and stamps. Contracts see whether clients have a cache, and
/// the files that anybody opened since they were last forgotten, in the order of their first opens, each with what is kept
/// of it.
#[derive(Debug, Drop)]
pub struct Versions {
    alloc: Global,
    cached: bool,
    // None before the first open. It is never promoted, so a file is dropped from any place in it at the same cost.
    files: Option<LruCache<FileId, Versioned>>,
}

impl Model for Versions {
    ghost use Rattle.version_table.specs.Versions.{Table, AreKept, files_in};

    ghost Value = { Table };

    ghost view = { λ versions. record { cached = versions.cached; files = files_in versions.files } };

    ghost invariant = { λ versions. AreKept (files_in versions.files) };
}

impl Versions {
    /// No files. Where `cached` is false, clients have no cache, and each grant has mode Off. It takes no memory, and
    /// keeps the allocator.
    pub fn new(alloc: Global, cached: bool) -> Versions
        ensures { result ≡ record { cached = cached; files = [] } }
    {
        Versions {
            alloc,
            cached,
            files: None,
        }
    }

    /// Whether the stamp, the version and the counts of grants of the file may be raised: each is at most 2,000,000,000.
    pub fn room(&self, file: FileId) -> bool
        ensures { result ≡ is_roomy (file_of self.now.files file) }
    {
        match files::find(&self.files, &file) {
            Some(versioned) => versioned.is_roomy(),
            None => true,
        }
    }

    /// Decides on an open or a move of a stream of the file, which isn't busy and has room: it is granted exactly where no
    /// kernel is to be called first. Else the file is busy, until each of the callbacks is answered and the file is settled.
    ///
    /// A stream that moves and that no kernel has open counts as one for reading. After want of memory, the one error,
    /// all is as before.
    pub fn decide(&mut self, file: FileId, action: Action) -> Result<Decision, NoMemory>
        requires room { IsTrue (is_roomy (file_of self.old.files file)) }
        requires free { is_busy (file_of self.old.files file) ≡ false }
        ensures ok { OnOk result (self.new ≡ record self.old { files = with_file self.old.files file (decided self.old.cached (file_of self.old.files file) action) }) }
        ensures decision { IfOk result (λ decision. decision ≡ decision_of self.old.cached (file_of self.old.files file) action) }
        ensures err { OnErr result (self.new ≡ self.old) }
    {
        files::decide(&mut self.files, self.alloc, self.cached, &file, &action)
    }

    /// Notes that the kernel's answer to a callback came: it is out no more, and holds no dirty blocks. True exactly where
    /// it was the last that was out.
    pub fn answered(&mut self, file: FileId, kernel: Kernel) -> bool
        requires { IsTrue (is_busy (file_of self.old.files file)) }
        ensures table { self.new ≡ record self.old { files = with_file self.old.files file (answered (file_of self.old.files file) kernel) } }
        ensures last { result ≡ is_last (file_of self.old.files file) kernel }
    {
        files::answer(&mut self.files, &file, kernel)
    }

    /// Whether what waits may be granted by `settle`: the file is busy, and no callback is out.
    pub fn is_ready(&self, file: FileId) -> bool
        ensures { result ≡ is_ready (file_of self.now.files file) }
    {
        match files::find(&self.files, &file) {
            Some(versioned) => versioned.is_ready(),
            None => false,
        }
    }

    /// Grants the open or move that waited, once no callback is out. It takes no memory.
    pub fn settle(&mut self, file: FileId) -> Grant
        requires { IsTrue (is_ready (file_of self.old.files file)) }
        ensures prepared { IsPrepared (file_of self.old.files file) }
        ensures table { self.new ≡ record self.old { files = with_file self.old.files file (settled (file_of self.old.files file)) } }
        ensures grant { settled_grant (file_of self.old.files file) ≡ Some result }
    {
        files::settle(&mut self.files, &file)
    }

    /// Takes that many grants of the stream off the kernel, or all where it has fewer; the file isn't busy. True exactly
    /// where no kernel has the file open then: it may be cached again. Where no kernel has the stream open, it is no longer
    /// shared.
    pub fn close(&mut self, file: FileId, kernel: Kernel, stream: StreamNo, grants: u32) -> bool
        requires { is_busy (file_of self.old.files file) ≡ false }
        ensures table { self.new ≡ record self.old { files = with_closed self.old.files file kernel stream grants } }
        ensures last { result ≡ is_closed (file_of self.old.files file) kernel stream grants }
    {
        files::close(&mut self.files, &file, kernel, &stream, grants)
    }

    /// The grant that answers a request of the kernel whose stamp isn't the current one: the one given last where its stamp
    /// is the current one, else one that carries the present version as the old one too.
    pub fn current(&self, file: FileId, kernel: Kernel) -> Grant
        ensures { result ≡ current (file_of self.now.files file) kernel }
    {
        match files::find(&self.files, &file) {
            Some(versioned) => versioned.current(kernel),
            None => Versioned::fresh(self.alloc, &file).current(kernel),
        }
    }

    /// Whether an open or a move of the file waits for callbacks.
    pub fn busy(&self, file: FileId) -> bool
        ensures { result ≡ is_busy (file_of self.now.files file) }
    {
        match files::find(&self.files, &file) {
            Some(versioned) => versioned.is_busy(),
            None => false,
        }
    }

    /// Whether any kernel has the file open.
    pub fn is_open(&self, file: FileId) -> bool
        ensures { result ≡ is_any (file_of self.now.files file).opens }
    {
        match files::find(&self.files, &file) {
            Some(versioned) => versioned.is_open(),
            None => false,
        }
    }

    /// How many grants of the stream the kernel has; 0 where it doesn't have the stream open.
    pub fn count(&self, file: FileId, stream: StreamNo, kernel: Kernel) -> u32
        ensures { result ≡ count_in (open_at (file_of self.now.files file).opens stream kernel) }
    {
        match files::find(&self.files, &file) {
            Some(versioned) => versioned.count(&stream, kernel),
            None => 0,
        }
    }

    /// What the stream was opened for; None exactly where no kernel has it open.
    pub fn mode(&self, file: FileId, stream: StreamNo) -> Option<Mode>
        ensures { result ≡ stream_mode (file_of self.now.files file).opens stream }
    {
        match files::find(&self.files, &file) {
            Some(versioned) => versioned.mode(&stream),
            None => None,
        }
    }

    /// A law of each file, whatever was called so far (Nelson, Welch and Ousterhout 1988): where the file isn't uncached, and
    /// where any kernel was given mode On last, a kernel that has it open for writing is the only kernel that has it open.
    /// Where it isn't busy, a kernel that has it open for writing and was given mode On last is the possible holder of dirty
    /// blocks. Of an uncached file no kernel was given mode On last.
    pub fn writers_are_alone(&self, file: FileId)
        ensures cached { CachedIsUnshared (file_of self.now.files file) }
        ensures caching { CachingIsUnshared (file_of self.now.files file) }
        ensures holder { CachingIsHolder (file_of self.now.files file) }
        ensures stopped { UncachedIsStopped (file_of self.now.files file) }
    {
        let _ = &self.files;
    }

    /// Drops what is kept of the file. Its number is never used again.
    pub fn forget(&mut self, file: FileId)
        ensures { self.new ≡ record self.old { files = forgotten self.old.files file } }
    {
        files::forget(&mut self.files, &file);
    }
}
