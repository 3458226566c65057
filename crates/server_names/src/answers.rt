ghost use Rattle.std.specs.Prelude.{◌≡◌, ◌<◌, [], Option, length, option_map};
ghost use Rattle.server_names.specs.Names.{parent, count_answer, entry_at, passed, walked, named, freed, found, roomy, make_answer, remove_answer, rename_target, renamed_node, Answers};

use crate::directories::{Directories, last_of, parent};
use crate::end::NameEnd;
use crate::name::{Entry, Name, Node};
use sprite_ids::{Bytes, Copying, Errno};
use std::alloc::Global;

/// The most entries of a directory (this project).
const ENTRIES: usize = 256;

impl Directories {
    /// What the path names.
    pub(crate) fn find(&self, path: &[Bytes]) -> Result<Node, NameEnd>
        ensures { Answers result (found self.now path.now) }
    {
        if path.len() == 0 {
            return Ok(Node::Dir);
        }
        self.walk(parent(path))?;
        let directory = Name::of(self.alloc(), parent(path))?;
        named(self.alloc(), self.entry_in(&directory, last_of(path)))
    }

    /// How many entries the directory has.
    pub(crate) fn count(&self, path: &[Bytes]) -> Result<usize, NameEnd>
        ensures { Answers result (count_answer self.now path.now) }
    {
        match self.find(path)? {
            Node::Dir => {
                let directory = Name::of(self.alloc(), path)?;
                Ok(self.count_in(&directory))
            }
            Node::File(_) | Node::Device(_) => Err(NameEnd::Errno(Errno::NotDir)),
        }
    }

    /// Whether the name can be made.
    pub(crate) fn makeable(&self, path: &[Bytes]) -> Result<(), NameEnd>
        ensures { Answers result (make_answer self.now path.now) }
    {
        if path.len() == 0 {
            return Err(NameEnd::Errno(Errno::Exists));
        }
        self.walk(parent(path))?;
        self.free(path)?;
        self.roomy(parent(path))
    }

    /// What can be taken away.
    pub(crate) fn removable(&self, path: &[Bytes], directory: bool) -> Result<Node, NameEnd>
        ensures { Answers result (remove_answer self.now path.now directory) }
    {
        if path.len() == 0 {
            let errno = if directory { Errno::Busy } else { Errno::IsDir };
            return Err(NameEnd::Errno(errno));
        }
        let node = self.find(path)?;
        let name = Name::of(self.alloc(), path)?;
        match (node, directory) {
            (Node::Dir, true) if self.count_in(&name) == 0 => Ok(node),
            (Node::Dir, true) => Err(NameEnd::Errno(Errno::NotEmpty)),
            (_, true) => Err(NameEnd::Errno(Errno::NotDir)),
            (Node::Dir, false) => Err(NameEnd::Errno(Errno::IsDir)),
            (_, false) => Ok(node),
        }
    }

    /// What can be given the new name.
    pub(crate) fn renamable(&self, old: &[Bytes], new: &[Bytes]) -> Result<Node, NameEnd>
        ensures { Answers result (renamed_node self.now old.now new.now) }
    {
        let node = self.find(old)?;
        if node == Node::Dir {
            return Err(NameEnd::Errno(Errno::IsDir));
        }
        self.target(old, new)?;
        Ok(node)
    }

    // Whether the new name can be made.
    fn target(&self, old: &[Bytes], new: &[Bytes]) -> Result<(), NameEnd>
        ensures { Answers result (rename_target self.now old.now new.now) }
    {
        if new.len() == 0 {
            return Err(NameEnd::Errno(Errno::Exists));
        }
        self.walk(parent(new))?;
        self.free(new)?;
        if parent(old) == parent(new) {
            return Ok(());
        }
        self.roomy(parent(new))
    }

    // Whether the name is free.
    fn free(&self, path: &[Bytes]) -> Result<(), NameEnd>
        requires { 0 < length path.now }
        ensures { Answers result (freed (entry_at self.now path.now)) }
    {
        let directory = Name::of(self.alloc(), parent(path))?;
        freed(self.alloc(), self.entry_in(&directory, last_of(path)))
    }

    // Whether the directory takes one more entry.
    fn roomy(&self, directory: &[Bytes]) -> Result<(), NameEnd>
        ensures { Answers result (roomy self.now directory.now) }
    {
        let name = Name::of(self.alloc(), directory)?;
        if self.count_in(&name) < ENTRIES {
            Ok(())
        } else {
            Err(NameEnd::Errno(Errno::TooMany))
        }
    }

    // Goes to the directory of these parts.
    fn walk(&self, parts: &[Bytes]) -> Result<(), NameEnd>
        ensures { Answers result (walked self.now [] parts.now) }
    {
        let mut here = Name::root(self.alloc());
        for part in parts {
            if let Err(end) = passed(self.alloc(), self.entry_in(&here, part)) {
                return Err(end);
            }
            here.push(part.copy(self.alloc())?)?;
        }
        Ok(())
    }
}

// Whether a walk goes on at that entry.
fn passed(alloc: Global, entry: Option<&Entry>) -> Result<(), NameEnd>
    ensures { Answers result (passed (option_map (λ entry. entry.now) entry.entry)) }
{
    match entry {
        None => Err(NameEnd::Errno(Errno::NoEntry)),
        Some(Entry::Node(Node::Dir)) => Ok(()),
        Some(Entry::Node(_)) => Err(NameEnd::Errno(Errno::NotDir)),
        Some(Entry::Link(path)) => Err(NameEnd::Redirect(path.copy(alloc)?)),
    }
}

// What that entry names.
fn named(alloc: Global, entry: Option<&Entry>) -> Result<Node, NameEnd>
    ensures { Answers result (named (option_map (λ entry. entry.now) entry.entry)) }
{
    match entry {
        None => Err(NameEnd::Errno(Errno::NoEntry)),
        Some(Entry::Node(node)) => Ok(*node),
        Some(Entry::Link(path)) => Err(NameEnd::Redirect(path.copy(alloc)?)),
    }
}

// Whether a name is free.
fn freed(alloc: Global, entry: Option<&Entry>) -> Result<(), NameEnd>
    ensures { Answers result (freed (option_map (λ entry. entry.now) entry.entry)) }
{
    match entry {
        None => Ok(()),
        Some(Entry::Node(_)) => Err(NameEnd::Errno(Errno::Exists)),
        Some(Entry::Link(path)) => Err(NameEnd::Redirect(path.copy(alloc)?)),
    }
}
