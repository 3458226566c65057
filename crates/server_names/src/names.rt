ghost use Rattle.std.specs.Prelude.{◌≡◌, [], map, Ok, IfOk, OnOk, OnErr};
ghost use Rattle.server_names.specs.Names.{count_answer, found, make_answer, made, remove_answer, removed, rename_answer, done, lines, booted, with_way, entry_made, on_way, hung_all, names_in, Answers, IsRenamed, IsListing};

use crate::directories::{Directories, last_of, parent};
use crate::end::NameEnd;
use crate::name::{Entry, Name, Node};
use sprite_ids::{Bytes, Copying, Errno, NoMemory};
use sprite_paths::Path;
use std::alloc::Global;
use std::marker::Model;

/// The names of one domain. Paths are those below its root, so the root of the domain is the path with no parts, which is
/// a directory and no entry. Contracts see the directories that had entries, each with its entries in the order in which
/// they were made.
#[derive(Debug, Drop)]
pub struct Names {
    alloc: Global,
    tree: Directories,
}

impl Model for Names {
    ghost use Rattle.server_names.specs.Names.{Tree, IsSound};

    ghost Value = { Tree };

    ghost view = { λ names. names.tree };

    ghost invariant = { λ names. IsSound names.tree };
}

impl Names {
    /// The names of a domain in which others hang at these paths below its root: a remote link at each of them, and the
    /// directories above it.
    ///
    /// A remote link hangs directly in a directory. So Exists comes where a link's path is the root or is one above an
    /// earlier link, Redirect where it is that of an earlier link or lies below it, and TooMany where a directory would have
    /// more than 256 entries (this project).
    pub fn new(alloc: Global, links: &[Path]) -> Result<Names, NameEnd>
        ensures answer { Answers (done result) (done (hung_all [] links.now)) }
        ensures ok { IfOk result (λ names. hung_all [] links.now ≡ Ok names) }
    {
        let mut names = Names {
            alloc,
            tree: Directories::new(alloc),
        };
        for link in links {
            if let Err(end) = names.hang(link) {
                return Err(end);
            }
        }
        Ok(names)
    }

    /// Makes the name with the directories above it that aren't there, as at boot.
    ///
    /// The error is the first of those that `make` has for a directory at each path above the name, Exists left out, and
    /// for the name. After an error the directories that were made stay.
    pub fn boot(&mut self, path: &Path, node: Node) -> Result<(), NameEnd>
        ensures answer { Answers result (done (booted self.old path.now (Entry.Node node))) }
        ensures ok { OnOk result (booted self.old path.now (Entry.Node node) ≡ Ok self.new) }
    {
        self.make_way(parent(path.parts()))?;
        self.enter(path.parts(), Entry::Node(node))
    }

    /// What the path names. NoEntry comes exactly where a part of it is missing, NotDir where a part before the last is no
    /// directory, Redirect where the walk meets a remote link: the first of these on the way.
    pub fn find(&self, path: &Path) -> Result<Node, NameEnd>
        ensures { Answers result (found self.now path.now) }
    {
        self.tree.find(path.parts())
    }

    /// Makes the name. Exists comes where it is there, or is the root; NoEntry, NotDir and Redirect come as in `find`, and
    /// TooMany where its directory has 256 entries (this project): the first that holds of the walk, Exists or Redirect at
    /// the last part, TooMany. After any error all is as before.
    pub fn make(&mut self, path: &Path, node: Node) -> Result<(), NameEnd>
        ensures answer { Answers result (make_answer self.old path.now) }
        ensures ok { OnOk result (self.new ≡ made self.old path.now node) }
        ensures err { OnErr result (self.new ≡ self.old) }
    {
        self.enter(path.parts(), Entry::Node(node))
    }

    /// Takes the name away, and answers what it named: with `directory` a directory without entries, else a file or a
    /// device.
    ///
    /// The error is the first of those of `find`, then with `directory` NotDir and NotEmpty, else IsDir. The root can't be
    /// taken away: with `directory` it is Busy. After any error all is as before.
    pub fn remove(&mut self, path: &Path, directory: bool) -> Result<Node, NameEnd>
        ensures answer { Answers result (remove_answer self.old path.now directory) }
        ensures ok { OnOk result (self.new ≡ removed self.old path.now) }
        ensures err { OnErr result (self.new ≡ self.old) }
    {
        let path = path.parts();
        let node = self.tree.removable(path, directory)?;
        let name = Name::of(self.alloc, path)?;
        let above = Name::of(self.alloc, parent(path))?;
        self.tree.forget(&name);
        self.tree.take(&above, last_of(path));
        Ok(node)
    }

    /// Gives a file or device another name in this domain.
    ///
    /// The error is the first of those of `find` for the old name, IsDir, those of `make` for the new name; TooMany comes
    /// only where the new name is in another directory. A name can't be given to itself: that Exists. After any error all
    /// is as before.
    pub fn rename(&mut self, old: &Path, new: &Path) -> Result<(), NameEnd>
        ensures answer { Answers result (rename_answer self.old old.now new.now) }
        ensures ok { OnOk result (IsRenamed self.old self.new old.now new.now) }
        ensures err { OnErr result (self.new ≡ self.old) }
    {
        let old = old.parts();
        let new = new.parts();
        let node = self.tree.renamable(old, new)?;
        let above = Name::of(self.alloc, parent(old))?;
        self.tree.put(new, Entry::Node(node))?;
        self.tree.take(&above, last_of(old));
        Ok(())
    }

    /// The names of a directory's entries, each with a byte 10 behind it, in the order of their bytes. The errors are those of
    /// `find`, and NotDir where the path names no directory.
    pub fn list(&self, path: &Path) -> Result<Vec<u8>, NameEnd>
        ensures refused { Answers (done result) (done (count_answer self.now path.now)) }
        ensures text { IfOk result (λ text. IsListing self.now path.now text.items) }
    {
        self.tree.count(path.parts())?;
        let directory = Name::of(self.alloc, path.parts())?;
        let mut names = self.tree.names_in(&directory)?;
        names.sort()?;
        Ok(lines(self.alloc, names.as_slice())?)
    }

    /// The names of a directory's entries, in the order in which they were made. The errors are those of `find`, and NotDir
    /// where the path names no directory.
    pub fn names(&self, path: &Path) -> Result<Vec<Vec<u8>>, NameEnd>
        ensures refused { Answers (done result) (done (count_answer self.now path.now)) }
        ensures names { IfOk result (λ names. map (λ name. name.items) names.items ≡ names_in self.now path.now) }
    {
        self.tree.count(path.parts())?;
        let directory = Name::of(self.alloc, path.parts())?;
        Ok(self.tree.names_in(&directory)?)
    }

    /// How many entries the directory has. The errors are those of `find`, and NotDir where the path names no directory.
    pub fn count(&self, path: &Path) -> Result<usize, NameEnd>
        ensures { Answers result (count_answer self.now path.now) }
    {
        self.tree.count(path.parts())
    }

    // Makes a remote link with the directories above it.
    fn hang(&mut self, link: &Path) -> Result<(), NameEnd>
        ensures answer { Answers result (done (booted self.old link.now (Entry.Link link.now))) }
        ensures ok { OnOk result (booted self.old link.now (Entry.Link link.now) ≡ Ok self.new) }
    {
        self.make_way(parent(link.parts()))?;
        self.enter(link.parts(), Entry::Link(link.copy(self.alloc)?))
    }

    // Makes the directories on the way from the root that aren't there.
    fn make_way(&mut self, parts: &[Bytes]) -> Result<(), NameEnd>
        ensures answer { Answers result (done (with_way self.old [] parts.now)) }
        ensures ok { OnOk result (with_way self.old [] parts.now ≡ Ok self.new) }
    {
        let mut here = Name::root(self.alloc);
        for part in parts {
            here.push(part.copy(self.alloc)?)?;
            if let Err(end) = self.pass(here.parts()) {
                return Err(end);
            }
        }
        Ok(())
    }

    // Makes the directory of these parts, where nothing is there.
    fn pass(&mut self, parts: &[Bytes]) -> Result<(), NameEnd>
        ensures answer { Answers result (done (on_way self.old (entry_made self.old parts.now (Entry.Node Node.Dir)))) }
        ensures ok { OnOk result (on_way self.old (entry_made self.old parts.now (Entry.Node Node.Dir)) ≡ Ok self.new) }
    {
        match self.enter(parts, Entry::Node(Node::Dir)) {
            Err(NameEnd::Errno(Errno::Exists)) => Ok(()),
            other => other,
        }
    }

    // Makes the entry of these parts.
    fn enter(&mut self, path: &[Bytes], entry: Entry) -> Result<(), NameEnd>
        ensures answer { Answers result (done (entry_made self.old path.now entry)) }
        ensures ok { OnOk result (entry_made self.old path.now entry ≡ Ok self.new) }
        ensures err { OnErr result (self.new ≡ self.old) }
    {
        self.tree.makeable(path)?;
        self.tree.put(path, entry)?;
        Ok(())
    }
}

// Each of the names, with a byte 10 behind it.
fn lines(alloc: Global, names: &[Vec<u8>]) -> Result<Vec<u8>, NoMemory>
    ensures { IfOk result (λ text. text.items ≡ lines (map (λ name. name.items) names.now)) }
{
    let mut text = Vec::new(alloc);
    for name in names {
        text.extend_from_slice(name.as_slice())?;
        text.push(b'\n')?;
    }
    Ok(text)
}
