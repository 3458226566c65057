ghost use Rattle.std.specs.Prelude.{◌≡◌, ◌≤◌, ◌++◌, ◌∷◌, [], List, ℕ, OnOk, OnErr, IfOk, nat_eq};
ghost use Rattle.std.specs.Hash as fed;
ghost use Rattle.std.specs.List.{flat_map};
ghost use Rattle.server_names.specs.Hashed.{fed_alike};

use sprite_ids::{Bytes, Copying, DeviceId, FileId, Items, NoMemory};
use sprite_paths::Path;
use std::alloc::Global;
use std::hash::{Hash, Hasher};
use std::marker::Model;

/// What a path names.
#[derive(Clone, Copy, Debug, PartialEq, Eq)]
pub enum Node {
    Dir,
    File(FileId),
    Device(DeviceId),
}

/// An entry of a directory.
#[derive(Debug, PartialEq, Eq, Drop)]
pub enum Entry {
    Node(Node),
    /// Another domain hangs here, at this path.
    Link(Path),
}

/// The name of an entry, by the parts of its path. Contracts see it as that list.
#[derive(Debug, PartialEq, Eq, Drop)]
pub struct Name {
    parts: Items<Bytes>,
}

impl Model for Name {
    ghost use Rattle.std.specs.Prelude.{List, ℕ};

    ghost Value = { List (List ℕ) };

    ghost view = { λ name. name.parts };

    ghost inverse = { λ parts. record { parts = parts } };
}

impl Hash for Name {
    ghost hash_input = { λ parts. flat_map (fed.slice fed.u8) parts };

    ghost respects_eq = { fed_alike };

    fn hash<H: Hasher>(&self, state: &mut H) {
        for part in self.parts.as_slice() {
            part.as_slice().hash(state);
        }
    }
}

impl Name {
    /// The name with no parts, the domain's root.
    pub(crate) fn root(alloc: Global) -> Name
        ensures { result ≡ [] }
    {
        Name {
            parts: Items::new(alloc),
        }
    }

    /// The name of these parts.
    pub(crate) fn of(alloc: Global, parts: &[Bytes]) -> Result<Name, NoMemory>
        ensures { IfOk result (λ name. name ≡ parts.now) }
    {
        let mut name = Name::root(alloc);
        for part in parts {
            name.push(part.copy(alloc)?)?;
        }
        Ok(name)
    }

    /// Goes on by one part.
    pub(crate) fn push(&mut self, part: Bytes) -> Result<(), NoMemory>
        ensures ok { OnOk result (self.new ≡ self.old ++ part ∷ []) }
        ensures err { OnErr result (self.new ≡ self.old) }
    {
        self.parts.push(part)
    }

    /// The parts.
    pub(crate) fn parts(&self) -> &[Bytes]
        ensures { result.now ≡ self.now }
    {
        self.parts.as_slice()
    }
}
