ghost use Rattle.std.specs.Prelude.{◌≡◌, ◌∷◌, ◌++◌, ◌||◌, [], List, ℕ, IsTrue, IfOk, OnOk, is_some, not};
ghost use Rattle.std.specs.Hash as fed;
ghost use Rattle.program_text.specs.Hashed.{fed_alike};
ghost use Rattle.program_text.specs.Names.{has};
ghost use Rattle.program_text.specs.Readings.{place_of};
ghost use Rattle.program_text.specs.Words.{same};

use indexmap::{IndexMap, IndexSet};
use sprite_ids::{Bytes, NoMemory};
use std::alloc::Global;
use std::hash::{Hash, Hasher};
use std::marker::Model;

/// The name of a label. Contracts see it as its bytes.
#[derive(Debug, PartialEq, Eq, Drop)]
pub struct Name {
    bytes: Bytes,
}

impl Model for Name {
    ghost use Rattle.std.specs.Prelude.{List, ℕ};

    ghost Value = { List ℕ };

    ghost view = { λ name. name.bytes };

    ghost inverse = { λ bytes. record { bytes = bytes } };
}

impl Hash for Name {
    ghost hash_input = { λ bytes. fed.slice fed.u8 bytes };

    ghost respects_eq = { fed_alike };

    fn hash<H: Hasher>(&self, state: &mut H) {
        self.bytes.as_slice().hash(state);
    }
}

impl Name {
    /// The name of these bytes. The one error is want of memory.
    pub fn of_slice(alloc: Global, bytes: &[u8]) -> Result<Name, NoMemory>
        ensures { IfOk result (λ name. name ≡ bytes.now) }
    {
        Ok(Name {
            bytes: Bytes::of_slice(alloc, bytes)?,
        })
    }
}

/// Names, each found at once. Contracts see them as a list, in the order in which they came.
#[derive(Debug, Drop)]
pub struct Names {
    names: IndexSet<Name>,
}

impl Model for Names {
    ghost use Rattle.std.specs.Prelude.{List, ℕ};

    ghost Value = { List (List ℕ) };

    ghost view = { λ names. names.names.keys };
}

impl Names {
    /// No names.
    pub fn new(alloc: Global) -> Names
        ensures { result ≡ [] }
    {
        Names {
            names: IndexSet::new(alloc),
        }
    }

    /// Whether the name is one of these.
    pub fn has(&self, name: &Name) -> bool
        ensures { result ≡ has self.now name.now }
    {
        self.names.contains(name)
    }

    /// One more name. The one error is want of memory.
    pub fn note(&mut self, name: Name) -> Result<(), NoMemory>
        ensures { OnOk result ((other : List ℕ) → has self.new other ≡ (same name other || has self.old other)) }
    {
        self.names.insert(name)?;
        Ok(())
    }
}

/// The labels that were defined, each with its place: the number of instructions in front of it. Contracts see these
/// pairs as a list, in the order in which the labels were defined.
#[derive(Debug, Drop)]
pub struct Places {
    places: IndexMap<Name, u16>,
}

impl Model for Places {
    ghost use Rattle.std.specs.Prelude.{List, ℕ};

    ghost Value = { List (List ℕ × ℕ) };

    ghost view = { λ places. places.places.entries };
}

impl Places {
    /// No labels.
    pub fn new(alloc: Global) -> Places
        ensures { result ≡ [] }
    {
        Places {
            places: IndexMap::new(alloc),
        }
    }

    /// The place of the label of that name; None exactly where there is none.
    pub fn place_of(&self, name: &Name) -> Option<u16>
        ensures { result ≡ place_of self.now name.now }
    {
        self.places.get(name).copied()
    }

    /// One more label, at that place: true where no label before has its name. The one error is want of memory.
    pub fn define(&mut self, name: Name, place: u16) -> Result<bool, NoMemory>
        ensures first { IfOk result (λ first. first ≡ not (is_some (place_of self.old name))) }
        ensures added { IfOk result (λ first. IsTrue first → self.new ≡ self.old ++ (name, place) ∷ []) }
    {
        Ok(self.places.insert(name, place)?.is_none())
    }
}
