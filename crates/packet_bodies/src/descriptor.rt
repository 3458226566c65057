ghost use Rattle.std.specs.Prelude.{◌≡◌, ◌<◌, ◌↔◌, IsSome, IfSome};

use sprite_ids::{Copying, NoMemory};
use std::alloc::Global;
use std::marker::Model;

/// A descriptor of a process, 0 to 15 (this project).
#[derive(Clone, Copy, Debug, PartialEq, Eq, PartialOrd, Ord, Hash)]
pub struct Descriptor {
    number: u8,
}

impl Model for Descriptor {
    ghost use Rattle.std.specs.Prelude.{ℕ, ◌<◌};

    ghost Value = { ℕ };

    ghost view = { λ descriptor. descriptor.number };

    ghost invariant = { λ descriptor. descriptor.number < 16 };

    ghost inverse = { λ number. record { number = number } };
}

impl Descriptor {
    /// The descriptor of that number; None exactly where the number is over 15.
    pub fn new(number: u8) -> Option<Descriptor>
        ensures some { IsSome result ↔ (number < 16) }
        ensures value { IfSome result (λ descriptor. descriptor ≡ number) }
    {
        if number < 16 {
            Some(Descriptor { number })
        } else {
            None
        }
    }

    /// The descriptor's number, under 16.
    pub fn number(self) -> u8
        ensures value { result ≡ self }
        ensures range { result < 16 }
    {
        self.number
    }
}

impl Copying for Descriptor {
    fn copy(&self, _alloc: Global) -> Result<Descriptor, NoMemory> {
        Ok(*self)
    }
}
