ghost use Rattle.std.specs.Prelude.{◌≡◌, ◌<◌, ◌↔◌, ℕ, IsSome, IfSome};

use sprite_ids::{Copying, NoMemory};
use std::alloc::Global;
use std::marker::Model;

/// A register of the machine, by its number: 0 to 7 (this project).
#[derive(Clone, Copy, Debug, PartialEq, Eq, PartialOrd, Ord, Hash)]
pub struct Register {
    number: u8,
}

impl Model for Register {
    ghost use Rattle.std.specs.Prelude.{ℕ, ◌<◌};

    ghost Value = { ℕ };

    ghost view = { λ register. register.number };

    ghost invariant = { λ register. register.number < 8 };

    ghost inverse = { λ number. record { number = number } };
}

impl Register {
    /// The register of that number; None exactly where the number is over 7.
    pub fn new(number: u8) -> Option<Register>
        ensures some { IsSome result ↔ (number < 8) }
        ensures value { IfSome result (λ register. register ≡ number) }
    {
        if number < 8 {
            Some(Register { number })
        } else {
            None
        }
    }

    /// The register's number, from 0 to 7.
    pub fn number(self) -> u8
        ensures value { result ≡ self }
        ensures range { result < 8 }
    {
        self.number
    }
}

impl Copying for Register {
    fn copy(&self, _alloc: Global) -> Result<Register, NoMemory> {
        Ok(*self)
    }
}
