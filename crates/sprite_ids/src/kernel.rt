ghost use Rattle.std.specs.Prelude.{◌≡◌, ◌≤◌, ◌↔◌, ℕ, IsSome, IfSome};

use crate::copying::Copying;
use crate::no_memory::NoMemory;
use std::alloc::Global;
use std::marker::Model;

/// A kernel of the cluster, by its number: 1 to 16, in the order of the cluster file (this project).
#[derive(Clone, Copy, Debug, PartialEq, Eq, PartialOrd, Ord, Hash)]
pub struct Kernel {
    number: u8,
}

impl Model for Kernel {
    ghost use Rattle.std.specs.Prelude.{ℕ, ◌≤◌};

    ghost Value = { ℕ };

    ghost view = { λ kernel. kernel.number };

    ghost invariant = { λ kernel. (1 ≤ kernel.number) × (kernel.number ≤ 16) };

    ghost inverse = { λ number. record { number = number } };
}

impl Kernel {
    /// The kernel of that number; None exactly where the number is 0 or over 16.
    pub fn new(number: u8) -> Option<Kernel>
        ensures some { IsSome result ↔ ((1 ≤ number) × (number ≤ 16)) }
        ensures value { IfSome result (λ kernel. kernel ≡ number) }
    {
        if 1 <= number && number <= 16 {
            Some(Kernel { number })
        } else {
            None
        }
    }

    /// The kernel's number, from 1 to 16.
    pub fn number(self) -> u8
        ensures value { result ≡ self }
        ensures range { (1 ≤ result) × (result ≤ 16) }
    {
        self.number
    }
}

impl Copying for Kernel {
    fn copy(&self, _alloc: Global) -> Result<Kernel, NoMemory> {
        Ok(*self)
    }
}
