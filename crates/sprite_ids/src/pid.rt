ghost use Rattle.std.specs.Prelude.{◌≡◌, ◌≤◌, ◌+◌, ◌*◌, ◌↔◌, ℕ, IsSome, IfSome};
ghost use Rattle.sprite_ids.specs.Pid.{IsPid, home_of, birth_of};

use crate::copying::Copying;
use crate::kernel::Kernel;
use crate::no_memory::NoMemory;
use std::alloc::Global;
use std::marker::Model;

/// A process, by its number: 1,000 times the number of its home kernel, plus the place of its birth there, from 1 to
/// 200 (this project; that a process keeps its home wherever it runs is Douglis and Ousterhout 1991).
#[derive(Clone, Copy, Debug, PartialEq, Eq, PartialOrd, Ord, Hash)]
pub struct Pid {
    number: u32,
}

impl Model for Pid {
    ghost use Rattle.std.specs.Prelude.{ℕ};
    ghost use Rattle.sprite_ids.specs.Pid.{IsPid};

    ghost Value = { ℕ };

    ghost view = { λ pid. pid.number };

    ghost invariant = { λ pid. IsPid pid.number };

    ghost inverse = { λ number. record { number = number } };
}

impl Pid {
    /// The `birth`-th process of that home; None exactly where `birth` is 0 or over 200.
    pub fn new(home: Kernel, birth: u32) -> Option<Pid>
        ensures some { IsSome result ↔ ((1 ≤ birth) × (birth ≤ 200)) }
        ensures value { IfSome result (λ pid. pid ≡ 1000 * home + birth) }
    {
        if 1 <= birth && birth <= 200 {
            let number = 1000 * u32::from(home.number()) + birth;
            Some(Pid { number })
        } else {
            None
        }
    }

    /// The process's home kernel.
    pub fn home(self) -> Kernel
        ensures { result ≡ home_of self }
    {
        match Kernel::new((self.number / 1000) as u8) {
            Some(home) => home,
            None => unreachable!(),
        }
    }

    /// Which birth of its home the process is, from 1 to 200.
    pub fn birth(self) -> u32
        ensures value { result ≡ birth_of self }
        ensures range { (1 ≤ result) × (result ≤ 200) }
    {
        self.number % 1000
    }

    /// The process's number, from 1,001 to 16,200.
    pub fn number(self) -> u32
        ensures value { result ≡ self }
        ensures is_pid { IsPid result }
    {
        self.number
    }
}

impl Copying for Pid {
    fn copy(&self, _alloc: Global) -> Result<Pid, NoMemory> {
        Ok(*self)
    }
}
