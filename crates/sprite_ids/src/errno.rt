ghost use Rattle.std.specs.Prelude.{◌≡◌, ◌≤◌, ◌↔◌, IsSome, IfSome};
ghost use Rattle.sprite_ids.specs.Errno.{errno_number};

use crate::copying::Copying;
use crate::no_memory::NoMemory;
use std::alloc::Global;

/// Why a system call was refused. The numbers, 1 to 20 in the order of the variants, are what a program finds in its
/// register 0 (this project).
#[derive(Clone, Copy, Debug, PartialEq, Eq, PartialOrd, Ord, Hash)]
pub enum Errno {
    /// 1: no such name.
    NoEntry,
    /// 2: the name is there already.
    Exists,
    /// 3: a part of the path is no directory.
    NotDir,
    /// 4: the name is a directory.
    IsDir,
    /// 5: the directory has entries.
    NotEmpty,
    /// 6: the descriptor is not in use.
    BadFd,
    /// 7: the stream was not opened for that.
    BadMode,
    /// 8: the file would pass its limit.
    TooBig,
    /// 9: a table is full.
    TooMany,
    /// 10: an argument that the call does not take.
    Invalid,
    /// 11: the two names are in different domains.
    XDev,
    /// 12: in use, or not to be done now.
    Busy,
    /// 13: no child is unwaited.
    NoChild,
    /// 14: no such process.
    NoProcess,
    /// 15: a kill broke the call off.
    Interrupted,
    /// 16: the device has no master.
    NoServer,
    /// 17: a server could not be reached.
    Unreachable,
    /// 18: no client kernel has that name.
    BadHost,
    /// 19: the text is no path.
    BadName,
    /// 20: bytes outside the process's pages.
    BadAddress,
}

impl Errno {
    /// The error of that number; None exactly outside 1 to 20.
    pub fn new(number: u8) -> Option<Errno>
        ensures some { IsSome result ↔ ((1 ≤ number) × (number ≤ 20)) }
        ensures value { IfSome result (λ errno. errno_number errno ≡ number) }
    {
        match number {
            1 => Some(Errno::NoEntry),
            2 => Some(Errno::Exists),
            3 => Some(Errno::NotDir),
            4 => Some(Errno::IsDir),
            5 => Some(Errno::NotEmpty),
            6 => Some(Errno::BadFd),
            7 => Some(Errno::BadMode),
            8 => Some(Errno::TooBig),
            9 => Some(Errno::TooMany),
            10 => Some(Errno::Invalid),
            11 => Some(Errno::XDev),
            12 => Some(Errno::Busy),
            13 => Some(Errno::NoChild),
            14 => Some(Errno::NoProcess),
            15 => Some(Errno::Interrupted),
            16 => Some(Errno::NoServer),
            17 => Some(Errno::Unreachable),
            18 => Some(Errno::BadHost),
            19 => Some(Errno::BadName),
            20 => Some(Errno::BadAddress),
            _ => None,
        }
    }

    /// The error's number, from 1 to 20.
    pub fn number(self) -> u8
        ensures value { result ≡ errno_number self }
        ensures range { (1 ≤ result) × (result ≤ 20) }
    {
        match self {
            Errno::NoEntry => 1,
            Errno::Exists => 2,
            Errno::NotDir => 3,
            Errno::IsDir => 4,
            Errno::NotEmpty => 5,
            Errno::BadFd => 6,
            Errno::BadMode => 7,
            Errno::TooBig => 8,
            Errno::TooMany => 9,
            Errno::Invalid => 10,
            Errno::XDev => 11,
            Errno::Busy => 12,
            Errno::NoChild => 13,
            Errno::NoProcess => 14,
            Errno::Interrupted => 15,
            Errno::NoServer => 16,
            Errno::Unreachable => 17,
            Errno::BadHost => 18,
            Errno::BadName => 19,
            Errno::BadAddress => 20,
        }
    }
}

impl Copying for Errno {
    fn copy(&self, _alloc: Global) -> Result<Errno, NoMemory> {
        Ok(*self)
    }
}
