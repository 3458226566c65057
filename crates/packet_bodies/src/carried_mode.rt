ghost use Rattle.std.specs.Prelude.{◌≡◌};
ghost use Rattle.packet_bodies.specs.Modes.{carried, mode_of, appends};

use sprite_ids::{Copying, Mode, NoMemory};
use std::alloc::Global;

/// What a stream that moves was opened for, and whether it appends (Douglis and Ousterhout 1991): the five ways in which a
/// stream can be open.
#[derive(Clone, Copy, Debug, PartialEq, Eq, Hash)]
pub enum CarriedMode {
    /// 1: for reading.
    Read,
    /// 2: for writing.
    Write,
    /// 3: for both.
    Both,
    /// 18: for writing, at the end of the file.
    AppendingWrite,
    /// 19: for both, writing at the end of the file.
    AppendingBoth,
}

impl CarriedMode {
    /// What a stream of that mode is open for; None exactly where it appends and isn't open for writing.
    pub fn new(mode: Mode, append: bool) -> Option<CarriedMode>
        ensures { result ≡ carried mode append }
    {
        match (mode, append) {
            (Mode::Read, false) => Some(CarriedMode::Read),
            (Mode::Read, true) => None,
            (Mode::Write, false) => Some(CarriedMode::Write),
            (Mode::Write, true) => Some(CarriedMode::AppendingWrite),
            (Mode::Both, false) => Some(CarriedMode::Both),
            (Mode::Both, true) => Some(CarriedMode::AppendingBoth),
        }
    }

    /// What the stream was opened for.
    pub fn mode(self) -> Mode
        ensures { result ≡ mode_of self }
    {
        match self {
            CarriedMode::Read => Mode::Read,
            CarriedMode::Write | CarriedMode::AppendingWrite => Mode::Write,
            CarriedMode::Both | CarriedMode::AppendingBoth => Mode::Both,
        }
    }

    /// Whether it appends.
    pub fn append(self) -> bool
        ensures { result ≡ appends self }
    {
        matches!(
            self,
            CarriedMode::AppendingWrite | CarriedMode::AppendingBoth
        )
    }
}

impl Copying for CarriedMode {
    fn copy(&self, _alloc: Global) -> Result<CarriedMode, NoMemory> {
        Ok(*self)
    }
}
