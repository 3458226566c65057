ghost use Rattle.std.specs.Prelude.{◌≡◌, ◌<◌, ◌≤◌, IsTrue};
ghost use Rattle.std.specs.List.{AllByRecursion};
ghost use Rattle.sprite_ids.specs.Lists.{EachOnce};
ghost use Rattle.stream_table.specs.declared.Carried.{Carried};
ghost use Rattle.stream_table.specs.Entries.{is_placed};
ghost use Rattle.stream_table.specs.Streams.{same_fd};
ghost use Rattle.migrate_freeze.specs.Staying.{can_stay};
ghost use Rattle.migrate_freeze.specs.Packing.{can_move};

use crate::packing::all_travel;
use crate::staying::{all_stand, differ};
use process_machine::Image;
use sprite_ids::{Items, Pid};
use sprite_paths::Path;
use stream_table::Carried;

/// A process with all that belongs to it (Douglis and Ousterhout 1991).
#[derive(Debug, Drop)]
pub struct Process {
    /// The process.
    pub pid: Pid,
    /// The number of the call that it came to last, from 1; 0 where it came to none.
    pub number: u32,
    /// Its image.
    pub image: Image,
    /// Its working directory.
    pub cwd: Path,
    /// Its descriptors in use, each with its stream.
    pub streams: Items<Carried>,
    /// Whether a kill is pending.
    pub killed: bool,
    /// Whether it is inside its own `migrate` or `rexec`, whose return is still due.
    pub moving: bool,
}

impl Process {
    /// Whether it can go to another kernel: it has at most 16 descriptors, each of a number under 16, none of them leads to
    /// the master's end of a pseudo-device, and none appends without being open for writing.
    pub fn can_move(&self) -> bool
        ensures { result ≡ can_move self.now.streams }
    {
        self.streams.len() <= 16 && all_travel(self.streams.as_slice())
    }

    /// Whether a stream table can take its descriptors: their numbers differ and are under 16, the offset of each device's or
    /// master's stream is 0 and kept here, and each stream has at most 2,000,000,000 grants. What another kernel sends is
    /// tested so before it is put there.
    pub fn can_stay(&self) -> bool
        ensures value { result ≡ can_stay self.now.streams }
        ensures differ { IsTrue result → EachOnce same_fd self.now.streams }
        ensures few { IsTrue result → AllByRecursion (λ (item : Carried). item.fd < 16) self.now.streams }
        ensures placed { IsTrue result → AllByRecursion (λ (item : Carried). IsTrue (is_placed item.stream)) self.now.streams }
        ensures grants { IsTrue result → AllByRecursion (λ (item : Carried). item.stream.grants ≤ 2000000000) self.now.streams }
    {
        can_stay(self.streams.as_slice())
    }
}

// Whether a stream table can take the descriptors.
fn can_stay(streams: &[Carried]) -> bool
    ensures { result ≡ can_stay streams.now }
{
    differ(streams) && all_stand(streams)
}
