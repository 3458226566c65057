ghost use Rattle.std.specs.Prelude.{◌≡◌, ◌≤◌, ◌<◌, ◌↔◌, [], true, false, Some, IfOk, IfErr, IfSome, OnOk, OnErr, IsTrue, IsOk, is_some};
ghost use Rattle.std.specs.List.{AllByRecursion};
ghost use Rattle.stream_table.specs.declared.stream.Carried.{Carried};
ghost use Rattle.sprite_ids.specs.Lists.{EachOnce};
ghost use Rattle.stream_table.specs.Owners.{is_used, is_referred, numbers_of, descriptor};
ghost use Rattle.stream_table.specs.Entries.{is_listed, is_placed, may_be_at, stream_of, holder_of, has_room, has_lock, placed, locked, unlocked};
ghost use Rattle.stream_table.specs.Streams.{Table, free, added, dup_answer, dupped, forked, closed, closed_stream, is_last, numbered, carried_of, closed_all, arriving, same_fd, IsAddCause};

use crate::arrival::{arrive, carried_from, numbers_in};
use crate::end::StreamEnd;
use crate::entries::{Known, change, have_room, holder_of, leave, put, stream_of, take_off};
use crate::owners;
use crate::owners::{
    Descriptors, descriptor, descriptors_of, give, is_referred, is_used, lowest_free, make_room,
    release,
};
use crate::stream::{Carried, Place, Stream};
use indexmap::IndexMap;
use sprite_ids::{NoMemory, Pid, StreamNo};
use std::alloc::Global;
use std::marker::Model;

/// The streams of one kernel. Contracts see the processes with their descriptors, and the open streams with their locks.
#[derive(Debug, Drop)]
pub struct Streams {
    alloc: Global,
    owners: IndexMap<Pid, Descriptors>,
    entries: IndexMap<StreamNo, Known>,
}

impl Model for Streams {
    ghost use Rattle.stream_table.specs.Owners.{owners_in};
    ghost use Rattle.stream_table.specs.Entries.{entries_in};
    ghost use Rattle.stream_table.specs.Streams.{Table, IsTable};

    ghost Value = { Table };

    ghost view = { λ streams. record { owners = owners_in streams.owners.entries; entries = entries_in streams.entries.entries } };

    ghost invariant = { λ streams. IsTable (owners_in streams.owners.entries) (entries_in streams.entries.entries) };
}

impl Streams {
    /// No descriptors, no streams and no locks. It takes no memory, and keeps the allocator.
    pub fn new(alloc: Global) -> Streams
        ensures { result ≡ record { owners = []; entries = [] } }
    {
        Streams {
            alloc,
            owners: IndexMap::new(alloc),
            entries: IndexMap::new(alloc),
        }
    }

    /// Whether grants may be added: each stream has at most 2,000,000,000.
    pub fn room(&self) -> bool
        ensures { result ≡ has_room self.now.entries }
    {
        have_room(&self.entries)
    }

    /// Gives the process a descriptor of the stream, the lowest free one. The stream is from then on the one that is handed
    /// in, also where its number was here before; a lock of it stays. The offset of a device's or master's stream is 0 and
    /// kept here.
    ///
    /// TooMany comes exactly where all 16 descriptors are in use (this project). After any error all is as before.
    pub fn add(&mut self, pid: Pid, number: StreamNo, stream: Stream) -> Result<u8, StreamEnd>
        requires { IsTrue (is_placed stream) }
        ensures fd { IfOk result (λ fd. free self.old.owners pid ≡ Some fd) }
        ensures ok { OnOk result (self.new ≡ added self.old pid number stream) }
        ensures refused { IfErr result (IsAddCause (free self.old.owners pid)) }
        ensures err { OnErr result (self.new ≡ self.old) }
    {
        let Some(fd) = lowest_free(&self.owners, pid) else {
            return Err(StreamEnd::TooMany);
        };
        make_room(&mut self.owners)?;
        let holder = holder_of(&self.entries, &number);
        let known = Known {
            stream: Some(stream),
            holder,
        };
        put(&mut self.entries, &number, known)?;
        give(&mut self.owners, pid, fd, &number);
        Ok(fd as u8)
    }

    /// Whether any descriptor of the process is in use.
    pub fn has_descriptors(&self, pid: Pid) -> bool
        ensures { result ≡ is_used (numbers_of self.now.owners pid) }
    {
        is_used(&self.owners, pid)
    }

    /// The stream that the process's descriptor leads to; None exactly where that isn't one of 0 to 15 that is in use.
    pub fn get(&self, pid: Pid, fd: u64) -> Option<StreamNo>
        ensures number { result ≡ descriptor self.now.owners pid fd }
        ensures few { IfSome result (λ number. fd < 16) }
    {
        descriptor(&self.owners, pid, fd)
    }

    /// The stream of that number; None exactly where no descriptor here leads to it. It takes no memory.
    pub fn stream(&self, number: StreamNo) -> Option<Stream>
        ensures stream { result ≡ stream_of self.now.entries number }
        ensures referred { is_some result ≡ is_referred self.now.owners number }
        ensures placed { IfSome result (λ stream. IsTrue (is_placed stream)) }
    {
        stream_of(&self.entries, &number)
    }

    /// Gives the process a second descriptor of the stream that this one leads to, the lowest free one. BadFd comes exactly
    /// where the descriptor isn't in use, else TooMany exactly where all 16 are (this project). It takes no memory.
    pub fn dup(&mut self, pid: Pid, fd: u64) -> Result<u8, StreamEnd>
        ensures answer { result ≡ dup_answer (descriptor self.old.owners pid fd) (free self.old.owners pid) }
        ensures table { self.new ≡ dupped self.old pid fd }
    {
        let Some(number) = self.get(pid, fd) else {
            return Err(StreamEnd::BadFd);
        };
        let Some(free) = lowest_free(&self.owners, pid) else {
            return Err(StreamEnd::TooMany);
        };
        give(&mut self.owners, pid, free, &number);
        Ok(free as u8)
    }

    /// Gives a child the descriptors of its parent, where it has none of its own. After want of memory, the one error, all
    /// is as before.
    pub fn fork(&mut self, parent: Pid, child: Pid) -> Result<(), NoMemory>
        ensures ok { OnOk result (self.new ≡ forked self.old parent child) }
        ensures err { OnErr result (self.new ≡ self.old) }
    {
        if !is_used(&self.owners, parent) || is_used(&self.owners, child) {
            return Ok(());
        }
        make_room(&mut self.owners)?;
        let descriptors = descriptors_of(&self.owners, parent);
        owners::put(&mut self.owners, child, descriptors);
        Ok(())
    }

    /// Closes the process's descriptor, where it is in use. Some, with the stream and its number, exactly where it was the
    /// last descriptor here that led to its stream, which then goes; its lock stays with the process that holds it. It
    /// takes no memory.
    pub fn close(&mut self, pid: Pid, fd: u8) -> Option<(StreamNo, Stream)>
        ensures stream { result ≡ closed_stream self.old pid fd }
        ensures last { is_some result ≡ is_last self.old pid fd }
        ensures table { self.new ≡ closed self.old pid fd }
    {
        let number = self.get(pid, u64::from(fd))?;
        release(&mut self.owners, pid, usize::from(fd));
        if is_referred(&self.owners, &number) {
            return None;
        }
        let stream = stream_of(&self.entries, &number);
        leave(&mut self.entries, &number);
        numbered(number, stream)
    }

    /// Gives the process the stream's lock, where no other has it. False exactly where another has it.
    ///
    /// A lock belongs to the stream's number: it is held until `unlock`, also where no descriptor leads to the stream any
    /// more. Want of memory, the one error, comes only for a stream that no descriptor here leads to and whose lock is
    /// free; all is then as before.
    pub fn lock(&mut self, stream: StreamNo, pid: Pid) -> Result<bool, NoMemory>
        ensures answer { IfOk result (λ locked. locked ≡ has_lock pid (holder_of self.old.entries stream)) }
        ensures ok { OnOk result (self.new ≡ record self.old { entries = locked self.old.entries stream pid }) }
        ensures err { OnErr result (self.new ≡ self.old) }
        ensures listed { IsTrue (is_listed self.old.entries stream) → IsOk result }
        ensures referred { IsTrue (is_referred self.old.owners stream) → IsOk result }
    {
        if let Some(holder) = holder_of(&self.entries, &stream) {
            return Ok(holder == pid);
        }
        let known = stream_of(&self.entries, &stream);
        put(
            &mut self.entries,
            &stream,
            Known {
                stream: known,
                holder: Some(pid),
            },
        )?;
        Ok(true)
    }

    /// The process that has the stream's lock.
    pub fn holder(&self, stream: StreamNo) -> Option<Pid>
        ensures { result ≡ holder_of self.now.entries stream }
    {
        holder_of(&self.entries, &stream)
    }

    /// Frees the stream's lock, where a process has it. It takes no memory.
    pub fn unlock(&mut self, stream: StreamNo)
        ensures { self.new ≡ record self.old { entries = unlocked self.old.entries stream } }
    {
        match stream_of(&self.entries, &stream) {
            Some(known) => change(
                &mut self.entries,
                &stream,
                Known {
                    stream: Some(known),
                    holder: None,
                },
            ),
            None => take_off(&mut self.entries, &stream),
        }
    }

    /// Keeps the stream's offset there from now on, where a descriptor here leads to the stream. That of a device or
    /// master stays 0 and here. It takes no memory.
    pub fn set_place(&mut self, stream: StreamNo, place: Place)
        requires { IsTrue (may_be_at place (stream_of self.old.entries stream)) }
        ensures { self.new ≡ record self.old { entries = placed self.old.entries stream place } }
    {
        if let Some(known) = stream_of(&self.entries, &stream) {
            let holder = holder_of(&self.entries, &stream);
            let moved = Stream { place, ..known };
            change(
                &mut self.entries,
                &stream,
                Known {
                    stream: Some(moved),
                    holder,
                },
            );
        }
    }

    /// Closes all descriptors of the process, and gives them with their streams, in ascending order. After want of memory,
    /// the one error, all is as before.
    pub fn take_all(&mut self, pid: Pid) -> Result<Vec<Carried>, NoMemory>
        ensures carried { IfOk result (λ carried. carried.items ≡ carried_of self.old pid) }
        ensures ok { OnOk result (self.new ≡ closed_all pid self.old (carried_of self.old pid)) }
        ensures err { OnErr result (self.new ≡ self.old) }
    {
        let carried = self.carried(pid)?;
        for item in &carried {
            self.close(pid, item.fd);
        }
        Ok(carried)
    }

    /// Gives a process that arrives its streams, each at its descriptor. To a stream that was here before, the grants that
    /// arrive are added once, and all else of it becomes as it arrives, its place too; of two descriptors of one stream
    /// the last one counts. A lock stays.
    ///
    /// The process has no descriptor here, and the descriptors differ. After want of memory, the one error, all is as
    /// before.
    pub fn put_all(&mut self, pid: Pid, carried: &[Carried]) -> Result<(), NoMemory>
        requires none { is_used (numbers_of self.old.owners pid) ≡ false }
        requires differ { EachOnce same_fd carried.now }
        requires few { AllByRecursion (λ (item : Carried). item.fd < 16) carried.now }
        requires placed { AllByRecursion (λ (item : Carried). IsTrue (is_placed item.stream)) carried.now }
        requires room { IsTrue (has_room self.old.entries) }
        requires grants { AllByRecursion (λ (item : Carried). item.stream.grants ≤ 2000000000) carried.now }
        ensures ok { OnOk result (self.new ≡ arriving self.old pid carried.now) }
        ensures err { OnErr result (self.new ≡ self.old) }
    {
        if carried.is_empty() {
            return Ok(());
        }
        make_room(&mut self.owners)?;
        arrive(self.alloc, &mut self.entries, carried)?;
        owners::put(&mut self.owners, pid, numbers_in(carried));
        Ok(())
    }

    // The process's descriptors with their streams.
    fn carried(&self, pid: Pid) -> Result<Vec<Carried>, NoMemory>
        ensures { IfOk result (λ carried. carried.items ≡ carried_of self.now pid) }
    {
        let descriptors = descriptors_of(&self.owners, pid);
        carried_from(self.alloc, &self.entries, &descriptors.numbers)
    }
}

// A looked-up stream with its number.
fn numbered(number: StreamNo, stream: Option<Stream>) -> Option<(StreamNo, Stream)>
    ensures { result ≡ numbered number stream }
{
    match stream {
        Some(stream) => Some((number, stream)),
        None => None,
    }
}
