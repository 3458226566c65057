ghost use Rattle.std.specs.Prelude.{◌≡◌, None, Some, IfOk, IsTrue};
ghost use Rattle.migrate_freeze.specs.Packing.{body_of, can_move, launch_of, transfer_of};
ghost use Rattle.migrate_freeze.specs.Moves.{frozen_for, moved_on, moved_stream, step_of};

use crate::freeze::Freeze;
use crate::moves::{MovedStream, next_stream, note};
use crate::packing::{fds_of, packed};
use crate::process::Process;
use packet_bodies::{LaunchRequest, Request, TransferRequest};
use sprite_ids::{Copying, Grant, Kernel, NoMemory, Pid, StreamNo};
use std::alloc::Global;
use std::marker::Model;
use stream_table::{Carried, Place, Stream};

/// A process that is frozen: none of its streams is moving just now (Douglis and Ousterhout 1991).
#[derive(Debug, Drop)]
pub struct Frozen {
    freeze: Freeze,
}

impl Model for Frozen {
    ghost use Rattle.migrate_freeze.specs.declared.freeze.Freeze.{Freeze};

    ghost Value = { Freeze };

    ghost view = { λ frozen. frozen.freeze };
}

/// A frozen process of which one stream moves.
#[derive(Debug, Drop)]
pub struct Moving {
    freeze: Freeze,
    item: Carried,
}

impl Model for Moving {
    ghost use Rattle.migrate_freeze.specs.OneMove.{OneMove};

    ghost Value = { OneMove };

    ghost view = { λ moving. record { freeze = moving.freeze; item = moving.item } };
}

/// A frozen process all of whose streams have moved: it is sent, or waits only for its pages.
#[derive(Debug, Drop)]
pub struct Sent {
    freeze: Freeze,
}

impl Model for Sent {
    ghost use Rattle.migrate_freeze.specs.declared.freeze.Freeze.{Freeze};

    ghost Value = { Freeze };

    ghost view = { λ sent. sent.freeze };
}

/// What comes next for a frozen process.
#[derive(Debug, Drop)]
pub enum MoveStep {
    /// A stream moves.
    Moving(Moving),
    /// All have moved.
    Sent(Sent),
}

impl Frozen {
    /// Freezes the process, which goes to that kernel as it is. It takes no memory.
    pub fn new(process: Process, to: Kernel) -> Frozen
        requires { IsTrue (can_move process.streams) }
        ensures { result ≡ frozen_for process to None }
    {
        Frozen {
            freeze: Freeze {
                process,
                to,
                program: None,
                moved: [None; 16],
            },
        }
    }

    /// Freezes a process in its `rexec`, which starts the program of that number at that kernel. It takes no memory.
    pub fn launch(process: Process, to: Kernel, program: u8) -> Frozen
        requires { IsTrue (can_move process.streams) }
        ensures { result ≡ frozen_for process to (Some program) }
    {
        Frozen {
            freeze: Freeze {
                process,
                to,
                program: Some(program),
                moved: [None; 16],
            },
        }
    }

    /// The move of the least stream that has not moved, or that all have moved (this project).
    pub fn next(self) -> MoveStep
        ensures { result ≡ step_of self }
    {
        let Frozen { freeze } = self;
        match next_stream(freeze.process.streams.as_slice(), &freeze.moved) {
            Some(item) => MoveStep::Moving(Moving { freeze, item }),
            None => MoveStep::Sent(Sent { freeze }),
        }
    }
}

impl Moving {
    /// Where the process goes.
    pub fn to(&self) -> Kernel
        ensures { result ≡ self.now.freeze.to }
    {
        self.freeze.to
    }

    /// The stream that moves, as it was frozen.
    pub fn stream(&self) -> (StreamNo, Stream)
        ensures { result ≡ (self.now.item.number, self.now.item.stream) }
    {
        (self.item.number, self.item.stream)
    }

    /// The stream has moved: its offset is there from now on, and the server of its file answered with this grant for the
    /// kernel that it moves to, and with this many grants of the stream. It takes no memory.
    pub fn moved(self, place: Place, grant: Option<Grant>, grants: u32) -> Frozen
        ensures { result ≡ moved_on self place grant grants }
    {
        let Moving { mut freeze, item } = self;
        let moved = moved_stream(&item, place, grant, grants);
        note(&mut freeze.moved, &moved);
        Frozen { freeze }
    }
}

impl Sent {
    /// Where the process goes.
    pub fn to(&self) -> Kernel
        ensures { result ≡ self.now.to }
    {
        self.freeze.to
    }

    /// What tells the other kernel of the process: that it takes it as it is, or starts its next program. The one error is
    /// want of memory.
    pub fn body(&self, alloc: Global) -> Result<Request, NoMemory>
        ensures { IfOk result (λ body. body ≡ body_of self.now) }
    {
        match self.freeze.program {
            Some(program) => launch_body(alloc, &self.freeze, program),
            None => transfer_body(alloc, &self.freeze),
        }
    }

    /// The process is forgotten here: the other kernel has been told of it. It takes no memory.
    pub fn done(self) -> Pid
        ensures { result ≡ self.process.pid }
    {
        self.pid()
    }

    // The process.
    fn pid(&self) -> Pid
        ensures { result ≡ self.now.process.pid }
    {
        self.freeze.process.pid
    }
}

// The stream as it is after its move.
fn moved_stream(item: &Carried, place: Place, grant: Option<Grant>, grants: u32) -> MovedStream
    ensures { result ≡ moved_stream item.now place grant grants }
{
    MovedStream {
        number: item.number,
        stream: Stream {
            place,
            grants,
            ..item.stream
        },
        grant,
    }
}

// The packet of a process that goes as it is.
fn transfer_body(alloc: Global, freeze: &Freeze) -> Result<Request, NoMemory>
    ensures { IfOk result (λ body. body ≡ transfer_of freeze.now) }
{
    let process = &freeze.process;
    Ok(Request::Transfer(TransferRequest {
        pid: process.pid,
        number: process.number,
        image: process.image.copy(alloc)?,
        cwd: process.cwd.copy(alloc)?,
        fds: fds_of(alloc, process.streams.as_slice())?,
        streams: packed(alloc, &freeze.moved)?,
        killed: process.killed,
        moving: process.moving,
    }))
}

// The packet of a process that starts its next program.
fn launch_body(alloc: Global, freeze: &Freeze, program: u8) -> Result<Request, NoMemory>
    ensures { IfOk result (λ body. body ≡ launch_of freeze.now program) }
{
    let process = &freeze.process;
    Ok(Request::Launch(LaunchRequest {
        pid: process.pid,
        number: process.number,
        program,
        cwd: process.cwd.copy(alloc)?,
        fds: fds_of(alloc, process.streams.as_slice())?,
        streams: packed(alloc, &freeze.moved)?,
        killed: process.killed,
    }))
}
