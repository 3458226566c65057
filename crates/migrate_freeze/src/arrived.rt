ghost use Rattle.std.specs.Prelude.{◌≡◌, None, Some, IfOk};
ghost use Rattle.migrate_freeze.specs.Arriving.{arrived_of, grant_of, launch_arrival, launched_of, process_with, thawed, transfer_arrival};

use crate::arrival::{Arrival, Load};
use crate::process::Process;
use crate::unpacking::{carried_at, descriptors_of};
use packet_bodies::{CarriedStream, LaunchRequest, Request, TransferRequest};
use process_machine::Image;
use sprite_ids::{Grant, NoMemory, StreamNo};
use std::alloc::Global;
use std::marker::Model;

/// A process that another kernel sent, before it is thawed (Douglis and Ousterhout 1991).
#[derive(Debug, Drop)]
pub struct Arrived {
    arrival: Arrival,
}

impl Model for Arrived {
    ghost use Rattle.migrate_freeze.specs.declared.arrival.Arrival.{Arrival};

    ghost Value = { Arrival };

    ghost view = { λ arrived. arrived.arrival };
}

impl Arrived {
    /// The process that a request brings; None exactly where it brings none, as it is neither a Transfer nor a Launch. A
    /// descriptor whose stream the request doesn't tell of is left out. After want of memory, the one error, the request is
    /// dropped.
    pub fn read(alloc: Global, body: Request) -> Result<Option<Arrived>, NoMemory>
        ensures { IfOk result (λ arrived. arrived ≡ arrived_of body) }
    {
        match body {
            Request::Transfer(transfer) => transferred(alloc, transfer),
            Request::Launch(launch) => launched(alloc, launch),
            _ => Ok(None),
        }
    }

    /// The number of the program that it starts; None exactly where it goes on with its image.
    pub fn launched(&self) -> Option<u8>
        ensures { result ≡ launched_of self.now.load }
    {
        match &self.arrival.load {
            Load::Image(_) => None,
            Load::Program(program) => Some(*program),
        }
    }

    /// The streams that it brings, as the request tells them: in the order of their moves, each with its grant.
    pub fn streams(&self) -> &[CarriedStream]
        ensures { result.now ≡ self.now.streams }
    {
        self.arrival.streams.as_slice()
    }

    /// The grant that it brings for the stream; None exactly where it brings none.
    pub fn grant(&self, stream: &StreamNo) -> Option<Grant>
        ensures { result ≡ grant_of self.now.streams stream.now }
    {
        match carried_at(self.arrival.streams.as_slice(), stream) {
            Some(carried) => carried.grant,
            None => None,
        }
    }

    /// The process, as it was frozen but for where its streams' offsets are and how many grants of them came; for one that
    /// goes on with its image. It takes no memory.
    pub fn thaw(self) -> Process
        requires { launched_of self.load ≡ None }
        ensures { thawed self ≡ Some result }
    {
        let Arrived { arrival } = self;
        let Arrival {
            pid,
            number,
            load,
            cwd,
            streams: _,
            descriptors,
            killed,
            moving,
        } = arrival;
        match load {
            Load::Image(image) => Process {
                pid,
                number,
                image,
                cwd,
                streams: descriptors,
                killed,
                moving,
            },
            Load::Program(_) => unreachable!(),
        }
    }

    /// The process with that image, and else as `thaw` gives it; for one that starts its next program, whose fresh image it
    /// is. It takes no memory.
    pub fn thaw_fresh(self, image: Image) -> Process
        requires { launched_of self.load ≡ Some image.number }
        ensures { result ≡ process_with self image }
    {
        let Arrived { arrival } = self;
        Process {
            pid: arrival.pid,
            number: arrival.number,
            image,
            cwd: arrival.cwd,
            streams: arrival.descriptors,
            killed: arrival.killed,
            moving: arrival.moving,
        }
    }
}

// What a process is that comes as it was.
fn transferred(alloc: Global, transfer: TransferRequest) -> Result<Option<Arrived>, NoMemory>
    ensures { IfOk result (λ arrived. arrived ≡ Some (transfer_arrival transfer)) }
{
    let descriptors = descriptors_of(alloc, transfer.fds.as_slice(), transfer.streams.as_slice())?;
    Ok(Some(Arrived {
        arrival: Arrival {
            pid: transfer.pid,
            number: transfer.number,
            load: Load::Image(transfer.image),
            cwd: transfer.cwd,
            streams: transfer.streams,
            descriptors,
            killed: transfer.killed,
            moving: transfer.moving,
        },
    }))
}

// What a process is that comes to start its next program.
fn launched(alloc: Global, launch: LaunchRequest) -> Result<Option<Arrived>, NoMemory>
    ensures { IfOk result (λ arrived. arrived ≡ Some (launch_arrival launch)) }
{
    let descriptors = descriptors_of(alloc, launch.fds.as_slice(), launch.streams.as_slice())?;
    Ok(Some(Arrived {
        arrival: Arrival {
            pid: launch.pid,
            number: launch.number,
            load: Load::Program(launch.program),
            cwd: launch.cwd,
            streams: launch.streams,
            descriptors,
            killed: launch.killed,
            moving: true,
        },
    }))
}
