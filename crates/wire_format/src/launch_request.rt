ghost use Rattle.wire_format.specs.Requests.{launch_request};
ghost use Rattle.wire_format.specs.RequestLaws.{launch_request_is};

use crate::field::Field;
use field_reader::{FieldEnd, Reader};
use packet_bodies::{CarriedStream, Descriptor, LaunchRequest};
use sprite_ids::{Items, NoMemory, Pid, StreamNo};
use sprite_paths::Path;
use std::alloc::Global;

// The fields, as they stand one behind another.
type Parts = (
    Pid,
    (
        u32,
        (
            u8,
            (
                Path,
                (Items<(Descriptor, StreamNo)>, (Items<CarriedStream>, bool)),
            ),
        ),
    ),
);

impl Field for LaunchRequest {
    ghost codec = { launch_request };

    ghost law = { launch_request_is };

    fn put(&self, out: &mut Vec<u8>) -> Result<(), NoMemory> {
        self.pid.put(out)?;
        self.number.put(out)?;
        self.program.put(out)?;
        self.cwd.put(out)?;
        self.fds.put(out)?;
        self.streams.put(out)?;
        self.killed.put(out)
    }

    fn read_from(alloc: Global, from: &mut Reader) -> Result<LaunchRequest, FieldEnd> {
        let (pid, (number, (program, (cwd, (fds, (streams, killed)))))) = Parts::read_from(
            alloc, from,
        )?;
        Ok(LaunchRequest {
            pid,
            number,
            program,
            cwd,
            fds,
            streams,
            killed,
        })
    }
}
