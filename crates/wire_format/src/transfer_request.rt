ghost use Rattle.wire_format.specs.Requests.{transfer_request};
ghost use Rattle.wire_format.specs.RequestLaws.{transfer_request_is};

use crate::field::Field;
use field_reader::{FieldEnd, Reader};
use packet_bodies::{CarriedStream, Descriptor, TransferRequest};
use process_machine::Image;
use sprite_ids::{Items, NoMemory, Pid, StreamNo};
use sprite_paths::Path;
use std::alloc::Global;

// The fields, as they stand one behind another.
type Parts = (
    Pid,
    (
        u32,
        (
            Image,
            (
                Path,
                (
                    Items<(Descriptor, StreamNo)>,
                    (Items<CarriedStream>, (bool, bool)),
                ),
            ),
        ),
    ),
);

impl Field for TransferRequest {
    ghost codec = { transfer_request };

    ghost law = { transfer_request_is };

    fn put(&self, out: &mut Vec<u8>) -> Result<(), NoMemory> {
        self.pid.put(out)?;
        self.number.put(out)?;
        self.image.put(out)?;
        self.cwd.put(out)?;
        self.fds.put(out)?;
        self.streams.put(out)?;
        self.killed.put(out)?;
        self.moving.put(out)
    }

    fn read_from(alloc: Global, from: &mut Reader) -> Result<TransferRequest, FieldEnd> {
        let (pid, (number, (image, (cwd, (fds, (streams, (killed, moving))))))) = Parts::read_from(
            alloc, from,
        )?;
        Ok(TransferRequest {
            pid,
            number,
            image,
            cwd,
            fds,
            streams,
            killed,
            moving,
        })
    }
}
