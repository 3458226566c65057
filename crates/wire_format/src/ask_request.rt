ghost use Rattle.wire_format.specs.Requests.{ask_request};
ghost use Rattle.wire_format.specs.RequestLaws.{ask_request_is};

use crate::field::Field;
use field_reader::{FieldEnd, Reader};
use packet_bodies::{AskRequest, Descriptor};
use sprite_ids::{AskKind, Bytes, DeviceId, NoMemory, Pid};
use std::alloc::Global;

// The fields, as they stand one behind another.
type Parts = (
    Pid,
    (u32, (DeviceId, (AskKind, (u32, (Bytes, Descriptor))))),
);

impl Field for AskRequest {
    ghost codec = { ask_request };

    ghost law = { ask_request_is };

    fn put(&self, out: &mut Vec<u8>) -> Result<(), NoMemory> {
        self.pid.put(out)?;
        self.number.put(out)?;
        self.device.put(out)?;
        self.kind.put(out)?;
        self.length.put(out)?;
        self.bytes.put(out)?;
        self.fd.put(out)
    }

    fn read_from(alloc: Global, from: &mut Reader) -> Result<AskRequest, FieldEnd> {
        let (pid, (number, (device, (kind, (length, (bytes, fd)))))) = Parts::read_from(
            alloc, from,
        )?;
        Ok(AskRequest {
            pid,
            number,
            device,
            kind,
            length,
            bytes,
            fd,
        })
    }
}
