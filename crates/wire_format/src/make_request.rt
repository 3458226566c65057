ghost use Rattle.wire_format.specs.Requests.{make_request};
ghost use Rattle.wire_format.specs.RequestLaws.{make_request_is};

use crate::field::Field;
use field_reader::{FieldEnd, Reader};
use packet_bodies::{Descriptor, MakeRequest};
use sprite_ids::{Bytes, DeviceId, NoMemory, Pid, StreamNo};
use sprite_paths::Path;
use std::alloc::Global;

// The fields, as they stand one behind another.
type Parts = (
    Pid,
    (u32, (StreamNo, (Path, (DeviceId, (Descriptor, Bytes))))),
);

impl Field for MakeRequest {
    ghost codec = { make_request };

    ghost law = { make_request_is };

    fn put(&self, out: &mut Vec<u8>) -> Result<(), NoMemory> {
        self.pid.put(out)?;
        self.number.put(out)?;
        self.stream.put(out)?;
        self.path.put(out)?;
        self.device.put(out)?;
        self.fd.put(out)?;
        self.text.put(out)
    }

    fn read_from(alloc: Global, from: &mut Reader) -> Result<MakeRequest, FieldEnd> {
        let (pid, (number, (stream, (path, (device, (fd, text)))))) = Parts::read_from(
            alloc, from,
        )?;
        Ok(MakeRequest {
            pid,
            number,
            stream,
            path,
            device,
            fd,
            text,
        })
    }
}
