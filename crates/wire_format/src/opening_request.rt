ghost use Rattle.wire_format.specs.Requests.{opening_request};
ghost use Rattle.wire_format.specs.RequestLaws.{opening_request_is};

use crate::field::Field;
use field_reader::{FieldEnd, Reader};
use packet_bodies::{Descriptor, OpeningRequest};
use sprite_ids::{Bytes, NoMemory, Pid, StreamNo};
use sprite_paths::Path;
use std::alloc::Global;

// The fields, as they stand one behind another.
type Parts = (Pid, (u32, (StreamNo, (Path, (u8, (Descriptor, Bytes))))));

impl Field for OpeningRequest {
    ghost codec = { opening_request };

    ghost law = { opening_request_is };

    fn put(&self, out: &mut Vec<u8>) -> Result<(), NoMemory> {
        self.pid.put(out)?;
        self.number.put(out)?;
        self.stream.put(out)?;
        self.path.put(out)?;
        self.flags.put(out)?;
        self.fd.put(out)?;
        self.text.put(out)
    }

    fn read_from(alloc: Global, from: &mut Reader) -> Result<OpeningRequest, FieldEnd> {
        let (pid, (number, (stream, (path, (flags, (fd, text)))))) = Parts::read_from(alloc, from)?;
        Ok(OpeningRequest {
            pid,
            number,
            stream,
            path,
            flags,
            fd,
            text,
        })
    }
}
