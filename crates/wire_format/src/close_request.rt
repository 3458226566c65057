ghost use Rattle.wire_format.specs.Requests.{close_request};
ghost use Rattle.wire_format.specs.RequestLaws.{close_request_is};

use crate::field::Field;
use field_reader::{FieldEnd, Reader};
use packet_bodies::{CloseRequest, Target};
use sprite_ids::{NoMemory, StreamNo};
use std::alloc::Global;

impl Field for CloseRequest {
    ghost codec = { close_request };

    ghost law = { close_request_is };

    fn put(&self, out: &mut Vec<u8>) -> Result<(), NoMemory> {
        self.object.put(out)?;
        self.stream.put(out)?;
        self.grants.put(out)
    }

    fn read_from(alloc: Global, from: &mut Reader) -> Result<CloseRequest, FieldEnd> {
        Ok(CloseRequest {
            object: Target::read_from(alloc, from)?,
            stream: StreamNo::read_from(alloc, from)?,
            grants: u32::read_from(alloc, from)?,
        })
    }
}
