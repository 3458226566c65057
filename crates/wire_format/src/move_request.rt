ghost use Rattle.wire_format.specs.Requests.{move_request};
ghost use Rattle.wire_format.specs.RequestLaws.{move_request_is};

use crate::field::Field;
use field_reader::{FieldEnd, Reader};
use packet_bodies::{MoveRequest, Target};
use sprite_ids::{Kernel, NoMemory, StreamNo};
use std::alloc::Global;

// The fields, as they stand one behind another.
type Parts = (StreamNo, (Target, (Kernel, (bool, (Option<u32>, u32)))));

impl Field for MoveRequest {
    ghost codec = { move_request };

    ghost law = { move_request_is };

    fn put(&self, out: &mut Vec<u8>) -> Result<(), NoMemory> {
        self.stream.put(out)?;
        self.object.put(out)?;
        self.to.put(out)?;
        self.kept.put(out)?;
        self.offset.put(out)?;
        self.grants.put(out)
    }

    fn read_from(alloc: Global, from: &mut Reader) -> Result<MoveRequest, FieldEnd> {
        let (stream, (object, (to, (kept, (offset, grants))))) = Parts::read_from(alloc, from)?;
        Ok(MoveRequest {
            stream,
            object,
            to,
            kept,
            offset,
            grants,
        })
    }
}
