ghost use Rattle.wire_format.specs.Requests.{name_request};
ghost use Rattle.wire_format.specs.RequestLaws.{name_request_is};

use crate::field::Field;
use field_reader::{FieldEnd, Reader};
use packet_bodies::{NameOp, NameRequest};
use sprite_ids::{Bytes, NoMemory, Pid};
use sprite_paths::Path;
use std::alloc::Global;

// The fields, as they stand one behind another.
type Parts = (
    Pid,
    (
        u32,
        (
            NameOp,
            (Path, (Option<Path>, (u32, (Bytes, Option<Bytes>)))),
        ),
    ),
);

impl Field for NameRequest {
    ghost codec = { name_request };

    ghost law = { name_request_is };

    fn put(&self, out: &mut Vec<u8>) -> Result<(), NoMemory> {
        self.pid.put(out)?;
        self.number.put(out)?;
        self.op.put(out)?;
        self.path.put(out)?;
        self.second.put(out)?;
        self.max.put(out)?;
        self.text.put(out)?;
        self.second_text.put(out)
    }

    fn read_from(alloc: Global, from: &mut Reader) -> Result<NameRequest, FieldEnd> {
        let (pid, (number, (op, (path, (second, (max, (text, second_text))))))) = Parts::read_from(
            alloc, from,
        )?;
        Ok(NameRequest {
            pid,
            number,
            op,
            path,
            second,
            max,
            text,
            second_text,
        })
    }
}
