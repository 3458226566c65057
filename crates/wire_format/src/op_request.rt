ghost use Rattle.wire_format.specs.Requests.{op_request};
ghost use Rattle.wire_format.specs.RequestLaws.{op_request_is};

use crate::field::Field;
use field_reader::{FieldEnd, Reader};
use packet_bodies::{Descriptor, FileOp, OpRequest};
use sprite_ids::{Bytes, FileId, NoMemory, Pid, StreamNo};
use std::alloc::Global;

// The fields, as they stand one behind another.
type Parts = (
    Pid,
    (
        u32,
        (
            FileId,
            (
                u32,
                (
                    StreamNo,
                    (FileOp, (Option<u32>, (u32, (Bytes, Descriptor)))),
                ),
            ),
        ),
    ),
);

impl Field for OpRequest {
    ghost codec = { op_request };

    ghost law = { op_request_is };

    fn put(&self, out: &mut Vec<u8>) -> Result<(), NoMemory> {
        self.pid.put(out)?;
        self.number.put(out)?;
        self.file.put(out)?;
        self.stamp.put(out)?;
        self.stream.put(out)?;
        self.op.put(out)?;
        self.offset.put(out)?;
        self.length.put(out)?;
        self.bytes.put(out)?;
        self.fd.put(out)
    }

    fn read_from(alloc: Global, from: &mut Reader) -> Result<OpRequest, FieldEnd> {
        let (pid, (number, (file, (stamp, (stream, (op, (offset, (length, (bytes, fd))))))))) =
            Parts::read_from(alloc, from)?;
        Ok(OpRequest {
            pid,
            number,
            file,
            stamp,
            stream,
            op,
            offset,
            length,
            bytes,
            fd,
        })
    }
}
