ghost use Rattle.wire_format.specs.Requests.{write_back_request};
ghost use Rattle.wire_format.specs.RequestLaws.{write_back_request_is};

use crate::field::Field;
use field_reader::{FieldEnd, Reader};
use packet_bodies::WriteBackRequest;
use sprite_ids::{BlockNo, Bytes, FileId, NoMemory};
use std::alloc::Global;

// The fields, as they stand one behind another.
type Parts = (FileId, (u32, (BlockNo, (u32, Bytes))));

impl Field for WriteBackRequest {
    ghost codec = { write_back_request };

    ghost law = { write_back_request_is };

    fn put(&self, out: &mut Vec<u8>) -> Result<(), NoMemory> {
        self.file.put(out)?;
        self.stamp.put(out)?;
        self.block.put(out)?;
        self.size.put(out)?;
        self.bytes.put(out)
    }

    fn read_from(alloc: Global, from: &mut Reader) -> Result<WriteBackRequest, FieldEnd> {
        let (file, (stamp, (block, (size, bytes)))) = Parts::read_from(alloc, from)?;
        Ok(WriteBackRequest {
            file,
            stamp,
            block,
            size,
            bytes,
        })
    }
}
