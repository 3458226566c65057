ghost use Rattle.wire_format.specs.Requests.{fetch_request};
ghost use Rattle.wire_format.specs.RequestLaws.{fetch_request_is};

use crate::field::Field;
use field_reader::{FieldEnd, Reader};
use packet_bodies::FetchRequest;
use sprite_ids::{BlockNo, FileId, NoMemory};
use std::alloc::Global;

impl Field for FetchRequest {
    ghost codec = { fetch_request };

    ghost law = { fetch_request_is };

    fn put(&self, out: &mut Vec<u8>) -> Result<(), NoMemory> {
        self.file.put(out)?;
        self.stamp.put(out)?;
        self.block.put(out)
    }

    fn read_from(alloc: Global, from: &mut Reader) -> Result<FetchRequest, FieldEnd> {
        Ok(FetchRequest {
            file: FileId::read_from(alloc, from)?,
            stamp: u32::read_from(alloc, from)?,
            block: BlockNo::read_from(alloc, from)?,
        })
    }
}
