ghost use Rattle.wire_format.specs.Requests.{page_out_request};
ghost use Rattle.wire_format.specs.RequestLaws.{page_out_request_is};

use crate::field::Field;
use field_reader::{FieldEnd, Reader};
use packet_bodies::PageOutRequest;
use sprite_ids::{Bytes, NoMemory, Pid};
use std::alloc::Global;

impl Field for PageOutRequest {
    ghost codec = { page_out_request };

    ghost law = { page_out_request_is };

    fn put(&self, out: &mut Vec<u8>) -> Result<(), NoMemory> {
        self.pid.put(out)?;
        self.page.put(out)?;
        self.bytes.put(out)
    }

    fn read_from(alloc: Global, from: &mut Reader) -> Result<PageOutRequest, FieldEnd> {
        Ok(PageOutRequest {
            pid: Pid::read_from(alloc, from)?,
            page: u8::read_from(alloc, from)?,
            bytes: Bytes::read_from(alloc, from)?,
        })
    }
}
