ghost use Rattle.wire_format.specs.Requests.{callback_request};
ghost use Rattle.wire_format.specs.RequestLaws.{callback_request_is};

use crate::field::Field;
use field_reader::{FieldEnd, Reader};
use packet_bodies::CallbackRequest;
use sprite_ids::{CallKind, FileId, NoMemory};
use std::alloc::Global;

impl Field for CallbackRequest {
    ghost codec = { callback_request };

    ghost law = { callback_request_is };

    fn put(&self, out: &mut Vec<u8>) -> Result<(), NoMemory> {
        self.file.put(out)?;
        self.stamp.put(out)?;
        self.kind.put(out)
    }

    fn read_from(alloc: Global, from: &mut Reader) -> Result<CallbackRequest, FieldEnd> {
        Ok(CallbackRequest {
            file: FileId::read_from(alloc, from)?,
            stamp: u32::read_from(alloc, from)?,
            kind: CallKind::read_from(alloc, from)?,
        })
    }
}
