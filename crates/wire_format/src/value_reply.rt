ghost use Rattle.wire_format.specs.Replies.{value_reply};
ghost use Rattle.wire_format.specs.ReplyLaws.{value_reply_is};

use crate::field::Field;
use field_reader::{FieldEnd, Reader};
use packet_bodies::ValueReply;
use sprite_ids::{Bytes, NoMemory};
use std::alloc::Global;

impl Field for ValueReply {
    ghost codec = { value_reply };

    ghost law = { value_reply_is };

    fn put(&self, out: &mut Vec<u8>) -> Result<(), NoMemory> {
        self.first.put(out)?;
        self.second.put(out)?;
        self.bytes.put(out)
    }

    fn read_from(alloc: Global, from: &mut Reader) -> Result<ValueReply, FieldEnd> {
        Ok(ValueReply {
            first: u64::read_from(alloc, from)?,
            second: u64::read_from(alloc, from)?,
            bytes: Bytes::read_from(alloc, from)?,
        })
    }
}
