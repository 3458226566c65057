ghost use Rattle.wire_format.specs.Replies.{opened_reply};
ghost use Rattle.wire_format.specs.ReplyLaws.{opened_reply_is};

use crate::field::Field;
use field_reader::{FieldEnd, Reader};
use packet_bodies::{OpenedReply, Target};
use sprite_ids::{Grant, NoMemory};
use std::alloc::Global;

impl Field for OpenedReply {
    ghost codec = { opened_reply };

    ghost law = { opened_reply_is };

    fn put(&self, out: &mut Vec<u8>) -> Result<(), NoMemory> {
        self.object.put(out)?;
        self.grant.put(out)?;
        self.size.put(out)
    }

    fn read_from(alloc: Global, from: &mut Reader) -> Result<OpenedReply, FieldEnd> {
        Ok(OpenedReply {
            object: Target::read_from(alloc, from)?,
            grant: Option::<Grant>::read_from(alloc, from)?,
            size: u32::read_from(alloc, from)?,
        })
    }
}
