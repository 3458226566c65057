ghost use Rattle.history_text.specs.Calls.{reply_format};

use crate::field::{Field, put_form, put_triple, spaced};
use field_reader::{FieldEnd, Reader};
use process_machine::Reply;
use sprite_ids::{Bytes, Errno, NoMemory};
use std::alloc::Global;

impl Field for Reply {
    ghost format = { reply_format };

    fn put(&self, alloc: Global, out: &mut Vec<u8>) -> Result<(), NoMemory> {
        match self {
            Reply::Value {
                first,
                second,
                bytes,
            } => put_triple(alloc, out, b"ok", first, second, bytes),
            Reply::Error(errno) => put_form(alloc, out, b"err", errno),
        }
    }

    fn read_from(alloc: Global, from: &mut Reader) -> Result<Reply, FieldEnd> {
        let name = from.word();
        if name == b"ok".as_slice() {
            let (first, (second, bytes)) = spaced::<(u64, (u64, Bytes))>(alloc, from)?;
            Ok(Reply::Value {
                first,
                second,
                bytes,
            })
        } else if name == b"err".as_slice() {
            Ok(Reply::Error(spaced::<Errno>(alloc, from)?))
        } else {
            Err(FieldEnd::NotSpelled)
        }
    }
}
