ghost use Rattle.wire_format.specs.Choices.{call_kind};
ghost use Rattle.wire_format.specs.ChoiceLaws.{call_kind_is};

use crate::field::Field;
use field_reader::{FieldEnd, Reader};
use sprite_ids::{CallKind, NoMemory};
use std::alloc::Global;

impl Field for CallKind {
    ghost codec = { call_kind };

    ghost law = { call_kind_is };

    fn put(&self, out: &mut Vec<u8>) -> Result<(), NoMemory> {
        let number = match self {
            CallKind::Recall => 1,
            CallKind::Stop => 2,
        };
        out.push(number)?;
        Ok(())
    }

    fn read_from(alloc: Global, from: &mut Reader) -> Result<CallKind, FieldEnd> {
        match u8::read_from(alloc, from)? {
            1 => Ok(CallKind::Recall),
            2 => Ok(CallKind::Stop),
            _ => Err(FieldEnd::NotSpelled),
        }
    }
}
