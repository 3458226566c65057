ghost use Rattle.wire_format.specs.Choices.{ask_kind};
ghost use Rattle.wire_format.specs.ChoiceLaws.{ask_kind_is};

use crate::field::Field;
use field_reader::{FieldEnd, Reader};
use sprite_ids::{AskKind, NoMemory};
use std::alloc::Global;

impl Field for AskKind {
    ghost codec = { ask_kind };

    ghost law = { ask_kind_is };

    fn put(&self, out: &mut Vec<u8>) -> Result<(), NoMemory> {
        let number = match self {
            AskKind::Read => 1,
            AskKind::Write => 2,
            AskKind::Ioctl => 3,
        };
        out.push(number)?;
        Ok(())
    }

    fn read_from(alloc: Global, from: &mut Reader) -> Result<AskKind, FieldEnd> {
        match u8::read_from(alloc, from)? {
            1 => Ok(AskKind::Read),
            2 => Ok(AskKind::Write),
            3 => Ok(AskKind::Ioctl),
            _ => Err(FieldEnd::NotSpelled),
        }
    }
}
