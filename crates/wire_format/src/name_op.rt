ghost use Rattle.wire_format.specs.Choices.{name_op};
ghost use Rattle.wire_format.specs.ChoiceLaws.{name_op_is};

use crate::field::Field;
use field_reader::{FieldEnd, Reader};
use packet_bodies::NameOp;
use sprite_ids::NoMemory;
use std::alloc::Global;

impl Field for NameOp {
    ghost codec = { name_op };

    ghost law = { name_op_is };

    fn put(&self, out: &mut Vec<u8>) -> Result<(), NoMemory> {
        let number = match self {
            NameOp::Walk => 1,
            NameOp::Stat => 2,
            NameOp::Mkdir => 3,
            NameOp::Rmdir => 4,
            NameOp::Unlink => 5,
            NameOp::Rename => 6,
            NameOp::List => 7,
            NameOp::Chdir => 8,
        };
        out.push(number)?;
        Ok(())
    }

    fn read_from(alloc: Global, from: &mut Reader) -> Result<NameOp, FieldEnd> {
        match u8::read_from(alloc, from)? {
            1 => Ok(NameOp::Walk),
            2 => Ok(NameOp::Stat),
            3 => Ok(NameOp::Mkdir),
            4 => Ok(NameOp::Rmdir),
            5 => Ok(NameOp::Unlink),
            6 => Ok(NameOp::Rename),
            7 => Ok(NameOp::List),
            8 => Ok(NameOp::Chdir),
            _ => Err(FieldEnd::NotSpelled),
        }
    }
}
