ghost use Rattle.wire_format.specs.Choices.{file_op};
ghost use Rattle.wire_format.specs.ChoiceLaws.{file_op_is};

use crate::field::Field;
use field_reader::{FieldEnd, Reader};
use packet_bodies::FileOp;
use sprite_ids::NoMemory;
use std::alloc::Global;

impl Field for FileOp {
    ghost codec = { file_op };

    ghost law = { file_op_is };

    fn put(&self, out: &mut Vec<u8>) -> Result<(), NoMemory> {
        let number = match self {
            FileOp::Read => 1,
            FileOp::Write => 2,
            FileOp::Size => 3,
            FileOp::Seek => 4,
            FileOp::Append => 5,
        };
        out.push(number)?;
        Ok(())
    }

    fn read_from(alloc: Global, from: &mut Reader) -> Result<FileOp, FieldEnd> {
        match u8::read_from(alloc, from)? {
            1 => Ok(FileOp::Read),
            2 => Ok(FileOp::Write),
            3 => Ok(FileOp::Size),
            4 => Ok(FileOp::Seek),
            5 => Ok(FileOp::Append),
            _ => Err(FieldEnd::NotSpelled),
        }
    }
}
