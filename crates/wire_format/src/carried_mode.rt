ghost use Rattle.wire_format.specs.Choices.{carried_mode};
ghost use Rattle.wire_format.specs.ChoiceLaws.{carried_mode_is};

use crate::field::Field;
use field_reader::{FieldEnd, Reader};
use packet_bodies::CarriedMode;
use sprite_ids::NoMemory;
use std::alloc::Global;

impl Field for CarriedMode {
    ghost codec = { carried_mode };

    ghost law = { carried_mode_is };

    fn put(&self, out: &mut Vec<u8>) -> Result<(), NoMemory> {
        let number = match self {
            CarriedMode::Read => 1,
            CarriedMode::Write => 2,
            CarriedMode::Both => 3,
            CarriedMode::AppendingWrite => 18,
            CarriedMode::AppendingBoth => 19,
        };
        out.push(number)?;
        Ok(())
    }

    fn read_from(alloc: Global, from: &mut Reader) -> Result<CarriedMode, FieldEnd> {
        match u8::read_from(alloc, from)? {
            1 => Ok(CarriedMode::Read),
            2 => Ok(CarriedMode::Write),
            3 => Ok(CarriedMode::Both),
            18 => Ok(CarriedMode::AppendingWrite),
            19 => Ok(CarriedMode::AppendingBoth),
            _ => Err(FieldEnd::NotSpelled),
        }
    }
}
