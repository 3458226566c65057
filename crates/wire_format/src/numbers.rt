ghost use Rattle.wire_format.specs.Codec.{byte, number16, number32, number64};
ghost use Rattle.wire_format.specs.NumberLaws.{byte_is, number16_is, number32_is, number64_is};

use crate::field::Field;
use field_reader::{FieldEnd, Reader};
use sprite_ids::NoMemory;
use std::alloc::Global;

impl Field for u8 {
    ghost codec = { byte };

    ghost law = { byte_is };

    fn put(&self, out: &mut Vec<u8>) -> Result<(), NoMemory> {
        out.push(*self)?;
        Ok(())
    }

    fn read_from(_alloc: Global, from: &mut Reader) -> Result<u8, FieldEnd> {
        match from.front(1) {
            None => Err(FieldEnd::NotSpelled),
            Some(front) => Ok(front[0]),
        }
    }
}

impl Field for u16 {
    ghost codec = { number16 };

    ghost law = { number16_is };

    #[tactic(auto, unfolding(crate::specs::Codec::number_spelled))]
    fn put(&self, out: &mut Vec<u8>) -> Result<(), NoMemory> {
        out.extend_from_slice(&self.to_le_bytes())?;
        Ok(())
    }

    #[tactic(auto, unfolding(crate::specs::Codec::number_read))]
    fn read_from(_alloc: Global, from: &mut Reader) -> Result<u16, FieldEnd> {
        match from.front(2) {
            None => Err(FieldEnd::NotSpelled),
            Some(front) => Ok(u16::from_le_bytes([front[0], front[1]])),
        }
    }
}

impl Field for u32 {
    ghost codec = { number32 };

    ghost law = { number32_is };

    #[tactic(auto, unfolding(crate::specs::Codec::number_spelled))]
    fn put(&self, out: &mut Vec<u8>) -> Result<(), NoMemory> {
        out.extend_from_slice(&self.to_le_bytes())?;
        Ok(())
    }

    #[tactic(auto, unfolding(crate::specs::Codec::number_read))]
    fn read_from(_alloc: Global, from: &mut Reader) -> Result<u32, FieldEnd> {
        match from.front(4) {
            None => Err(FieldEnd::NotSpelled),
            Some(front) => Ok(u32::from_le_bytes([front[0], front[1], front[2], front[3]])),
        }
    }
}

impl Field for u64 {
    ghost codec = { number64 };

    ghost law = { number64_is };

    #[tactic(auto, unfolding(crate::specs::Codec::number_spelled))]
    fn put(&self, out: &mut Vec<u8>) -> Result<(), NoMemory> {
        out.extend_from_slice(&self.to_le_bytes())?;
        Ok(())
    }

    #[tactic(auto, unfolding(crate::specs::Codec::number_read))]
    fn read_from(_alloc: Global, from: &mut Reader) -> Result<u64, FieldEnd> {
        match from.front(8) {
            None => Err(FieldEnd::NotSpelled),
            Some(front) => Ok(u64::from_le_bytes([
                front[0], front[1], front[2], front[3], front[4], front[5], front[6], front[7],
            ])),
        }
    }
}
