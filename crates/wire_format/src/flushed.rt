ghost use Rattle.wire_format.specs.Objects.{flushed};
ghost use Rattle.wire_format.specs.ObjectLaws.{flushed_is};

use crate::field::Field;
use field_reader::{FieldEnd, Reader};
use sprite_ids::{BlockNo, Bytes, Flushed, Items, NoMemory};
use std::alloc::Global;

impl Field for Flushed {
    ghost codec = { flushed };

    ghost law = { flushed_is };

    fn put(&self, out: &mut Vec<u8>) -> Result<(), NoMemory> {
        self.size.put(out)?;
        self.blocks.put(out)
    }

    fn read_from(alloc: Global, from: &mut Reader) -> Result<Flushed, FieldEnd> {
        Ok(Flushed {
            size: u32::read_from(alloc, from)?,
            blocks: Items::<(BlockNo, Bytes)>::read_from(alloc, from)?,
        })
    }
}
