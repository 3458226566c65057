ghost use Rattle.std.specs.Prelude.{◌≡◌, ◌++◌, OnOk};
ghost use Rattle.field_reader.specs.Reads.{Takes};
ghost use Rattle.wire_format.specs.Choices.{caching};
ghost use Rattle.wire_format.specs.Objects.{grant};
ghost use Rattle.wire_format.specs.ObjectLaws.{grant_is};

use crate::field::Field;
use field_reader::{FieldEnd, Reader};
use sprite_ids::{FileId, Grant, NoMemory};
use std::alloc::Global;

impl Field for Grant {
    ghost codec = { grant };

    ghost law = { grant_is };

    fn put(&self, out: &mut Vec<u8>) -> Result<(), NoMemory> {
        self.file.put(out)?;
        self.stamp.put(out)?;
        self.old.put(out)?;
        self.new.put(out)?;
        self.size.put(out)?;
        put_caching(out, self.on)?;
        self.holder.put(out)
    }

    fn read_from(alloc: Global, from: &mut Reader) -> Result<Grant, FieldEnd> {
        Ok(Grant {
            file: FileId::read_from(alloc, from)?,
            stamp: u32::read_from(alloc, from)?,
            old: u32::read_from(alloc, from)?,
            new: u32::read_from(alloc, from)?,
            size: u32::read_from(alloc, from)?,
            on: read_caching(alloc, from)?,
            holder: bool::read_from(alloc, from)?,
        })
    }
}

// Puts whether a file may be cached: 1 On, 2 Off.
fn put_caching(out: &mut Vec<u8>, on: bool) -> Result<(), NoMemory>
    ensures { OnOk result (out.new.items ≡ out.old.items ++ caching.spelled on) }
{
    let number = if on { 1 } else { 2 };
    out.push(number)?;
    Ok(())
}

// Reads whether a file may be cached.
fn read_caching(alloc: Global, from: &mut Reader) -> Result<bool, FieldEnd>
    ensures { Takes (caching.read from.old) result from.new }
{
    match u8::read_from(alloc, from)? {
        1 => Ok(true),
        2 => Ok(false),
        _ => Err(FieldEnd::NotSpelled),
    }
}
