ghost use Rattle.wire_format.specs.Objects.{target};
ghost use Rattle.wire_format.specs.ObjectLaws.{target_is};

use crate::field::{Field, put_form};
use field_reader::{FieldEnd, Reader};
use packet_bodies::Target;
use sprite_ids::{DeviceId, FileId, NoMemory};
use std::alloc::Global;

impl Field for Target {
    ghost codec = { target };

    ghost law = { target_is };

    fn put(&self, out: &mut Vec<u8>) -> Result<(), NoMemory> {
        match self {
            Target::File(file) => put_form(out, 1, file),
            Target::Device(device) => put_form(out, 2, device),
        }
    }

    fn read_from(alloc: Global, from: &mut Reader) -> Result<Target, FieldEnd> {
        match u8::read_from(alloc, from)? {
            1 => Ok(Target::File(FileId::read_from(alloc, from)?)),
            2 => Ok(Target::Device(DeviceId::read_from(alloc, from)?)),
            _ => Err(FieldEnd::NotSpelled),
        }
    }
}
