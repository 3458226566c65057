ghost use Rattle.wire_format.specs.Objects.{path};
ghost use Rattle.wire_format.specs.ObjectLaws.{path_is};

use crate::field::Field;
use field_reader::{FieldEnd, Reader, path_of};
use sprite_ids::{Bytes, NoMemory};
use sprite_paths::Path;
use std::alloc::Global;

impl Field for Path {
    ghost codec = { path };

    ghost law = { path_is };

    fn put(&self, out: &mut Vec<u8>) -> Result<(), NoMemory> {
        let _within_limits = self.parts();
        let text = self.text(*out.allocator())?;
        Bytes::of_vec(text).put(out)
    }

    fn read_from(alloc: Global, from: &mut Reader) -> Result<Path, FieldEnd> {
        let text = Bytes::read_from(alloc, from)?;
        path_of(alloc, text.as_slice())
    }
}
