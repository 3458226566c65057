ghost use Rattle.std.specs.Prelude.{[]};
ghost use Rattle.sprite_paths.specs.Path.{clean_path};
ghost use Rattle.field_reader.specs.Paths.{path_of};
ghost use Rattle.field_reader.specs.Reads.{Gives};

use crate::field_end::FieldEnd;
use sprite_paths::{Path, PathEnd};
use std::alloc::Global;

/// The path of which that is the cleaned text. NotSpelled comes exactly where there is none.
pub fn path_of(alloc: Global, text: &[u8]) -> Result<Path, FieldEnd>
    ensures { Gives (path_of text.now) result }
{
    let path = cleaned(alloc, text)?;
    if path.text(alloc)?.as_slice() == text {
        Ok(path)
    } else {
        Err(FieldEnd::NotSpelled)
    }
}

// The path that the text leads to from the root.
fn cleaned(alloc: Global, text: &[u8]) -> Result<Path, FieldEnd>
    ensures { Gives (clean_path [] text.now) result }
{
    match Path::clean(alloc, &Path::root(alloc), text) {
        Ok(path) => Ok(path),
        Err(PathEnd::BadName) => Err(FieldEnd::NotSpelled),
        Err(PathEnd::NoMemory) => Err(FieldEnd::NoMemory),
    }
}
