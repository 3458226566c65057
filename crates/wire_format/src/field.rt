ghost use Rattle.std.specs.Prelude.{◌≡◌, ◌∷◌, ◌++◌, OnOk};
ghost use Rattle.field_reader.specs.Reads.{Takes};
ghost use Rattle.wire_format.specs.Codec.{Codec, IsCodec};

use field_reader::{FieldEnd, Reader};
use sprite_ids::NoMemory;
use std::alloc::Global;

/// A value that is spelled as a part of a packet (this project).
///
/// Numbers have the lowest byte first. What was spelled is read again, and each value has one spelling.
pub trait Field: Sized {
    ghost codec: { Codec Self };

    /// Puts the value's spelling at the end. The one error is want of memory, which is also the answer where a text or a
    /// list is too long to be spelled: so what is put fits. After an error a part of the spelling may be there.
    fn put(&self, out: &mut Vec<u8>) -> Result<(), NoMemory>
        ensures bytes { OnOk result (out.new.items ≡ out.old.items ++ codec.spelled self.now) }
        ensures fits { OnOk result (codec.Fits self.now) };

    /// The value that is spelled at the front of the bytes that are left, which is read then. NotSpelled comes exactly
    /// where no value is spelled there; some bytes may be read then.
    fn read_from(alloc: Global, from: &mut Reader) -> Result<Self, FieldEnd>
        ensures { Takes (codec.read from.old) result from.new };

    ghost law: { IsCodec codec };
}

/// Puts a form's number and what the form holds at the end. The one error is want of memory; a part may be there then.
pub(crate) fn put_form<T: Field>(out: &mut Vec<u8>, tag: u8, value: &T) -> Result<(), NoMemory>
    ensures bytes { OnOk result (out.new.items ≡ out.old.items ++ tag ∷ T.codec.spelled value.now) }
    ensures fits { OnOk result (T.codec.Fits value.now) }
{
    out.push(tag)?;
    value.put(out)
}
