ghost use Rattle.std.specs.Prelude.{◌≡◌, ◌∷◌, ◌++◌, [], OnOk};
ghost use Rattle.field_reader.specs.Reads.{Takes};
ghost use Rattle.history_text.specs.Formats.{Format, ◌then◌, behind_sign, form};

use field_reader::{FieldEnd, Reader};
use sprite_ids::NoMemory;
use std::alloc::Global;

/// A value that is printed as a part of a line (this project).
pub trait Field: Sized {
    ghost format: { Format Self };

    /// Puts the value's print at the end. The one error is want of memory; a part of the print may be there then.
    fn put(&self, alloc: Global, out: &mut Vec<u8>) -> Result<(), NoMemory>
        ensures print { OnOk result (out.new.items ≡ out.old.items ++ format.printed self.now) }
        ensures fits { OnOk result (format.Fits self.now) };

    /// The value that is printed at the front of the bytes that are left, which is read then. NotSpelled comes exactly
    /// where no value is printed there; some bytes may be read then.
    fn read_from(alloc: Global, from: &mut Reader) -> Result<Self, FieldEnd>
        ensures { Takes (format.read from.old) result from.new };
}

/// Puts a space and the value's print at the end. The one error is want of memory; a part may be there then.
pub fn put_spaced<T: Field>(alloc: Global, out: &mut Vec<u8>, value: &T) -> Result<(), NoMemory>
    ensures print { OnOk result (out.new.items ≡ out.old.items ++ 32 ∷ T.format.printed value.now) }
    ensures fits { OnOk result (T.format.Fits value.now) }
{
    out.push(b' ')?;
    value.put(alloc, out)
}

/// Puts a form's name, a space and what the form holds at the end. The one error is want of memory; a part may be there
/// then.
pub fn put_form<T: Field>(
    alloc: Global,
    out: &mut Vec<u8>,
    name: &[u8],
    value: &T,
) -> Result<(), NoMemory>
    ensures print { OnOk result (out.new.items ≡ out.old.items ++ (form name.now T.format value.now).printed) }
    ensures fits { OnOk result (form name.now T.format value.now).Fits }
{
    out.extend_from_slice(name)?;
    put_spaced(alloc, out, value)
}

/// Puts a form's name and its two values at the end, each after a space. The one error is want of memory; a part may be
/// there then.
pub fn put_pair<A: Field, B: Field>(
    alloc: Global,
    out: &mut Vec<u8>,
    name: &[u8],
    first: &A,
    second: &B,
) -> Result<(), NoMemory>
    ensures print { OnOk result (out.new.items ≡ out.old.items ++ (form name.now (A.format then B.format) (first.now, second.now)).printed) }
    ensures fits { OnOk result (form name.now (A.format then B.format) (first.now, second.now)).Fits }
{
    put_form(alloc, out, name, first)?;
    put_spaced(alloc, out, second)
}

/// Puts a form's name and its three values at the end, each after a space. The one error is want of memory; a part may
/// be there then.
pub fn put_triple<A: Field, B: Field, C: Field>(
    alloc: Global,
    out: &mut Vec<u8>,
    name: &[u8],
    first: &A,
    second: &B,
    third: &C,
) -> Result<(), NoMemory>
    ensures print { OnOk result (out.new.items ≡ out.old.items ++ (form name.now (A.format then B.format then C.format) (first.now, (second.now, third.now))).printed) }
    ensures fits { OnOk result (form name.now (A.format then B.format then C.format) (first.now, (second.now, third.now))).Fits }
{
    put_pair(alloc, out, name, first, second)?;
    put_spaced(alloc, out, third)
}

/// The value behind a space.
pub fn spaced<T: Field>(alloc: Global, from: &mut Reader) -> Result<T, FieldEnd>
    ensures { Takes (behind_sign (32 ∷ []) T.format.read from.old) result from.new }
{
    from.sign(b" ")?;
    T::read_from(alloc, from)
}

impl<A: Field + Drop, B: Field> Field for (A, B) {
    ghost format = { A.format then B.format };

    fn put(&self, alloc: Global, out: &mut Vec<u8>) -> Result<(), NoMemory> {
        self.0.put(alloc, out)?;
        put_spaced(alloc, out, &self.1)
    }

    fn read_from(alloc: Global, from: &mut Reader) -> Result<(A, B), FieldEnd> {
        let first = A::read_from(alloc, from)?;
        from.sign(b" ")?;
        let second = B::read_from(alloc, from)?;
        Ok((first, second))
    }
}
