ghost use Rattle.std.specs.Prelude.{◌≡◌, ◌∷◌, ◌++◌, [], OnOk};
ghost use Rattle.field_reader.specs.Reads.{Takes};
ghost use Rattle.history_text.specs.Formats.{Format, ◌then◌, behind_sign, form};

use field_reader::{FieldEnd, Reader};
use sprite_ids::NoMemory;
use std::alloc::Global;

/// A value that is printed as a field of a trace's line, and read from one (this project).
pub(crate) trait TraceField: Sized {
    ghost format: { Format Self };

    /// Puts the value's print at the end, also where such a print isn't read. The one error is want of memory; a part of the
    /// print may be there then.
    fn put_field(&self, alloc: Global, out: &mut Vec<u8>) -> Result<(), NoMemory>
        ensures { OnOk result (out.new.items ≡ out.old.items ++ format.printed self.now) };

    /// The value that is printed at the front of the bytes that are left, which is read then. NotSpelled comes exactly
    /// where no value is printed there; some bytes may be read then.
    fn read_field(alloc: Global, from: &mut Reader) -> Result<Self, FieldEnd>
        ensures { Takes (format.read from.old) result from.new };
}

/// Puts a name and one field at the end, the field behind a space. The one error is want of memory; a part may be there then.
pub(crate) fn put_one<A: TraceField>(
    alloc: Global,
    out: &mut Vec<u8>,
    name: &[u8],
    first: &A,
) -> Result<(), NoMemory>
    ensures { OnOk result (out.new.items ≡ out.old.items ++ (form name.now A.format first.now).printed) }
{
    out.extend_from_slice(name)?;
    out.push(b' ')?;
    first.put_field(alloc, out)
}

/// Puts a name and two fields at the end, each field behind a space. The one error is want of memory; a part may be there
/// then.
pub(crate) fn put_two<A: TraceField, B: TraceField>(
    alloc: Global,
    out: &mut Vec<u8>,
    name: &[u8],
    first: &A,
    second: &B,
) -> Result<(), NoMemory>
    ensures { OnOk result (out.new.items ≡ out.old.items ++ (form name.now (A.format then B.format) (first.now, second.now)).printed) }
{
    put_one(alloc, out, name, first)?;
    out.push(b' ')?;
    second.put_field(alloc, out)
}

/// Puts a name and three fields at the end, each field behind a space. The one error is want of memory; a part may be there
/// then.
pub(crate) fn put_three<A: TraceField, B: TraceField, C: TraceField>(
    alloc: Global,
    out: &mut Vec<u8>,
    name: &[u8],
    first: &A,
    second: &B,
    third: &C,
) -> Result<(), NoMemory>
    ensures { OnOk result (out.new.items ≡ out.old.items ++ (form name.now (A.format then B.format then C.format) (first.now, (second.now, third.now))).printed) }
{
    put_two(alloc, out, name, first, second)?;
    out.push(b' ')?;
    third.put_field(alloc, out)
}

/// Puts a name and four fields at the end, each field behind a space. The one error is want of memory; a part may be there
/// then.
pub(crate) fn put_four<A: TraceField, B: TraceField, C: TraceField, D: TraceField>(
    alloc: Global,
    out: &mut Vec<u8>,
    name: &[u8],
    first: &A,
    second: &B,
    third: &C,
    fourth: &D,
) -> Result<(), NoMemory>
    ensures { OnOk result (out.new.items ≡ out.old.items ++ (form name.now (A.format then B.format then C.format then D.format) (first.now, (second.now, (third.now, fourth.now)))).printed) }
{
    put_three(alloc, out, name, first, second, third)?;
    out.push(b' ')?;
    fourth.put_field(alloc, out)
}

/// The value behind a space.
pub(crate) fn spaced<T: TraceField>(alloc: Global, from: &mut Reader) -> Result<T, FieldEnd>
    ensures { Takes (behind_sign (32 ∷ []) T.format.read from.old) result from.new }
{
    from.sign(b" ")?;
    T::read_field(alloc, from)
}

impl<A: TraceField + Drop, B: TraceField> TraceField for (A, B) {
    ghost format = { A.format then B.format };

    fn put_field(&self, alloc: Global, out: &mut Vec<u8>) -> Result<(), NoMemory> {
        self.0.put_field(alloc, out)?;
        out.push(b' ')?;
        self.1.put_field(alloc, out)
    }

    fn read_field(alloc: Global, from: &mut Reader) -> Result<(A, B), FieldEnd> {
        let first = A::read_field(alloc, from)?;
        from.sign(b" ")?;
        let second = B::read_field(alloc, from)?;
        Ok((first, second))
    }
}
