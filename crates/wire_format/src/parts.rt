ghost use Rattle.std.specs.Prelude.{◌≡◌, ◌++◌, ◌<◌, ◌^◌, OnOk};
ghost use Rattle.field_reader.specs.Reads.{Takes};
ghost use Rattle.wire_format.specs.Codec.{◌before◌, items_read, listed, number32, optional, text};
ghost use Rattle.std.specs.List.{AllByRecursion, flat_map};
ghost use Rattle.wire_format.specs.CodecLaws.{before_is, optional_is};
ghost use Rattle.wire_format.specs.ListLaws.{listed_is, text_is};

use crate::field::{Field, put_form};
use field_reader::{FieldEnd, Reader};
use sprite_ids::{Bytes, Items, NoMemory};
use std::alloc::Global;

impl<T: Field> Field for Option<T> {
    ghost codec = { optional T.codec };

    ghost law = { optional_is T.law };

    fn put(&self, out: &mut Vec<u8>) -> Result<(), NoMemory> {
        match self {
            None => Ok(out.push(0)?),
            Some(value) => put_form(out, 1, value),
        }
    }

    fn read_from(alloc: Global, from: &mut Reader) -> Result<Option<T>, FieldEnd> {
        match u8::read_from(alloc, from)? {
            0 => Ok(None),
            1 => Ok(Some(T::read_from(alloc, from)?)),
            _ => Err(FieldEnd::NotSpelled),
        }
    }
}

impl Field for Bytes {
    ghost codec = { text };

    ghost law = { text_is };

    fn put(&self, out: &mut Vec<u8>) -> Result<(), NoMemory> {
        put_count(out, self.len())?;
        out.extend_from_slice(self.as_slice())?;
        Ok(())
    }

    fn read_from(alloc: Global, from: &mut Reader) -> Result<Bytes, FieldEnd> {
        let len = u32::read_from(alloc, from)?;
        match from.front(len as usize) {
            None => Err(FieldEnd::NotSpelled),
            Some(bytes) => Ok(Bytes::of_slice(alloc, bytes)?),
        }
    }
}

impl<T: Field + Drop> Field for Items<T> {
    ghost codec = { listed T.codec };

    ghost law = { listed_is T.law };

    fn put(&self, out: &mut Vec<u8>) -> Result<(), NoMemory> {
        put_count(out, self.len())?;
        put_items(out, self.as_slice())
    }

    fn read_from(alloc: Global, from: &mut Reader) -> Result<Items<T>, FieldEnd> {
        let count = u32::read_from(alloc, from)?;
        read_items(alloc, count, from)
    }
}

// Puts how many bytes or items follow; 2^32 or more are too many to be spelled.
fn put_count(out: &mut Vec<u8>, count: usize) -> Result<(), NoMemory>
    ensures bytes { OnOk result (out.new.items ≡ out.old.items ++ number32.spelled count) }
    ensures fits { OnOk result (count < 2 ^ 32) }
{
    match u32::try_from(count) {
        Ok(count) => count.put(out),
        Err(_) => Err(NoMemory),
    }
}

// Puts the items, one behind another.
pub(crate) fn put_items<T: Field>(out: &mut Vec<u8>, items: &[T]) -> Result<(), NoMemory>
    ensures bytes { OnOk result (out.new.items ≡ out.old.items ++ flat_map T.codec.spelled items.now) }
    ensures fit { OnOk result (AllByRecursion T.codec.Fits items.now) }
{
    for item in items {
        item.put(out)?;
    }
    Ok(())
}

// Reads so many items, one behind another.
fn read_items<T: Field + Drop>(
    alloc: Global,
    count: u32,
    from: &mut Reader,
) -> Result<Items<T>, FieldEnd>
    ensures { Takes (items_read T.codec.read count from.old) result from.new }
{
    let mut items = Items::new(alloc);
    for _ in 0..count {
        let item = T::read_from(alloc, from)?;
        items.push(item)?;
    }
    Ok(items)
}

impl<A: Field + Drop, B: Field> Field for (A, B) {
    ghost codec = { A.codec before B.codec };

    ghost law = { before_is A.law B.law };

    fn put(&self, out: &mut Vec<u8>) -> Result<(), NoMemory> {
        self.0.put(out)?;
        self.1.put(out)
    }

    fn read_from(alloc: Global, from: &mut Reader) -> Result<(A, B), FieldEnd> {
        let first = A::read_from(alloc, from)?;
        let second = B::read_from(alloc, from)?;
        Ok((first, second))
    }
}
