ghost use Rattle.std.specs.Prelude.{◌≡◌, ◌++◌, ◌<◌, OnOk};
ghost use Rattle.std.specs.List.{flat_map};
ghost use Rattle.process_machine.specs.Memory.{page_of};
ghost use Rattle.field_reader.specs.Reads.{passed};
ghost use Rattle.wire_format.specs.Codec.{number64, optional, repeated, text};
ghost use Rattle.wire_format.specs.ListLaws.{repeated_is};
ghost use Rattle.wire_format.specs.NumberLaws.{number64_is};
ghost use Rattle.wire_format.specs.Objects.{are_pages, image};
ghost use Rattle.wire_format.specs.ObjectLaws.{image_is};

use crate::field::Field;
use crate::parts::put_items;
use field_reader::{FieldEnd, Reader};
use process_machine::Image;
use sprite_ids::{Bytes, Items, NoMemory};
use std::alloc::Global;

impl Field for [u64; 8] {
    ghost codec = { repeated 8 number64 };

    ghost law = { repeated_is 8 number64_is };

    fn put(&self, out: &mut Vec<u8>) -> Result<(), NoMemory> {
        put_items(out, self.as_slice())
    }

    fn read_from(alloc: Global, from: &mut Reader) -> Result<[u64; 8], FieldEnd> {
        Ok([
            u64::read_from(alloc, from)?,
            u64::read_from(alloc, from)?,
            u64::read_from(alloc, from)?,
            u64::read_from(alloc, from)?,
            u64::read_from(alloc, from)?,
            u64::read_from(alloc, from)?,
            u64::read_from(alloc, from)?,
            u64::read_from(alloc, from)?,
        ])
    }
}

impl Field for Image {
    ghost codec = { image };

    ghost law = { image_is };

    fn put(&self, out: &mut Vec<u8>) -> Result<(), NoMemory> {
        self.program_number().put(out)?;
        self.counter().put(out)?;
        self.registers().put(out)?;
        u32::from(self.page_count()).put(out)?;
        put_pages(out, self)
    }

    fn read_from(alloc: Global, from: &mut Reader) -> Result<Image, FieldEnd> {
        let program = u8::read_from(alloc, from)?;
        let counter = u16::read_from(alloc, from)?;
        let registers = <[u64; 8]>::read_from(alloc, from)?;
        let pages = Items::<Option<Bytes>>::read_from(alloc, from)?;
        image_of(program, counter, registers, pages.into_vec()).ok_or(FieldEnd::NotSpelled)
    }
}

// The image of these parts.
fn image_of(
    program: u8,
    counter: u16,
    registers: [u64; 8],
    pages: Vec<Option<Bytes>>,
) -> Option<Image>
    ensures { result ≡ passed (λ m. are_pages m.pages) (record { number = program; counter = counter; registers = registers; pages = pages.items }) }
{
    Image::of_parts(program, counter, registers, pages)
}

// Puts the image's pages, each away or with its length and its bytes.
fn put_pages(out: &mut Vec<u8>, image: &Image) -> Result<(), NoMemory>
    ensures { OnOk result (out.new.items ≡ out.old.items ++ flat_map (optional text).spelled image.now.pages) }
{
    for page in 0..image.page_count() {
        put_page(out, image, page)?;
    }
    Ok(())
}

// Puts one of the image's pages.
fn put_page(out: &mut Vec<u8>, image: &Image, page: u8) -> Result<(), NoMemory>
    ensures { OnOk result (out.new.items ≡ out.old.items ++ (optional text).spelled (page_of image.now.pages page)) }
{
    match image.page(page) {
        None => out.push(0)?,
        Some(bytes) => {
            out.push(1)?;
            (bytes.len() as u32).put(out)?;
            out.extend_from_slice(bytes)?;
        }
    }
    Ok(())
}
