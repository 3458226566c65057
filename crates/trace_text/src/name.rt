ghost use Rattle.std.specs.Prelude.{◌≡◌, ◌++◌, OnOk};
ghost use Rattle.field_reader.specs.Reads.{Takes};
ghost use Rattle.trace_text.specs.Fields.{file, numbered, prefix_format, stream};

use crate::field::TraceField;
use field_reader::{FieldEnd, Reader, path_of};
use history_text::Field;
use sprite_ids::{Bytes, FileId, Kernel, NoMemory, StreamNo};
use sprite_paths::Path;
use std::alloc::Global;

// Puts what a kernel numbers at the end.
fn put_numbered(
    alloc: Global,
    out: &mut Vec<u8>,
    kernel: Kernel,
    number: u32,
) -> Result<(), NoMemory>
    ensures { OnOk result (out.new.items ≡ out.old.items ++ numbered.printed (kernel, number)) }
{
    kernel.put_field(alloc, out)?;
    out.push(b':')?;
    number.put(alloc, out)
}

// Reads what a kernel numbers.
fn read_numbered(alloc: Global, from: &mut Reader) -> Result<(Kernel, u32), FieldEnd>
    ensures { Takes (numbered.read from.old) result from.new }
{
    let kernel = Kernel::read_field(alloc, from)?;
    from.sign(b":")?;
    let number = u32::read_from(alloc, from)?;
    Ok((kernel, number))
}

impl TraceField for FileId {
    ghost format = { file };

    fn put_field(&self, alloc: Global, out: &mut Vec<u8>) -> Result<(), NoMemory> {
        put_numbered(alloc, out, self.server, self.number)
    }

    fn read_field(alloc: Global, from: &mut Reader) -> Result<FileId, FieldEnd> {
        let (server, number) = read_numbered(alloc, from)?;
        Ok(FileId { server, number })
    }
}

impl TraceField for StreamNo {
    ghost format = { stream };

    fn put_field(&self, alloc: Global, out: &mut Vec<u8>) -> Result<(), NoMemory> {
        put_numbered(alloc, out, self.kernel, self.number)
    }

    fn read_field(alloc: Global, from: &mut Reader) -> Result<StreamNo, FieldEnd> {
        let (kernel, number) = read_numbered(alloc, from)?;
        Ok(StreamNo { kernel, number })
    }
}

impl TraceField for Path {
    ghost format = { prefix_format };

    fn put_field(&self, alloc: Global, out: &mut Vec<u8>) -> Result<(), NoMemory> {
        let text = Bytes::of_vec(self.text(alloc)?);
        text.put(alloc, out)
    }

    fn read_field(alloc: Global, from: &mut Reader) -> Result<Path, FieldEnd> {
        let text = Bytes::read_from(alloc, from)?;
        path_of(alloc, text.as_slice())
    }
}
