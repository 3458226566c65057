ghost use Rattle.trace_text.specs.Fields.{about, about_if_any, kind_format};

use crate::field::{TraceField, put_one, put_two, spaced};
use field_reader::{FieldEnd, Reader};
use sprite_ids::{BlockNo, FileId, NoMemory, Pid};
use sprite_paths::Path;
use std::alloc::Global;
use unix_calls::{About, SendKind};

impl TraceField for About {
    ghost format = { about };

    fn put_field(&self, alloc: Global, out: &mut Vec<u8>) -> Result<(), NoMemory> {
        self.pid.put_field(alloc, out)?;
        out.push(b'/')?;
        self.number.put_field(alloc, out)
    }

    fn read_field(alloc: Global, from: &mut Reader) -> Result<About, FieldEnd> {
        let pid = Pid::read_field(alloc, from)?;
        from.sign(b"/")?;
        let number = u32::read_field(alloc, from)?;
        Ok(About { pid, number })
    }
}

impl TraceField for Option<About> {
    ghost format = { about_if_any };

    fn put_field(&self, alloc: Global, out: &mut Vec<u8>) -> Result<(), NoMemory> {
        match self {
            None => Ok(out.push(b'-')?),
            Some(about) => about.put_field(alloc, out),
        }
    }

    fn read_field(alloc: Global, from: &mut Reader) -> Result<Option<About>, FieldEnd> {
        match from.rest() {
            [b'-', rest @ ..] => {
                from.go_on(rest);
                Ok(None)
            }
            _ => Ok(Some(About::read_field(alloc, from)?)),
        }
    }
}

impl TraceField for SendKind {
    ghost format = { kind_format };

    fn put_field(&self, alloc: Global, out: &mut Vec<u8>) -> Result<(), NoMemory> {
        match self {
            SendKind::Op { file } => put_one(alloc, out, b"op", file),
            SendKind::Fetch { file, block } => put_two(alloc, out, b"fetch", file, block),
            SendKind::WriteBack { file, block } => put_two(alloc, out, b"writeback", file, block),
            SendKind::Broadcast { prefix } => put_one(alloc, out, b"broadcast", prefix),
            SendKind::Other => Ok(out.extend_from_slice(b"other")?),
        }
    }

    fn read_field(alloc: Global, from: &mut Reader) -> Result<SendKind, FieldEnd> {
        let name = from.word();
        if name == b"op".as_slice() {
            Ok(SendKind::Op {
                file: spaced::<FileId>(alloc, from)?,
            })
        } else if name == b"fetch".as_slice() {
            let (file, block) = spaced::<(FileId, BlockNo)>(alloc, from)?;
            Ok(SendKind::Fetch { file, block })
        } else if name == b"writeback".as_slice() {
            let (file, block) = spaced::<(FileId, BlockNo)>(alloc, from)?;
            Ok(SendKind::WriteBack { file, block })
        } else if name == b"broadcast".as_slice() {
            Ok(SendKind::Broadcast {
                prefix: spaced::<Path>(alloc, from)?,
            })
        } else if name == b"other".as_slice() {
            Ok(SendKind::Other)
        } else {
            Err(FieldEnd::NotSpelled)
        }
    }
}
