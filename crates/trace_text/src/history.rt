ghost use Rattle.std.specs.Prelude.{◌≡◌, IfOk};
ghost use Rattle.history_text.specs.Calls.{call_format, reply_format};
ghost use Rattle.history_text.specs.Entries.{entry, told_shape};

use crate::field::TraceField;
use field_reader::{FieldEnd, Reader};
use history_text::{Field, put_told, read_entry};
use process_machine::{Call, Reply};
use sprite_ids::NoMemory;
use std::alloc::Global;
use unix_calls::Entry;

impl TraceField for Call {
    ghost format = { call_format };

    fn put_field(&self, alloc: Global, out: &mut Vec<u8>) -> Result<(), NoMemory> {
        self.put(alloc, out)
    }

    fn read_field(alloc: Global, from: &mut Reader) -> Result<Call, FieldEnd> {
        Call::read_from(alloc, from)
    }
}

impl TraceField for Reply {
    ghost format = { reply_format };

    fn put_field(&self, alloc: Global, out: &mut Vec<u8>) -> Result<(), NoMemory> {
        self.put(alloc, out)
    }

    fn read_field(alloc: Global, from: &mut Reader) -> Result<Reply, FieldEnd> {
        Reply::read_from(alloc, from)
    }
}

/// An entry is printed as in a history, without byte 10. Where its parts don't belong together, nothing stands behind its
/// number and a space, and such a print isn't read.
impl TraceField for Entry {
    ghost format = { entry };

    fn put_field(&self, alloc: Global, out: &mut Vec<u8>) -> Result<(), NoMemory> {
        (self.pid, self.number).put(alloc, out)?;
        out.push(b' ')?;
        let told = told(alloc, self)?;
        Ok(out.extend_from_slice(told.as_slice())?)
    }

    fn read_field(alloc: Global, from: &mut Reader) -> Result<Entry, FieldEnd> {
        read_entry(alloc, from)
    }
}

// What an entry tells beside its process and its number; nothing where its parts don't belong together.
#[tactic(auto, using(crate::proofs::ToldLaws::tells_nothing))]
fn told(alloc: Global, entry: &Entry) -> Result<Vec<u8>, NoMemory>
    ensures { IfOk result (λ told. told.items ≡ (told_shape entry.now.part entry.now.call entry.now.reply).printed) }
{
    let mut told = Vec::new(alloc);
    match put_told(alloc, &mut told, entry.part, &entry.call, &entry.reply) {
        Ok(()) => Ok(told),
        Err(FieldEnd::NotSpelled) => Ok(Vec::new(alloc)),
        Err(FieldEnd::NoMemory) => Err(NoMemory),
    }
}
