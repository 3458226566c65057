ghost use Rattle.history_text.specs.Numbers.{number32, pid};
ghost use Rattle.trace_text.specs.Fields.{block, kernel, transaction};

use crate::field::TraceField;
use field_reader::{FieldEnd, Reader};
use history_text::Field;
use sprite_ids::{BlockNo, Kernel, NoMemory, Pid, TxNo};
use std::alloc::Global;

impl TraceField for u32 {
    ghost format = { number32 };

    fn put_field(&self, alloc: Global, out: &mut Vec<u8>) -> Result<(), NoMemory> {
        self.put(alloc, out)
    }

    fn read_field(alloc: Global, from: &mut Reader) -> Result<u32, FieldEnd> {
        u32::read_from(alloc, from)
    }
}

impl TraceField for Pid {
    ghost format = { pid };

    fn put_field(&self, alloc: Global, out: &mut Vec<u8>) -> Result<(), NoMemory> {
        self.put(alloc, out)
    }

    fn read_field(alloc: Global, from: &mut Reader) -> Result<Pid, FieldEnd> {
        Pid::read_from(alloc, from)
    }
}

impl TraceField for Kernel {
    ghost format = { kernel };

    fn put_field(&self, alloc: Global, out: &mut Vec<u8>) -> Result<(), NoMemory> {
        self.number().put(alloc, out)
    }

    fn read_field(alloc: Global, from: &mut Reader) -> Result<Kernel, FieldEnd> {
        let number = u8::read_from(alloc, from)?;
        Kernel::new(number).ok_or(FieldEnd::NotSpelled)
    }
}

impl TraceField for BlockNo {
    ghost format = { block };

    fn put_field(&self, alloc: Global, out: &mut Vec<u8>) -> Result<(), NoMemory> {
        u64::from(self.0).put(alloc, out)
    }

    fn read_field(alloc: Global, from: &mut Reader) -> Result<BlockNo, FieldEnd> {
        let number = u64::read_from(alloc, from)?;
        let number = u16::try_from(number).ok().ok_or(FieldEnd::NotSpelled)?;
        Ok(BlockNo(number))
    }
}

impl TraceField for TxNo {
    ghost format = { transaction };

    fn put_field(&self, alloc: Global, out: &mut Vec<u8>) -> Result<(), NoMemory> {
        self.0.put(alloc, out)
    }

    fn read_field(alloc: Global, from: &mut Reader) -> Result<TxNo, FieldEnd> {
        Ok(TxNo(u32::read_from(alloc, from)?))
    }
}
