ghost use Rattle.wire_format.specs.Names.{descriptor, device, errno, file, kernel, pid, stream, truth};
ghost use Rattle.wire_format.specs.NameLaws.{descriptor_is, device_is, errno_is, file_is, kernel_is, pid_is, stream_is, truth_is};
ghost use Rattle.wire_format.specs.Objects.{block, transaction};
ghost use Rattle.wire_format.specs.ObjectLaws.{block_is, transaction_is};

use crate::field::Field;
use field_reader::{FieldEnd, Reader, pid_of};
use packet_bodies::Descriptor;
use sprite_ids::{BlockNo, DeviceId, Errno, FileId, Kernel, NoMemory, Pid, StreamNo, TxNo};
use std::alloc::Global;

impl Field for bool {
    ghost codec = { truth };

    ghost law = { truth_is };

    fn put(&self, out: &mut Vec<u8>) -> Result<(), NoMemory> {
        let number = if *self { 1 } else { 0 };
        out.push(number)?;
        Ok(())
    }

    fn read_from(alloc: Global, from: &mut Reader) -> Result<bool, FieldEnd> {
        match u8::read_from(alloc, from)? {
            0 => Ok(false),
            1 => Ok(true),
            _ => Err(FieldEnd::NotSpelled),
        }
    }
}

impl Field for Kernel {
    ghost codec = { kernel };

    ghost law = { kernel_is };

    fn put(&self, out: &mut Vec<u8>) -> Result<(), NoMemory> {
        self.number().put(out)
    }

    fn read_from(alloc: Global, from: &mut Reader) -> Result<Kernel, FieldEnd> {
        let number = u8::read_from(alloc, from)?;
        Kernel::new(number).ok_or(FieldEnd::NotSpelled)
    }
}

impl Field for Pid {
    ghost codec = { pid };

    ghost law = { pid_is };

    fn put(&self, out: &mut Vec<u8>) -> Result<(), NoMemory> {
        self.number().put(out)
    }

    fn read_from(alloc: Global, from: &mut Reader) -> Result<Pid, FieldEnd> {
        let number = u32::read_from(alloc, from)?;
        pid_of(number).ok_or(FieldEnd::NotSpelled)
    }
}

impl Field for Descriptor {
    ghost codec = { descriptor };

    ghost law = { descriptor_is };

    fn put(&self, out: &mut Vec<u8>) -> Result<(), NoMemory> {
        self.number().put(out)
    }

    fn read_from(alloc: Global, from: &mut Reader) -> Result<Descriptor, FieldEnd> {
        let number = u8::read_from(alloc, from)?;
        Descriptor::new(number).ok_or(FieldEnd::NotSpelled)
    }
}

impl Field for FileId {
    ghost codec = { file };

    ghost law = { file_is };

    fn put(&self, out: &mut Vec<u8>) -> Result<(), NoMemory> {
        self.server.put(out)?;
        self.number.put(out)
    }

    fn read_from(alloc: Global, from: &mut Reader) -> Result<FileId, FieldEnd> {
        Ok(FileId {
            server: Kernel::read_from(alloc, from)?,
            number: u32::read_from(alloc, from)?,
        })
    }
}

impl Field for DeviceId {
    ghost codec = { device };

    ghost law = { device_is };

    fn put(&self, out: &mut Vec<u8>) -> Result<(), NoMemory> {
        self.kernel.put(out)?;
        self.number.put(out)
    }

    fn read_from(alloc: Global, from: &mut Reader) -> Result<DeviceId, FieldEnd> {
        Ok(DeviceId {
            kernel: Kernel::read_from(alloc, from)?,
            number: u32::read_from(alloc, from)?,
        })
    }
}

impl Field for StreamNo {
    ghost codec = { stream };

    ghost law = { stream_is };

    fn put(&self, out: &mut Vec<u8>) -> Result<(), NoMemory> {
        self.kernel.put(out)?;
        self.number.put(out)
    }

    fn read_from(alloc: Global, from: &mut Reader) -> Result<StreamNo, FieldEnd> {
        Ok(StreamNo {
            kernel: Kernel::read_from(alloc, from)?,
            number: u32::read_from(alloc, from)?,
        })
    }
}

impl Field for Errno {
    ghost codec = { errno };

    ghost law = { errno_is };

    fn put(&self, out: &mut Vec<u8>) -> Result<(), NoMemory> {
        self.number().put(out)
    }

    fn read_from(alloc: Global, from: &mut Reader) -> Result<Errno, FieldEnd> {
        let number = u8::read_from(alloc, from)?;
        Errno::new(number).ok_or(FieldEnd::NotSpelled)
    }
}

impl Field for BlockNo {
    ghost codec = { block };

    ghost law = { block_is };

    fn put(&self, out: &mut Vec<u8>) -> Result<(), NoMemory> {
        self.0.put(out)
    }

    fn read_from(alloc: Global, from: &mut Reader) -> Result<BlockNo, FieldEnd> {
        Ok(BlockNo(u16::read_from(alloc, from)?))
    }
}

impl Field for TxNo {
    ghost codec = { transaction };

    ghost law = { transaction_is };

    fn put(&self, out: &mut Vec<u8>) -> Result<(), NoMemory> {
        self.0.put(out)
    }

    fn read_from(alloc: Global, from: &mut Reader) -> Result<TxNo, FieldEnd> {
        Ok(TxNo(u32::read_from(alloc, from)?))
    }
}
