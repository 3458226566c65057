ghost use Rattle.std.specs.Prelude.{◌≡◌, IfOk, OnOk};
ghost use Rattle.server_kernel.specs.Ops.{op_caller, write_call, moves_offset, refuses_write, read_gives, reads, writes_within, writes, appends_within, appends, sizes, seeks, operates};

use crate::asked::Caller;
use crate::saying::value;
use crate::server::Server;
use packet_bodies::{FileOp, OpRequest, ReplyBody, ValueReply};
use process_machine::{Call, Reply};
use sprite_ids::{Bytes, Copying, Errno, FileId, NoMemory, StreamNo, TxNo};
use std::alloc::Global;

impl Server {
    // Does an operation on a file that its client doesn't do in its cache (Nelson, Welch and Ousterhout 1988).
    pub(crate) fn op(
        &mut self,
        alloc: Global,
        tx: TxNo,
        request: &OpRequest,
        file: &FileId,
    ) -> Result<(), NoMemory>
        ensures { OnOk result (self.new ≡ operates tx request.now file.now self.old) }
    {
        match request.op {
            FileOp::Read => self.read(alloc, tx, request, file),
            FileOp::Write => self.write_there(alloc, tx, request, file),
            FileOp::Append => self.append(alloc, tx, request, file),
            FileOp::Size => self.tell_size(alloc, tx, request, file),
            FileOp::Seek => self.seek(alloc, tx, request),
        }
    }

    // Reads from the request's offset on, or from the shared stream's.
    fn read(
        &mut self,
        alloc: Global,
        tx: TxNo,
        request: &OpRequest,
        file: &FileId,
    ) -> Result<(), NoMemory>
        ensures { OnOk result (self.new ≡ reads tx request.now file.now self.old) }
    {
        let start = self.start_of(&request.stream, request.offset);
        let bytes = self.bytes_of(alloc, file, start, request.length)?;
        self.read_gives(alloc, tx, request, start, bytes)
    }

    fn read_gives(
        &mut self,
        alloc: Global,
        tx: TxNo,
        request: &OpRequest,
        start: u32,
        bytes: Bytes,
    ) -> Result<(), NoMemory>
        ensures { OnOk result (self.new ≡ read_gives tx request.now start bytes self.old) }
    {
        let length = bytes.as_slice().len() as u64;
        self.move_offset(&request.stream, u64::from(start) + length)?;
        let call = Call::Read {
            fd: u64::from(request.fd.number()),
            length: u64::from(request.length),
        };
        let value = ValueReply {
            first: length,
            second: 0,
            bytes,
        };
        self.give(alloc, &op_caller(tx, request), call, value)
    }

    // Writes at the request's offset, or at the shared stream's.
    fn write_there(
        &mut self,
        alloc: Global,
        tx: TxNo,
        request: &OpRequest,
        file: &FileId,
    ) -> Result<(), NoMemory>
        ensures { OnOk result (self.new ≡ writes tx request.now file.now self.old) }
    {
        let start = self.start_of(&request.stream, request.offset);
        let end = u64::from(start) + request.bytes.as_slice().len() as u64;
        if end > u64::from(self.store.limit()) {
            return self.refuse_write(alloc, tx, request);
        }
        self.write_within(alloc, tx, request, file, start)
    }

    fn write_within(
        &mut self,
        alloc: Global,
        tx: TxNo,
        request: &OpRequest,
        file: &FileId,
        start: u32,
    ) -> Result<(), NoMemory>
        ensures { OnOk result (self.new ≡ writes_within tx request.now file.now start self.old) }
    {
        let length = request.bytes.as_slice().len() as u64;
        self.write(file, start, request.bytes.as_slice())?;
        self.move_offset(&request.stream, u64::from(start) + length)?;
        let call = write_call(alloc, request)?;
        self.give(
            alloc,
            &op_caller(tx, request),
            call,
            value(alloc, length, 0),
        )
    }

    // Writes at the file's end.
    fn append(
        &mut self,
        alloc: Global,
        tx: TxNo,
        request: &OpRequest,
        file: &FileId,
    ) -> Result<(), NoMemory>
        ensures { OnOk result (self.new ≡ appends tx request.now file.now self.old) }
    {
        let start = self.size_of(file);
        let end = u64::from(start) + request.bytes.as_slice().len() as u64;
        if end > u64::from(self.store.limit()) {
            return self.refuse_write(alloc, tx, request);
        }
        self.append_within(alloc, tx, request, file, start)
    }

    // The client is told where the stream's offset goes; the process isn't.
    fn append_within(
        &mut self,
        alloc: Global,
        tx: TxNo,
        request: &OpRequest,
        file: &FileId,
        start: u32,
    ) -> Result<(), NoMemory>
        ensures { OnOk result (self.new ≡ appends_within tx request.now file.now start self.old) }
    {
        let length = request.bytes.as_slice().len() as u64;
        let end = u64::from(start) + length;
        self.write(file, start, request.bytes.as_slice())?;
        self.move_offset(&request.stream, end)?;
        let call = write_call(alloc, request)?;
        let reply = Reply::Value {
            first: length,
            second: 0,
            bytes: Bytes::new(alloc),
        };
        self.enter(&op_caller(tx, request), call, reply)?;
        self.answer(tx, ReplyBody::Value(value(alloc, length, end)))
    }

    // Tells the file's size.
    fn tell_size(
        &mut self,
        alloc: Global,
        tx: TxNo,
        request: &OpRequest,
        file: &FileId,
    ) -> Result<(), NoMemory>
        ensures { OnOk result (self.new ≡ sizes tx request.now file.now self.old) }
    {
        let size = u64::from(self.size_of(file));
        let call = Call::Size {
            fd: u64::from(request.fd.number()),
        };
        self.give(alloc, &op_caller(tx, request), call, value(alloc, size, 0))
    }

    // Moves the shared stream's offset.
    fn seek(&mut self, alloc: Global, tx: TxNo, request: &OpRequest) -> Result<(), NoMemory>
        ensures { OnOk result (self.new ≡ seeks tx request.now self.old) }
    {
        let offset = u64::from(self.start_of(&request.stream, request.offset));
        self.move_offset(&request.stream, offset)?;
        let call = Call::Seek {
            fd: u64::from(request.fd.number()),
            offset,
        };
        self.give(
            alloc,
            &op_caller(tx, request),
            call,
            value(alloc, offset, 0),
        )
    }

    // Moves the stream's offset, where it is shared. Where the offset is past 32 bits, the answer is want of memory.
    fn move_offset(&mut self, stream: &StreamNo, offset: u64) -> Result<(), NoMemory>
        ensures { OnOk result (self.new ≡ moves_offset stream.now offset self.old) }
    {
        if offset > u64::from(u32::MAX) {
            return Err(NoMemory);
        }
        self.shadows.set_offset(*stream, offset as u32);
        Ok(())
    }

    // The write would pass the limit of a file's size.
    fn refuse_write(&mut self, alloc: Global, tx: TxNo, request: &OpRequest) -> Result<(), NoMemory>
        ensures { OnOk result (self.new ≡ refuses_write tx request.now self.old) }
    {
        let call = write_call(alloc, request)?;
        self.refuse(&op_caller(tx, request), call, Errno::TooBig)
    }
}

// The call that a write's or an append's request carries.
fn write_call(alloc: Global, request: &OpRequest) -> Result<Call, NoMemory>
    ensures { IfOk result (λ call. call ≡ write_call request.now) }
{
    let fd = u64::from(request.fd.number());
    let bytes = request.bytes.copy(alloc)?;
    Ok(Call::Write { fd, bytes })
}

// The process that the request goes for.
fn op_caller(tx: TxNo, request: &OpRequest) -> Caller
    ensures { result ≡ op_caller tx request.now }
{
    Caller {
        tx,
        pid: request.pid,
        number: request.number,
    }
}
