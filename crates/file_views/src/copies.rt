use crate::body::{Access, FileBody};
use crate::call::{Carry, FileCall};
use crate::client::{Client, Held};
use crate::grant::FileGrant;
use crate::opens::Open;
use crate::step::FileStep;
use crate::view::View;
use sprite_ids::{Copying, NoMemory};
use std::alloc::Global;

impl Copying for FileGrant {
    fn copy(&self, _alloc: Global) -> Result<FileGrant, NoMemory> {
        Ok(*self)
    }
}

impl Copying for Open {
    fn copy(&self, _alloc: Global) -> Result<Open, NoMemory> {
        Ok(*self)
    }
}

impl Copying for Carry {
    fn copy(&self, _alloc: Global) -> Result<Carry, NoMemory> {
        Ok(*self)
    }
}

impl Copying for Access {
    fn copy(&self, alloc: Global) -> Result<Access, NoMemory> {
        match self {
            Access::Read { from, length } => Ok(Access::Read {
                from: *from,
                length: *length,
            }),
            Access::Write { from, bytes } => Ok(Access::Write {
                from: *from,
                bytes: bytes.copy(alloc)?,
            }),
            Access::Append { bytes } => Ok(Access::Append {
                bytes: bytes.copy(alloc)?,
            }),
        }
    }
}

impl Copying for FileBody {
    fn copy(&self, alloc: Global) -> Result<FileBody, NoMemory> {
        match self {
            FileBody::Opening {
                pid,
                number,
                stream,
                mode,
                truncate,
            } => Ok(FileBody::Opening {
                pid: *pid,
                number: *number,
                stream: *stream,
                mode: *mode,
                truncate: *truncate,
            }),
            FileBody::Close { stream, grants } => Ok(FileBody::Close {
                stream: *stream,
                grants: *grants,
            }),
            FileBody::Op {
                pid,
                number,
                stamp,
                stream,
                access,
            } => Ok(FileBody::Op {
                pid: *pid,
                number: *number,
                stamp: *stamp,
                stream: *stream,
                access: access.copy(alloc)?,
            }),
            FileBody::Fetch { stamp, block } => Ok(FileBody::Fetch {
                stamp: *stamp,
                block: *block,
            }),
            FileBody::WriteBack {
                stamp,
                block,
                size,
                bytes,
            } => Ok(FileBody::WriteBack {
                stamp: *stamp,
                block: *block,
                size: *size,
                bytes: bytes.copy(alloc)?,
            }),
            FileBody::Callback { stamp, kind } => Ok(FileBody::Callback {
                stamp: *stamp,
                kind: *kind,
            }),
            FileBody::Move {
                stream,
                to,
                kept,
                grants,
            } => Ok(FileBody::Move {
                stream: *stream,
                to: *to,
                kept: *kept,
                grants: *grants,
            }),
            FileBody::Done => Ok(FileBody::Done),
            FileBody::Refused { errno } => Ok(FileBody::Refused { errno: *errno }),
            FileBody::Opened { grant } => Ok(FileBody::Opened { grant: *grant }),
            FileBody::Value {
                first,
                second,
                bytes,
            } => Ok(FileBody::Value {
                first: *first,
                second: *second,
                bytes: bytes.copy(alloc)?,
            }),
            FileBody::Again { grant } => Ok(FileBody::Again { grant: *grant }),
            FileBody::Block { stamp, bytes } => Ok(FileBody::Block {
                stamp: *stamp,
                bytes: bytes.copy(alloc)?,
            }),
            FileBody::Flushed { size, blocks } => Ok(FileBody::Flushed {
                size: *size,
                blocks: blocks.copy(alloc)?,
            }),
            FileBody::Moved { grant, grants } => Ok(FileBody::Moved {
                grant: *grant,
                grants: *grants,
            }),
        }
    }
}

impl Copying for FileCall {
    fn copy(&self, alloc: Global) -> Result<FileCall, NoMemory> {
        Ok(FileCall {
            number: self.number,
            from: self.from,
            to: self.to,
            body: self.body.copy(alloc)?,
            dirty: self.dirty,
            taken: self.taken,
            reply: self.reply.copy(alloc)?,
        })
    }
}

impl Copying for Held {
    fn copy(&self, alloc: Global) -> Result<Held, NoMemory> {
        Ok(Held {
            block: self.block,
            bytes: self.bytes.copy(alloc)?,
            dirty: self.dirty,
        })
    }
}

impl Copying for FileStep {
    fn copy(&self, alloc: Global) -> Result<FileStep, NoMemory> {
        match self {
            FileStep::Opening {
                pid,
                number,
                kernel,
                stream,
                mode,
                truncate,
            } => Ok(FileStep::Opening {
                pid: *pid,
                number: *number,
                kernel: *kernel,
                stream: *stream,
                mode: *mode,
                truncate: *truncate,
            }),
            FileStep::Closing { kernel, stream } => Ok(FileStep::Closing {
                kernel: *kernel,
                stream: *stream,
            }),
            FileStep::Moving {
                stream,
                from,
                to,
                kept,
            } => Ok(FileStep::Moving {
                stream: *stream,
                from: *from,
                to: *to,
                kept: *kept,
            }),
            FileStep::Reading {
                pid,
                number,
                kernel,
                stream,
                from,
                length,
            } => Ok(FileStep::Reading {
                pid: *pid,
                number: *number,
                kernel: *kernel,
                stream: *stream,
                from: *from,
                length: *length,
            }),
            FileStep::Writing {
                pid,
                number,
                kernel,
                stream,
                from,
                bytes,
            } => Ok(FileStep::Writing {
                pid: *pid,
                number: *number,
                kernel: *kernel,
                stream: *stream,
                from: *from,
                bytes: bytes.copy(alloc)?,
            }),
            FileStep::Append {
                pid,
                number,
                kernel,
                stream,
                bytes,
            } => Ok(FileStep::Append {
                pid: *pid,
                number: *number,
                kernel: *kernel,
                stream: *stream,
                bytes: bytes.copy(alloc)?,
            }),
            FileStep::WritingBack { kernel, block } => Ok(FileStep::WritingBack {
                kernel: *kernel,
                block: *block,
            }),
            FileStep::Delivering { call } => Ok(FileStep::Delivering { call: *call }),
            FileStep::Expiring { call } => Ok(FileStep::Expiring { call: *call }),
        }
    }
}

impl Copying for Client {
    fn copy(&self, alloc: Global) -> Result<Client, NoMemory> {
        Ok(Client {
            stamp: self.stamp,
            version: self.version,
            size: self.size,
            mode: self.mode,
            blocks: self.blocks.copy(alloc)?,
            streams: self.streams.copy(alloc)?,
            waiting: self.waiting.copy(alloc)?,
            count: self.count,
        })
    }
}

impl Copying for View {
    fn copy(&self, alloc: Global) -> Result<View, NoMemory> {
        Ok(View {
            bytes: self.bytes.copy(alloc)?,
            version: self.version,
            holder: self.holder,
            uncached: self.uncached,
            opens: self.opens.copy(alloc)?,
            shared: self.shared.copy(alloc)?,
            stamps: self.stamps.copy(alloc)?,
            modes: self.modes.copy(alloc)?,
            given: self.given.copy(alloc)?,
            next: self.next,
            clients: self.clients.copy(alloc)?,
            calls: self.calls.copy(alloc)?,
            carried: self.carried.copy(alloc)?,
        })
    }
}
