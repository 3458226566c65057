ghost use Rattle.std.specs.Prelude.{◌≡◌, OnOk};
ghost use Rattle.server_kernel.specs.Requests.{moves, moves_file, moving_of, closes, closes_file, closes_stream, drops_stream, forgets_last, uses, uses_free, uses_current, fetches, writes_back, brings_back};

use crate::asked::Asked;
use crate::server::Server;
use packet_bodies::{
    CloseRequest, FetchRequest, MoveRequest, ReplyBody, Request, Target, WriteBackRequest,
};
use sprite_ids::{FileId, Kernel, Mode, NoMemory};
use std::alloc::Global;
use version_table::Action;

impl Server {
    // Moves a stream (Douglis and Ousterhout 1991). Nothing is kept of a pseudo-device's streams.
    pub(crate) fn move_stream(
        &mut self,
        alloc: Global,
        asked: &Asked,
        request: &MoveRequest,
    ) -> Result<(), NoMemory>
        ensures { OnOk result (self.new ≡ moves asked.now request.now self.old) }
    {
        match &request.object {
            Target::File(file) => self.move_file(alloc, asked, request, file),
            Target::Device(_) => {
                let moved = ReplyBody::Moved {
                    grant: None,
                    grants: 1,
                };
                self.answer(asked.tx, moved)
            }
        }
    }

    fn move_file(
        &mut self,
        alloc: Global,
        asked: &Asked,
        request: &MoveRequest,
        file: &FileId,
    ) -> Result<(), NoMemory>
        ensures { OnOk result (self.new ≡ moves_file asked.now request.now file.now self.old) }
    {
        let action = moving_of(asked.from, request);
        self.decide(alloc, asked, file, &action)
    }

    // Closes a kernel's last reference to a stream.
    pub(crate) fn close(
        &mut self,
        alloc: Global,
        asked: &Asked,
        request: &CloseRequest,
    ) -> Result<(), NoMemory>
        ensures { OnOk result (self.new ≡ closes asked.now request.now self.old) }
    {
        match &request.object {
            Target::File(file) => self.close_file(alloc, asked, request, file),
            Target::Device(_) => self.answer(asked.tx, ReplyBody::Done),
        }
    }

    fn close_file(
        &mut self,
        alloc: Global,
        asked: &Asked,
        request: &CloseRequest,
        file: &FileId,
    ) -> Result<(), NoMemory>
        ensures { OnOk result (self.new ≡ closes_file asked.now request.now file.now self.old) }
    {
        if self.versions.busy(*file) {
            return self.wait(alloc, asked, file);
        }
        self.close_stream(asked, request, file)?;
        self.answer(asked.tx, ReplyBody::Done)
    }

    // Takes the stream's grants off the kernel. Some kernel has it open: the one that closes it.
    fn close_stream(
        &mut self,
        asked: &Asked,
        request: &CloseRequest,
        file: &FileId,
    ) -> Result<(), NoMemory>
        ensures { OnOk result (self.new ≡ closes_stream asked.now request.now file.now self.old) }
    {
        match self.versions.mode(*file, request.stream) {
            Some(mode) => self.drop_stream(asked, request, file, mode),
            None => Ok(()),
        }
    }

    fn drop_stream(
        &mut self,
        asked: &Asked,
        request: &CloseRequest,
        file: &FileId,
        mode: Mode,
    ) -> Result<(), NoMemory>
        ensures { OnOk result (self.new ≡ drops_stream asked.now request.now file.now mode self.old) }
    {
        let last = self.take_off(file, asked.from, &request.stream, request.grants);
        self.note_closed(file, &request.stream, asked.from, mode)?;
        self.shadows
            .close(request.stream, asked.from, request.grants);
        self.forget_last(last, file);
        Ok(())
    }

    // Forgets a file without a name at its last close.
    fn forget_last(&mut self, last: bool, file: &FileId)
        ensures { self.new ≡ forgets_last last file.now self.old }
    {
        if last && self.is_unlinked(file) {
            self.forget(file);
        }
    }

    // Serves a request for a file's bytes, where its stamp is the kernel's current one (this project's stamps). On a busy
    // file it waits: its answer must not carry the stamp of a callback that is out.
    pub(crate) fn use_file(
        &mut self,
        alloc: Global,
        asked: &Asked,
        file: &FileId,
        stamp: u32,
    ) -> Result<(), NoMemory>
        ensures { OnOk result (self.new ≡ uses asked.now file.now stamp self.old) }
    {
        if self.versions.busy(*file) {
            return self.wait(alloc, asked, file);
        }
        self.use_free(alloc, asked, file, stamp)
    }

    fn use_free(
        &mut self,
        alloc: Global,
        asked: &Asked,
        file: &FileId,
        stamp: u32,
    ) -> Result<(), NoMemory>
        ensures { OnOk result (self.new ≡ uses_free asked.now file.now stamp self.old) }
    {
        let current = self.versions.current(*file, asked.from);
        if current.stamp == stamp {
            return self.use_current(alloc, asked, file);
        }
        let grant = self.sized(file, &current);
        self.answer(asked.tx, ReplyBody::Again { grant })
    }

    fn use_current(&mut self, alloc: Global, asked: &Asked, file: &FileId) -> Result<(), NoMemory>
        ensures { OnOk result (self.new ≡ uses_current asked.now file.now self.old) }
    {
        match &asked.body {
            Request::Fetch(request) => self.fetch(alloc, asked, request, file),
            Request::WriteBack(request) => self.write_back(asked, request, file),
            Request::Op(request) => self.op(alloc, asked.tx, request, file),
            _ => Ok(()),
        }
    }

    // Gives a block.
    fn fetch(
        &mut self,
        alloc: Global,
        asked: &Asked,
        request: &FetchRequest,
        file: &FileId,
    ) -> Result<(), NoMemory>
        ensures { OnOk result (self.new ≡ fetches asked.now request.now file.now self.old) }
    {
        let bytes = self.bytes_of(alloc, file, 4096 * u32::from(request.block.0), 4096)?;
        let block = ReplyBody::Block {
            stamp: request.stamp,
            bytes,
        };
        self.answer(asked.tx, block)
    }

    // Takes a block that a client wrote in its cache.
    fn write_back(
        &mut self,
        asked: &Asked,
        request: &WriteBackRequest,
        file: &FileId,
    ) -> Result<(), NoMemory>
        ensures { OnOk result (self.new ≡ writes_back asked.now request.now file.now self.old) }
    {
        self.put_block(file, request.block, request.size, request.bytes.as_slice())?;
        self.answer(asked.tx, ReplyBody::Done)
    }

    // The block of a file that is forgotten is wanted no more.
    pub(crate) fn bring_back(
        &mut self,
        alloc: Global,
        asked: &Asked,
        request: &WriteBackRequest,
    ) -> Result<(), NoMemory>
        ensures { OnOk result (self.new ≡ brings_back asked.now request.now self.old) }
    {
        if self.store.has(request.file) {
            return self.use_file(alloc, asked, &request.file, request.stamp);
        }
        self.answer(asked.tx, ReplyBody::Done)
    }
}

// What the move asks of the table of opens.
fn moving_of(from: Kernel, request: &MoveRequest) -> Action
    ensures { result ≡ moving_of from request.now }
{
    Action::Moving {
        stream: request.stream,
        from,
        to: request.to,
        kept: request.kept,
        grants: request.grants,
    }
}
