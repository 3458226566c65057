ghost use Rattle.std.specs.Prelude.{◌≡◌, OnOk};
ghost use Rattle.server_kernel.specs.Waits.{flushes, flushes_call, puts_all, hears, settles, settles_for, serves_waiting, turned, turns};

use crate::asked::{Asked, CallOut};
use crate::server::Server;
use sprite_ids::{BlockNo, Bytes, FileId, Flushed, NoMemory, TxNo};
use std::alloc::Global;

impl Server {
    // A callback was answered with what the kernel had (Nelson, Welch and Ousterhout 1988).
    pub(crate) fn flushed(
        &mut self,
        alloc: Global,
        tx: TxNo,
        flushed: &Flushed,
    ) -> Result<(), NoMemory>
        ensures { OnOk result (self.new ≡ flushes tx flushed.now self.old) }
    {
        match self.callbacks.take(&tx) {
            Some(call) => self.flush_call(alloc, &call, flushed),
            None => Ok(()),
        }
    }

    fn flush_call(
        &mut self,
        alloc: Global,
        call: &CallOut,
        flushed: &Flushed,
    ) -> Result<(), NoMemory>
        ensures { OnOk result (self.new ≡ flushes_call call.now flushed.now self.old) }
    {
        self.put_all(&call.file, flushed.size, flushed.blocks.as_slice())?;
        self.hear(alloc, call)
    }

    // Stores the blocks, one after the other.
    fn put_all(
        &mut self,
        file: &FileId,
        size: u32,
        blocks: &[(BlockNo, Bytes)],
    ) -> Result<(), NoMemory>
        ensures { OnOk result (self.new ≡ puts_all file.now size blocks.now self.old) }
    {
        for block in blocks {
            self.put_block(file, block.0, size, block.1.as_slice())?;
        }
        Ok(())
    }

    // The kernel has answered. The file is busy: it has the callback out.
    fn hear(&mut self, alloc: Global, call: &CallOut) -> Result<(), NoMemory>
        ensures { OnOk result (self.new ≡ hears call.now self.old) }
    {
        if !self.versions.busy(call.file) {
            return Ok(());
        }
        self.versions.answered(call.file, call.kernel);
        self.settle(alloc, &call.file)
    }

    // Grants what the callbacks went out for, where all are answered, and then serves what waited.
    fn settle(&mut self, alloc: Global, file: &FileId) -> Result<(), NoMemory>
        ensures { OnOk result (self.new ≡ settles file.now self.old) }
    {
        if !self.versions.is_ready(*file) {
            return Ok(());
        }
        match self.asking.take(file) {
            Some(asked) => self.settle_for(alloc, &asked, file),
            None => Ok(()),
        }
    }

    // A file is busy exactly where an open or a move of it is kept, so `is_ready` holds here.
    fn settle_for(&mut self, alloc: Global, asked: &Asked, file: &FileId) -> Result<(), NoMemory>
        ensures { OnOk result (self.new ≡ settles_for asked.now file.now self.old) }
    {
        if !self.versions.is_ready(*file) {
            return Ok(());
        }
        let grant = self.versions.settle(*file);
        self.grant(alloc, asked, file, &grant)?;
        self.serve_waiting(alloc, file)
    }

    // Serves what waits for the file, in order of arrival, until it is busy again. Each turn takes one request out, so as
    // many turns as requests wait are enough.
    fn serve_waiting(&mut self, alloc: Global, file: &FileId) -> Result<(), NoMemory>
        ensures { OnOk result (self.new ≡ serves_waiting file.now self.old) }
    {
        let count = self.waiting.len();
        for _done in 0..count {
            self.turn(alloc, file)?;
        }
        Ok(())
    }

    // Serves the first request that waits for the file, unless it is busy.
    fn turn(&mut self, alloc: Global, file: &FileId) -> Result<(), NoMemory>
        ensures { OnOk result (self.new ≡ turned file.now self.old) }
    {
        if self.versions.busy(*file) {
            return Ok(());
        }
        match self.waiting.take(file) {
            Some(asked) => self.serve(alloc, &asked),
            None => Ok(()),
        }
    }
}
