ghost use Rattle.std.specs.Prelude.{◌≡◌, ◌+◌, ◌≤◌, OnOk};
ghost use Rattle.client_file_tables.specs.WriteBacks.{is_out, out_in, current_write_back, lists, lists_free, dirties, dirties_from, dirties_all};

use crate::client_files::ClientFiles;
use crate::extent::Extent;
use crate::works::WriteBackOut;
use sprite_ids::{BlockNo, FileId, NoMemory, TxNo};
use unix_calls::Event;

impl ClientFiles {
    /// The write-back of the block that has no answer yet and went under the file's present stamp; there is at most one.
    pub fn current_write_back(&self, file: &FileId, block: BlockNo) -> Option<TxNo>
        ensures { result ≡ current_write_back file.now block self.now }
    {
        let stamp = self.known(file).stamp;
        out_in(self.write_backs.rows(), file, block, stamp)
    }

    /// Lists the block as one that was made dirty in this step. The one error is want of memory.
    pub fn list(&mut self, file: &FileId, block: BlockNo) -> Result<(), NoMemory>
        ensures { OnOk result (self.new ≡ lists file.now block self.old) }
    {
        self.delay.dirtied(*file, block, self.step)
    }

    /// Lists the block as one that was made dirty in this step, unless it has a current write-back (this project). The one
    /// error is want of memory.
    pub fn list_free(&mut self, file: &FileId, block: BlockNo) -> Result<(), NoMemory>
        ensures { OnOk result (self.new ≡ lists_free file.now block self.old) }
    {
        match self.current_write_back(file, block) {
            Some(_) => Ok(()),
            None => self.list(file, block),
        }
    }

    /// Notes that the blocks of the range were written, in ascending order. Each is listed as one that was made dirty in this
    /// step, unless it has a current write-back (Nelson, Welch and Ousterhout 1988; the order is this project's). The one
    /// error is want of memory.
    pub fn mark_dirty(&mut self, file: &FileId, extent: &Extent) -> Result<(), NoMemory>
        ensures { OnOk result (self.new ≡ dirties_all file.now extent.now self.old) }
    {
        if !extent.is_within() {
            return Ok(());
        }
        let span = extent.span();
        self.mark_from(file, span.first, span.count)
    }

    // Marks so many blocks from that one on.
    fn mark_from(&mut self, file: &FileId, first: u16, count: u16) -> Result<(), NoMemory>
        requires { first + count ≤ 1024 }
        ensures { OnOk result (self.new ≡ dirties_from file.now first count self.old) }
    {
        for place in 0..count {
            self.mark_one(file, BlockNo(first + place))?;
        }
        Ok(())
    }

    fn mark_one(&mut self, file: &FileId, block: BlockNo) -> Result<(), NoMemory>
        ensures { OnOk result (self.new ≡ dirties file.now block self.old) }
    {
        self.note(Event::Dirtied { file: *file, block })?;
        self.list_free(file, block)
    }
}

// The first of these write-backs that is of that block and went under that stamp.
fn out_in(rows: &[(TxNo, WriteBackOut)], file: &FileId, block: BlockNo, stamp: u32) -> Option<TxNo>
    ensures { result ≡ out_in file.now block stamp rows.now }
{
    match rows.iter().find(|row| is_out(&row.1, file, block, stamp)) {
        Some(row) => Some(row.0),
        None => None,
    }
}

// Whether the write-back is of that block and went under that stamp.
fn is_out(sent: &WriteBackOut, file: &FileId, block: BlockNo, stamp: u32) -> bool
    ensures { result ≡ is_out file.now block stamp sent.now }
{
    sent.file == *file && sent.block == block && sent.stamp == stamp
}
