ghost use Rattle.std.specs.Prelude.{◌≡◌, IfOk, OnOk, option_map};
ghost use Rattle.stream_table.specs.Entries.{is_start, is_place_of, may_be_at, stream_of};
ghost use Rattle.client_file_tables.specs.Streams.{moves_place, moves_offset, adds_stream, added_fd, sets_cwd, cwd_of};

use crate::client_files::ClientFiles;
use sprite_ids::{NoMemory, Object, Pid, StreamNo};
use sprite_paths::Path;
use stream_table::{Place, Stream, StreamEnd};

impl ClientFiles {
    /// Keeps the stream's offset there from now on, where the stream is open here and is one of a file; the offset of a
    /// pseudo-device's stream stays 0.
    pub fn move_place(&mut self, stream: &StreamNo, place: &Place)
        ensures { self.new ≡ moves_place stream.now place.now self.old }
    {
        if self.may_be_at(stream, place) {
            self.streams.set_place(*stream, *place);
        }
    }

    // Whether the stream may have its offset there.
    fn may_be_at(&self, stream: &StreamNo, place: &Place) -> bool
        ensures { result ≡ may_be_at place.now (stream_of self.now.streams.entries stream.now) }
    {
        match self.streams.stream(*stream) {
            Some(known) => is_place_of(&known.object, place),
            None => true,
        }
    }

    /// The stream's offset, which is kept here, is that one from now on. Where it is past 32 bits, the answer is want of
    /// memory, the one error.
    pub fn move_offset(&mut self, stream: &StreamNo, offset: u64) -> Result<(), NoMemory>
        ensures { OnOk result (self.new ≡ moves_offset stream.now offset self.old) }
    {
        if offset > u64::from(u32::MAX) {
            return Err(NoMemory);
        }
        self.move_place(stream, &Place::Local(offset as u32));
        Ok(())
    }

    /// Gives the process the lowest free descriptor of the stream; None where all 16 are in use, or where a pseudo-device's
    /// stream had an offset. The one error is want of memory.
    pub fn add_stream(
        &mut self,
        pid: Pid,
        number: &StreamNo,
        stream: &Stream,
    ) -> Result<Option<u8>, NoMemory>
        ensures fd { IfOk result (λ fd. fd ≡ added_fd pid stream.now self.old) }
        ensures files { OnOk result (self.new ≡ adds_stream pid number.now stream.now self.old) }
    {
        if !is_place_of(&stream.object, &stream.place) {
            return Ok(None);
        }
        match self.streams.add(pid, *number, *stream) {
            Ok(fd) => Ok(Some(fd)),
            Err(StreamEnd::TooMany) => Ok(None),
            Err(StreamEnd::BadFd) => Ok(None),
            Err(StreamEnd::NoMemory) => Err(NoMemory),
        }
    }

    /// The working directory of the process; None where it isn't here.
    pub fn cwd(&self, pid: Pid) -> Option<&Path>
        ensures { option_map (λ cwd. cwd.now) result ≡ cwd_of pid self.now }
    {
        self.cwds.first(&pid)
    }

    /// Makes that path the working directory of the process. The one error is want of memory.
    pub fn set_cwd(&mut self, pid: Pid, path: Path) -> Result<(), NoMemory>
        ensures { OnOk result (self.new ≡ sets_cwd pid path self.old) }
    {
        if self.cwds.has(&pid) {
            self.cwds.set(&pid, path);
            return Ok(());
        }
        self.cwds.push(pid, path)
    }
}

// Whether a stream of that object may have its offset there.
fn is_place_of(object: &Object, place: &Place) -> bool
    ensures { result ≡ is_place_of object.now place.now }
{
    match object {
        Object::File(_) => true,
        Object::Device(_) => is_start(place),
        Object::Master(_) => is_start(place),
    }
}

// Whether it is the offset 0, kept here.
fn is_start(place: &Place) -> bool
    ensures { result ≡ is_start place.now }
{
    match place {
        Place::Local(offset) => *offset == 0,
        Place::Shared => false,
    }
}
