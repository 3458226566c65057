ghost use Rattle.std.specs.Prelude.{◌≡◌};
ghost use Rattle.unix_calls.specs.Opening.{reads, writes};
ghost use Rattle.client_files.specs.Reaches.{reach, reach_at, reach_object};

use client_file_tables::ClientFiles;
use client_streams::{Named, descriptor_of};
use packet_bodies::Descriptor;
use sprite_ids::{FileId, Mode, Object, Pid, StreamNo};
use stream_table::Stream;

/// A descriptor of a process that leads to a file.
#[derive(Clone, Copy, Debug, PartialEq, Eq)]
pub(crate) struct OpenFile {
    /// The descriptor.
    pub fd: Descriptor,
    /// The stream.
    pub stream: StreamNo,
    /// What the stream was opened for.
    pub mode: Mode,
    /// The file.
    pub file: FileId,
}

/// What a descriptor that a call names leads to.
#[derive(Clone, Copy, Debug, PartialEq, Eq)]
pub(crate) enum Reached {
    /// It isn't in use.
    Nothing,
    /// A pseudo-device.
    Device,
    /// A file.
    File(OpenFile),
}

// What the process's descriptor leads to.
pub(crate) fn reach(files: &ClientFiles, pid: Pid, fd: u64) -> Reached
    ensures { result ≡ reach pid fd files.now }
{
    match descriptor_of(files, pid, fd) {
        Some(named) => reach_at(files, &named),
        None => Reached::Nothing,
    }
}

fn reach_at(files: &ClientFiles, named: &Named) -> Reached
    ensures { result ≡ reach_at named.now files.now }
{
    match files.streams.stream(named.stream) {
        Some(stream) => reach_object(named, &stream),
        None => Reached::Nothing,
    }
}

fn reach_object(named: &Named, stream: &Stream) -> Reached
    ensures { result ≡ reach_object named.now stream.now }
{
    match &stream.object {
        Object::File(file) => Reached::File(OpenFile {
            fd: named.fd,
            stream: named.stream,
            mode: stream.mode,
            file: *file,
        }),
        Object::Device(_) => Reached::Device,
        Object::Master(_) => Reached::Device,
    }
}

// Whether a stream of the mode may be read.
pub(crate) fn reads(mode: Mode) -> bool
    ensures { result ≡ reads mode }
{
    match mode {
        Mode::Read => true,
        Mode::Write => false,
        Mode::Both => true,
    }
}

// Whether it may be written.
pub(crate) fn writes(mode: Mode) -> bool
    ensures { result ≡ writes mode }
{
    match mode {
        Mode::Read => false,
        Mode::Write => true,
        Mode::Both => true,
    }
}
