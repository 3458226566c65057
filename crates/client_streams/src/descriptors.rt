ghost use Rattle.std.specs.Prelude.{◌≡◌, ◌<◌};
ghost use Rattle.client_streams.specs.Descriptors.{descriptor_of, drops, drops_each, drops_to};

use client_file_tables::ClientFiles;
use packet_bodies::Descriptor;
use sprite_ids::{Pid, StreamNo};

/// A descriptor that a call names, with its stream.
#[derive(Clone, Copy, Debug, PartialEq, Eq)]
pub struct Named {
    /// The descriptor.
    pub fd: Descriptor,
    /// The stream that it leads to.
    pub stream: StreamNo,
}

/// The process's descriptor of that number; None where it isn't one that is in use.
pub fn descriptor_of(files: &ClientFiles, pid: Pid, fd: u64) -> Option<Named>
    ensures { result ≡ descriptor_of pid fd files.now }
{
    match files.streams.get(pid, fd) {
        Some(stream) => Some(Named {
            fd: descriptor_at(fd as u8),
            stream,
        }),
        None => None,
    }
}

fn descriptor_at(number: u8) -> Descriptor
    requires { number < 16 }
    ensures { result ≡ number }
{
    match Descriptor::new(number) {
        Some(descriptor) => descriptor,
        None => unreachable!(),
    }
}

// Closes each descriptor of the process that leads to that stream.
#[tactic(auto, unfolding(crate::specs::Descriptors::descriptor_count))]
pub(crate) fn drop_each(files: &mut ClientFiles, pid: Pid, stream: &StreamNo)
    ensures { files.new ≡ drops_each pid stream.now files.old }
{
    for fd in 0..16 {
        drop_one(files, pid, fd, stream);
    }
}

// Closes the descriptor, where it leads to that stream.
fn drop_one(files: &mut ClientFiles, pid: Pid, fd: u8, stream: &StreamNo)
    ensures { files.new ≡ drops_to pid fd stream.now files.old }
{
    match files.streams.get(pid, u64::from(fd)) {
        Some(other) if other == *stream => drop_fd(files, pid, fd),
        _ => {}
    }
}

fn drop_fd(files: &mut ClientFiles, pid: Pid, fd: u8)
    ensures { files.new ≡ drops pid fd files.old }
{
    let _last = files.streams.close(pid, fd);
}
