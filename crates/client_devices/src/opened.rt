ghost use Rattle.std.specs.Prelude.{◌≡◌};
ghost use Rattle.client_devices.specs.Opened.{object_at, stream_at};

use client_homes::ClientProcs;
use sprite_ids::{Object, Pid};
use stream_table::Stream;

// The stream that the process's descriptor leads to; None where it isn't in use.
pub(crate) fn stream_at(client: &ClientProcs, pid: Pid, fd: u64) -> Option<Stream>
    ensures { result ≡ stream_at pid fd client.now }
{
    match client.files.streams.get(pid, fd) {
        Some(number) => client.files.streams.stream(number),
        None => None,
    }
}

// What that stream leads to.
pub(crate) fn object_at(client: &ClientProcs, pid: Pid, fd: u64) -> Option<Object>
    ensures { result ≡ object_at pid fd client.now }
{
    match stream_at(client, pid, fd) {
        Some(stream) => Some(stream.object),
        None => None,
    }
}
