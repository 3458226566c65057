ghost use Rattle.std.specs.Prelude.{◌≡◌, ◌<◌, OnOk, IfOk};
ghost use Rattle.stream_table.specs.Owners.{descriptor};
ghost use Rattle.client_names.specs.Making.{free_or, free_descriptor, new_stream, counts_stream};

use client_file_tables::ClientFiles;
use packet_bodies::Descriptor;
use sprite_ids::{NoMemory, Pid, StreamNo};

// The lowest descriptor of the process that isn't in use; None where all 16 are.
pub(crate) fn free_descriptor(files: &ClientFiles, pid: Pid) -> Option<Descriptor>
    ensures { result ≡ free_descriptor pid files.now }
{
    let mut free = None;
    for fd in 0..16 {
        free = free_or(files, pid, free, fd);
    }
    free
}

// The one that was found already; else this one, where it isn't in use.
fn free_or(files: &ClientFiles, pid: Pid, free: Option<Descriptor>, fd: u8) -> Option<Descriptor>
    requires { fd < 16 }
    ensures { result ≡ free_or free fd (descriptor files.now.streams.owners pid fd) }
{
    match free {
        Some(found) => Some(found),
        None => match files.streams.get(pid, u64::from(fd)) {
            Some(_) => None,
            None => Some(descriptor_at(fd)),
        },
    }
}

fn descriptor_at(number: u8) -> Descriptor
    requires { number < 16 }
    ensures { result ≡ number }
{
    match Descriptor::new(number) {
        Some(descriptor) => descriptor,
        None => unreachable!(),
    }
}

// The next stream of this kernel, whose number is never used again. Want of memory, the one error, is the answer where no
// number is left in 32 bits.
pub(crate) fn new_stream(files: &mut ClientFiles) -> Result<StreamNo, NoMemory>
    ensures stream { IfOk result (λ stream. stream ≡ new_stream files.old) }
    ensures files { OnOk result (files.new ≡ counts_stream files.old) }
{
    let number = files.next_stream;
    files.next_stream = number.checked_add(1).ok_or(NoMemory)?;
    Ok(StreamNo {
        kernel: files.kernel,
        number,
    })
}
