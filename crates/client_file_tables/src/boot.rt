ghost use Rattle.std.specs.Prelude.{◌≡◌, ◌<◌, ◌+◌, IfOk};
ghost use Rattle.unix_calls.specs.Boot.{limit_of};
ghost use Rattle.client_file_tables.specs.Boot.{boots, servers_of, server_at, server_by};

use crate::client_files::ClientFiles;
use block_cache::Cache;
use kernel_steps::{Out, Queue};
use prefix_table::Prefixes;
use sprite_ids::{Items, Kernel, NoMemory, TxNo};
use std::alloc::Global;
use stream_table::Streams;
use unix_calls::{Description, KernelLine};
use write_delay::Delays;

impl ClientFiles {
    /// The files' side of the client kernel of that number when the cluster begins: nothing is learned, open, cached or
    /// waited for (this project). The one error is want of memory.
    pub fn boot(
        alloc: Global,
        description: &Description,
        kernel: Kernel,
    ) -> Result<ClientFiles, NoMemory>
        ensures { IfOk result (λ files. files ≡ boots description.now kernel) }
    {
        let servers = servers_of(alloc, description.kernels.as_slice())?;
        let cache = Cache::new(alloc, description.cache)?;
        let delay = Delays::new(alloc)?;
        Ok(ClientFiles {
            kernel,
            servers,
            limit: limit_of(description.version),
            prefixes: Prefixes::new(alloc),
            cache,
            delay,
            streams: Streams::new(alloc),
            cwds: Queue::new(alloc),
            next_stream: 1,
            pending: Queue::new(alloc),
            txs: Queue::new(alloc),
            write_backs: Queue::new(alloc),
            lock_waits: Queue::new(alloc),
            fillers: Items::new(alloc),
            ready: Items::new(alloc),
            results: Items::new(alloc),
            step: 0,
            out: Out::new(alloc, TxNo(0)),
        })
    }
}

// The most bytes that a file may have (this project).
fn limit_of(version: u8) -> u32
    ensures { result ≡ limit_of version }
{
    if version > 1 { 4_194_304 } else { 262_144 }
}

// The kernels that serve a domain, in ascending order. The first line is that of kernel 1, and there are at most 16.
fn servers_of(alloc: Global, lines: &[KernelLine]) -> Result<Items<Kernel>, NoMemory>
    ensures { IfOk result (λ servers. servers ≡ servers_of lines.now) }
{
    let mut servers = Items::new(alloc);
    for place in 0..16 {
        if let Some(kernel) = server_at(lines, place) {
            servers.push(kernel)?;
        }
    }
    Ok(servers)
}

// The kernel of the line at that place, where it serves a domain.
fn server_at(lines: &[KernelLine], place: u8) -> Option<Kernel>
    requires { place < 16 }
    ensures { result ≡ server_at lines.now place }
{
    match lines.get(usize::from(place)) {
        Some(line) => server_by(line, place),
        None => None,
    }
}

fn server_by(line: &KernelLine, place: u8) -> Option<Kernel>
    requires { place < 16 }
    ensures { result ≡ server_by line.now place }
{
    if line.serves.len() == 0 {
        return None;
    }
    Some(kernel_at(place))
}

// The kernel whose line stands at that place.
fn kernel_at(place: u8) -> Kernel
    requires { place < 16 }
    ensures { result ≡ place + 1 }
{
    match Kernel::new(place + 1) {
        Some(kernel) => kernel,
        None => unreachable!(),
    }
}
