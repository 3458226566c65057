ghost use Rattle.std.specs.Prelude.{◌≡◌, IfOk, OnOk};
ghost use Rattle.client_homes.specs.Births.{child_of};
ghost use Rattle.client_procs.specs.Boot.{bears_first, begun_at, boots, boots_with, evicts_at, nothing_begun, puts_first, root_server, serves_root, starts_all, starts_line, swap_server};
ghost use Rattle.std.specs.List.{position};

use crate::launching::fresh_image;
use crate::moving::kernel_at;
use client_file_tables::ClientFiles;
use client_homes::{ClientProcs, Proc, ProcState};
use home_table::{Home, HomeEnd};
use kernel_steps::{Queue, Table};
use process_machine::Image;
use sprite_ids::{Copying, Items, Kernel, NoMemory, Pid};
use sprite_paths::Path;
use std::alloc::Global;
use unix_calls::{Description, EvictLine, KernelLine, ProgramLine, StartLine};

/// The processes with which a kernel begins.
#[derive(Debug, Drop)]
pub(crate) struct Begun {
    /// Their births.
    pub home: Home,
    /// The processes.
    pub procs: Table<Pid, Proc>,
    /// Their working directories.
    pub cwds: Queue<Pid, Path>,
}

/// A client kernel when the cluster begins: its processes are those that the description starts here, each between two calls, with
/// the root as its working directory and no descriptor (Nelson, Welch and Ousterhout 1988; the description is this project's). The
/// one error is want of memory.
///
/// Of places: each of these processes is here, with all its pages.
pub fn boot(
    alloc: Global,
    description: &Description,
    kernel: Kernel,
) -> Result<ClientProcs, NoMemory>
    ensures { IfOk result (λ client. client ≡ boots description.now kernel) }
{
    let kernels = description.kernels.copy(alloc)?;
    let programs = description.programs.copy(alloc)?;
    let evicts = evicts_at(alloc, description.evicts.as_slice(), kernel)?;
    let Begun { home, procs, cwds } = begin_all(alloc, description, kernel)?;
    let files = boot_files(alloc, description, kernel, cwds)?;
    Ok(ClientProcs {
        kernel,
        kernels,
        programs,
        swap_server: swap_server(description.kernels.as_slice(), kernel),
        files,
        home,
        procs,
        leaving: Queue::new(alloc),
        devices: Table::new(alloc),
        getters: Queue::new(alloc),
        asked: Queue::new(alloc),
        making: Queue::new(alloc),
        next_device: 1,
        waits: Queue::new(alloc),
        kills: Queue::new(alloc),
        forks: Queue::new(alloc),
        early: Queue::new(alloc),
        unfinished: Queue::new(alloc),
        issues: 0,
        evicts,
    })
}

// The files' side, with these working directories.
fn boot_files(
    alloc: Global,
    description: &Description,
    kernel: Kernel,
    cwds: Queue<Pid, Path>,
) -> Result<ClientFiles, NoMemory>
    ensures { IfOk result (λ files. files ≡ boots_with cwds description.now kernel) }
{
    let mut files = ClientFiles::boot(alloc, description, kernel)?;
    files.cwds = cwds;
    Ok(files)
}

// At which calls the kernel's foreign processes are to leave.
fn evicts_at(alloc: Global, lines: &[EvictLine], kernel: Kernel) -> Result<Items<u32>, NoMemory>
    ensures { IfOk result (λ evicts. evicts ≡ evicts_at kernel lines.now) }
{
    let mut evicts = Items::new(alloc);
    for line in lines {
        if line.host == kernel {
            evicts.push(line.after)?;
        }
    }
    Ok(evicts)
}

// The server of the root, which keeps pages; the kernel itself where there is none.
fn swap_server(kernels: &[KernelLine], kernel: Kernel) -> Kernel
    ensures { result ≡ swap_server kernels.now kernel }
{
    match root_server(kernels) {
        Some(server) => server,
        None => kernel,
    }
}

fn root_server(kernels: &[KernelLine]) -> Option<Kernel>
    ensures { result ≡ root_server kernels.now }
{
    match root_place(kernels) {
        Some(place) => kernel_at(place),
        None => None,
    }
}

fn root_place(kernels: &[KernelLine]) -> Option<usize>
    ensures { result ≡ position serves_root kernels.now }
{
    kernels.iter().position(|line| serves_root(line))
}

fn serves_root(line: &KernelLine) -> bool
    ensures { result ≡ serves_root line.now }
{
    line.serves.as_slice().iter().any(|path| path.len() == 0)
}

// The kernel's processes, in the order of their lines.
fn begin_all(alloc: Global, description: &Description, kernel: Kernel) -> Result<Begun, NoMemory>
    ensures { IfOk result (λ begun. begun ≡ begun_at kernel description.now) }
{
    let mut begun = nothing_begun(alloc, kernel);
    let programs = description.programs.as_slice();
    start_all(&mut begun, alloc, programs, description.starts.as_slice())?;
    Ok(begun)
}

fn nothing_begun(alloc: Global, kernel: Kernel) -> Begun
    ensures { result ≡ nothing_begun kernel }
{
    Begun {
        home: Home::new(alloc, kernel),
        procs: Table::new(alloc),
        cwds: Queue::new(alloc),
    }
}

fn start_all(
    begun: &mut Begun,
    alloc: Global,
    programs: &[ProgramLine],
    lines: &[StartLine],
) -> Result<(), NoMemory>
    ensures { OnOk result (begun.new ≡ starts_all programs.now lines.now begun.old) }
{
    for line in lines {
        start(begun, alloc, programs, line)?;
    }
    Ok(())
}

// A line starts a process, where it is this kernel's.
fn start(
    begun: &mut Begun,
    alloc: Global,
    programs: &[ProgramLine],
    line: &StartLine,
) -> Result<(), NoMemory>
    ensures { OnOk result (begun.new ≡ starts_line programs.now line.now begun.old) }
{
    if line.host != begun.home.kernel() {
        return Ok(());
    }
    match fresh_image(alloc, programs, line.program, line.arg)? {
        Some(image) => bear(begun, alloc, image),
        None => Ok(()),
    }
}

fn bear(begun: &mut Begun, alloc: Global, image: Image) -> Result<(), NoMemory>
    ensures { OnOk result (begun.new ≡ bears_first image begun.old) }
{
    match begun.home.born(None) {
        Ok(pid) => put(begun, alloc, pid, image),
        Err(HomeEnd::TooMany) => Ok(()),
        Err(HomeEnd::NoMemory) => Err(NoMemory),
    }
}

fn put(begun: &mut Begun, alloc: Global, pid: Pid, image: Image) -> Result<(), NoMemory>
    ensures { OnOk result (begun.new ≡ puts_first pid image begun.old) }
{
    begun.cwds.push(pid, Path::root(alloc))?;
    begun.procs.put(pid, first(image))
}

fn first(image: Image) -> Proc
    ensures { result ≡ child_of image }
{
    Proc {
        number: 0,
        image,
        fresh: false,
        killed: false,
        evict: false,
        call: None,
        state: ProcState::Ready,
    }
}
