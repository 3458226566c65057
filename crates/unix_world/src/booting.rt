ghost use Rattle.std.specs.Prelude.{◌≡◌, ◌==◌, ◌+◌, ◌<◌, ◌≤◌, ◌∷◌, ◌++◌, [], IfOk, OnOk, length, nat_le, replicate, slice_get};
ghost use Rattle.std.specs.List.{position_or_len};
ghost use Rattle.unix_calls.specs.declared.state.Process.{Process};
ghost use Rattle.unix_calls.specs.Answers.{program_at};
ghost use Rattle.unix_calls.specs.Boot.{boot_of, bytes_at, filed, limit_of, new_process, started, started_by, with_directories, with_directory, with_file_line, with_roots};
ghost use Rattle.unix_calls.specs.Domains.{roots_of};
ghost use Rattle.unix_calls.specs.Lawful.{holds};
ghost use Rattle.unix_calls.specs.State.{births, next_pid, put_process};
ghost use Rattle.unix_world.specs.Among.{Ascending};
ghost use Rattle.unix_world.specs.Starts.{with_line};
ghost use Rattle.unix_world.specs.Worlds.{unix_of};

use crate::devices::Devices;
use crate::files::Files;
use crate::processes::{next_pid, put};
use crate::programs::program_at;
use crate::streams::Streams;
use crate::tree::{NameTree, above};
use crate::world::World;
use process_machine::Image;
use sprite_ids::{Bytes, Items, Kernel, NoMemory, Pid};
use sprite_paths::Path;
use std::alloc::Global;
use unix_calls::{
    Description, File, FileLine, FileName, KernelLine, Node, Process, ProgramLine, StartLine,
};

/// The one-kernel Unix at its start: the state, and the processes by ascending number. There are a directory at each domain and
/// above it, the files of the file lines with the directories above them, and a process for each start line whose program is
/// there (this project). A home makes at most 200 processes, so the description must have at most 200 start lines, and at most
/// 200 file lines, as each lawful one has. The one error is want of memory.
pub fn boot(alloc: Global, c: &Description) -> Result<(World, Items<Process>), NoMemory>
    requires starts { length c.now.starts ≤ 200 }
    requires files { length c.now.files ≤ 200 }
    ensures state { IfOk result (λ made. unix_of c.now made.0 made.1 ≡ boot_of c.now) }
    ensures ascends { IfOk result (λ made. Ascending made.1) }
{
    let mut nodes = root_names(alloc, c.kernels.as_slice())?;
    let mut files = Files::new(alloc);
    add_files(alloc, &mut nodes, &mut files, c.files.as_slice())?;
    let processes = start_all(alloc, c.programs.as_slice(), c.starts.as_slice())?;
    let ticks = zeros(alloc, c.kernels.len())?;
    let world = World {
        nodes,
        files,
        streams: Streams::new(alloc),
        devices: Devices::new(alloc),
        ticks,
        limit: limit_of(c.version),
        entries: 0,
    };
    Ok((world, processes))
}

// A directory at each domain of the kernels and above it.
fn root_names(alloc: Global, lines: &[KernelLine]) -> Result<NameTree, NoMemory>
    ensures { IfOk result (λ nodes. nodes ≡ with_roots (roots_of lines.now) []) }
{
    let mut nodes = NameTree::new(alloc);
    for line in lines {
        add_roots(alloc, &mut nodes, line.serves.as_slice())?;
    }
    Ok(nodes)
}

// Puts a directory at each of these paths and above it.
fn add_roots(alloc: Global, nodes: &mut NameTree, roots: &[Path]) -> Result<(), NoMemory>
    ensures { OnOk result (nodes.new ≡ with_roots roots.now nodes.old) }
{
    for root in roots {
        add_directories(alloc, nodes, root.parts())?;
    }
    Ok(())
}

// Puts a directory at the path and above it, where nothing stands.
fn add_directories(alloc: Global, nodes: &mut NameTree, path: &[Bytes]) -> Result<(), NoMemory>
    ensures { OnOk result (nodes.new ≡ with_directories path.now nodes.old) }
{
    for count in 0..path.len() {
        let (directory, _) = path.split_at(count + 1);
        add_directory(alloc, nodes, directory)?;
    }
    Ok(())
}

// Puts a directory at the path, where nothing stands.
fn add_directory(alloc: Global, nodes: &mut NameTree, path: &[Bytes]) -> Result<(), NoMemory>
    ensures { OnOk result (nodes.new ≡ with_directory path.now nodes.old) }
{
    if nodes.node_at(path).is_some() {
        return Ok(());
    }
    nodes.add(alloc, path, Node::Directory)
}

// Makes the files of the lines.
fn add_files(
    alloc: Global,
    nodes: &mut NameTree,
    files: &mut Files,
    lines: &[FileLine],
) -> Result<(), NoMemory>
    requires few { length lines.now ≤ 200 }
    ensures { OnOk result (record { nodes = nodes.new; files = files.new } ≡ filed lines.now 0 lines.now (record { nodes = nodes.old; files = files.old })) }
{
    for (place, line) in lines.iter().enumerate() {
        add_line(alloc, nodes, files, lines, place as u32, line)?;
    }
    Ok(())
}

// Makes the file of the line at that place; a line that joins another's file makes none.
fn add_line(
    alloc: Global,
    nodes: &mut NameTree,
    files: &mut Files,
    lines: &[FileLine],
    place: u32,
    line: &FileLine,
) -> Result<(), NoMemory>
    ensures { OnOk result (record { nodes = nodes.new; files = files.new } ≡ with_line lines.now place line.now (record { nodes = nodes.old; files = files.old })) }
{
    if line.append {
        return Ok(());
    }
    let path = line.path.parts();
    let bytes = bytes_at(alloc, lines, path)?;
    add_file(alloc, nodes, files, place, path, bytes)
}

// Makes a file of these bytes, with the directories above it.
fn add_file(
    alloc: Global,
    nodes: &mut NameTree,
    files: &mut Files,
    place: u32,
    path: &[Bytes],
    bytes: Bytes,
) -> Result<(), NoMemory>
    ensures { OnOk result (record { nodes = nodes.new; files = files.new } ≡ with_file_line place path.now bytes (record { nodes = nodes.old; files = files.old })) }
{
    let name = FileName::Boot(place);
    add_directories(alloc, nodes, above(path))?;
    nodes.add(alloc, path, Node::FileNode(name))?;
    files.push(File { name, bytes })
}

// The bytes of all lines of the path, in file order.
fn bytes_at(alloc: Global, lines: &[FileLine], path: &[Bytes]) -> Result<Bytes, NoMemory>
    ensures { IfOk result (λ bytes. bytes ≡ bytes_at lines.now path.now) }
{
    let mut bytes = Bytes::new(alloc);
    for line in lines {
        if line.path.parts() == path {
            bytes.append(line.bytes.as_slice())?;
        }
    }
    Ok(bytes)
}

// The processes of the start lines, by ascending number.
fn start_all(
    alloc: Global,
    programs: &[ProgramLine],
    starts: &[StartLine],
) -> Result<Items<Process>, NoMemory>
    requires few { length starts.now ≤ 200 }
    ensures { IfOk result (λ processes. processes ≡ started programs.now [] starts.now) }
{
    let mut processes = Items::new(alloc);
    for line in starts {
        start(alloc, &mut processes, programs, line)?;
    }
    Ok(processes)
}

// Makes the process of a start line; a number without program makes none.
fn start(
    alloc: Global,
    processes: &mut Items<Process>,
    programs: &[ProgramLine],
    line: &StartLine,
) -> Result<(), NoMemory>
    requires few { length processes.old < 200 }
    ensures { OnOk result (processes.new ≡ started_by line.now processes.old (program_at programs.now line.now.program)) }
{
    let Some(program) = program_at(programs, line.program) else {
        return Ok(());
    };
    let pid = first_pid(processes.as_slice(), line.host);
    let image = Image::fresh(alloc, program, line.arg)?;
    put(alloc, processes, new_process(alloc, pid, image))
}

// The number that the next process of the home gets, among so few that it gets one.
fn first_pid(processes: &[Process], home: Kernel) -> Pid
    requires few { length processes.now < 200 }
    ensures { result ≡ next_pid processes.now home }
{
    match next_pid(processes, home) {
        Some(pid) => pid,
        None => unreachable!(),
    }
}

// A process that has done nothing so far.
fn new_process(alloc: Global, pid: Pid, image: Image) -> Process
    ensures { result ≡ new_process pid image }
{
    Process {
        pid,
        image,
        descriptors: [None; 16],
        cwd: Path::root(alloc),
        parent: None,
        calls: 0,
        asking: None,
        killed: false,
        ending: None,
        waited: false,
        console: Bytes::new(alloc),
    }
}

// That many zeros.
fn zeros(alloc: Global, count: usize) -> Result<Items<u64>, NoMemory>
    ensures { IfOk result (λ zeros. zeros ≡ replicate count 0) }
{
    let mut zeros = Vec::new(alloc);
    zeros.resize(count, 0)?;
    Ok(Items::of_vec(zeros))
}

// The most bytes that a file may have, in that version of the cluster file.
fn limit_of(version: u8) -> u32
    ensures { result ≡ limit_of version }
{
    if version > 1 { 4_194_304 } else { 262_144 }
}
