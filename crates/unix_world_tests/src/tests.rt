use link_plan::Plan;
use process_machine::{Code, PageCount, Program};
use sprite_ids::{Bytes, Items, Kernel, NoMemory};
use sprite_paths::{Path, PathEnd};
use std::alloc::Global;
use std::test::*;
use unix_calls::{
    Description, FileLine, FileName, KernelLine, Node, Process, ProgramLine, StartLine,
};
use unix_world::{World, boot};

// The kernels, each with its domain; a client has none.
const KERNELS: [(&[u8], &[u8]); 4] = [(b"s1", b"/"), (b"s2", b"/a/b"), (b"c1", b""), (b"c2", b"")];

// The file lines: path, bytes, and whether they join an earlier line's.
const FILE_LINES: [(&[u8], &[u8], bool); 4] = [
    (b"/x/f", b"one", false),
    (b"/g", b"two", false),
    (b"/x/f", b"three", true),
    (b"/a/b/h", b"", false),
];

// The start lines: host and program. There are programs 1 and 2.
const START_LINES: [(u8, u8); 5] = [(4, 1), (3, 2), (4, 3), (4, 2), (3, 0)];

// What stands in the tree.
const NAMES: [(&[u8], Node); 6] = [
    (b"/a", Node::Directory),
    (b"/a/b", Node::Directory),
    (b"/a/b/h", Node::FileNode(FileName::Boot(3))),
    (b"/g", Node::FileNode(FileName::Boot(1))),
    (b"/x", Node::Directory),
    (b"/x/f", Node::FileNode(FileName::Boot(0))),
];

// The files and their bytes.
const FILES: [(FileName, &[u8]); 3] = [
    (FileName::Boot(0), b"onethree"),
    (FileName::Boot(1), b"two"),
    (FileName::Boot(3), b""),
];

// The processes, by ascending number, and their programs.
const PROCESSES: [(u32, u8); 3] = [(3001, 2), (4001, 1), (4002, 2)];

// A part of the start.
#[derive(Clone, Copy, Debug, PartialEq, Eq)]
enum Part {
    Names,
    Files,
    Processes,
    Ticks,
    Limit,
}

// The path of a text.
fn path(alloc: Global, text: &[u8]) -> Result<Path, PathEnd> {
    Path::clean(alloc, &Path::root(alloc), text)
}

// The kernel of that number.
fn kernel(number: u8) -> Result<Kernel, PathEnd> {
    Kernel::new(number).ok_or(PathEnd::BadName)
}

// The domain of that text; none where it has no bytes.
fn domains(alloc: Global, text: &[u8]) -> Result<Items<Path>, PathEnd> {
    let mut paths = Items::new(alloc);
    if text.len() > 0 {
        paths.push(path(alloc, text)?)?;
    }
    Ok(paths)
}

// The line of a kernel.
fn kernel_line(alloc: Global, name: &[u8], domain: &[u8]) -> Result<KernelLine, PathEnd> {
    let serves = domains(alloc, domain)?;
    Ok(KernelLine {
        name: Bytes::of_slice(alloc, name)?,
        serves,
    })
}

fn kernels(alloc: Global) -> Result<Items<KernelLine>, PathEnd> {
    let mut lines = Items::new(alloc);
    for row in KERNELS.iter() {
        lines.push(kernel_line(alloc, row.0, row.1)?)?;
    }
    Ok(lines)
}

// A program of one page without instructions.
fn program_line(alloc: Global, name: &[u8], number: u8) -> Result<ProgramLine, PathEnd> {
    let pages = PageCount::new(1).ok_or(PathEnd::BadName)?;
    Ok(ProgramLine {
        name: Bytes::of_slice(alloc, name)?,
        program: Program {
            number,
            pages,
            texts: Items::new(alloc),
            code: Code::new(alloc),
        },
    })
}

fn programs(alloc: Global) -> Result<Items<ProgramLine>, PathEnd> {
    let mut lines = Items::new(alloc);
    lines.push(program_line(alloc, b"one", 1)?)?;
    lines.push(program_line(alloc, b"two", 2)?)?;
    Ok(lines)
}

fn starts(alloc: Global) -> Result<Items<StartLine>, PathEnd> {
    let mut lines = Items::new(alloc);
    for row in START_LINES.iter() {
        lines.push(StartLine {
            host: kernel(row.0)?,
            program: row.1,
            arg: 0,
        })?;
    }
    Ok(lines)
}

fn file_line(alloc: Global, text: &[u8], bytes: &[u8], append: bool) -> Result<FileLine, PathEnd> {
    let path = path(alloc, text)?;
    Ok(FileLine {
        path,
        bytes: Bytes::of_slice(alloc, bytes)?,
        append,
    })
}

fn files(alloc: Global) -> Result<Items<FileLine>, PathEnd> {
    let mut lines = Items::new(alloc);
    for row in FILE_LINES.iter() {
        lines.push(file_line(alloc, row.0, row.1, row.2)?)?;
    }
    Ok(lines)
}

// That cluster, by a file of that version.
fn cluster(alloc: Global, version: u8) -> Result<Description, PathEnd> {
    let kernels = kernels(alloc)?;
    let programs = programs(alloc)?;
    let starts = starts(alloc)?;
    let files = files(alloc)?;
    Ok(Description {
        version,
        budget: 1_000_000,
        cache: 64,
        kernels,
        programs,
        starts,
        files,
        plan: Plan {
            entries: Items::new(alloc),
        },
        evicts: Items::new(alloc),
    })
}

// A path's text.
fn text_of(alloc: Global, parts: &[Bytes]) -> Result<Bytes, NoMemory> {
    let mut text = Bytes::new(alloc);
    for part in parts {
        text.push(b'/')?;
        text.append(part.as_slice())?;
    }
    Ok(text)
}

// Whether the name at that place is this one.
fn has_name(
    alloc: Global,
    world: &World,
    at: usize,
    path: &[u8],
    node: Node,
) -> Result<bool, NoMemory> {
    let nodes = world.nodes.as_slice();
    if at >= nodes.len() {
        return Ok(false);
    }
    let named = &nodes[at];
    let text = text_of(alloc, named.path.as_slice())?;
    Ok(named.node == node && text.as_slice() == path)
}

// The first of the names that is another one.
fn first_other_name(alloc: Global, world: &World) -> Result<Option<usize>, NoMemory> {
    for (at, row) in NAMES.iter().enumerate() {
        if !has_name(alloc, world, at, row.0, row.1)? {
            return Ok(Some(at));
        }
    }
    Ok(None)
}

// Whether the file at that place is this one.
fn has_file(world: &World, at: usize, name: FileName, bytes: &[u8]) -> bool {
    let files = world.files.as_slice();
    if at >= files.len() {
        return false;
    }
    let file = &files[at];
    file.name == name && file.bytes.as_slice() == bytes
}

// The first of the files that is another one.
fn first_other_file(world: &World) -> Option<usize> {
    for (at, row) in FILES.iter().enumerate() {
        if !has_file(world, at, row.0, row.1) {
            return Some(at);
        }
    }
    None
}

// Whether the process at that place is this one.
fn has_process(processes: &[Process], at: usize, pid: u32, program: u8) -> bool {
    if at >= processes.len() {
        return false;
    }
    let process = &processes[at];
    process.pid.number() == pid && process.image.program_number() == program
}

// The first of the processes that is another one.
fn first_other_process(processes: &[Process]) -> Option<usize> {
    for (at, row) in PROCESSES.iter().enumerate() {
        if !has_process(processes, at, row.0, row.1) {
            return Some(at);
        }
    }
    None
}

// That cluster at its start.
fn booted(alloc: Global, version: u8) -> Result<(World, Items<Process>), PathEnd> {
    let c = cluster(alloc, version)?;
    if c.starts.len() > 200 || c.files.len() > 200 {
        return Err(PathEnd::BadName);
    }
    Ok(boot(alloc, &c)?)
}

// The first part of the start that is another one.
fn first_other(
    alloc: Global,
    world: &World,
    processes: &[Process],
    limit: u32,
) -> Result<Option<Part>, NoMemory> {
    if world.nodes.as_slice().len() != NAMES.len() || first_other_name(alloc, world)?.is_some() {
        return Ok(Some(Part::Names));
    }
    if world.files.as_slice().len() != FILES.len() || first_other_file(world).is_some() {
        return Ok(Some(Part::Files));
    }
    if processes.len() != PROCESSES.len() || first_other_process(processes).is_some() {
        return Ok(Some(Part::Processes));
    }
    if world.ticks.as_slice() != [0, 0, 0, 0].as_slice() {
        return Ok(Some(Part::Ticks));
    }
    if world.limit != limit {
        return Ok(Some(Part::Limit));
    }
    Ok(None)
}

// The first part that is another one, where that cluster's files may have so many bytes each.
fn boots_to(alloc: Global, version: u8, limit: u32) -> Result<Option<Part>, PathEnd> {
    let made = booted(alloc, version)?;
    Ok(first_other(alloc, &made.0, made.1.as_slice(), limit)?)
}

#[test]
fn a_cluster_boots(rt: HostRuntime) -> Result<(), Fail> {
    assert_eq!(rt; boots_to(rt.alloc(), 2, 4_194_304)?, None);
    Ok(())
}

#[test]
fn files_are_smaller_in_version_1(rt: HostRuntime) -> Result<(), Fail> {
    assert_eq!(rt; boots_to(rt.alloc(), 1, 262_144)?, None);
    Ok(())
}
