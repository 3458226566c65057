use crate::words::{Name, text};
use client_procs::{ClientProcs, boot};
use link_plan::Plan;
use process_machine::{Code, Image, Instruction, Operand, PageCount, Program, SyscallName};
use sprite_ids::{Bytes, Items, Kernel, NoMemory};
use sprite_paths::Path;
use std::alloc::Global;
use unix_calls::{Description, EvictLine, KernelLine, ProgramLine, StartLine};

/// The kernel of that number.
pub(crate) fn kernel(number: u8) -> Result<Kernel, NoMemory> {
    Kernel::new(number).ok_or(NoMemory)
}

// The kernels: their names, and whether they serve `/`.
static KERNELS: [(Name, bool); 4] = [
    (Name::Server, true),
    (Name::Client, false),
    (Name::SecondClient, false),
    (Name::ThirdClient, false),
];

fn line(alloc: Global, name: Name, serves_root: bool) -> Result<KernelLine, NoMemory> {
    let name = Bytes::of_slice(alloc, text(name))?;
    let mut serves = Items::new(alloc);
    if serves_root {
        serves.push(Path::root(alloc))?;
    }
    Ok(KernelLine { name, serves })
}

fn add_kernels(lines: &mut Items<KernelLine>, alloc: Global) -> Result<(), NoMemory> {
    for (name, serves_root) in KERNELS.iter() {
        lines.push(line(alloc, *name, *serves_root)?)?;
    }
    Ok(())
}

// The program's one instruction: a `migrate` whose name is in page 0.
fn code(alloc: Global) -> Result<Code, NoMemory> {
    let mut code = Code::new(alloc);
    code.push(Instruction::Sys {
        name: SyscallName::Migrate,
        operands: [
            Some(Operand::Number(0)),
            Some(Operand::Number(1)),
            None,
            None,
        ],
    })?;
    Ok(code)
}

fn program(alloc: Global) -> Result<Program, NoMemory> {
    let pages = PageCount::new(1).ok_or(NoMemory)?;
    let code = code(alloc)?;
    Ok(Program {
        number: 1,
        pages,
        texts: Items::new(alloc),
        code,
    })
}

fn add_program(lines: &mut Items<ProgramLine>, alloc: Global) -> Result<(), NoMemory> {
    let name = Bytes::of_slice(alloc, text(Name::Program))?;
    let program = program(alloc)?;
    lines.push(ProgramLine { name, program })
}

fn start(host: Kernel) -> StartLine {
    StartLine {
        host,
        program: 1,
        arg: 0,
    }
}

// A cluster of no kernels.
fn empty(alloc: Global) -> Description {
    Description {
        version: 2,
        budget: 1_000_000,
        cache: 8,
        kernels: Items::new(alloc),
        programs: Items::new(alloc),
        starts: Items::new(alloc),
        files: Items::new(alloc),
        plan: Plan {
            entries: Items::new(alloc),
        },
        evicts: Items::new(alloc),
    }
}

// The four kernels, two processes of the client, and an eviction there at the call of that number.
fn fill(
    cluster: &mut Description,
    alloc: Global,
    client: Kernel,
    after: u32,
) -> Result<(), NoMemory> {
    add_kernels(&mut cluster.kernels, alloc)?;
    add_program(&mut cluster.programs, alloc)?;
    cluster.starts.push(start(client))?;
    cluster.starts.push(start(client))?;
    let host = client;
    cluster.evicts.push(EvictLine { host, after })
}

/// The client: kernel 2 of four, of which 1 serves `/` and 3 and 4 are other clients. Two processes begin there, 2001 and 2002. At the
/// call of that number the processes of other homes are to leave; at none, where it is 0.
pub(crate) fn client(alloc: Global, after: u32) -> Result<ClientProcs, NoMemory> {
    let client = kernel(2)?;
    let mut cluster = empty(alloc);
    let booted = match fill(&mut cluster, alloc, client, after) {
        Ok(()) => boot(alloc, &cluster, client),
        Err(error) => Err(error),
    };
    drop(cluster);
    booted
}

/// An image of the program whose page is away.
pub(crate) fn image_away(alloc: Global, counter: u16) -> Result<Image, NoMemory> {
    let mut pages = Vec::new(alloc);
    pages.push(None)?;
    Image::of_parts(1, counter, [0; 8], pages).ok_or(NoMemory)
}
