use link_plan::Plan;
use process_machine::Program;
use sprite_ids::{Bytes, Copying, Items, Kernel, NoMemory};
use sprite_paths::Path;
use std::alloc::Global;

/// What a cluster file describes, each list in file order (this project).
#[derive(Debug, Drop)]
pub struct Description {
    /// The version of the cluster file, 1 or 2; files are larger from 2 on.
    pub version: u8,
    /// How many units a run may take, 1 to 4,000,000.
    pub budget: u32,
    /// How many blocks a client caches: 0, or 8 to 4,096.
    pub cache: u16,
    /// The kernels, numbered from 1.
    pub kernels: Items<KernelLine>,
    /// The programs, numbered from 1.
    pub programs: Items<ProgramLine>,
    /// The processes that run from the start.
    pub starts: Items<StartLine>,
    /// The files that are there from the start.
    pub files: Items<FileLine>,
    /// The faults of the link.
    pub plan: Plan,
    pub evicts: Items<EvictLine>,
}

impl Copying for Description {
    fn copy(&self, alloc: Global) -> Result<Description, NoMemory> {
        Ok(Description {
            version: self.version,
            budget: self.budget,
            cache: self.cache,
            kernels: self.kernels.copy(alloc)?,
            programs: self.programs.copy(alloc)?,
            starts: self.starts.copy(alloc)?,
            files: self.files.copy(alloc)?,
            plan: self.plan.copy(alloc)?,
            evicts: self.evicts.copy(alloc)?,
        })
    }
}

/// A kernel of the cluster.
#[derive(Debug, Drop)]
pub struct KernelLine {
    /// 1 to 16 bytes of `a` to `z` and `0` to `9`, the first a letter.
    pub name: Bytes,
    /// The domains that it serves; a client serves none.
    pub serves: Items<Path>,
}

impl Copying for KernelLine {
    fn copy(&self, alloc: Global) -> Result<KernelLine, NoMemory> {
        Ok(KernelLine {
            name: self.name.copy(alloc)?,
            serves: self.serves.copy(alloc)?,
        })
    }
}

/// A program of the cluster.
#[derive(Debug, PartialEq, Eq, Drop)]
pub struct ProgramLine {
    /// 1 to 16 bytes of `a` to `z` and `0` to `9`, the first a letter.
    pub name: Bytes,
    pub program: Program,
}

impl Copying for ProgramLine {
    fn copy(&self, alloc: Global) -> Result<ProgramLine, NoMemory> {
        Ok(ProgramLine {
            name: self.name.copy(alloc)?,
            program: self.program.copy(alloc)?,
        })
    }
}

/// A process that runs from the start.
#[derive(Clone, Copy, Debug, PartialEq, Eq)]
pub struct StartLine {
    /// Its home kernel.
    pub host: Kernel,
    /// The place of its program, from 1.
    pub program: u8,
    /// What its register 1 holds at the start.
    pub arg: u64,
}

impl Copying for StartLine {
    fn copy(&self, _alloc: Global) -> Result<StartLine, NoMemory> {
        Ok(*self)
    }
}

/// A file that is there from the start.
#[derive(Debug, Drop)]
pub struct FileLine {
    pub path: Path,
    pub bytes: Bytes,
    /// Whether the bytes join those of an earlier line of that path.
    pub append: bool,
}

impl Copying for FileLine {
    fn copy(&self, alloc: Global) -> Result<FileLine, NoMemory> {
        Ok(FileLine {
            path: self.path.copy(alloc)?,
            bytes: self.bytes.copy(alloc)?,
            append: self.append,
        })
    }
}

/// The foreign processes of a kernel are to leave it (Douglis and Ousterhout 1991).
#[derive(Clone, Copy, Debug, PartialEq, Eq)]
pub struct EvictLine {
    pub host: Kernel,
    /// At that call of the kernel's processes, counted from 1.
    pub after: u32,
}

impl Copying for EvictLine {
    fn copy(&self, _alloc: Global) -> Result<EvictLine, NoMemory> {
        Ok(*self)
    }
}
