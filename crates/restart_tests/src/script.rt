use file_views::{Entered, FileBody, FileStep};
use restart_views::{Outcome, RestartStep};
use server_restart::Restartable;
use sprite_ids::{Bytes, Items, Kernel, Mode, NoMemory, Pid, StreamNo};
use std::alloc::Global;

/// A step, with kernels and streams by their numbers: stream 2 of kernel 1 is the second that it opened.
#[derive(Clone, Copy)]
pub enum Act {
    Open(u8, u32, Mode),
    Empty(u8, u32, Mode),
    Close(u8, u32),
    Read(u8, u32, u32, u32),
    Write(u8, u32, u32, &'static [u8]),
    Comes(u32),
    Settle,
    Stop,
    Claim(u8),
}

/// What is told: a claim of a kernel that is granted at a version, or refused with its own version and the server's; or the bytes that
/// a kernel reads.
#[derive(Clone, Copy)]
pub enum Told {
    Granted(u8, u32),
    Refused(u8, u32, u32),
    Read(u8, &'static [u8]),
}

fn kernel(number: u8) -> Result<Kernel, NoMemory> {
    Kernel::new(number).ok_or(NoMemory)
}

fn pid(home: Kernel) -> Result<Pid, NoMemory> {
    Pid::new(home, 1).ok_or(NoMemory)
}

fn opening(at: u8, number: u32, mode: Mode, truncate: bool) -> Result<FileStep, NoMemory> {
    let kernel = kernel(at)?;
    Ok(FileStep::Opening {
        pid: pid(kernel)?,
        number: 1,
        kernel,
        stream: StreamNo { kernel, number },
        mode,
        truncate,
    })
}

fn closing(at: u8, number: u32) -> Result<FileStep, NoMemory> {
    let kernel = kernel(at)?;
    Ok(FileStep::Closing {
        kernel,
        stream: StreamNo { kernel, number },
    })
}

fn reading(at: u8, number: u32, from: u32, length: u32) -> Result<FileStep, NoMemory> {
    let kernel = kernel(at)?;
    Ok(FileStep::Reading {
        pid: pid(kernel)?,
        number: 1,
        kernel,
        stream: StreamNo { kernel, number },
        from,
        length,
    })
}

fn writing(
    alloc: Global,
    at: u8,
    number: u32,
    from: u32,
    bytes: &[u8],
) -> Result<FileStep, NoMemory> {
    let kernel = kernel(at)?;
    Ok(FileStep::Writing {
        pid: pid(kernel)?,
        number: 1,
        kernel,
        stream: StreamNo { kernel, number },
        from,
        bytes: Bytes::of_slice(alloc, bytes)?,
    })
}

fn of_file(step: FileStep) -> RestartStep {
    RestartStep::File { step }
}

fn step_of(alloc: Global, act: Act) -> Result<RestartStep, NoMemory> {
    match act {
        Act::Open(at, number, mode) => Ok(of_file(opening(at, number, mode, false)?)),
        Act::Empty(at, number, mode) => Ok(of_file(opening(at, number, mode, true)?)),
        Act::Close(at, number) => Ok(of_file(closing(at, number)?)),
        Act::Read(at, number, from, length) => Ok(of_file(reading(at, number, from, length)?)),
        Act::Write(at, number, from, bytes) => {
            Ok(of_file(writing(alloc, at, number, from, bytes)?))
        }
        Act::Comes(call) => Ok(of_file(FileStep::Delivering { call })),
        Act::Settle => Ok(RestartStep::Settle),
        Act::Stop => Ok(RestartStep::Stop),
        Act::Claim(at) => Ok(RestartStep::Claim {
            kernel: kernel(at)?,
        }),
    }
}

fn steps_of(alloc: Global, acts: &[Act]) -> Result<Items<RestartStep>, NoMemory> {
    let mut steps = Items::new(alloc);
    for act in acts {
        steps.push(step_of(alloc, *act)?)?;
    }
    Ok(steps)
}

fn gives(one: &Entered, wanted: &[u8]) -> bool {
    match &one.reply {
        FileBody::Value { bytes, .. } => bytes.as_slice() == wanted,
        _ => false,
    }
}

fn is_read(one: &Entered) -> bool {
    match &one.step {
        FileStep::Reading { .. } => true,
        _ => false,
    }
}

fn reader(one: &Entered) -> u8 {
    match &one.step {
        FileStep::Reading { kernel, .. } => kernel.number(),
        _ => 0,
    }
}

// Whether the outcome is one that is told: a claim's, or a reading.
fn is_told(outcome: &Outcome) -> bool {
    match outcome {
        Outcome::Event { entered } => is_read(entered),
        _ => true,
    }
}

fn is(outcome: &Outcome, told: Told) -> bool {
    match outcome {
        Outcome::Event { entered } => match told {
            Told::Read(at, bytes) => reader(entered) == at && gives(entered, bytes),
            _ => false,
        },
        Outcome::Granted { kernel, version } => match told {
            Told::Granted(at, wanted) => kernel.number() == at && *version == wanted,
            _ => false,
        },
        Outcome::Refused {
            kernel,
            own,
            server,
        } => match told {
            Told::Refused(at, mine, theirs) => {
                kernel.number() == at && *own == mine && *server == theirs
            }
            _ => false,
        },
    }
}

// Whether what is told among the outcomes is this.
fn are(outcomes: &[Outcome], told: &[Told]) -> bool {
    let mut at = 0;
    for outcome in outcomes {
        if is_told(outcome) {
            if at >= told.len() || !is(outcome, told[at]) {
                return false;
            }
            at += 1;
        }
    }
    at == told.len()
}

fn file_of(alloc: Global, kernels: u8, first: &[u8]) -> Result<Restartable, NoMemory> {
    if kernels < 1 || kernels > 15 || first.len() > 262_144 {
        return Err(NoMemory);
    }
    Restartable::new(alloc, kernels, Bytes::of_slice(alloc, first)?)
}

/// A run: how many clients there are, the first bytes, what happens, what is told, and the server's version and bytes at the end.
pub struct Run {
    pub kernels: u8,
    pub first: &'static [u8],
    pub acts: &'static [Act],
    pub told: &'static [Told],
    pub version: u32,
    pub bytes: &'static [u8],
}

fn ends(alloc: Global, run: &Run) -> Result<bool, NoMemory> {
    let mut file = file_of(alloc, run.kernels, run.first)?;
    let steps = steps_of(alloc, run.acts)?;
    let outcomes = file.play(alloc, steps.as_slice())?;
    let view = file.view();
    let ends = view.version == run.version && view.bytes.as_slice() == run.bytes;
    Ok(ends && are(outcomes.as_slice(), run.told))
}

/// Whether the run tells and ends as it says.
pub fn goes_so(alloc: Global, run: &Run) -> bool {
    match ends(alloc, run) {
        Ok(goes) => goes,
        Err(_) => false,
    }
}
