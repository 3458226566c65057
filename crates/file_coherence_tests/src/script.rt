use file_coherence::OneFile;
use file_views::{Entered, FileBody, FileStep};
use sprite_ids::{BlockNo, Bytes, Errno, Items, Kernel, Mode, NoMemory, Pid, StreamNo};
use std::alloc::Global;

/// A step of one file, with kernels and streams by their numbers: the stream `(1, 2)` is the second one that kernel 1 opened.
#[derive(Clone, Copy)]
pub enum Act {
    Open(u8, u32, Mode),
    Empty(u8, u32, Mode),
    Close(u8, (u8, u32)),
    Move((u8, u32), u8, u8, bool),
    Read(u8, (u8, u32), u32, u32),
    Write(u8, (u8, u32), u32, &'static [u8]),
    Append(u8, (u8, u32), &'static [u8]),
    Back(u8, u16),
    Comes(u32),
    Expires(u32),
}

/// What takes effect, and where: a kernel, and the answer.
#[derive(Clone, Copy)]
pub enum Effect {
    Opened(u8),
    Read(u8, &'static [u8]),
    Wrote(u8, u64),
    TooBig(u8),
}

fn kernel(number: u8) -> Result<Kernel, NoMemory> {
    Kernel::new(number).ok_or(NoMemory)
}

fn stream(id: (u8, u32)) -> Result<StreamNo, NoMemory> {
    Ok(StreamNo {
        kernel: kernel(id.0)?,
        number: id.1,
    })
}

fn opening(at: u8, number: u32, mode: Mode, truncate: bool) -> Result<FileStep, NoMemory> {
    let home = kernel(at)?;
    let pid = Pid::new(home, 1).ok_or(NoMemory)?;
    Ok(FileStep::Opening {
        pid,
        number: 1,
        kernel: home,
        stream: StreamNo {
            kernel: home,
            number,
        },
        mode,
        truncate,
    })
}

fn closing(at: u8, id: (u8, u32)) -> Result<FileStep, NoMemory> {
    Ok(FileStep::Closing {
        kernel: kernel(at)?,
        stream: stream(id)?,
    })
}

fn moving(id: (u8, u32), from: u8, to: u8, kept: bool) -> Result<FileStep, NoMemory> {
    Ok(FileStep::Moving {
        stream: stream(id)?,
        from: kernel(from)?,
        to: kernel(to)?,
        kept,
    })
}

fn reading(at: u8, id: (u8, u32), from: u32, length: u32) -> Result<FileStep, NoMemory> {
    let place = kernel(at)?;
    let pid = Pid::new(place, 1).ok_or(NoMemory)?;
    Ok(FileStep::Reading {
        pid,
        number: 1,
        kernel: place,
        stream: stream(id)?,
        from,
        length,
    })
}

fn writing(
    alloc: Global,
    at: u8,
    id: (u8, u32),
    from: u32,
    bytes: &[u8],
) -> Result<FileStep, NoMemory> {
    let place = kernel(at)?;
    let pid = Pid::new(place, 1).ok_or(NoMemory)?;
    let stream = stream(id)?;
    Ok(FileStep::Writing {
        pid,
        number: 1,
        kernel: place,
        stream,
        from,
        bytes: Bytes::of_slice(alloc, bytes)?,
    })
}

fn appending(alloc: Global, at: u8, id: (u8, u32), bytes: &[u8]) -> Result<FileStep, NoMemory> {
    let place = kernel(at)?;
    let pid = Pid::new(place, 1).ok_or(NoMemory)?;
    let stream = stream(id)?;
    Ok(FileStep::Append {
        pid,
        number: 1,
        kernel: place,
        stream,
        bytes: Bytes::of_slice(alloc, bytes)?,
    })
}

fn sending_back(at: u8, block: u16) -> Result<FileStep, NoMemory> {
    Ok(FileStep::WritingBack {
        kernel: kernel(at)?,
        block: BlockNo(block),
    })
}

fn step_of(alloc: Global, act: Act) -> Result<FileStep, NoMemory> {
    match act {
        Act::Open(at, number, mode) => opening(at, number, mode, false),
        Act::Empty(at, number, mode) => opening(at, number, mode, true),
        Act::Close(at, id) => closing(at, id),
        Act::Move(id, from, to, kept) => moving(id, from, to, kept),
        Act::Read(at, id, from, length) => reading(at, id, from, length),
        Act::Write(at, id, from, bytes) => writing(alloc, at, id, from, bytes),
        Act::Append(at, id, bytes) => appending(alloc, at, id, bytes),
        Act::Back(at, block) => sending_back(at, block),
        Act::Comes(call) => Ok(FileStep::Delivering { call }),
        Act::Expires(call) => Ok(FileStep::Expiring { call }),
    }
}

fn steps_of(alloc: Global, acts: &[Act]) -> Result<Items<FileStep>, NoMemory> {
    let mut steps = Items::new(alloc);
    for act in acts {
        steps.push(step_of(alloc, *act)?)?;
    }
    Ok(steps)
}

fn is_opening(step: &FileStep) -> bool {
    match step {
        FileStep::Opening { .. } => true,
        _ => false,
    }
}

fn gives(reply: &FileBody, wanted: &[u8]) -> bool {
    match reply {
        FileBody::Value { first, bytes, .. } => {
            *first == wanted.len() as u64 && bytes.as_slice() == wanted
        }
        _ => false,
    }
}

fn counts(reply: &FileBody, count: u64) -> bool {
    match reply {
        FileBody::Value { first, bytes, .. } => *first == count && bytes.is_empty(),
        _ => false,
    }
}

fn is_too_big(reply: &FileBody) -> bool {
    match reply {
        FileBody::Refused { errno } => *errno == Errno::TooBig,
        _ => false,
    }
}

fn is_read(step: &FileStep) -> bool {
    match step {
        FileStep::Reading { .. } => true,
        _ => false,
    }
}

fn is(one: &Entered, effect: Effect) -> bool {
    let place = one.kernel.number();
    match effect {
        Effect::Opened(at) => place == at && is_opening(&one.step),
        Effect::Read(at, bytes) => place == at && is_read(&one.step) && gives(&one.reply, bytes),
        Effect::Wrote(at, count) => {
            place == at && !is_read(&one.step) && counts(&one.reply, count)
        }
        Effect::TooBig(at) => place == at && is_too_big(&one.reply),
    }
}

fn are(entered: &[Entered], effects: &[Effect]) -> bool {
    if entered.len() != effects.len() {
        return false;
    }
    for (at, one) in entered.iter().enumerate() {
        if !is(one, effects[at]) {
            return false;
        }
    }
    true
}

// Whether the steps, played, have these effects.
fn has_effects(alloc: Global, file: &mut OneFile, acts: &[Act], effects: &[Effect]) -> bool {
    let Ok(steps) = steps_of(alloc, acts) else {
        return false;
    };
    match file.play(alloc, steps.as_slice()) {
        Ok(entered) => are(entered.as_slice(), effects),
        Err(_) => false,
    }
}

// A new file of two clients.
fn file_of(alloc: Global, first: &[u8]) -> Result<OneFile, NoMemory> {
    if first.len() > 262_144 {
        return Err(NoMemory);
    }
    OneFile::new(alloc, 2, Bytes::of_slice(alloc, first)?)
}

/// Whether the run on a new file of these bytes and two clients has these effects.
pub fn plays(alloc: Global, first: &[u8], acts: &[Act], effects: &[Effect]) -> bool {
    let Ok(mut file) = file_of(alloc, first) else {
        return false;
    };
    let plays = has_effects(alloc, &mut file, acts, effects);
    std::mem::drop(file);
    plays
}

/// Whether a second part of the run has its effects too, on the file of the view that the first part led to.
pub fn goes_on(
    alloc: Global,
    first: &[u8],
    acts: &[Act],
    rest: &[Act],
    effects: &[Effect],
) -> bool {
    let Ok(mut file) = file_of(alloc, first) else {
        return false;
    };
    if !plays_all(alloc, &mut file, acts) {
        return false;
    }
    let mut same = OneFile::of_view(file.into_view());
    let goes_on = has_effects(alloc, &mut same, rest, effects);
    std::mem::drop(same);
    goes_on
}

/// Whether the run on a file of that many zeros and two clients has these effects.
pub fn plays_on_zeros(alloc: Global, count: usize, acts: &[Act], effects: &[Effect]) -> bool {
    let mut first = Vec::new(alloc);
    match first.resize(count, 0) {
        Ok(()) => plays(alloc, first.as_slice(), acts, effects),
        Err(_) => false,
    }
}

// Plays the steps, whatever effects they have.
fn plays_all(alloc: Global, file: &mut OneFile, acts: &[Act]) -> bool {
    match steps_of(alloc, acts) {
        Ok(steps) => file.play(alloc, steps.as_slice()).is_ok(),
        Err(_) => false,
    }
}

// Whether the file has that version.
fn has_version(file: &OneFile, version: u32) -> bool {
    file.view().version == version
}

/// Whether the file of one byte has that version after the run.
pub fn leads_to_version(alloc: Global, acts: &[Act], version: u32) -> bool {
    let Ok(mut file) = file_of(alloc, b"x") else {
        return false;
    };
    let leads = plays_all(alloc, &mut file, acts) && has_version(&file, version);
    std::mem::drop(file);
    leads
}
