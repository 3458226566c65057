use crate::bodies::{Says, body_of};
use crate::calls::{Does, Name, call_of, make_of};
use crate::told::{Told, told_of};
use crate::world::{Comes, add_servers, arrive, boot, fill, kernel, pid};
use client_files::{ClientFiles, go_on, issue, move_stream, take};
use kernel_steps::{Input, Out};
use packet_bodies::{CallbackRequest, Request};
use sprite_ids::{BlockNo, CallKind, DeviceId, FileId, Kernel, NoMemory, Pid, StreamNo, TxNo};
use std::alloc::Global;
use std::process::Abort;
use unix_calls::About;

/// What happens.
#[derive(Clone, Copy)]
pub(crate) enum Step {
    /// The process comes to a call.
    Issue(u32, Does),
    /// An answer: how many remote calls began behind the one that it answers, and the kernel that answers.
    Answer(u32, u8, Says),
    /// A remote call is given up: how many began behind it.
    GiveUp(u32),
    /// A callback of that stamp that stops caching.
    Stop(u32),
    /// A callback of that stamp that asks for dirty blocks.
    Recall(u32),
    /// The block is due.
    Due(u16),
    /// The processes' side of the kernel says this of that process.
    Inside(u32, Inside),
}

/// What the processes' side of the kernel says of a process.
#[derive(Clone, Copy)]
pub(crate) enum Inside {
    /// It makes a pseudo-device.
    Makes(Name),
    /// It arrives with a stream.
    Arrives(Comes),
    /// It is frozen, and its stream of that number moves.
    Moves(u32),
    /// It has ended.
    Ends,
    /// All its descriptors are in use from then on.
    Fills,
}

/// The client kernel, the one file, and the number of the next remote call.
#[derive(Clone, Copy)]
pub(crate) struct Cluster {
    pub client: Kernel,
    pub file: FileId,
    pub next: u32,
}

/// A step; how many remote calls, answers, replies and records it says, how many operations wait behind it, and how many
/// reports it makes; and what it says last.
pub(crate) type Row = (Step, [usize; 6], Told);

fn issued(alloc: Global, pid: Pid, does: Does) -> Result<Input, NoMemory> {
    let number = 1;
    let call = call_of(alloc, does)?;
    Ok(Input::Issued { pid, number, call })
}

fn answered(
    alloc: Global,
    at: &Cluster,
    back: u32,
    from: u8,
    says: Says,
) -> Result<Input, NoMemory> {
    let from = kernel(from)?;
    let tx = tx_at(at, back);
    let body = body_of(alloc, &at.file, says)?;
    Ok(Input::Replied { tx, from, body })
}

// The remote call behind which so many began.
fn tx_at(at: &Cluster, back: u32) -> TxNo {
    TxNo(at.next.saturating_sub(back).saturating_sub(1))
}

fn called(file: &FileId, stamp: u32, kind: CallKind) -> Input {
    Input::Request {
        tx: TxNo(1),
        from: file.server,
        body: Request::Callback(CallbackRequest {
            file: *file,
            stamp,
            kind,
        }),
    }
}

// What comes to the kernel.
fn input_of(at: &Cluster, alloc: Global, step: Step) -> Result<Input, NoMemory> {
    match step {
        Step::Issue(birth, does) => issued(alloc, pid(at.client, birth)?, does),
        Step::Answer(back, from, says) => answered(alloc, at, back, from, says),
        Step::GiveUp(back) => Ok(Input::GaveUp {
            tx: tx_at(at, back),
        }),
        Step::Stop(stamp) => Ok(called(&at.file, stamp, CallKind::Stop)),
        Step::Recall(stamp) => Ok(called(&at.file, stamp, CallKind::Recall)),
        Step::Due(block) => Ok(Input::Due {
            file: at.file,
            block: BlockNo(block),
        }),
        _ => Err(NoMemory),
    }
}

fn taken(
    files: &mut ClientFiles,
    at: &Cluster,
    alloc: Global,
    step: Step,
) -> Result<Out, NoMemory> {
    let input = input_of(at, alloc, step)?;
    let number = files.step.saturating_add(1);
    let out = take(files, alloc, &input, TxNo(at.next), number);
    drop(input);
    out
}

fn make(files: &mut ClientFiles, alloc: Global, pid: Pid, path: Name) -> Result<(), NoMemory> {
    let about = About { pid, number: 1 };
    let device = Some(DeviceId {
        kernel: files.kernel,
        number: 1,
    });
    let call = make_of(alloc, path)?;
    let made = issue(files, alloc, &about, &call, &device);
    drop(call);
    made
}

// What comes from the processes' side of the kernel.
fn from_inside(
    files: &mut ClientFiles,
    at: &Cluster,
    alloc: Global,
    pid: Pid,
    does: Inside,
) -> Result<Out, NoMemory> {
    let step = files.step.saturating_add(1);
    files.begin(alloc, TxNo(at.next), step);
    let begun = match does {
        Inside::Makes(path) => make(files, alloc, pid, path),
        Inside::Arrives(comes) => arrive(files, alloc, pid, &at.file, &comes),
        Inside::Moves(number) => {
            let kernel = files.kernel;
            let stream = StreamNo { kernel, number };
            move_stream(files, pid, &stream, at.file.server, &None)
        }
        Inside::Ends => files.close_all(alloc, pid, &None),
        Inside::Fills => fill(&mut files.streams, pid),
    };
    begun?;
    go_on(files, alloc)?;
    Ok(files.end(alloc))
}

// Whether the step says what the row says.
fn is_so(
    files: &mut ClientFiles,
    at: &mut Cluster,
    alloc: Global,
    row: &Row,
) -> Result<bool, NoMemory> {
    let out = match row.0 {
        Step::Inside(birth, does) => from_inside(files, at, alloc, pid(at.client, birth)?, does)?,
        _ => taken(files, at, alloc, row.0)?,
    };
    at.next = out.next.0;
    let counts = [
        out.sends.len(),
        out.answers.len(),
        out.replies.len(),
        out.events.len(),
        files.pending.len(),
        files.results.len(),
    ];
    let so = counts.as_slice() == row.1.as_slice()
        && told_of(&out, files.results.as_slice()) == row.2;
    files.results.truncate(0);
    drop(out);
    Ok(so)
}

fn first_wrong(
    files: &mut ClientFiles,
    at: &mut Cluster,
    alloc: Global,
    rows: &[Row],
) -> Option<usize> {
    if add_servers(&mut files.servers).is_err() {
        return Some(0);
    }
    for (place, row) in rows.iter().enumerate() {
        if !matches!(is_so(files, at, alloc, row), Ok(true)) {
            return Some(place);
        }
    }
    None
}

/// The place of the first row that says something else, at a kernel of its own, of a cluster of that version; the first place
/// where there is no such kernel.
pub(crate) fn first_other(alloc: Global, version: u8, rows: &[Row]) -> Option<usize> {
    let (Ok(server), Ok(client)) = (kernel(1), kernel(2)) else {
        return Some(0);
    };
    let file = FileId { server, number: 1 };
    let mut at = Cluster {
        client,
        file,
        next: 1,
    };
    match boot(alloc, version, client) {
        Ok(mut files) => {
            let other = first_wrong(&mut files, &mut at, alloc, rows);
            drop(files);
            other
        }
        Err(_) => Some(0),
    }
}

/// Asserts that no row is another, and tells the place of the one that is.
pub(crate) fn is_none(rt: &impl Abort, other: Option<usize>) {
    assert_eq!(rt; other, None);
}
