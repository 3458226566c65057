use crate::bodies::{Says, Wants, answer_of, request_of};
use crate::told::{Said, says};
use crate::words::{Does, call_of, pid};
use crate::world::{client, image_away, kernel};
use client_procs::{ClientProcs, number, set_image, take};
use kernel_steps::{Input, Out};
use sprite_ids::{NoMemory, Pid, TxNo};
use std::alloc::Global;
use std::process::Abort;

/// What happens.
#[derive(Clone, Copy)]
pub(crate) enum Step {
    /// The process comes to its next call.
    Issue(u64, Does),
    /// Another client asks something by a remote call of that number.
    Asked(u32, Wants),
    /// The client's own remote call of that number, counted from 1, is answered by that kernel.
    Answer(u32, u8, Says),
    /// The client's own remote call of that number is given up.
    GiveUp(u32),
    /// The process has run until its page is away, behind its one instruction, and comes to that page.
    Needs(u64),
    /// The process comes to the call that it came to last.
    Again(u64, Does),
    /// The process comes to that page, as its image is.
    Turns(u64, u8),
}

/// A step; how many records it makes, and how many processes are kept behind it, how many leave, and how many remote calls for
/// processes have no answer; and what it says.
pub(crate) type Row = (Step, [usize; 4], Said);

// How many processes are kept.
fn count_kept(client: &ClientProcs, alloc: Global) -> Result<usize, NoMemory> {
    let pids = client.procs.keys(alloc)?;
    let mut kept = 0_usize;
    for pid in pids.as_slice() {
        if number(client, *pid).is_some() {
            kept = kept.saturating_add(1);
        }
    }
    Ok(kept)
}

// Whether the step said so.
fn is_said(client: &ClientProcs, alloc: Global, out: &Out, row: &Row) -> Result<bool, NoMemory> {
    let counts = [
        out.events.len(),
        count_kept(client, alloc)?,
        client.leaving.len(),
        client.unfinished.len(),
    ];
    Ok(counts.as_slice() == row.1.as_slice() && says(alloc, out, row.2)?)
}

fn issued(alloc: Global, pid: Pid, number: u32, does: Does) -> Result<Input, NoMemory> {
    let call = call_of(alloc, does)?;
    Ok(Input::Issued { pid, number, call })
}

fn asked(alloc: Global, tx: u32, wants: Wants) -> Result<Input, NoMemory> {
    let tx = TxNo(tx);
    let from = kernel(3)?;
    let body = request_of(alloc, wants)?;
    Ok(Input::Request { tx, from, body })
}

fn answered(alloc: Global, tx: u32, from: u8, says: Says) -> Result<Input, NoMemory> {
    let tx = TxNo(tx);
    let from = kernel(from)?;
    let body = answer_of(alloc, says)?;
    Ok(Input::Replied { tx, from, body })
}

// What comes to the kernel.
fn input_of(client: &mut ClientProcs, alloc: Global, step: Step) -> Result<Input, NoMemory> {
    match step {
        Step::Issue(who, does) => {
            let pid = pid(who)?;
            let last = number(client, pid).ok_or(NoMemory)?;
            issued(alloc, pid, last.saturating_add(1), does)
        }
        Step::Again(who, does) => {
            let pid = pid(who)?;
            let last = number(client, pid).ok_or(NoMemory)?;
            issued(alloc, pid, last, does)
        }
        Step::Asked(tx, wants) => asked(alloc, tx, wants),
        Step::Answer(tx, from, says) => answered(alloc, tx, from, says),
        Step::GiveUp(tx) => Ok(Input::GaveUp { tx: TxNo(tx) }),
        Step::Needs(who) => {
            let pid = pid(who)?;
            set_image(client, pid, image_away(alloc, 1)?);
            Ok(Input::PageNeeded { pid, page: 0 })
        }
        Step::Turns(who, page) => {
            let pid = pid(who)?;
            Ok(Input::PageNeeded { pid, page })
        }
    }
}

// Whether the step says what the row says; the next remote call has that number.
fn is_so(
    client: &mut ClientProcs,
    next: &mut TxNo,
    alloc: Global,
    row: &Row,
) -> Result<bool, NoMemory> {
    let input = input_of(client, alloc, row.0)?;
    let step = client.files.step.saturating_add(1);
    let stepped = take(client, alloc, &input, *next, step);
    drop(input);
    match stepped {
        Ok(out) => {
            *next = out.next;
            let so = is_said(client, alloc, &out, row);
            drop(out);
            so
        }
        Err(error) => Err(error),
    }
}

fn first_wrong(client: &mut ClientProcs, alloc: Global, rows: &[Row]) -> Option<usize> {
    let mut next = TxNo(1);
    for (place, row) in rows.iter().enumerate() {
        if !matches!(is_so(client, &mut next, alloc, row), Ok(true)) {
            return Some(place);
        }
    }
    None
}

/// The place of the first row that says something else, at a client of its own, which foreign processes are to leave at the call
/// of that number; the first place where there is no client.
pub(crate) fn first_other(alloc: Global, after: u32, rows: &[Row]) -> Option<usize> {
    match client(alloc, after) {
        Ok(mut client) => {
            let other = first_wrong(&mut client, alloc, rows);
            drop(client);
            other
        }
        Err(_) => Some(0),
    }
}

/// Asserts that no row is another, and tells the place of the one that is.
pub(crate) fn is_none(rt: &impl Abort, other: Option<usize>) {
    assert_eq!(rt; other, None);
}
