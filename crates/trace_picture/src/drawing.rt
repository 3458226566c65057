ghost use Rattle.std.specs.Prelude.{◌≡◌, ◌≤◌, ◌+◌, IfOk, IfSome, length};
ghost use Rattle.trace_picture.specs.Outcomes.{ComesTo, FileComesTo, RecordsComeTo, TraceComesTo, shown_of};

use crate::asking::Asked;
use crate::outcome::Outcome;
use cluster_file::{FileEnd, read_description};
use picture_drawing::{Wanted, picture};
use sprite_ids::{Bytes, Copying, NoMemory};
use std::alloc::Global;
use text_lines::parts_of;
use trace_text::{TraceError, read_trace};
use unix_calls::{Description, Rec};

/// How many records a picture shows at most.
const MOST_RECORDS: u64 = 20_000;

/// Draws a text: a printed trace, or a cluster file, a line `=====` and a trace, whose lanes have names then. The one error is want of
/// memory.
pub(crate) fn draw(alloc: Global, asked: Asked, text: &[u8]) -> Result<Outcome, NoMemory>
    ensures { IfOk result (ComesTo asked text.now) }
{
    match parts_of(text) {
        None => draw_trace(alloc, asked, &[], text),
        Some((file, trace)) => draw_file(alloc, asked, file, trace),
    }
}

// Draws a trace of a described cluster.
#[tactic(auto, using(crate::proofs::OutcomeLaws::file_comes))]
fn draw_file(alloc: Global, asked: Asked, file: &[u8], trace: &[u8]) -> Result<Outcome, NoMemory>
    ensures { IfOk result (FileComesTo asked file.now trace.now) }
{
    match read_description(alloc, file) {
        Ok(cluster) => {
            let names = names_of(alloc, &cluster)?;
            draw_trace(alloc, asked, names.as_slice(), trace)
        }
        Err(FileEnd::Refused(refusal)) => Ok(Outcome::Refused(refusal)),
        Err(FileEnd::NoMemory) => Err(NoMemory),
    }
}

// The kernels' names, in their order.
fn names_of(alloc: Global, cluster: &Description) -> Result<Vec<Bytes>, NoMemory> {
    let mut names = Vec::new(alloc);
    for kernel in cluster.kernels.as_slice() {
        names.push(kernel.name.copy(alloc)?)?;
    }
    Ok(names)
}

// Draws a trace.
#[tactic(auto, using(crate::proofs::OutcomeLaws::trace_comes))]
fn draw_trace(
    alloc: Global,
    asked: Asked,
    names: &[Bytes],
    text: &[u8],
) -> Result<Outcome, NoMemory>
    ensures { IfOk result (TraceComesTo asked text.now) }
{
    match read_trace(alloc, text) {
        Ok(trace) => draw_records(alloc, asked, names, trace.records(), stop_of(text)),
        Err(TraceError::Line(number)) => Ok(Outcome::BadLine(number)),
        Err(TraceError::NoMemory) => Err(NoMemory),
    }
}

// Why a run stopped, as the last line of its trace tells; empty where it ended.
fn stop_of(text: &[u8]) -> &'static [u8] {
    if text.ends_with(b"budget\n") {
        b"budget"
    } else if text.ends_with(b"stalled\n") {
        b"stalled"
    } else {
        b""
    }
}

// Draws the records of a trace.
fn draw_records(
    alloc: Global,
    asked: Asked,
    names: &[Bytes],
    records: &[Rec],
    stop: &[u8],
) -> Result<Outcome, NoMemory>
    ensures { IfOk result (RecordsComeTo asked records.now) }
{
    let total = records.len() as u64;
    let Some((first, count)) = shown_of(asked.range, total) else {
        return Ok(Outcome::Few(total));
    };
    if MOST_RECORDS < count {
        return Ok(Outcome::Many(count));
    }
    let wanted = Wanted {
        first: first as usize,
        count: count as u16,
        file: asked.file,
        names,
        stop,
    };
    let text = picture(alloc, records, &wanted)?;
    Ok(Outcome::Drawn(text))
}

// The number of the first record that is shown, and how many are; None where the trace has none of them.
fn shown_of(range: Option<(u64, u64)>, total: u64) -> Option<(u64, u64)>
    ensures value { result ≡ shown_of range total }
    ensures within { IfSome result (λ shown. (1 ≤ shown.0) × (shown.0 + shown.1 ≤ total + 1)) }
{
    let Some((first, last)) = range else {
        return Some((1, total));
    };
    if first < 1 || total < first || last < first {
        return None;
    }
    Some((first, last.min(total) - (first - 1)))
}
