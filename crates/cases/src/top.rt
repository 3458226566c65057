//! The top call, over a source and a sink in memory.

use kernel_threads::Watch;
use link_plan::PlanLink;
use sprite_bytes::{MemSink, MemSource};
use sprite_ids::{Bytes, NoMemory};
use sprite_top::{Ended, Status, sprite};
use std::alloc::Global;
use std::sync::Wait;
use std::thread::Threads;
use trace_text::print_trace;

/// How a source gives and fails, and how a sink takes and fails.
#[derive(Clone, Copy)]
pub struct Device {
    /// How many bytes a read gives at most, from 1.
    pub gives: usize,
    /// The number of the read that fails, from 1; none where it is 0.
    pub read_fails: u64,
    /// How many bytes a write takes at most, from 1.
    pub takes: usize,
    /// The number of the write that fails, from 1; none where it is 0.
    pub write_fails: u64,
}

/// A source and a sink that never fail, and give and take all at once.
pub const SOUND: Device = Device {
    gives: 65_536,
    read_fails: 0,
    takes: 65_536,
    write_fails: 0,
};

/// How many bytes are written at most.
const MOST: usize = 4_194_304;

/// What a call of the program left.
#[derive(Drop)]
pub struct Left {
    pub status: Status,
    /// How many records the trace of the run has, if one was made.
    pub records: Option<usize>,
    /// The trace's lines; none where nothing was run.
    pub trace: Bytes,
    pub written: String,
}

/// What the call with these words on a file over that device leaves. The one error is want of memory.
pub fn called<R: Threads + Wait + Sync, W: Watch + Sync>(
    threads: &R,
    alloc: Global,
    words: &[&str],
    file: Vec<u8>,
    device: Device,
    watch: &W,
) -> Result<Left, NoMemory> {
    let mut source = source(alloc, file, device)?;
    let mut sink = sink(alloc, device)?;
    let words = spelled(alloc, words)?;
    let link = PlanLink::new(alloc);
    let ended = sprite(
        threads,
        alloc,
        words.as_slice(),
        &mut source,
        &mut sink,
        link,
        watch,
    );
    left_by(alloc, &ended, sink)
}

fn source(alloc: Global, file: Vec<u8>, device: Device) -> Result<MemSource, NoMemory> {
    let failing = Vec::from_slice(alloc, &[device.read_fails])?;
    Ok(MemSource::in_pieces(file, device.gives.max(1), failing))
}

fn sink(alloc: Global, device: Device) -> Result<MemSink, NoMemory> {
    let failing = Vec::from_slice(alloc, &[device.write_fails])?;
    MemSink::new(alloc, MOST, device.takes.max(1), failing)
}

/// The words, each as a text of its own.
fn spelled(alloc: Global, words: &[&str]) -> Result<Vec<String>, NoMemory> {
    let mut spelled = Vec::new(alloc);
    for word in words {
        spelled.push(String::from_str(alloc, word)?)?;
    }
    Ok(spelled)
}

fn left_by(alloc: Global, ended: &Ended<PlanLink>, sink: MemSink) -> Result<Left, NoMemory> {
    let written = String::from_utf8_lossy(alloc, sink.into_vec().as_slice())?;
    let trace = trace_of(alloc, ended)?;
    Ok(Left {
        status: ended.status,
        records: records_of(ended),
        trace,
        written,
    })
}

fn records_of(ended: &Ended<PlanLink>) -> Option<usize> {
    match &ended.closed {
        Some(run) => Some(run.trace.records().len()),
        None => None,
    }
}

/// The trace's lines; none where nothing was run.
fn trace_of(alloc: Global, ended: &Ended<PlanLink>) -> Result<Bytes, NoMemory> {
    match &ended.closed {
        Some(closed) => Ok(Bytes::of_vec(print_trace(alloc, closed.trace.records())?)),
        None => Ok(Bytes::of_vec(Vec::new(alloc))),
    }
}
