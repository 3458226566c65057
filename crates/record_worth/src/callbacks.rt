ghost use Rattle.std.specs.Prelude.{◌≡◌, ◌+◌, [], IfOk, OnOk};
ghost use Rattle.record_worth.specs.Parts.{callbacks_are_first, calls_well};
ghost use Rattle.record_worth.specs.Callbacks.{CallsOn, CountsOpen, PutsCall, TellsCalls, is_called_in, is_open_in, may_call, open_count};
ghost use Rattle.record_worth.specs.CallbackLaws.{calls_told, calls_told_on};

use indexmap::IndexMap;
use sprite_ids::{FileId, Kernel, NoMemory};
use std::alloc::Global;
use trace_rules::{FileAt, LooksBack, each_keeps};
use unix_calls::{Description, Event, Rec, SendKind};

/// Whether callbacks and fetches of the trace are of files that were opened, and at most one callback goes to each kernel between two
/// opens of its file (this project). The one error is want of memory.
pub fn callbacks_are_first(alloc: Global, c: &Description, trace: &[Rec]) -> Result<bool, NoMemory>
    ensures { IfOk result (λ kept. kept ≡ callbacks_are_first c.now trace.now) }
{
    let mut judge = no_calls(alloc);
    each_keeps(alloc, c, &mut judge, trace)
}

/// How often each file was opened, and how often it had been at its last callback to each kernel so far (this project).
#[derive(Drop)]
pub(crate) struct Calls {
    pub(crate) opens: IndexMap<FileId, u64>,
    pub(crate) called: IndexMap<FileAt, u64>,
}

fn no_calls(alloc: Global) -> Calls
    ensures opens { result.opens.entries ≡ [] }
    ensures called { result.called.entries ≡ [] }
{
    Calls {
        opens: IndexMap::new(alloc),
        called: IndexMap::new(alloc),
    }
}

impl LooksBack for Calls {
    ghost test = { λ c past rec. calls_well past rec.event };

    ghost tells = { λ judge past. TellsCalls judge past.records };

    ghost fits = { λ c judge rec. may_call judge rec.event };

    ghost goes_on = { λ rec old new. CallsOn rec.event old new };

    fn fits(&self, _alloc: Global, _c: &Description, rec: &Rec) -> Result<bool, NoMemory> {
        match &rec.event {
            Event::Callback { file, to, .. } => {
                Ok(!is_called(self, file, *to) && is_open(&self.opens, file))
            }
            Event::Send {
                kind: SendKind::Fetch { file, .. },
                ..
            } => Ok(is_open(&self.opens, file)),
            _ => Ok(true),
        }
    }

    fn go_on(&mut self, _alloc: Global, rec: &Rec) -> Result<(), NoMemory> {
        match &rec.event {
            Event::Opened { file, .. } => count_open(&mut self.opens, file),
            Event::Callback { file, to, .. } => put_call(&mut self.called, &self.opens, file, *to),
            _ => Ok(()),
        }
    }

    ghost is_told = { calls_told };

    ghost tells_on = { calls_told_on };
}

// Whether the file was called back to the kernel since it was last opened.
fn is_called(judge: &Calls, file: &FileId, to: Kernel) -> bool
    ensures { result ≡ is_called_in judge.now (record { kernel = to; file = file.now }) }
{
    let at = FileAt {
        kernel: to,
        file: *file,
    };
    match judge.called.get(&at) {
        Some(count) => *count == open_count(&judge.opens, file),
        None => false,
    }
}

fn is_open(opens: &IndexMap<FileId, u64>, file: &FileId) -> bool
    ensures { result ≡ is_open_in opens.now.entries file.now }
{
    open_count(opens, file) >= 1
}

// How often the file was opened.
fn open_count(opens: &IndexMap<FileId, u64>, file: &FileId) -> u64
    ensures { result ≡ open_count opens.now.entries file.now }
{
    match opens.get(file) {
        Some(count) => *count,
        None => 0,
    }
}

// It is opened once more.
fn count_open(opens: &mut IndexMap<FileId, u64>, file: &FileId) -> Result<(), NoMemory>
    ensures { OnOk result (CountsOpen file.now opens.old.entries opens.new.entries) }
{
    let more = one_more(open_count(opens, file))?;
    opens.insert(*file, more)?;
    Ok(())
}

// It is called back to that kernel.
fn put_call(
    called: &mut IndexMap<FileAt, u64>,
    opens: &IndexMap<FileId, u64>,
    file: &FileId,
    to: Kernel,
) -> Result<(), NoMemory>
    ensures { OnOk result (PutsCall (record { kernel = to; file = file.now }) (open_count opens.now.entries file.now) called.old.entries called.new.entries) }
{
    let at = FileAt {
        kernel: to,
        file: *file,
    };
    called.insert(at, open_count(opens, file))?;
    Ok(())
}

// One more. The one error is that there were 2^64, which no trace has.
fn one_more(count: u64) -> Result<u64, NoMemory>
    ensures { IfOk result (λ next. next ≡ count + 1) }
{
    count.checked_add(1).ok_or(NoMemory)
}
