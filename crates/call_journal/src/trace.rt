ghost use Rattle.std.specs.Prelude.{◌≡◌, ◌≤◌, ◌+◌, ◌∷◌, ◌++◌, [], IfOk, IfSome, OnOk, OnErr, vec_capacity, vec_len};
ghost use Rattle.call_journal.specs.Journal.{journal_of, records_by};
ghost use Rattle.call_journal.specs.Units.{units_of};
ghost use Rattle.call_journal.specs.Counts.{AreCounts, tally_after};

use crate::counts::Tally;
use sprite_ids::{Copying, Items, Kernel, NoMemory};
use std::alloc::Global;
use std::marker::Model;
use unix_calls::{Entry, Event, Rec};

/// The records of a run, in the order in which they came to be. Contracts see the trace as their list (this project).
#[derive(Debug, Drop)]
pub struct Trace {
    records: Vec<Rec>,
    tally: Tally,
}

impl Model for Trace {
    ghost use Rattle.std.specs.Prelude.{List};
    ghost use Rattle.unix_calls.specs.declared.event.Rec.{Rec};
    ghost use Rattle.call_journal.specs.Counts.{AreTold};

    ghost Value = { List Rec };

    ghost view = { λ trace. trace.records.items };

    ghost invariant = { λ trace. AreTold trace.records.items trace.tally };
}

impl Trace {
    /// No records.
    pub fn new(alloc: Global) -> Trace
        ensures { result ≡ [] }
    {
        Trace {
            records: Vec::new(alloc),
            tally: Tally::new(),
        }
    }

    /// Puts a record at the end. After want of memory, the one error, the trace is as before; it also comes where the units are
    /// more than a number of 64 bits tells, which no memory holds.
    pub fn push(&mut self, rec: Rec) -> Result<(), NoMemory>
        ensures ok { OnOk result (self.new ≡ self.old ++ rec ∷ []) }
        ensures err { OnErr result (self.new ≡ self.old) }
    {
        let Some(tally) = self.tally.with(&rec.event) else {
            return Err(NoMemory);
        };
        self.records.push(rec)?;
        self.tally = tally;
        Ok(())
    }

    /// Puts records of what a kernel did at the end, in their order. After want of memory, the one error, the trace is as before; it
    /// also comes where the units are more than a number of 64 bits tells, which no memory holds.
    pub fn append(&mut self, kernel: Kernel, told: Items<Event>) -> Result<(), NoMemory>
        ensures ok { OnOk result (self.new ≡ self.old ++ records_by kernel told) }
        ensures err { OnErr result (self.new ≡ self.old) }
    {
        let Some(tally) = tally_of(self.tally, told.as_slice()) else {
            return Err(NoMemory);
        };
        let told = told.into_vec();
        self.records.reserve(told.len())?;
        put_all(&mut self.records, kernel, told);
        self.tally = tally;
        Ok(())
    }

    /// The records, lent.
    pub fn records(&self) -> &[Rec]
        ensures { result.now ≡ self.now }
    {
        self.records.as_slice()
    }

    /// What the trace costs: one unit for a record, and one more for each 64 bytes, or part of 64, of an entry's data.
    pub fn units(&self) -> u64
        ensures { result ≡ units_of self.now }
    {
        self.tally.units
    }

    /// How many records of each kind there are, in the order Burst, Issue, Enter, Return, Send, Fault, Deliver, Expire, Grant,
    /// Callback, Mode, Filled, Dropped, Dirtied, WroteBack, Opened, Closed, Shared, Learned, Freeze, Thaw.
    pub fn counts(&self) -> [u64; 21]
        ensures { AreCounts self.now result }
    {
        self.tally.counts
    }

    /// The journal: the entries of the records that enter one, in their order. The one error is want of memory.
    pub fn journal(&self, alloc: Global) -> Result<Items<Entry>, NoMemory>
        ensures { IfOk result (λ journal. journal ≡ journal_of self.now) }
    {
        entries(alloc, self.records.as_slice())
    }
}

// A tally with these events more; None where a number is more than 64 bits tell.
fn tally_of(before: Tally, told: &[Event]) -> Option<Tally>
    ensures { IfSome result (λ tally. tally ≡ tally_after before told.now) }
{
    let mut tally = before;
    for event in told {
        tally = tally.with(event)?;
    }
    Some(tally)
}

// Puts records of what a kernel did at the end, where there is room for them.
fn put_all(records: &mut Vec<Rec>, kernel: Kernel, told: Vec<Event>)
    requires room { vec_len records.old + vec_len told ≤ vec_capacity records.old }
    ensures { records.new.items ≡ records.old.items ++ records_by kernel told.items }
{
    for event in told {
        records.push_reserved(Rec { kernel, event });
    }
}

fn entries(alloc: Global, records: &[Rec]) -> Result<Items<Entry>, NoMemory>
    ensures { IfOk result (λ journal. journal ≡ journal_of records.now) }
{
    let mut journal = Items::new(alloc);
    for record in records {
        if let Event::Enter { entry } = &record.event {
            journal.push(entry.copy(alloc)?)?;
        }
    }
    Ok(journal)
}
