ghost use Rattle.std.specs.Prelude.{◌≡◌, ◌+◌, ◌||◌, [], IfOk, OnOk, nat_le};
ghost use Rattle.call_journal.specs.WorthSends.{moves_blocks, sends_are_worth, sends_well};
ghost use Rattle.send_worth.specs.Sends.{CountsGiven, CountsSent, GoesOut, PutsIssued, TellsSends, given_count, is_few, issued_at, may_send, may_send_about, may_send_for, sends_are_issued, sent_count};
ghost use Rattle.send_worth.specs.SendLaws.{sends_told, sends_told_on};

use crate::free_sends::free_sends_are_few;
use indexmap::IndexMap;
use sprite_ids::{Kernel, NoMemory};
use std::alloc::Global;
use trace_rules::{LooksBack, each_keeps};
use trace_tables::{CallAt, call_of};
use unix_calls::{About, Description, Event, Rec, SendKind};

/// Whether the packets of the trace go for the sake of calls that are issued, at most 512 that move no block for one call, and one
/// more for each grant and callback that came to its kernel since its issue; and whether few go for the sake of none (this
/// project). The one error is want of memory.
pub fn sends_are_worth(alloc: Global, c: &Description, trace: &[Rec]) -> Result<bool, NoMemory>
    ensures { IfOk result (λ worth. worth ≡ sends_are_worth c.now trace.now) }
{
    if !sends_are_issued(alloc, c, trace)? {
        return Ok(false);
    }
    free_sends_are_few(trace)
}

/// The first half of that: the packets that go for the sake of calls. The one error is want of memory.
pub fn sends_are_issued(alloc: Global, c: &Description, trace: &[Rec]) -> Result<bool, NoMemory>
    ensures { IfOk result (λ kept. kept ≡ sends_are_issued c.now trace.now) }
{
    let mut judge = no_sends(alloc);
    each_keeps(alloc, c, &mut judge, trace)
}

/// A call's first issue: its kernel, and how many grants and callbacks had gone there before (this project).
#[derive(Clone, Copy, Debug, PartialEq, Eq)]
pub(crate) struct Issued {
    pub(crate) kernel: Kernel,
    pub(crate) given: u64,
}

/// The calls that were issued, how many grants and callbacks went to each kernel, and how many packets that move no block went for
/// the sake of each call so far (this project).
#[derive(Drop)]
pub(crate) struct Sends {
    pub(crate) issued: IndexMap<CallAt, Issued>,
    pub(crate) given: IndexMap<Kernel, u64>,
    pub(crate) sent: IndexMap<CallAt, u64>,
}

fn no_sends(alloc: Global) -> Sends
    ensures issued { result.issued.entries ≡ [] }
    ensures given { result.given.entries ≡ [] }
    ensures sent { result.sent.entries ≡ [] }
{
    Sends {
        issued: IndexMap::new(alloc),
        given: IndexMap::new(alloc),
        sent: IndexMap::new(alloc),
    }
}

impl LooksBack for Sends {
    ghost test = { λ c past rec. sends_well past rec.event };

    ghost tells = { λ judge past. TellsSends judge past.records };

    ghost fits = { λ c judge rec. may_send judge rec.event };

    ghost goes_on = { λ rec old new. GoesOut rec.kernel rec.event old new };

    fn fits(&self, _alloc: Global, _c: &Description, rec: &Rec) -> Result<bool, NoMemory> {
        match &rec.event {
            Event::Send { about, kind, .. } => Ok(may_send_about(self, kind, about)),
            _ => Ok(true),
        }
    }

    fn go_on(&mut self, _alloc: Global, rec: &Rec) -> Result<(), NoMemory> {
        match &rec.event {
            Event::Issue { pid, number, .. } => {
                let at = CallAt {
                    pid: *pid,
                    number: *number,
                };
                put_issued(&mut self.issued, &self.given, at, rec.kernel)
            }
            Event::Grant { to, .. } => count_given(&mut self.given, *to),
            Event::Callback { to, .. } => count_given(&mut self.given, *to),
            Event::Send { about, kind, .. } => count_sent(&mut self.sent, kind, about),
            _ => Ok(()),
        }
    }

    ghost is_told = { sends_told };

    ghost tells_on = { sends_told_on };
}

// Whether a packet may go for the sake of that call, if it goes for one.
fn may_send_about(judge: &Sends, kind: &SendKind, about: &Option<About>) -> bool
    ensures { result ≡ may_send_about judge.now kind.now about.now }
{
    match about {
        Some(about) => may_send_for(judge, kind, &call_of(about)),
        None => true,
    }
}

fn may_send_for(judge: &Sends, kind: &SendKind, at: &CallAt) -> bool
    ensures { result ≡ may_send_for judge.now kind.now at.now (issued_at judge.now.issued.entries at.now) }
{
    match judge.issued.get(at) {
        Some(issued) => may_send_behind(judge, kind, at, issued),
        None => false,
    }
}

// The same behind that issue of the call.
fn may_send_behind(judge: &Sends, kind: &SendKind, at: &CallAt, issued: &Issued) -> bool
    ensures { result ≡ (moves_blocks kind.now || is_few judge.now at.now issued.now) }
{
    moves_blocks(kind) || is_few(judge, at, issued)
}

// Whether few packets went so far for the sake of a call that was issued so.
fn is_few(judge: &Sends, at: &CallAt, issued: &Issued) -> bool
    ensures { result ≡ is_few judge.now at.now issued.now }
{
    is_within(
        sent_count(&judge.sent, at),
        issued.given,
        given_count(&judge.given, issued.kernel),
    )
}

// Whether one more than so many are at most 512, and one for each that came since.
fn is_within(sent: u64, before: u64, given: u64) -> bool
    ensures { result ≡ nat_le (sent + 1 + before) (512 + given) }
{
    u128::from(sent) + 1 + u128::from(before) <= 512 + u128::from(given)
}

// Whether it fetches a block or writes one back.
fn moves_blocks(kind: &SendKind) -> bool
    ensures { result ≡ moves_blocks kind.now }
{
    match kind {
        SendKind::Fetch { .. } => true,
        SendKind::WriteBack { .. } => true,
        _ => false,
    }
}

fn sent_count(sent: &IndexMap<CallAt, u64>, at: &CallAt) -> u64
    ensures { result ≡ sent_count sent.now.entries at.now }
{
    match sent.get(at) {
        Some(count) => *count,
        None => 0,
    }
}

fn given_count(given: &IndexMap<Kernel, u64>, kernel: Kernel) -> u64
    ensures { result ≡ given_count given.now.entries kernel }
{
    match given.get(&kernel) {
        Some(count) => *count,
        None => 0,
    }
}

// Keeps the first issue of a call.
fn put_issued(
    issued: &mut IndexMap<CallAt, Issued>,
    given: &IndexMap<Kernel, u64>,
    at: CallAt,
    kernel: Kernel,
) -> Result<(), NoMemory>
    ensures { OnOk result (PutsIssued issued.old.entries at (record { kernel = kernel; given = given_count given.now.entries kernel }) issued.new.entries) }
{
    if issued.get(&at).is_none() {
        let given = given_count(given, kernel);
        issued.insert(at, Issued { kernel, given })?;
    }
    Ok(())
}

// One more came to that kernel.
fn count_given(given: &mut IndexMap<Kernel, u64>, to: Kernel) -> Result<(), NoMemory>
    ensures { OnOk result (CountsGiven to given.old.entries given.new.entries) }
{
    let more = one_more(given_count(given, to))?;
    given.insert(to, more)?;
    Ok(())
}

// One more went for the sake of that call, if it moves no block and goes for one.
fn count_sent(
    sent: &mut IndexMap<CallAt, u64>,
    kind: &SendKind,
    about: &Option<About>,
) -> Result<(), NoMemory>
    ensures { OnOk result (CountsSent kind.now about.now sent.old.entries sent.new.entries) }
{
    let Some(about) = about else {
        return Ok(());
    };
    if moves_blocks(kind) {
        return Ok(());
    }
    let at = call_of(about);
    let more = one_more(sent_count(sent, &at))?;
    sent.insert(at, more)?;
    Ok(())
}

// One more. The one error is that there were 2^64, which no trace has.
fn one_more(count: u64) -> Result<u64, NoMemory>
    ensures { IfOk result (λ next. next ≡ count + 1) }
{
    count.checked_add(1).ok_or(NoMemory)
}
