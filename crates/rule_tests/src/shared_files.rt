ghost use Rattle.std.specs.Prelude.{◌≡◌, IfOk};
ghost use Rattle.unix_calls.specs.Lawful.{Lawful};
ghost use Rattle.trace_views.specs.Views.{TellsRecords};
ghost use Rattle.trace_judge.specs.Cuts.{cuts_in};

use crate::shared_lines::{CLUSTER, Line, Row, TRUNCATING, UNCACHED, text_of};
use crate::shared_rows::CACHED_ROWS;
use cluster_file::read_description;
use sharing_rules::EntryFacts;
use sprite_ids::NoMemory;
use std::alloc::Global;
use std::test::Fail;
use trace_text::read_trace;
use trace_views::{Viewed, Views, view};
use unix_calls::{Description, Rec};
use write_sharing::caching_stops_only_for_sharing;

// The same without caches: no grant needs a cause.
const BARE: usize = 3;

static BARE_ROWS: [Row; BARE] = [
    // Without caches.
    (
        Line::GrantOff1,
        Line::Read1,
        Line::End,
        Line::End,
        Line::End,
        Line::End,
        Line::End,
        true,
    ),
    (
        Line::Read1,
        Line::GrantOff2,
        Line::End,
        Line::End,
        Line::End,
        Line::End,
        Line::End,
        true,
    ),
    (
        Line::Read1,
        Line::GrantOff2,
        Line::TakesOff1,
        Line::End,
        Line::End,
        Line::End,
        Line::End,
        false,
    ),
];

// The same with an open that truncates.
const CUTS: usize = 7;

static CUTS_ROWS: [Row; CUTS] = [
    // Truncations.
    (
        Line::ReadAgain1,
        Line::GrantOff1,
        Line::Write1,
        Line::EnterCut,
        Line::End,
        Line::End,
        Line::End,
        true,
    ),
    (
        Line::GrantOff1,
        Line::Write1,
        Line::EnterCut,
        Line::End,
        Line::End,
        Line::End,
        Line::End,
        false,
    ),
    (
        Line::ReadAgain1,
        Line::GrantOff1,
        Line::Write1,
        Line::Learns1,
        Line::EnterCut,
        Line::End,
        Line::End,
        false,
    ),
    (
        Line::ReadAgain1,
        Line::Stop1,
        Line::Write1,
        Line::EnterCut,
        Line::End,
        Line::End,
        Line::End,
        true,
    ),
    (
        Line::ReadAgain1,
        Line::GrantOff1,
        Line::OtherWrite2,
        Line::Write1,
        Line::EnterCut,
        Line::End,
        Line::End,
        true,
    ),
    (
        Line::ReadAgain1,
        Line::Write1,
        Line::EnterCut,
        Line::GrantOff1,
        Line::End,
        Line::End,
        Line::End,
        true,
    ),
    (
        Line::Write1,
        Line::EnterCut,
        Line::GrantOff1,
        Line::End,
        Line::End,
        Line::End,
        Line::End,
        false,
    ),
];

fn joined(alloc: Global, row: &Row) -> Result<Vec<u8>, NoMemory> {
    let lines = [row.0, row.1, row.2, row.3, row.4, row.5, row.6];
    let mut text = Vec::new(alloc);
    for line in lines.as_slice() {
        text.extend_from_slice(text_of(*line).as_bytes())?;
    }
    Ok(text)
}

// Whether the rule is kept, by what is told of the trace's records; no answer for a trace whose journal isn't legal.
fn keeps(alloc: Global, c: &Description, trace: &[Rec]) -> Result<bool, NoMemory>
    requires { Lawful c.now }
{
    match view(alloc, c, trace, 1_000_000)? {
        Viewed::Legal(_, views) => keeps_told(alloc, c, trace, &views),
        Viewed::NotLegal(_) => Err(NoMemory),
        Viewed::Steps(_) => Err(NoMemory),
    }
}

fn keeps_told(
    alloc: Global,
    c: &Description,
    trace: &[Rec],
    views: &Views,
) -> Result<bool, NoMemory>
    requires { TellsRecords c.now trace.now views.now }
{
    let cuts = cuts_in(alloc, views.facts.as_slice())?;
    caching_stops_only_for_sharing(alloc, c, trace, views.ties.as_slice(), cuts.as_slice())
}

// Of each record whether its entry opens a file and truncates it.
fn cuts_in(alloc: Global, facts: &[EntryFacts]) -> Result<Vec<bool>, NoMemory>
    ensures { IfOk result (λ cuts. cuts.items ≡ cuts_in facts.now) }
{
    let mut cuts = Vec::new(alloc);
    for fact in facts {
        cuts.push(fact.truncates)?;
    }
    Ok(cuts)
}

fn is_judged(alloc: Global, c: &Description, row: &Row) -> Result<bool, NoMemory>
    requires { Lawful c.now }
{
    let text = joined(alloc, row)?;
    match read_trace(alloc, text.as_slice()) {
        Ok(trace) => Ok(keeps(alloc, c, trace.records())? == row.7),
        Err(_) => Err(NoMemory),
    }
}

// The first row of which another verdict is given.
fn first_other(alloc: Global, c: &Description, rows: &[Row]) -> Result<Option<usize>, NoMemory>
    requires { Lawful c.now }
{
    for (place, row) in rows.iter().enumerate() {
        if !is_judged(alloc, c, row)? {
            return Ok(Some(place));
        }
    }
    Ok(None)
}

fn first_in_cluster(alloc: Global, file: &[u8], rows: &[Row]) -> Result<Option<usize>, NoMemory> {
    match read_description(alloc, file) {
        Ok(c) => first_other(alloc, &c, rows),
        Err(_) => Err(NoMemory),
    }
}

#[test]
fn a_kernel_caches_on_but_for_sharing(rt: HostRuntime) -> Result<(), Fail> {
    assert_eq!(rt;
        first_in_cluster(rt.alloc(), CLUSTER.as_bytes(), &CACHED_ROWS)?,
        None
    );
    assert_eq!(rt;
        first_in_cluster(rt.alloc(), UNCACHED.as_bytes(), &BARE_ROWS)?,
        None
    );
    assert_eq!(rt;
        first_in_cluster(rt.alloc(), TRUNCATING.as_bytes(), &CUTS_ROWS)?,
        None
    );
    Ok(())
}
