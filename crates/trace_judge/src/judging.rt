ghost use Rattle.std.specs.Prelude.{◌≡◌, IfOk, IsTrue, true};
ghost use Rattle.unix_calls.specs.Lawful.{Lawful};
ghost use Rattle.call_journal.specs.Formed.{formed};
ghost use Rattle.trace_tables.specs.Ties.{ties_of};
ghost use Rattle.sharing_rules.specs.Facts.{facts_of};
ghost use Rattle.call_journal.specs.PrefixBroadcasts.{prefixes_are_broadcast_until_learned};
ghost use Rattle.call_journal.specs.Sharing.{caching_stops_only_for_sharing};
ghost use Rattle.trace_views.specs.Views.{Shows, TellsRecords};
ghost use Rattle.trace_judge.specs.Cuts.{cuts_in};
ghost use Rattle.trace_judge.specs.Known.{KnowsRun};
ghost use Rattle.trace_judge.specs.Rules.{broken_rule, broken_when_formed, first_broken, unless_worth};

use crate::rule::Rule;
use move_rules::processes_run_where_they_are;
use place_rules::entries_stand_at_their_kernels;
use sharing_rules::{EntryFacts, cached_calls_use_held_blocks};
use sprite_ids::NoMemory;
use std::alloc::Global;
use trace_forms::formed;
use trace_rules::{
    fetches_are_of_absent_blocks, operations_go_out_uncached, prefixes_are_broadcast_until_learned,
};
use trace_tables::Tied;
use trace_views::Views;
use trace_worth::is_worth;
use unix_calls::{Description, Process, Rec};
use write_rules::{blocks_are_dropped_for_a_cause, blocks_are_written_back_for_a_cause};
use write_sharing::caching_stops_only_for_sharing;

/// The first rule, in their order, that a trace breaks, of whose records `views` tells, and which leads to these processes; None exactly
/// where it keeps them all: its records are written as they should be, it keeps the nine rules, and each record is worth its units (this
/// project). What is known of each run, by proof, isn't asked (`KnowsRun`): that prefixes are broadcast only until they are learned, and
/// learned once, that at most six packets come for each that goes out, that a try is over only behind a loss, and that no more packets
/// meet a fault than go out. The one error is want of memory.
pub fn first_broken(
    alloc: Global,
    c: &Description,
    trace: &[Rec],
    ps: &[Process],
    views: &Views,
) -> Result<Option<Rule>, NoMemory>
    requires lawful { Lawful c.now }
    requires shown { Shows c.now trace.now ps.now views.now }
    requires known { KnowsRun c.now trace.now }
    ensures { IfOk result (λ broken. broken ≡ first_broken c.now trace.now) }
{
    if !formed(alloc, c, trace, views.openings.as_slice())? {
        return Ok(Some(Rule::Formed));
    }
    broken_when_formed(alloc, c, trace, ps, views, true)
}

/// The first of the nine rules, in their order, that such a trace breaks whose records are written as they should be, and `Worth` where
/// it keeps these and a record isn't worth its units; None exactly where it keeps all (this project). `known` tells that what is known of
/// each run is known of it, so that it isn't asked. The one error is want of memory.
pub fn broken_when_formed(
    alloc: Global,
    c: &Description,
    trace: &[Rec],
    ps: &[Process],
    views: &Views,
    known: bool,
) -> Result<Option<Rule>, NoMemory>
    requires lawful { Lawful c.now }
    requires shown { Shows c.now trace.now ps.now views.now }
    requires formed { formed c.now trace.now ≡ true }
    requires known { IsTrue known → KnowsRun c.now trace.now }
    ensures { IfOk result (λ broken. broken ≡ broken_when_formed c.now trace.now) }
{
    match broken_rule(alloc, c, trace, views, known)? {
        Some(rule) => Ok(Some(rule)),
        None => unless_worth(alloc, c, trace, ps, views, known),
    }
}

// What is broken by a trace that keeps the rules.
fn unless_worth(
    alloc: Global,
    c: &Description,
    trace: &[Rec],
    ps: &[Process],
    views: &Views,
    known: bool,
) -> Result<Option<Rule>, NoMemory>
    requires lawful { Lawful c.now }
    requires shown { Shows c.now trace.now ps.now views.now }
    requires known { IsTrue known → KnowsRun c.now trace.now }
    ensures { IfOk result (λ broken. broken ≡ unless_worth c.now trace.now) }
{
    let openings = views.openings.as_slice();
    if is_worth(alloc, c, trace, ps, &views.counts, openings, known)? {
        return Ok(None);
    }
    Ok(Some(Rule::Worth))
}

// The first of the nine rules that is broken by a trace whose records are written as they should be.
fn broken_rule(
    alloc: Global,
    c: &Description,
    trace: &[Rec],
    views: &Views,
    known: bool,
) -> Result<Option<Rule>, NoMemory>
    requires lawful { Lawful c.now }
    requires told { TellsRecords c.now trace.now views.now }
    requires formed { formed c.now trace.now ≡ true }
    requires known { IsTrue known → KnowsRun c.now trace.now }
    ensures { IfOk result (λ broken. broken ≡ broken_rule c.now trace.now) }
{
    let ties = views.ties.as_slice();
    let callers = views.callers.as_slice();
    let marks = views.marks.as_slice();
    let facts = views.facts.as_slice();
    if !entries_stand_at_their_kernels(alloc, c, trace, callers)? {
        return Ok(Some(Rule::Entries));
    }
    if !cached_calls_use_held_blocks(alloc, c, trace, ties, facts)? {
        return Ok(Some(Rule::CachedCalls));
    }
    if !operations_go_out_uncached(alloc, c, trace, ties)? {
        return Ok(Some(Rule::Operations));
    }
    if !fetches_are_of_absent_blocks(alloc, c, trace)? {
        return Ok(Some(Rule::Fetches));
    }
    if !blocks_are_dropped_for_a_cause(alloc, c, trace, marks)? {
        return Ok(Some(Rule::Drops));
    }
    if !is_shared_well(alloc, c, trace, ties, facts)? {
        return Ok(Some(Rule::Sharing));
    }
    if !broadcasts_are_few(alloc, c, trace, known)? {
        return Ok(Some(Rule::Broadcasts));
    }
    if !processes_run_where_they_are(alloc, c, trace, callers)? {
        return Ok(Some(Rule::Moves));
    }
    if !blocks_are_written_back_for_a_cause(alloc, c, trace, marks)? {
        return Ok(Some(Rule::WriteBacks));
    }
    Ok(None)
}

// Whether prefixes are broadcast only until they are learned.
fn broadcasts_are_few(
    alloc: Global,
    c: &Description,
    trace: &[Rec],
    known: bool,
) -> Result<bool, NoMemory>
    requires { IsTrue known → KnowsRun c.now trace.now }
    ensures { IfOk result (λ few. few ≡ prefixes_are_broadcast_until_learned c.now trace.now) }
{
    if known {
        return Ok(true);
    }
    prefixes_are_broadcast_until_learned(alloc, c, trace)
}

// Whether kernels stop caching files only where these are shared.
fn is_shared_well(
    alloc: Global,
    c: &Description,
    trace: &[Rec],
    ties: &[Option<Tied>],
    facts: &[EntryFacts],
) -> Result<bool, NoMemory>
    requires ties { ties.now ≡ ties_of c.now trace.now }
    requires facts { facts.now ≡ facts_of c.now trace.now }
    ensures { IfOk result (λ kept. kept ≡ caching_stops_only_for_sharing c.now trace.now) }
{
    let cuts = cuts_in(alloc, facts)?;
    caching_stops_only_for_sharing(alloc, c, trace, ties, cuts.as_slice())
}

// Of each record whether its entry opens a file and truncates it.
fn cuts_in(alloc: Global, facts: &[EntryFacts]) -> Result<Vec<bool>, NoMemory>
    ensures { IfOk result (λ cuts. cuts.items ≡ cuts_in facts.now) }
{
    let mut cuts = Vec::new(alloc);
    for fact in facts {
        cuts.push(fact.truncates)?;
    }
    Ok(cuts)
}
