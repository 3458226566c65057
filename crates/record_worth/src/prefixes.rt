ghost use Rattle.std.specs.Prelude.{◌≡◌, IfOk, OnOk};
ghost use Rattle.std.specs.List.{list_all};
ghost use Rattle.unix_calls.specs.Lawful.{Lawful};
ghost use Rattle.call_journal.specs.Calls.{server_of};
ghost use Rattle.record_worth.specs.Parts.{is_served_at, learns_once, prefixes_are_learned_once, prefixes_are_served};
ghost use Rattle.trace_rules.specs.Learned.{LearnsOn, TellsLearned};
ghost use Rattle.record_worth.specs.Prefixes.{is_new_learned};
ghost use Rattle.record_worth.specs.PrefixLaws.{learned_told, learned_told_on};

use indexmap::IndexSet;
use sprite_ids::{Kernel, NoMemory};
use sprite_paths::Path;
use std::alloc::Global;
use trace_rules::{Learned, LooksBack, each_keeps, is_new_prefix, keep_learned};
use unix_calls::{Description, Event, Rec};
use unix_world::begins_domain;

/// Whether each kernel of the trace learns a prefix's server only once (Welch and Ousterhout 1986). The one error is want of memory.
pub fn prefixes_are_learned_once(
    alloc: Global,
    c: &Description,
    trace: &[Rec],
) -> Result<bool, NoMemory>
    ensures { IfOk result (λ kept. kept ≡ prefixes_are_learned_once c.now trace.now) }
{
    let mut judge = Prefixes {
        learned: IndexSet::new(alloc),
    };
    each_keeps(alloc, c, &mut judge, trace)
}

/// The prefixes that the kernels have learned so far (this project).
#[derive(Drop)]
pub(crate) struct Prefixes {
    pub(crate) learned: IndexSet<Learned>,
}

impl LooksBack for Prefixes {
    ghost test = { λ c past rec. learns_once past rec.kernel rec.event };

    ghost tells = { λ judge past. TellsLearned judge.learned.keys past.records };

    ghost fits = { λ c judge rec. is_new_learned judge.learned.keys rec.kernel rec.event };

    ghost goes_on = { λ rec old new. LearnsOn rec old.learned.keys new.learned.keys };

    fn fits(&self, alloc: Global, _c: &Description, rec: &Rec) -> Result<bool, NoMemory> {
        match &rec.event {
            Event::Learned { prefix, .. } => is_new_prefix(
                alloc,
                &self.learned,
                rec.kernel,
                prefix,
            ),
            _ => Ok(true),
        }
    }

    fn go_on(&mut self, alloc: Global, rec: &Rec) -> Result<(), NoMemory> {
        keep_learned(alloc, &mut self.learned, rec)
    }

    ghost is_told = { learned_told };

    ghost tells_on = { learned_told_on };
}

/// Whether each prefix that a kernel of the trace learns begins a domain, of the server that it learns (Welch and Ousterhout 1986).
pub fn prefixes_are_served(c: &Description, trace: &[Rec]) -> bool
    requires { Lawful c.now }
    ensures { result ≡ prefixes_are_served c.now trace.now }
{
    for rec in trace {
        if !is_served(c, &rec.event) {
            return false;
        }
    }
    true
}

fn is_served(c: &Description, event: &Event) -> bool
    requires { Lawful c.now }
    ensures { result ≡ is_served_at c.now event.now }
{
    match event {
        Event::Learned { prefix, server } => {
            begins_domain(c, prefix) && server_of(c, prefix) == *server
        }
        _ => true,
    }
}

// The server of the longest domain of the path.
fn server_of(c: &Description, path: &Path) -> Kernel
    requires lawful { Lawful c.now }
    ensures { result ≡ server_of c.now path.now }
{
    c.server_at(c.domain_of(path))
}
