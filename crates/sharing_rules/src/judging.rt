ghost use Rattle.std.specs.Prelude.{◌≡◌, [], ◌∷◌, true, false, Bool, IfOk, OnOk, List, Option};
ghost use Rattle.unix_calls.specs.declared.description.Description.{Description};
ghost use Rattle.unix_calls.specs.declared.event.Rec.{Rec};
ghost use Rattle.call_journal.specs.Past.{Past, each_record, no_past, past_with};
ghost use Rattle.sharing_rules.specs.declared.entry_facts.EntryFacts.{EntryFacts};
ghost use Rattle.trace_tables.specs.declared.Tied.{Tied};
ghost use Rattle.sharing_rules.specs.Facts.{facts_at, facts_of};
ghost use Rattle.trace_tables.specs.Ties.{tied_at, ties_of};
ghost use Rattle.sharing_rules.specs.Judging.{Pays};

use crate::entry_facts::EntryFacts;
use sprite_ids::NoMemory;
use trace_tables::Tied;
use unix_calls::{Description, Rec};

/// What is kept of the records of a trace to judge each by those before it and those behind it: what it tells of the past, and
/// what it asks of the records that come (this project).
pub(crate) trait Judges: Sized {
    ghost test: { Description → Past → Rec → List Rec → Bool };

    ghost tells: { Description → Self → Past → Type 0 };

    ghost owes: { Description → Self → Past → List Rec → Type 0 };

    ghost fits: { Description → Self → Rec → Option Tied → EntryFacts → Bool };

    ghost goes_on: { Description → Rec → EntryFacts → Self → Self → Type 0 };

    ghost is_paid: { Self → Bool };

    /// Whether the next record keeps the rule and pays what is due with it, as far as the records up to it tell.
    fn fits(&self, c: &Description, rec: &Rec, tied: &Option<Tied>, facts: &EntryFacts) -> bool
        ensures { result ≡ fits c.now self.now rec.now tied.now facts.now };

    /// Keeps what the next record tells and asks. The one error is want of memory; a part may be kept then.
    fn go_on(&mut self, c: &Description, rec: &Rec, facts: &EntryFacts) -> Result<(), NoMemory>
        ensures { OnOk result (goes_on c.now rec.now facts.now self.old self.new) };

    /// Whether nothing is asked of further records.
    fn is_paid(&self) -> bool
        ensures { result ≡ is_paid self.now };

    ghost breaks: { (c : Description) (judge : Self) (past : Past) (rec : Rec) (rest : List Rec) → tells c judge past → fits c judge rec (tied_at past rec.event) (facts_at c past rec) ≡ false → test c past rec rest ≡ true → owes c judge past (rec ∷ rest) → ⊥ };

    ghost keeps: { (c : Description) (old new : Self) (past : Past) (rec : Rec) (rest : List Rec) → tells c old past → fits c old rec (tied_at past rec.event) (facts_at c past rec) ≡ true → goes_on c rec (facts_at c past rec) old new → Pays (test c past rec rest) (owes c old past (rec ∷ rest)) (owes c new (past_with c rec past) rest) };

    ghost tells_on: { (c : Description) (old new : Self) (past : Past) (rec : Rec) → tells c old past → goes_on c rec (facts_at c past rec) old new → tells c new (past_with c rec past) };

    ghost ends: { (c : Description) (judge : Self) (past : Past) → tells c judge past → (owes c judge past [] → is_paid judge ≡ true) × (is_paid judge ≡ true → owes c judge past []) };
}

/// Whether each record of a trace of the described cluster keeps the rule, by one pass, where it is told what the calls of its
/// records go by and what its entries do to files. The one error is want of memory.
pub(crate) fn each_is_paid<J: Judges>(
    c: &Description,
    judge: &mut J,
    trace: &[Rec],
    ties: &[Option<Tied>],
    facts: &[EntryFacts],
) -> Result<bool, NoMemory>
    requires told { J.tells c.now judge.old (no_past c.now) }
    requires free { J.owes c.now judge.old (no_past c.now) trace.now }
    requires tied { ties.now ≡ ties_of c.now trace.now }
    requires facts { facts.now ≡ facts_of c.now trace.now }
    ensures { IfOk result (λ kept. kept ≡ each_record c.now (J.test c.now) trace.now) }
{
    for (place, rec) in trace.iter().enumerate() {
        if !judge.fits(c, rec, &ties[place], &facts[place]) {
            return Ok(false);
        }
        judge.go_on(c, rec, &facts[place])?;
    }
    Ok(judge.is_paid())
}
