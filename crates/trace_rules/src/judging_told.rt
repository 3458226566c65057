ghost use Rattle.std.specs.Prelude.{◌≡◌, Bool, IfOk, List, OnOk};
ghost use Rattle.unix_calls.specs.declared.description.Description.{Description};
ghost use Rattle.unix_calls.specs.declared.event.Rec.{Rec};
ghost use Rattle.call_journal.specs.Past.{Past, each_record, no_past, past_with};
ghost use Rattle.trace_rules.specs.Judging.{TellsEach};

use sprite_ids::NoMemory;
use std::alloc::Global;
use unix_calls::{Description, Rec};

/// What is kept of the records of a trace to judge each by those before it and by what the one-kernel Unix tells of it, an `A` (this
/// project). The rule may speak of the whole trace, of which something is kept from the start.
pub trait LooksBackTold<A>: Sized {
    ghost told_of: { Description → Past → Rec → A };

    ghost told_from: { Description → Past → List Rec → List A };

    ghost test: { Description → List Rec → Past → Rec → Bool };

    ghost tells: { Description → List Rec → Self → Past → Type 0 };

    ghost fits: { Description → Self → Rec → A → Bool };

    ghost goes_on: { Description → Rec → A → Self → Self → Type 0 };

    /// Whether the next record keeps the rule, of which that is told. The one error is want of memory.
    fn fits(&self, alloc: Global, c: &Description, rec: &Rec, told: &A) -> Result<bool, NoMemory>
        ensures { IfOk result (λ fit. fit ≡ fits c.now self.now rec.now told.now) };

    /// Keeps what the next record tells, of which that is told. The one error is want of memory; a part may be kept then.
    fn go_on(&mut self, alloc: Global, c: &Description, rec: &Rec, told: &A) -> Result<(), NoMemory>
        ensures { OnOk result (goes_on c.now rec.now told.now self.old self.new) };

    ghost each: { (c : Description) → TellsEach c (told_of c) (told_from c) };

    ghost is_told: { (c : Description) (trace : List Rec) (judge : Self) (past : Past) (rec : Rec) → tells c trace judge past → test c trace past rec ≡ fits c judge rec (told_of c past rec) };

    ghost tells_on: { (c : Description) (trace : List Rec) (old new : Self) (past : Past) (rec : Rec) → tells c trace old past → goes_on c rec (told_of c past rec) old new → tells c trace new (past_with c rec past) };
}

/// Whether each record of a trace of the described cluster keeps the rule, by one pass, where that is told of each. The one error is
/// want of memory.
pub fn each_keeps_told<A, J: LooksBackTold<A>>(
    alloc: Global,
    c: &Description,
    judge: &mut J,
    trace: &[Rec],
    told: &[A],
) -> Result<bool, NoMemory>
    requires tells { J.tells c.now trace.now judge.old (no_past c.now) }
    requires told { told.now ≡ J.told_from c.now (no_past c.now) trace.now }
    ensures { IfOk result (λ kept. kept ≡ each_record c.now (λ past rec rest. J.test c.now trace.now past rec) trace.now) }
{
    for (place, rec) in trace.iter().enumerate() {
        let item = &told[place];
        if !judge.fits(alloc, c, rec, item)? {
            return Ok(false);
        }
        judge.go_on(alloc, c, rec, item)?;
    }
    Ok(true)
}
