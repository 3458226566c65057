ghost use Rattle.std.specs.Prelude.{◌≡◌, Bool, IfOk, OnOk};
ghost use Rattle.unix_calls.specs.declared.description.Description.{Description};
ghost use Rattle.unix_calls.specs.declared.event.Rec.{Rec};
ghost use Rattle.call_journal.specs.Past.{Past, each_record, no_past, past_with};

use sprite_ids::NoMemory;
use std::alloc::Global;
use unix_calls::{Description, Rec};

/// What is kept of the records of a trace to judge each by those before it (this project).
pub trait LooksBack: Sized {
    ghost test: { Description → Past → Rec → Bool };

    ghost tells: { Self → Past → Type 0 };

    ghost fits: { Description → Self → Rec → Bool };

    ghost goes_on: { Rec → Self → Self → Type 0 };

    /// Whether the next record keeps the rule. The one error is want of memory.
    fn fits(&self, alloc: Global, c: &Description, rec: &Rec) -> Result<bool, NoMemory>
        ensures { IfOk result (λ fit. fit ≡ fits c.now self.now rec.now) };

    /// Keeps what the next record tells. The one error is want of memory; a part may be kept then.
    fn go_on(&mut self, alloc: Global, rec: &Rec) -> Result<(), NoMemory>
        ensures { OnOk result (goes_on rec.now self.old self.new) };

    ghost is_told: { (c : Description) (judge : Self) (past : Past) (rec : Rec) → tells judge past → test c past rec ≡ fits c judge rec };

    ghost tells_on: { (c : Description) (old new : Self) (past : Past) (rec : Rec) → tells old past → goes_on rec old new → tells new (past_with c rec past) };
}

/// Whether each record of a trace of the described cluster keeps the rule, by one pass. The one error is want of memory.
pub fn each_keeps<J: LooksBack>(
    alloc: Global,
    c: &Description,
    judge: &mut J,
    trace: &[Rec],
) -> Result<bool, NoMemory>
    requires { J.tells judge.old (no_past c.now) }
    ensures { IfOk result (λ kept. kept ≡ each_record c.now (λ past rec rest. J.test c.now past rec) trace.now) }
{
    for rec in trace {
        if !judge.fits(alloc, c, rec)? {
            return Ok(false);
        }
        judge.go_on(alloc, rec)?;
    }
    Ok(true)
}
