ghost use Rattle.std.specs.Prelude.{codes, ◌≡◌, ◌++◌, IfOk};
ghost use Rattle.std.specs.Fmt.{decimal};
ghost use Rattle.run_judge.specs.declared.JudgedRun.TheVariants.{Refuted};
ghost use Rattle.sprite_top.specs.Judged.{audit_line, audited_line, judgement_line, numbered_line, verdict_line};
ghost use Rattle.sprite_top.specs.Top.{refuted_line};

use history_check::Judgement;
use one_kernel::Verdict;
use report_print::refusal_line;
use run_judge::{JudgedRun, Refutation};
use sprite_ids::NoMemory;
use std::alloc::Global;
use trace_audit::{Audit, AuditedText};

/// The line about a text that is to hold a cluster file and a history.
pub(crate) fn judgement_line(alloc: Global, judgement: &Judgement) -> Result<Vec<u8>, NoMemory>
    ensures { IfOk result (λ line. line.items ≡ judgement_line judgement.now) }
{
    match judgement {
        Judgement::NoHistory => Ok(Vec::from_slice(alloc, b"refused: 14\n")?),
        Judgement::Refused(refusal) => refusal_line(alloc, refusal),
        Judgement::BadLine(number) => numbered_line(alloc, b"refused: 15 line ", *number as u64),
        Judgement::Judged(verdict) => verdict_line(alloc, *verdict),
    }
}

// The line about a history.
fn verdict_line(alloc: Global, verdict: Verdict) -> Result<Vec<u8>, NoMemory>
    ensures { IfOk result (λ line. line.items ≡ verdict_line verdict) }
{
    match verdict {
        Verdict::Legal => Ok(Vec::from_slice(alloc, b"legal\n")?),
        Verdict::NotLegal(number) => {
            numbered_line(alloc, b"not legal at line ", u64::from(number))
        }
        Verdict::Steps(number) => numbered_line(alloc, b"steps at line ", u64::from(number)),
    }
}

/// The line about a text that is to hold a cluster file and a trace.
pub(crate) fn audited_line(alloc: Global, audited: &AuditedText) -> Result<Vec<u8>, NoMemory>
    ensures { IfOk result (λ line. line.items ≡ audited_line audited.now) }
{
    match audited {
        AuditedText::NoTrace => Ok(Vec::from_slice(alloc, b"refused: 14\n")?),
        AuditedText::Refused(refusal) => refusal_line(alloc, refusal),
        AuditedText::BadLine(number) => numbered_line(alloc, b"refused: 15 line ", *number as u64),
        AuditedText::Audited(audit) => audit_line(alloc, *audit),
    }
}

// The line about a trace.
fn audit_line(alloc: Global, audit: Audit) -> Result<Vec<u8>, NoMemory>
    ensures { IfOk result (λ line. line.items ≡ audit_line audit) }
{
    match audit {
        Audit::Holds => Ok(Vec::from_slice(alloc, b"holds\n")?),
        Audit::Fails(promise) => named_line(alloc, b"fails ", promise.name()),
        Audit::Steps(number) => numbered_line(alloc, b"steps at entry ", u64::from(number)),
    }
}

/// The line about a run that isn't what was promised of it.
pub(crate) fn refuted_line(alloc: Global, judged: &JudgedRun) -> Result<Vec<u8>, NoMemory>
    ensures { IfOk result (λ line. line.items ≡ refuted_line judged.now) }
{
    match judged {
        JudgedRun::Judged { .. } => Ok(Vec::new(alloc)),
        JudgedRun::Refuted(refutation) => refutation_line(alloc, *refutation),
        JudgedRun::Steps(number) => numbered_line(alloc, b"refuted steps ", u64::from(*number)),
    }
}

// The line about the promise that a run breaks.
fn refutation_line(alloc: Global, refutation: Refutation) -> Result<Vec<u8>, NoMemory>
    ensures { IfOk result (λ line. line.items ≡ refuted_line (Refuted refutation)) }
{
    match refutation {
        Refutation::Legal(number) => numbered_line(alloc, b"refuted legal ", u64::from(number)),
        Refutation::Once => Ok(Vec::from_slice(alloc, b"refuted once\n")?),
        Refutation::End => Ok(Vec::from_slice(alloc, b"refuted end\n")?),
        Refutation::Stall => Ok(Vec::from_slice(alloc, b"refuted stall\n")?),
        Refutation::Rule(rule) => named_line(alloc, b"refuted ", rule.name()),
    }
}

// A line that ends with a name.
fn named_line(alloc: Global, words: &[u8], name: &str) -> Result<Vec<u8>, NoMemory>
    ensures { IfOk result (λ line. line.items ≡ words.now ++ name.now ++ codes "\n") }
{
    let mut line = Vec::from_slice(alloc, words)?;
    line.extend_from_slice(name.as_bytes())?;
    line.push(b'\n')?;
    Ok(line)
}

// A line that ends with a number.
pub(crate) fn numbered_line(alloc: Global, words: &[u8], number: u64) -> Result<Vec<u8>, NoMemory>
    ensures { IfOk result (λ line. line.items ≡ numbered_line words.now number) }
{
    let mut line = Vec::from_slice(alloc, words)?;
    let digits = format!(in alloc; "{number}")?;
    line.extend_from_slice(digits.as_bytes())?;
    line.push(b'\n')?;
    Ok(line)
}
