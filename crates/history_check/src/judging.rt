ghost use Rattle.std.specs.Prelude.{IfOk};
ghost use Rattle.unix_calls.specs.Lawful.{Lawful};
ghost use Rattle.history_check.specs.Judged.{BodyComesTo, ComesTo};

use crate::judgement::Judgement;
use history_text::{HistoryError, read_history};
use one_kernel::check;
use parted_text::{MOST_INSTRUCTIONS, PartsEnd, read_parts};
use sprite_ids::NoMemory;
use std::alloc::Global;
use unix_calls::Description;

/// Judges a text that is to hold a cluster file, a line `=====` and a printed history (this project).
///
/// The cluster file is what stands before the first line that is exactly `=====`, the history what stands behind it. Without such
/// a line the text is `NoHistory`; then a cluster file is refused as ever; then the history's first line that is no entry's is told;
/// then the history is checked against the one-kernel Unix, whose processes may do 1,000,000,000 instructions in all. The one error is
/// want of memory.
pub fn judge(alloc: Global, text: &[u8]) -> Result<Judgement, NoMemory>
    ensures { IfOk result (ComesTo text.now) }
{
    match read_parts(alloc, text) {
        Ok((cluster, body)) => judge_body(alloc, &cluster, body),
        Err(PartsEnd::NoBody) => Ok(Judgement::NoHistory),
        Err(PartsEnd::Refused(refusal)) => Ok(Judgement::Refused(refusal)),
        Err(PartsEnd::NoMemory) => Err(NoMemory),
    }
}

// Judges a history of a described cluster.
fn judge_body(alloc: Global, cluster: &Description, body: &[u8]) -> Result<Judgement, NoMemory>
    requires { Lawful cluster.now }
    ensures { IfOk result (BodyComesTo cluster.now body.now) }
{
    match read_history(alloc, body) {
        Ok(entries) => {
            let verdict = check(alloc, cluster, entries.as_slice(), MOST_INSTRUCTIONS)?;
            Ok(Judgement::Judged(verdict))
        }
        Err(HistoryError::Line(number)) => Ok(Judgement::BadLine(number)),
        Err(HistoryError::NoMemory) => Err(NoMemory),
    }
}
