ghost use Rattle.std.specs.Prelude.{IfOk};
ghost use Rattle.unix_calls.specs.Lawful.{Lawful};
ghost use Rattle.trace_audit.specs.Texts.{BodyComesTo, TextComesTo};

use crate::audited_text::AuditedText;
use crate::auditing::audit;
use parted_text::{MOST_INSTRUCTIONS, PartsEnd, read_parts};
use sprite_ids::NoMemory;
use std::alloc::Global;
use trace_text::{TraceError, read_trace};
use unix_calls::Description;

/// Audits a text that is to hold a cluster file, a line `=====` and a printed trace (this project).
///
/// The cluster file is what stands before the first line that is exactly `=====`, the trace what stands behind it. Without such a line
/// the text is `NoTrace`; then a cluster file is refused as ever; then the trace's first line that is no record's is told; then the
/// trace is asked for every promise of a run, with 1,000,000,000 instructions for its processes in all. The one error is want of memory.
pub fn audit_text(alloc: Global, text: &[u8]) -> Result<AuditedText, NoMemory>
    ensures { IfOk result (TextComesTo text.now) }
{
    match read_parts(alloc, text) {
        Ok((cluster, body)) => audit_body(alloc, &cluster, body),
        Err(PartsEnd::NoBody) => Ok(AuditedText::NoTrace),
        Err(PartsEnd::Refused(refusal)) => Ok(AuditedText::Refused(refusal)),
        Err(PartsEnd::NoMemory) => Err(NoMemory),
    }
}

// Audits a trace of a described cluster.
fn audit_body(alloc: Global, cluster: &Description, body: &[u8]) -> Result<AuditedText, NoMemory>
    requires { Lawful cluster.now }
    ensures { IfOk result (BodyComesTo cluster.now body.now) }
{
    match read_trace(alloc, body) {
        Ok(trace) => {
            let audit = audit(alloc, cluster, &trace, MOST_INSTRUCTIONS)?;
            Ok(AuditedText::Audited(audit))
        }
        Err(TraceError::Line(number)) => Ok(AuditedText::BadLine(number)),
        Err(TraceError::NoMemory) => Err(NoMemory),
    }
}
