ghost use Rattle.std.specs.Prelude.{IfErr, IfOk};
ghost use Rattle.text_lines.specs.Parts.{parts_of};
ghost use Rattle.parted_text.specs.Parted.{HasCluster, TellsEnd};

use crate::parts_end::PartsEnd;
use cluster_file::{FileEnd, read_description};
use std::alloc::Global;
use text_lines::parts_of;
use unix_calls::Description;

/// How many instructions the processes of a history or a trace that stands in a text may do in all (this project).
pub const MOST_INSTRUCTIONS: u64 = 1_000_000_000;

/// The cluster that a text describes before its first line that is exactly `=====`, and what stands behind that line (this project).
///
/// Without such a line the text has no body; then a cluster file is refused as ever.
pub fn read_parts(alloc: Global, text: &[u8]) -> Result<(Description, &[u8]), PartsEnd>
    ensures parts { IfOk result (λ parts. HasCluster text.now parts.0 parts.1.now) }
    ensures end { IfErr result (TellsEnd text.now) }
{
    let Some((file, body)) = parts_of(text) else {
        return Err(PartsEnd::NoBody);
    };
    match read_description(alloc, file) {
        Ok(cluster) => Ok((cluster, body)),
        Err(FileEnd::Refused(refusal)) => Err(PartsEnd::Refused(refusal)),
        Err(FileEnd::NoMemory) => Err(PartsEnd::NoMemory),
    }
}
