ghost use Rattle.std.specs.Prelude.{◌≡◌, ◌≤◌, IfOk};
ghost use Rattle.cluster_file.specs.Clusters.{Describes};
ghost use Rattle.workload_maker.specs.Workloads.{workload_text};

use crate::text::workload_text;
use cluster_file::{FileEnd, read_description};
use sprite_ids::NoMemory;
use std::alloc::Global;
use unix_calls::Description;

/// What the cluster file of the workload of 1 to 64 processes describes (this project). The one error is want of memory; it is also
/// the answer where that text is refused, which never comes.
pub fn workload(alloc: Global, count: u8) -> Result<Description, NoMemory>
    requires { count ≤ 64 }
    ensures { IfOk result (Describes (workload_text count)) }
{
    let text = workload_text(alloc, count)?;
    match read_description(alloc, text.as_slice()) {
        Ok(description) => Ok(description),
        Err(FileEnd::Refused(_)) => Err(NoMemory),
        Err(FileEnd::NoMemory) => Err(NoMemory),
    }
}
