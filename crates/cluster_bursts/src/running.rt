ghost use Rattle.cluster_bursts.specs.Bursts.{IsDone};

use crate::job::{Burst, Job};
use process_machine::burst;

/// How many instructions a burst does at most (this project).
const BURST_LIMIT: u32 = 10_000;

/// Does the instructions of a job: until the process comes to a call or a bad step, wants a page that is away, or has done 10,000.
/// It takes no memory.
pub fn run_job(job: Job) -> Burst
    ensures { IsDone job result }
{
    let Job {
        pid,
        program,
        from,
        to,
    } = job;
    let mut to = to;
    let (count, end) = burst(&program, &mut to, BURST_LIMIT);
    Burst {
        pid,
        program,
        from,
        to,
        count,
        end,
    }
}
