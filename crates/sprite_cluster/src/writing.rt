ghost use Rattle.std.specs.Prelude.{◌≡◌, ◌++◌, ◌<◌, [], OnErr, OnOk, length};
ghost use Rattle.call_journal.specs.Journal.{records_by};

use call_journal::Trace;
use sprite_ids::{Items, Kernel, NoMemory};
use std::alloc::Global;
use std::mem;
use unix_calls::Event;

/// Writes what the kernel told at the trace's end, which takes it out of the list. After want of memory, the one error, the trace is
/// as before; it is also the answer where nothing was told, which never comes, since each step tells something.
pub(crate) fn write(
    alloc: Global,
    trace: &mut Trace,
    kernel: Kernel,
    told: &mut Items<Event>,
) -> Result<(), NoMemory>
    ensures ok { OnOk result (trace.new ≡ trace.old ++ records_by kernel told.old) }
    ensures some { OnOk result (0 < length told.old) }
    ensures none_left { OnOk result (told.new ≡ []) }
    ensures err { OnErr result (trace.new ≡ trace.old) }
{
    if told.is_empty() {
        return Err(NoMemory);
    }
    let events = mem::replace(told, Items::new(alloc));
    trace.append(kernel, events)
}
