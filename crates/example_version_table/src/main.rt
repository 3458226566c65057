//! A file server's table of who has a file open, by itself (this project): one kernel writes a file and closes it, another reads it, and
//! then both have it open. Docs/BUILDERS.md says what `version_table` promises.
#![tactic(auto)]

ghost use Rattle.version_table.specs.Laws.{CachedIsUnshared};
ghost use Rattle.version_table.specs.Versions.{file_of};

use sprite_ids::{Callback, FileId, Grant, Items, Kernel, Mode, NoMemory, StreamNo};
use std::alloc::Global;
use std::io;
use version_table::{Action, Decision, Versions};

fn main(rt: HostRuntime) -> io::Result<()> {
    let (Some(server), Some(one), Some(two)) = (Kernel::new(3), Kernel::new(1), Kernel::new(2))
    else {
        return Ok(());
    };
    let file = FileId { server, number: 7 };
    let mut versions = Versions::new(rt.alloc(), true);
    print_opened(&rt, open(&mut versions, &file, one, 1, Mode::Write))?;
    close(&mut versions, &file, one, 1);
    print_opened(&rt, open(&mut versions, &file, two, 1, Mode::Read))?;
    print_opened(&rt, open(&mut versions, &file, one, 2, Mode::Both))
}

/// Prints how many callbacks went before the grant, and the grant.
fn print_opened(
    rt: &HostRuntime,
    opened: Result<Option<(usize, Grant)>, NoMemory>,
) -> io::Result<()> {
    match opened {
        Ok(Some((calls, grant))) => {
            println!(rt;
                "callbacks {calls}, stamp {}, version {}, cached {}",
                grant.stamp, grant.new, grant.on
            )
        }
        Ok(None) => println!(rt; "it waits"),
        Err(NoMemory) => println!(rt; "out of memory"),
    }
}

/// Takes the one grant of the kernel's stream of that number off it, where the file waits for nothing.
fn close(versions: &mut Versions, file: &FileId, kernel: Kernel, number: u32) {
    if !versions.busy(*file) {
        versions.close(*file, kernel, StreamNo { kernel, number }, 1);
    }
}

/// The kernel opens its stream of that number. Behind this, as behind all that was called so far, a kernel that has the file open for
/// writing is alone where the file may be cached: a law of `version_table`.
fn open(
    versions: &mut Versions,
    file: &FileId,
    kernel: Kernel,
    number: u32,
    mode: Mode,
) -> Result<Option<(usize, Grant)>, NoMemory>
    ensures { CachedIsUnshared (file_of versions.new.files file.now) }
{
    let opened = decide(versions, file, kernel, StreamNo { kernel, number }, mode);
    versions.writers_are_alone(*file);
    opened
}

/// How many callbacks went first, and the grant; None where the file waits, or counters are spent.
fn decide(
    versions: &mut Versions,
    file: &FileId,
    kernel: Kernel,
    stream: StreamNo,
    mode: Mode,
) -> Result<Option<(usize, Grant)>, NoMemory> {
    if versions.busy(*file) || !versions.room(*file) {
        return Ok(None);
    }
    let action = Action::Opening {
        kernel,
        stream,
        mode,
        truncate: false,
    };
    match versions.decide(*file, action)? {
        Decision::Grant(grant) => Ok(Some((0, grant))),
        Decision::CallFirst(calls) => {
            answer_all(versions, file, &calls);
            if !versions.is_ready(*file) {
                return Ok(None);
            }
            Ok(Some((calls.len(), versions.settle(*file))))
        }
    }
}

/// Each callback is answered.
fn answer_all(versions: &mut Versions, file: &FileId, calls: &Items<Callback>) {
    for call in calls.as_slice() {
        if versions.busy(*file) {
            versions.answered(*file, call.to);
        }
    }
}
