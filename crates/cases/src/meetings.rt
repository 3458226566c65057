//! Runs a cluster by threads (this project): two clients share a file, and the first burst of each is held until the other one is in a
//! burst too, so the run ends well only where the two are done at the same time. Printed are the exit status, what is written, and whether
//! the bursts missed each other. That was worked out by hand or by an independent design.

use crate::files::case_file;
use crate::top::{SOUND, called};
use kernel_threads::{Point, Watch};
use sprite_ids::Kernel;
use std::sync::Wait;
use std::sync::atomic::{AtomicBool, Ordering};
use std::thread::Threads;
use std::{io, thread};

/// How often a kernel looks for the other one.
const LOOKS: u32 = 100_000_000;

/// Where the first bursts of the kernels 1 and 2 are.
#[derive(Drop)]
struct Meeting {
    first_is_in: AtomicBool,
    second_is_in: AtomicBool,
    was_missed: AtomicBool,
}

impl Watch for Meeting {
    fn at(&self, kernel: Kernel, point: Point) {
        if point == Point::Turn {
            return;
        }
        match kernel.number() {
            1 => meet(&self.first_is_in, &self.second_is_in, &self.was_missed),
            2 => meet(&self.second_is_in, &self.first_is_in, &self.was_missed),
            _ => {}
        }
    }
}

/// Tells that a burst has begun, and waits until the other one has, for at most so many looks.
fn meet(own: &AtomicBool, other: &AtomicBool, was_missed: &AtomicBool) {
    own.store(true, Ordering::SeqCst);
    for _ in 0..LOOKS {
        if other.load(Ordering::SeqCst) {
            return;
        }
        thread::yield_now();
    }
    was_missed.store(true, Ordering::SeqCst);
}

/// Prints what comes of the run by threads. It fails where the file can't be read, or where the output fails.
pub fn print_meeting<R: Threads + Wait + Sync>(rt: &HostRuntime, threads: &R) -> io::Result<()> {
    let file = case_file(rt, "meetings", "write-sharing-two-clients")?;
    let meeting = Meeting {
        first_is_in: AtomicBool::new(false),
        second_is_in: AtomicBool::new(false),
        was_missed: AtomicBool::new(false),
    };
    let Ok(left) = called(threads, rt.alloc(), &["run"], file, SOUND, &meeting) else {
        return println!(rt; "out of memory");
    };
    let was_missed = meeting.was_missed.load(Ordering::SeqCst);
    let status = left.status.number();
    let written = left.written.as_str();
    print!(rt; "== run {status}\n{written}missed {was_missed}\n")
}
