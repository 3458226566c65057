//! Runs the clusters of cluster files, which lie in `clusters`, by the word `run` or `history`, and two workloads, and prints of each its name, the word,
//! the exit status and what is written. That was worked out by hand or by an independent design (this project).

use crate::files::case_file;
use crate::top::{Left, SOUND, called};
use kernel_threads::NoWatch;
use sprite_ids::NoMemory;
use std::io;
use std::sync::Wait;
use std::thread::Threads;

/// The files, each with the command.
const CASES: [(&str, &str); 75] = [
    ("append-on-two-clients", "run"),
    ("append-second-stream", "run"),
    ("append-second-stream", "history"),
    ("append-shared-log", "run"),
    ("append-without-write", "run"),
    ("bad-step-ends-child", "run"),
    ("bad-step-past-last-instruction", "run"),
    ("bad-step-past-last-instruction", "history"),
    ("bad-step-word-over-last-byte", "run"),
    ("broadcast-given-up", "run"),
    ("broadcast-given-up-nocache", "run"),
    ("budget-endless-loop", "run"),
    ("budget-endless-loop", "history"),
    ("console-empty-and-open-lines", "run"),
    ("device-dead-master", "run"),
    ("device-deadlock-avoided", "run"),
    ("device-deadlock-stalled", "run"),
    ("device-echo-server", "run"),
    ("device-echo-server-lossy", "run"),
    ("directory-calls", "run"),
    ("directory-calls", "history"),
    ("domains-on-three-servers", "run"),
    ("domains-on-three-servers", "history"),
    ("domains-on-three-servers-nocache", "run"),
    ("echo-given-up-then-noentry", "run"),
    ("echo-given-up-then-noentry", "history"),
    ("echo-given-up-then-noentry-nocache", "run"),
    ("every-packet-lost", "run"),
    ("every-packet-lost-nocache", "run"),
    ("eviction-after-two-calls", "run"),
    ("eviction-after-two-calls", "history"),
    ("exec-in-child", "run"),
    ("first-eight-packets-lost", "run"),
    ("foreign-process-served-by-home", "run"),
    ("hello", "run"),
    ("hello", "history"),
    ("kill-breaks-off-pd-get", "run"),
    ("kill-running-child", "run"),
    ("lost-open-replies-open-once", "run"),
    ("lost-open-replies-open-once-nocache", "run"),
    ("lost-open-replies-without-broadcast", "run"),
    ("lost-reads-end-at-budget", "run"),
    ("make-on-four-clients", "run"),
    ("migrate-with-dirty-blocks", "run"),
    ("missing-operands-from-registers", "run"),
    ("nothing-to-start", "run"),
    ("page-fetched-after-migrate", "run"),
    ("processes-in-pid-order", "run"),
    ("program-text-spelling", "run"),
    ("read-lengths-none-short-too-long", "run"),
    ("read-lengths-none-short-too-long", "history"),
    ("read-lengths-none-short-too-long-nocache", "run"),
    ("recall-partial-last-block", "run"),
    ("recall-partial-last-block-nocache", "run"),
    ("rexec-bad-host", "run"),
    ("rexec-on-another-client", "run"),
    ("rexec-on-another-client", "history"),
    ("second-read-from-cache", "run"),
    ("shared-offset-after-migrate", "run"),
    ("shared-offset-evicted-after-1", "run"),
    ("shared-offset-evicted-after-2", "run"),
    ("shared-offset-evicted-after-3", "run"),
    ("shared-offset-evicted-after-4", "run"),
    ("shared-offset-on-one-kernel", "run"),
    ("start-argument", "run"),
    ("store-word-lowest-byte-first", "run"),
    ("version-2-hello", "run"),
    ("version-2-joined-boot-file", "run"),
    ("version-2-write-past-file-limit", "run"),
    ("version-2-write-past-old-limit", "run"),
    ("write-past-file-limit", "run"),
    ("write-past-file-limit", "history"),
    ("write-past-file-limit-nocache", "run"),
    ("write-sharing-two-clients", "run"),
    ("write-sharing-two-clients-nocache", "run"),
];

/// Files whose calls have answers that those of the others don't have, each with the command.
const RARE: [(&str, &str); 6] = [
    ("a-full-directory", "run"),
    ("a-home-has-made-two-hundred", "run"),
    ("directories-come-and-go", "history"),
    ("names-too-long-or-too-deep", "history"),
    ("no-packet-reaches-the-server", "history"),
    ("walks-through-a-file", "history"),
];

/// Workloads, by their numbers as words.
const LOADS: [&str; 2] = ["1", "003"];

/// Prints what comes of each file and of each workload. It fails where one can't be read, or where the output fails.
pub fn print_all<R: Threads + Wait + Sync>(rt: &HostRuntime, threads: &R) -> io::Result<()> {
    for (name, command) in CASES {
        print_case(rt, threads, name, command)?;
    }
    print_rare(rt, threads)?;
    for count in LOADS {
        print_load(rt, threads, count)?;
    }
    Ok(())
}

/// Prints what comes of the files with rare answers. It fails as `print_all` does.
fn print_rare<R: Threads + Wait + Sync>(rt: &HostRuntime, threads: &R) -> io::Result<()> {
    for (name, command) in RARE {
        print_case(rt, threads, name, command)?;
    }
    Ok(())
}

/// Prints what comes of a file. It fails where the file can't be read, or where the output fails.
fn print_case<R: Threads + Wait + Sync>(
    rt: &HostRuntime,
    threads: &R,
    name: &str,
    command: &str,
) -> io::Result<()> {
    let file = case_file(rt, "clusters", name)?;
    match called(threads, rt.alloc(), &[command], file, SOUND, &NoWatch) {
        Ok(left) => print_left(rt, name, command, &left),
        Err(NoMemory) => println!(rt; "== {name} {command} out of memory"),
    }
}

/// Prints what comes of a workload of so many processes. It fails where the output fails; the file is not read.
fn print_load<R: Threads + Wait + Sync>(
    rt: &HostRuntime,
    threads: &R,
    count: &str,
) -> io::Result<()> {
    let file = case_file(rt, "clusters", "hello")?;
    match called(threads, rt.alloc(), &["load", count], file, SOUND, &NoWatch) {
        Ok(left) => print_left(rt, "load", count, &left),
        Err(NoMemory) => println!(rt; "== load {count} out of memory"),
    }
}

fn print_left(rt: &HostRuntime, name: &str, command: &str, left: &Left) -> io::Result<()> {
    let status = left.status.number();
    let text = left.written.as_str();
    print!(rt; "== {name} {command} {status}\n{text}")
}
