//! Calls the program's top call, over sources and sinks in memory that give, take and fail in each way, on cluster files that lie in
//! `calls`. It prints of each call the words, the status, how many records the run's trace has, and what is written. That was worked out
//! by hand (this project).

use crate::files::case_file;
use crate::top::{Device, Left, SOUND, called};
use kernel_threads::NoWatch;
use sprite_ids::NoMemory;
use std::io;
use std::sync::Wait;
use std::thread::Threads;

/// How many bytes a read gives and a write takes at most.
const PIECES: [(usize, usize); 8] = [
    (1, 1),
    (1, 4096),
    (2, 5),
    (7, 10),
    (100, 33),
    (255, 32),
    (4096, 1),
    (4096, 4096),
];

/// Seeds, as words.
const SEEDS: [&str; 4] = ["0", "1", "00000000000000000007", "18446744073709551615"];

/// Words that are no command on a cluster file. Nothing is read, though the source's first read would fail.
const WORDS: [&[&str]; 18] = [
    &["history", "run"],
    &["check", "run"],
    &["run", "check"],
    &["audit", "trace"],
    &["Check"],
    &[],
    &["walk"],
    &["RUN"],
    &["run", "run"],
    &["run", "--seed", "x"],
    &["run", "--seed", "18446744073709551616"],
    &["run", "--seed", "000000000000000000001"],
    &["run", "--seed", ""],
    &["run", "--seed=1"],
    &["run", "--stat"],
    &["load", "65"],
    &["--help"],
    &[""],
];

/// The number of a write, from 1, that fails where ten bytes are taken at a time; the output has four pieces.
const WRITES: [u64; 5] = [1, 2, 3, 4, 5];

/// The number of a read, from 1, that fails where a hundred bytes are given at a time; the file has two pieces.
const READS: [u64; 3] = [1, 2, 3];

/// Texts of events of hosts that are lent.
const EVENTS: [&str; 4] = [
    "events-two-borrowers",
    "events-none-free",
    "events-seventeen-hosts",
    "events-of-no-host",
];

/// Texts of steps of one file whose server stops and comes back; the last one is the documents' example.
const STEPS: [&str; 4] = [
    "steps-claim-granted",
    "steps-claim-refused",
    "steps-truncation-without-write",
    "steps-stale-claim",
];

/// Packets that are sent in frames.
const PACKETS: [&str; 6] = [
    "frames-second-lost",
    "frames-middle-piece-lost",
    "frames-twice-and-late",
    "frames-not-a-packet",
    "frames-second-line-bad",
    "frames-to-itself",
];

/// Cluster files that are refused, or whose process exits at once.
const DESCRIPTIONS: [&str; 31] = [
    "exit-past-greatest",
    "text-past-page-end",
    "text-with-tab",
    "version-and-comment",
    "version-2",
    "version-as-text",
    "version-missing",
    "budget-100",
    "version-without-value",
    "not-utf-8",
    "serves-nothing",
    "name-twice",
    "name-with-capital",
    "name-with-digit-first",
    "name-empty",
    "client-missing",
    "name-of-16",
    "name-of-17",
    "root-not-served",
    "two-domains",
    "serves-missing",
    "text-missing",
    "text-empty",
    "program-not-a-list",
    "start-on-server",
    "start-of-no-program",
    "start-with-argument",
    "version-as-text-and-kernel-as-number",
    "kernel-empty",
    "kernel-of-numbers",
    "file-at-root",
];

/// Cluster files that are run, whatever their traces have.
const RUNS: [&str; 37] = [
    "exit-0",
    "exit-255",
    "exit-256",
    "exit-greatest",
    "spaces-and-leading-zeros",
    "text-escapes",
    "text-to-page-end",
    "empty-text-behind-pages",
    "print-last-byte",
    "print-past-page-end",
    "refused-print-at-the-end",
    "print-nothing-far-out",
    "print-lines",
    "text-over-text",
    "first-exit-ends",
    "blank-last-line",
    "comment",
    "print-at-the-end",
    "two-ticks",
    "getpid",
    "getppid",
    "host-name",
    "host-length",
    "host-no-room",
    "loop-of-ten",
    "division-by-zero",
    "open-no-file",
    "wait-no-child",
    "migrate-no-client",
    "fork",
    "starts-none",
    "starts-on-two-clients",
    "starts-twice-on-one",
    "ticks-on-two-clients",
    "ticks-on-one-client",
    "endless",
    "endless-beside-others",
];

/// Prints what comes of each call. It fails where a file can't be read, or where the output fails.
pub fn print_all<R: Threads + Wait + Sync>(rt: &HostRuntime, threads: &R) -> io::Result<()> {
    print!(rt; "== history hello: ")?;
    print_call(rt, threads, &["history"], "hello", SOUND)?;
    print!(rt; "== run --stats hello: ")?;
    print_call(rt, threads, &["run", "--stats"], "hello", SOUND)?;
    print!(rt; "== check hello: ")?;
    print_call(rt, threads, &["check"], "hello", SOUND)?;
    print_events(rt, threads)?;
    print_steps(rt, threads)?;
    print_packets(rt, threads)?;
    print_pieces(rt, threads)?;
    print_seeds(rt, threads)?;
    print_words(rt, threads)?;
    print_writes(rt, threads)?;
    print_reads(rt, threads)?;
    print_descriptions(rt, threads)?;
    print_runs(rt, threads)
}

/// Answers to events of hosts.
fn print_events<R: Threads + Wait + Sync>(rt: &HostRuntime, threads: &R) -> io::Result<()> {
    for name in EVENTS {
        print!(rt; "== lend {name}: ")?;
        print_call(rt, threads, &["lend"], name, SOUND)?;
    }
    Ok(())
}

/// What comes of steps of one file.
fn print_steps<R: Threads + Wait + Sync>(rt: &HostRuntime, threads: &R) -> io::Result<()> {
    for name in STEPS {
        print!(rt; "== file {name}: ")?;
        print_call(rt, threads, &["file"], name, SOUND)?;
    }
    Ok(())
}

/// What comes of packets in frames.
fn print_packets<R: Threads + Wait + Sync>(rt: &HostRuntime, threads: &R) -> io::Result<()> {
    for name in PACKETS {
        print!(rt; "== frames {name}: ")?;
        print_call(rt, threads, &["frames"], name, SOUND)?;
    }
    Ok(())
}

/// A run by pieces of any size.
fn print_pieces<R: Threads + Wait + Sync>(rt: &HostRuntime, threads: &R) -> io::Result<()> {
    for (gives, takes) in PIECES {
        let device = Device {
            gives,
            takes,
            ..SOUND
        };
        print!(rt; "== run hello, {gives} read and {takes} written at most: ")?;
        print_call(rt, threads, &["run"], "hello", device)?;
    }
    Ok(())
}

/// A run by any seed.
fn print_seeds<R: Threads + Wait + Sync>(rt: &HostRuntime, threads: &R) -> io::Result<()> {
    for seed in SEEDS {
        print!(rt; "== run hello, seed {seed}: ")?;
        print_call(rt, threads, &["run", "--seed", seed], "hello", SOUND)?;
    }
    Ok(())
}

/// Words that are answered with the usage.
fn print_words<R: Threads + Wait + Sync>(rt: &HostRuntime, threads: &R) -> io::Result<()> {
    let device = Device {
        read_fails: 1,
        ..SOUND
    };
    for words in WORDS {
        print!(rt; "== words")?;
        print_each(rt, words)?;
        print!(rt; ": ")?;
        print_call(rt, threads, words, "hello", device)?;
    }
    Ok(())
}

/// Each of the words, in brackets.
fn print_each(rt: &HostRuntime, words: &[&str]) -> io::Result<()> {
    for word in words {
        print!(rt; " [{word}]")?;
    }
    Ok(())
}

/// Writes that fail: a prefix of the output stands by then.
fn print_writes<R: Threads + Wait + Sync>(rt: &HostRuntime, threads: &R) -> io::Result<()> {
    for write_fails in WRITES {
        let device = Device {
            takes: 10,
            write_fails,
            ..SOUND
        };
        print!(rt; "== run hello, write {write_fails} fails: ")?;
        print_call(rt, threads, &["run"], "hello", device)?;
    }
    Ok(())
}

/// Reads that fail.
fn print_reads<R: Threads + Wait + Sync>(rt: &HostRuntime, threads: &R) -> io::Result<()> {
    for read_fails in READS {
        let device = Device {
            gives: 100,
            read_fails,
            ..SOUND
        };
        print!(rt; "== run hello, read {read_fails} fails: ")?;
        print_call(rt, threads, &["run"], "hello", device)?;
    }
    Ok(())
}

fn print_descriptions<R: Threads + Wait + Sync>(rt: &HostRuntime, threads: &R) -> io::Result<()> {
    for name in DESCRIPTIONS {
        print!(rt; "== run {name}: ")?;
        print_call(rt, threads, &["run"], name, SOUND)?;
    }
    Ok(())
}

fn print_runs<R: Threads + Wait + Sync>(rt: &HostRuntime, threads: &R) -> io::Result<()> {
    for name in RUNS {
        print!(rt; "== run {name}: ")?;
        print_run(rt, threads, name)?;
    }
    Ok(())
}

/// Prints what comes of a call on a file. It fails where the file can't be read, or where the output fails.
fn print_call<R: Threads + Wait + Sync>(
    rt: &HostRuntime,
    threads: &R,
    words: &[&str],
    name: &str,
    device: Device,
) -> io::Result<()> {
    let file = case_file(rt, "calls", name)?;
    match called(threads, rt.alloc(), words, file, device, &NoWatch) {
        Ok(left) => print_left(rt, &left),
        Err(NoMemory) => println!(rt; "out of memory"),
    }
}

fn print_left(rt: &HostRuntime, left: &Left) -> io::Result<()> {
    let status = left.status;
    let written = left.written.as_str();
    match left.records {
        Some(count) => print!(rt; "{status:?}, {count} records\n{written}"),
        None => print!(rt; "{status:?}, no run\n{written}"),
    }
}

/// The same of a run on a file, without its records.
fn print_run<R: Threads + Wait + Sync>(
    rt: &HostRuntime,
    threads: &R,
    name: &str,
) -> io::Result<()> {
    let file = case_file(rt, "calls", name)?;
    match called(threads, rt.alloc(), &["run"], file, SOUND, &NoWatch) {
        Ok(left) => print_output(rt, &left),
        Err(NoMemory) => println!(rt; "out of memory"),
    }
}

fn print_output(rt: &HostRuntime, left: &Left) -> io::Result<()> {
    let status = left.status;
    let written = left.written.as_str();
    print!(rt; "{status:?}\n{written}")
}
