//! Runs the programs of the documents and clusters of `examples/`, which lie in `documents`, by the word `run`, and prints of each its name, the exit
//! status and what is written. The documents say so of the programs, and an independent design of the clusters (this project).

use crate::files::case_file;
use crate::top::{Left, SOUND, called};
use kernel_threads::NoWatch;
use sprite_ids::NoMemory;
use std::io;
use std::sync::Wait;
use std::thread::Threads;

/// The files.
const CASES: [&str; 16] = [
    "example-budget",
    "example-device",
    "example-eviction",
    "example-hello",
    "example-make",
    "example-stalled",
    "example-unreachable",
    "language-child-and-parent",
    "language-directory-and-file",
    "language-kill-of-a-child",
    "language-missing-file",
    "language-moves-and-images",
    "language-multiplication",
    "language-note",
    "language-pseudo-device",
    "language-shared-offset",
];

/// Prints what comes of each file. It fails where one can't be read, or where the output fails.
pub fn print_all<R: Threads + Wait + Sync>(rt: &HostRuntime, threads: &R) -> io::Result<()> {
    for name in CASES {
        print_case(rt, threads, name)?;
    }
    Ok(())
}

/// Prints what comes of a file. It fails where the file can't be read, or where the output fails.
fn print_case<R: Threads + Wait + Sync>(
    rt: &HostRuntime,
    threads: &R,
    name: &str,
) -> io::Result<()> {
    let file = case_file(rt, "documents", name)?;
    match called(threads, rt.alloc(), &["run"], file, SOUND, &NoWatch) {
        Ok(left) => print_left(rt, name, &left),
        Err(NoMemory) => println!(rt; "== {name} out of memory"),
    }
}

fn print_left(rt: &HostRuntime, name: &str, left: &Left) -> io::Result<()> {
    let status = left.status.number();
    let text = left.written.as_str();
    print!(rt; "== {name} {status}\n{text}")
}
