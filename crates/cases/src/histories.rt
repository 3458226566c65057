//! Judges texts of a cluster file and a history, which lie in `histories`, by the word `check`, and prints of each its name, the exit
//! status and the line that is written. Their verdicts come from an independent reading of the rules (this project).

use crate::texts::print_text;
use std::io;
use std::sync::Wait;
use std::thread::Threads;

/// The files.
const CASES: [&str; 65] = [
    "answer-before-master-ends",
    "cluster-before-body",
    "dead-device",
    "death",
    "death-before-kill",
    "first-entry-missing",
    "last-line-dropped",
    "legal",
    "no-separator",
    "no-separator-before-other-refusals",
    "no-such-call",
    "stale-read",
    "steps",
    "unknown-word-on-second-line",
    "unreachable",
    "wrong-value",
    "legal-1",
    "legal-2",
    "legal-3",
    "legal-4",
    "legal-5",
    "legal-6",
    "legal-7",
    "legal-8",
    "legal-9",
    "legal-10",
    "legal-11",
    "legal-12",
    "legal-13",
    "legal-14",
    "legal-15",
    "legal-16",
    "legal-17",
    "legal-18",
    "legal-19",
    "legal-20",
    "legal-21",
    "legal-22",
    "legal-23",
    "legal-24",
    "legal-25",
    "legal-26",
    "legal-27",
    "legal-28",
    "legal-29",
    "legal-30",
    "legal-31",
    "legal-32",
    "a-full-directory",
    "a-home-has-made-two-hundred",
    "directories-come-and-go",
    "names-too-long-or-too-deep",
    "no-packet-reaches-the-server",
    "walks-through-a-file",
    "wrong-number",
    "wrong-first",
    "wrong-second",
    "wrong-dropped",
    "wrong-refused",
    "wrong-other-errno",
    "wrong-death",
    "wrong-swapped",
    "wrong-twice",
    "wrong-shorter",
    "wrong-not-refused",
];

/// Prints what comes of each file. It fails where one can't be read, or where the output fails.
pub fn print_all<R: Threads + Wait + Sync>(rt: &HostRuntime, threads: &R) -> io::Result<()> {
    for name in CASES {
        print_text(rt, threads, "histories", "check", name)?;
    }
    Ok(())
}
