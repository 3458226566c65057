//! Audits texts of a cluster file and a trace, which lie in `traces`, by the word `audit`, and prints of each its name, the exit status and
//! the line that is written. The traces are those of an independent design of the whole cluster, as they are and with one record left
//! out, doubled or moved; their verdicts come from an independent judge of traces (this project).

use crate::texts::print_text;
use std::io;
use std::sync::Wait;
use std::thread::Threads;

/// The files.
const CASES: [&str; 59] = [
    "argument",
    "no-records",
    "device",
    "stalled",
    "shared-offset",
    "shared-log",
    "past-the-limit",
    "shared-for-writing",
    "given-up",
    "every-packet-lost",
    "page-fetched",
    "evicted",
    "killed-away",
    "truncated-while-open",
    "old-version-dropped",
    "evicted-at-birth",
    "written-back-for-age",
    "reply-lost",
    "request-not-delivered",
    "entry-twice",
    "entry-left-out",
    "send-left-out",
    "grant-left-out",
    "opened-twice",
    "issue-left-out",
    "return-left-out",
    "return-twice",
    "loss-left-out",
    "try-left-out",
    "thaw-left-out",
    "filled-left-out",
    "mode-left-out",
    "mode-off-left-out",
    "filled-before-its-fetch",
    "dropped-by-a-cache-with-room",
    "callback-left-out",
    "off-before-its-grant",
    "learned-before-its-broadcast",
    "freeze-left-out",
    "freeze-twice",
    "written-back-too-early",
    "burst-left-out",
    "burst-twice",
    "loss-of-a-try-left-out",
    "loss-twice",
    "last-try-twice",
    "filled-twice",
    "dropped-twice",
    "callback-twice",
    "learned-twice",
    "mode-twice",
    "thaw-twice",
    "steps",
    "no-line-of-signs",
    "unknown-event",
    "bad-cluster-first",
    "history-for-a-trace",
    "kill-untold",
    "issued-behind-a-kill",
];

/// Prints what comes of each file. It fails where one can't be read, or where the output fails.
pub fn print_all<R: Threads + Wait + Sync>(rt: &HostRuntime, threads: &R) -> io::Result<()> {
    for name in CASES {
        print_text(rt, threads, "traces", "audit", name)?;
    }
    Ok(())
}
