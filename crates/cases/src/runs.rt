//! Judges runs that are told by their journals or their traces, which lie in `runs` beside the cluster files, and prints of each its
//! name and what it comes to. What is to come was found by hand from the rules; traces that are told whole come from an independent
//! design of the cluster (this project).

use crate::files::case_file;
use crate::known::is_known;
use call_journal::Trace;
use cause_judge::are_for_cause;
use cluster_file::read_description;
use history_text::read_history;
use link_plan::Fate;
use process_machine::Reply;
use run_judge::{JudgedRun, Refutation, judge_run};
use sprite_ids::{Copying, Errno, Finish, Kernel, NoMemory, TxNo};
use sprite_paths::Path;
use std::alloc::Global;
use std::io;
use trace_text::read_trace;
use unix_calls::{About, Entry, Event, Part, Rec, SendKind};

/// How many instructions the processes of a run may do.
const MOST_INSTRUCTIONS: u64 = 100_000;

/// What a trace tells besides the entries and the returns of its calls, all of which are at the homes of their processes.
#[derive(Clone, Copy, PartialEq, Eq)]
enum Beside {
    Nothing,
    /// Where each call was issued.
    Issues,
    /// That, and of each call that finds a server unreachable the packets that were lost.
    Losses,
    /// All that it has: the file is a printed trace.
    All,
}

/// The runs: a name, the files with the cluster and the journal, how it ended, and what its trace tells besides.
const CASES: [(&str, &str, &str, Finish, Beside); 20] = [
    (
        "hello",
        "hello.toml",
        "hello.txt",
        Finish::AllEnded,
        Beside::Issues,
    ),
    (
        "hello-begun",
        "hello.toml",
        "hello-begun.txt",
        Finish::AllEnded,
        Beside::Issues,
    ),
    (
        "hello-lives",
        "hello.toml",
        "hello.txt",
        Finish::Budget,
        Beside::Issues,
    ),
    (
        "hello-wrong",
        "hello.toml",
        "hello-wrong.txt",
        Finish::AllEnded,
        Beside::Issues,
    ),
    (
        "hello-not-issued",
        "hello.toml",
        "hello.txt",
        Finish::AllEnded,
        Beside::Nothing,
    ),
    (
        "loop",
        "loop.toml",
        "none.txt",
        Finish::Budget,
        Beside::Issues,
    ),
    (
        "loop-stalled",
        "loop.toml",
        "none.txt",
        Finish::Stalled,
        Beside::Issues,
    ),
    (
        "loop-ended",
        "loop.toml",
        "loop.txt",
        Finish::AllEnded,
        Beside::Issues,
    ),
    (
        "deadlock",
        "deadlock.toml",
        "deadlock.trace",
        Finish::Stalled,
        Beside::All,
    ),
    (
        "deadlock-begun",
        "deadlock.toml",
        "deadlock-begun.txt",
        Finish::Stalled,
        Beside::Issues,
    ),
    (
        "deadlock-ended",
        "deadlock.toml",
        "deadlock.txt",
        Finish::AllEnded,
        Beside::Issues,
    ),
    (
        "death",
        "death.toml",
        "death.trace",
        Finish::AllEnded,
        Beside::All,
    ),
    (
        "death-begun",
        "death.toml",
        "death-begun.txt",
        Finish::Stalled,
        Beside::Issues,
    ),
    (
        "children",
        "children.toml",
        "children.trace",
        Finish::Stalled,
        Beside::All,
    ),
    (
        "children-begun",
        "children.toml",
        "children-begun.txt",
        Finish::Stalled,
        Beside::Issues,
    ),
    (
        "dead-device",
        "dead-device.toml",
        "dead-device.trace",
        Finish::AllEnded,
        Beside::All,
    ),
    (
        "dead-device-begun",
        "dead-device.toml",
        "dead-device-begun.txt",
        Finish::Stalled,
        Beside::Issues,
    ),
    (
        "unreached",
        "unreached.toml",
        "unreached.txt",
        Finish::AllEnded,
        Beside::Losses,
    ),
    (
        "unreached-without-cause",
        "unreached.toml",
        "unreached.txt",
        Finish::AllEnded,
        Beside::Issues,
    ),
    (
        "unreached-without-cause-lives",
        "unreached.toml",
        "unreached.txt",
        Finish::Budget,
        Beside::Issues,
    ),
];

/// Prints what each run comes to. It fails where a file can't be read, or where the output fails.
pub fn print_all(rt: &HostRuntime) -> io::Result<()> {
    for case in CASES.iter() {
        let text = text_in(rt, case.1, case.2, case.3, case.4)?;
        print_text(rt, case.0, text.as_str())?;
    }
    Ok(())
}

fn print_text(rt: &HostRuntime, name: &str, text: &str) -> io::Result<()> {
    print!(rt; "{name} {text}")
}

/// What a run comes to. It fails where a file can't be read.
fn text_in(
    rt: &HostRuntime,
    cluster: &str,
    journal: &str,
    finish: Finish,
    beside: Beside,
) -> io::Result<String> {
    let journal = case_file(rt, "runs", journal)?;
    text_with(rt, cluster, journal.as_slice(), finish, beside)
}

/// What a run with that journal comes to; no text where memory is wanting.
fn text_with(
    rt: &HostRuntime,
    cluster: &str,
    journal: &[u8],
    finish: Finish,
    beside: Beside,
) -> io::Result<String> {
    let cluster = case_file(rt, "runs", cluster)?;
    match judged(rt.alloc(), cluster.as_slice(), journal, finish, beside) {
        Ok(text) => Ok(text),
        Err(NoMemory) => Ok(String::new(rt.alloc())),
    }
}

/// What a run comes to, as a text.
fn judged(
    alloc: Global,
    cluster: &[u8],
    journal: &[u8],
    finish: Finish,
    beside: Beside,
) -> Result<String, NoMemory> {
    if beside == Beside::All {
        return judged_whole(alloc, cluster, journal, finish);
    }
    let Ok(entries) = read_history(alloc, journal) else {
        return Ok(String::from_str(alloc, "no journal\n")?);
    };
    let trace = trace_of(alloc, entries.as_slice(), beside)?;
    judged_trace(alloc, cluster, &trace, finish)
}

/// What a run with that printed trace comes to.
fn judged_whole(
    alloc: Global,
    cluster: &[u8],
    text: &[u8],
    finish: Finish,
) -> Result<String, NoMemory> {
    let Ok(trace) = read_trace(alloc, text) else {
        return Ok(String::from_str(alloc, "no trace\n")?);
    };
    judged_trace(alloc, cluster, &trace, finish)
}

/// What a run with that trace comes to.
fn judged_trace(
    alloc: Global,
    cluster: &[u8],
    trace: &Trace,
    finish: Finish,
) -> Result<String, NoMemory> {
    let Ok(description) = read_description(alloc, cluster) else {
        return Ok(String::from_str(alloc, "no cluster\n")?);
    };
    if !is_known(alloc, &description, trace.records())? {
        return Ok(String::from_str(alloc, "no run's trace\n")?);
    }
    if !are_for_cause(&description, trace.records()) {
        return Ok(String::from_str(alloc, "unreachable without cause\n")?);
    }
    let run = judge_run(alloc, &description, trace, finish, MOST_INSTRUCTIONS)?;
    text_of(alloc, &run)
}

fn text_of(alloc: Global, run: &JudgedRun) -> Result<String, NoMemory> {
    match run {
        JudgedRun::Judged { output, .. } => judged_text(alloc, output.as_slice()),
        JudgedRun::Refuted(refutation) => refuted_text(alloc, *refutation),
        JudgedRun::Steps(place) => Ok(format!(in alloc; "steps {place}\n")?),
    }
}

fn judged_text(alloc: Global, output: &[u8]) -> Result<String, NoMemory> {
    let text = String::from_utf8_lossy(alloc, output)?;
    Ok(format!(in alloc; "judged\n{text}")?)
}

fn refuted_text(alloc: Global, refutation: Refutation) -> Result<String, NoMemory> {
    match refutation {
        Refutation::Legal(place) => Ok(format!(in alloc; "not legal {place}\n")?),
        Refutation::Once => Ok(String::from_str(alloc, "not once\n")?),
        Refutation::End => Ok(String::from_str(alloc, "ended otherwise\n")?),
        Refutation::Stall => Ok(String::from_str(alloc, "not stalled\n")?),
        Refutation::Rule(rule) => {
            let name = rule.name();
            Ok(format!(in alloc; "breaks {name}\n")?)
        }
    }
}

/// A trace with that journal, where each call is issued before its first entry, if that is to be told, and returns behind its last one;
/// where a call finds the server unreachable, a request to it that was given up stands before the entry, if that is to be told.
fn trace_of(alloc: Global, entries: &[Entry], beside: Beside) -> Result<Trace, NoMemory> {
    let mut trace = Trace::new(alloc);
    for entry in entries {
        push_entry(alloc, &mut trace, entry, beside)?;
    }
    Ok(trace)
}

fn push_entry(
    alloc: Global,
    trace: &mut Trace,
    entry: &Entry,
    beside: Beside,
) -> Result<(), NoMemory> {
    if beside != Beside::Nothing {
        push_issue(alloc, trace, entry)?;
    }
    if beside == Beside::Losses && is_unreachable(entry) {
        push_losses(alloc, trace, entry)?;
    }
    let kernel = entry.pid.home();
    push(trace, kernel, enter(alloc, entry)?)?;
    push_return(alloc, trace, entry)
}

fn push_issue(alloc: Global, trace: &mut Trace, entry: &Entry) -> Result<(), NoMemory> {
    if entry.part == Part::Done {
        return Ok(());
    }
    match &entry.call {
        Some(call) => {
            let event = Event::Issue {
                pid: entry.pid,
                number: entry.number,
                call: call.copy(alloc)?,
            };
            push(trace, entry.pid.home(), event)
        }
        None => Ok(()),
    }
}

fn is_unreachable(entry: &Entry) -> bool {
    matches!(entry.reply, Some(Reply::Error(Errno::Unreachable)))
}

/// The call asks the second kernel who serves `/`, and each of the eight tries is lost.
fn push_losses(alloc: Global, trace: &mut Trace, entry: &Entry) -> Result<(), NoMemory> {
    let server = Kernel::new(2).ok_or(NoMemory)?;
    push_ask(alloc, trace, entry, server)?;
    for tries in 1..=8 {
        push_lost_try(trace, entry.pid.home(), server, tries == 8)?;
    }
    Ok(())
}

fn push_ask(
    alloc: Global,
    trace: &mut Trace,
    entry: &Entry,
    server: Kernel,
) -> Result<(), NoMemory> {
    let prefix = Path::root(alloc);
    let event = Event::Send {
        tx: TxNo(1),
        to: server,
        about: Some(About {
            pid: entry.pid,
            number: entry.number,
        }),
        kind: SendKind::Broadcast { prefix },
    };
    push(trace, entry.pid.home(), event)
}

fn push_lost_try(
    trace: &mut Trace,
    kernel: Kernel,
    server: Kernel,
    last: bool,
) -> Result<(), NoMemory> {
    let loss = Event::Fault {
        a: kernel,
        b: server,
        fate: Fate::Lost,
    };
    push(trace, kernel, loss)?;
    push(trace, kernel, Event::Expire { tx: TxNo(1), last })
}

fn enter(alloc: Global, entry: &Entry) -> Result<Event, NoMemory> {
    let entry = entry.copy(alloc)?;
    Ok(Event::Enter { entry })
}

fn push_return(alloc: Global, trace: &mut Trace, entry: &Entry) -> Result<(), NoMemory> {
    match &entry.reply {
        Some(reply) => {
            let event = Event::Return {
                pid: entry.pid,
                number: entry.number,
                reply: reply.copy(alloc)?,
            };
            push(trace, entry.pid.home(), event)
        }
        None => Ok(()),
    }
}

fn push(trace: &mut Trace, kernel: Kernel, event: Event) -> Result<(), NoMemory> {
    trace.push(Rec { kernel, event })
}
