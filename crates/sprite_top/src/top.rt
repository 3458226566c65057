ghost use Rattle.std.specs.Prelude.{codes, ◌≡◌, ◌≤◌, ℕ, List, None, IfOk, length};
ghost use Rattle.sprite_words.specs.Words.{spelled, IsSpelled};
ghost use Rattle.sprite_words.specs.Writing.{Broke, Wrote};
ghost use Rattle.sprite_words.specs.declared.Command.TheVariants.{Audit as AuditWord, Check, File, Frames, Lend};
ghost use Rattle.sprite_ids.specs.declared.running.Finish.TheVariants.{AllEnded, Budget as Spent, Stalled as Stopped};
ghost use Rattle.frames_text.specs.Texts.{AreTold};
ghost use Rattle.lend_text.specs.Bodies.{answer_text};
ghost use Rattle.restart_text.specs.FileTexts.{file_text};
ghost use Rattle.report_print.specs.Refused.{refusal_line};
ghost use Rattle.sprite_top.specs.Judged.{AuditCauses, TextCauses, audit_status, audited_status, judgement_status, numbered_line, verdict_status};
ghost use Rattle.sprite_top.specs.Top.{AllWereReached, Completes, IsForCauseOf, IsRunOver, KeepsPrefixesOf, RunsOver, TellsFaultsOf, TellsWireOf, AsksFor, LoadCauses, LinesCauses, PacketsCauses, told_answer, RoseForCause, IsEnded, IsChecked, IsAnswered, IsRefuted, IsRefused, IsUsage, IsReadFault, Causes, FileCauses, status_number};

use crate::clusters::answer_cluster;
use crate::judged::{audited_line, judgement_line, numbered_line};
use call_journal::Closed;
use cluster_file::{FileEnd, Refusal, read_description};
use frames_text::{FramesAnswer, send_text};
use history_check::{Judgement, judge};
use kernel_threads::Watch;
use lend_text::lend_text;
use link_plan::Link;
use one_kernel::Verdict;
use report_print::refusal_line;
use restart_text::file_text;
use sprite_bytes::{ReadEnd, Sink, Source, read_all, write_all};
use sprite_ids::{Bytes, NoMemory};
use sprite_words::{Command, command_of};
use std::alloc::Global;
use std::sync::Wait;
use std::thread::Threads;
use text_rows::LineError;
use trace_audit::{Audit, AuditedText, audit_text};
use workload_maker::workload;

/// How many bytes a cluster file, a text of events, or one of steps of a file, may have.
const FILE_BYTES: usize = 1_048_576;

/// How many bytes a cluster file, a line `=====` and a history, a trace, or packets, may have.
const TEXT_BYTES: usize = 67_108_864;

/// What is written where the words are no command.
const USAGE_LINE: &[u8] =
    b"usage: sprite run | run --seed N | run --stats | history | load N | check | audit | trace | frames | file | lend\n";

/// What is written for more bytes than the command may read.
const TOO_LONG_LINE: &[u8] = b"refused: 1\n";

/// What is written where the source failed.
const FAULT_LINE: &[u8] = b"read fault\n";

/// How a call of the program ended. The numbers are the program's exit statuses (this project).
#[derive(Clone, Copy, Debug, PartialEq, Eq)]
pub enum Status {
    /// 0: a cluster was run, every process has ended, and the output was written.
    Ended,
    /// 0: a history was checked, and one Unix kernel gives it; or a trace was audited, and it keeps every promise.
    Holds,
    /// 0: a text was read whose lines are of their form, and what answers it was written.
    Answered,
    /// 1: the bytes read are not of the command's form.
    Refused,
    /// 2: the words are no command.
    Usage,
    /// 3: the source failed.
    ReadFault,
    /// 4: the budget is spent and a process lives; the output was written.
    Budget,
    /// 5: a process lives and nothing can happen any more; the output was written.
    Stalled,
    /// 6: memory was wanting; nothing was written.
    NoMemory,
    /// 7: the sink failed; a prefix of what was due was written.
    WriteFault,
    /// 8: a history was checked, and one Unix kernel doesn't give it; or a trace was audited, and it breaks a promise.
    Fails,
    /// 9: a history was checked, or a trace audited, whose processes do too many instructions to find out.
    Steps,
    /// 10: a cluster was run, and the run isn't what was promised of it; a line that says why was written. It would be a fault of
    /// this program.
    Refuted,
}

/// In which order things happen in a run (this project).
#[derive(Clone, Copy, Debug, PartialEq, Eq)]
pub enum Turns {
    /// Each kernel by a thread of its own: as the threads come.
    Threads,
    /// As a generator says that this number seeds.
    Seeded(u64),
}

/// What a command prints of the cluster that it ran (this project).
#[derive(Clone, Copy, Debug, PartialEq, Eq)]
pub enum Printing {
    /// `run`: what each process printed and how it ended.
    Output,
    /// `run --stats`: that, and the counts of the trace's records.
    Stats,
    /// `load N`: how many processes the workload has, how many of them ended well, and how many bytes they printed.
    Summary(u8),
    /// `history`: the entries of the run's journal, a line each.
    History,
    /// `trace`: the records of the run, a line each.
    Trace,
}

/// What the top call gives back.
#[derive(Drop)]
pub struct Ended<L: Link> {
    pub status: Status,
    /// The link that it was given.
    pub link: L,
    /// The run that was made; None exactly where none was.
    pub closed: Option<Closed>,
}

/// What is due to be written, with which status, and the run that was made.
#[derive(Debug, Drop)]
pub struct Answer {
    pub status: Status,
    pub due: Bytes,
    pub closed: Option<Closed>,
}

/// Does the command that the words spell with what the source holds, and writes to the sink.
///
/// The words are those behind the program's name: `run`, `run --seed N`, `run --stats`, `history` and `trace` run the cluster of a
/// cluster file and print its output, that and the counts of its trace, its journal or its trace, and `check` judges a history, which
/// stands behind a cluster file and a line `=====`, against the one-kernel Unix, without running a cluster; `audit` asks a trace, which
/// stands there so, for every promise of a run; `load N` runs a workload of N
/// processes and prints its summary; `frames` sends packets, which stand behind a cluster file and a line `=====`, in frames over the
/// link, without running a cluster; `file` plays a text of steps of one file whose server may stop and come back; `lend` answers a text
/// of events of hosts that are lent. A cluster is run by a thread for each of its kernels, which tell `watch` where they are; by one
/// thread, which tells nothing, where there is a seed. It may wait for ever. All that is due is made before its first byte is written.
/// Want of memory may come at any point before, and then nothing is written. Where a source or a sink tells nothing of its bytes, the
/// clauses say that some bytes were read or written so.
#[tactic(auto, using(crate::proofs::CauseLaws::run_over, crate::proofs::CauseLaws::counted_over, crate::proofs::CauseLaws::wire_over, crate::proofs::CompleteLaws::broken_completes, crate::proofs::CompleteLaws::wanting_completes))]
pub fn sprite<R: Threads + Wait + Sync, S: Source, K: Sink, L: Link + Send, W: Watch + Sync>(
    rt: &R,
    alloc: Global,
    words: &[String],
    source: &mut S,
    sink: &mut K,
    link: L,
    watch: &W,
) -> Ended<L>
    ensures ended { result.status ≡ Status.Ended → Wrote (K.held sink.old) (K.held sink.new) (IsEnded AllEnded (spelled words.now) (S.left source.old) (S.left source.new) result.closed) }
    ensures budget { result.status ≡ Status.Budget → Wrote (K.held sink.old) (K.held sink.new) (IsEnded Spent (spelled words.now) (S.left source.old) (S.left source.new) result.closed) }
    ensures stalled { result.status ≡ Status.Stalled → Wrote (K.held sink.old) (K.held sink.new) (IsEnded Stopped (spelled words.now) (S.left source.old) (S.left source.new) result.closed) }
    ensures refuted { result.status ≡ Status.Refuted → Wrote (K.held sink.old) (K.held sink.new) (IsRefuted (spelled words.now) (S.left source.old) (S.left source.new) result.closed) }
    ensures holds { result.status ≡ Status.Holds → Wrote (K.held sink.old) (K.held sink.new) (IsChecked Status.Holds (spelled words.now) (S.left source.old) (S.left source.new) result.closed) }
    ensures fails { result.status ≡ Status.Fails → Wrote (K.held sink.old) (K.held sink.new) (IsChecked Status.Fails (spelled words.now) (S.left source.old) (S.left source.new) result.closed) }
    ensures steps { result.status ≡ Status.Steps → Wrote (K.held sink.old) (K.held sink.new) (IsChecked Status.Steps (spelled words.now) (S.left source.old) (S.left source.new) result.closed) }
    ensures answered { result.status ≡ Status.Answered → Wrote (K.held sink.old) (K.held sink.new) (IsAnswered (AreTold L.faults L.asked link result.link) (spelled words.now) (S.left source.old) (S.left source.new) result.closed) }
    ensures refused { result.status ≡ Status.Refused → Wrote (K.held sink.old) (K.held sink.new) (IsRefused (spelled words.now) (S.left source.old) (S.left source.new) result.closed) }
    ensures usage { result.status ≡ Status.Usage → Wrote (K.held sink.old) (K.held sink.new) (IsUsage (spelled words.now) (S.left source.old) (S.left source.new) (S.faults source.old) (S.faults source.new) result.closed) }
    ensures read_fault { result.status ≡ Status.ReadFault → Wrote (K.held sink.old) (K.held sink.new) (IsReadFault (spelled words.now) (S.faults source.old) (S.faults source.new) result.closed) }
    ensures no_memory { result.status ≡ Status.NoMemory → (K.held sink.new ≡ K.held sink.old) × (result.closed ≡ None) }
    ensures write_fault { result.status ≡ Status.WriteFault → Broke (K.held sink.old) (K.held sink.new) (K.faults sink.old) (K.faults sink.new) (λ status. Causes (AreTold L.faults L.asked link result.link) status (spelled words.now) (S.left source.old) (S.left source.new) (S.faults source.old) (S.faults source.new) result.closed) }
    ensures run { IsRunOver L.faults L.asked link result.link result.closed }
    ensures faults { TellsFaultsOf L.faults link result.link result.closed }
    ensures wire { TellsWireOf L.faults L.asked link result.link result.closed }
    ensures prefixes { KeepsPrefixesOf result.closed }
    ensures for_cause { IsForCauseOf result.closed }
    ensures rose { RoseForCause L.faults link result.link result.closed }
    ensures reached { AllWereReached L.faults link result.link result.closed }
    ensures complete { Completes result.status (spelled words.now) (S.left source.old) (S.faults source.old) (S.faults source.new) (K.faults sink.old) (K.faults sink.new) }
{
    let (answer, link) = answer_to(rt, alloc, words, source, link, watch);
    let Ok(answer) = answer else {
        return Ended {
            status: Status::NoMemory,
            link,
            closed: None,
        };
    };
    match write_all(sink, answer.due.as_slice()) {
        Ok(()) => Ended {
            status: answer.status,
            link,
            closed: answer.closed,
        },
        Err(_) => Ended {
            status: Status::WriteFault,
            link,
            closed: answer.closed,
        },
    }
}

/// What is due for these words and this source, and the link. The one error is want of memory.
#[tactic(auto, using(crate::proofs::TopLaws::none_over, crate::proofs::TopLaws::from_load))]
fn answer_to<R: Threads + Wait + Sync, S: Source, L: Link + Send, W: Watch + Sync>(
    rt: &R,
    alloc: Global,
    words: &[String],
    source: &mut S,
    link: L,
    watch: &W,
) -> (Result<Answer, NoMemory>, L)
    ensures causes { IfOk result.0 (λ a. Causes (AreTold L.faults L.asked link result.1) a.status (spelled words.now) (S.left source.old) (S.left source.new) (S.faults source.old) (S.faults source.new) a.closed a.due) }
    ensures over { IfOk result.0 (λ a. RunsOver L.faults L.asked link result.1 a.closed) }
{
    match command_of(words) {
        Some(Command::Run) => {
            answer_run(
                rt,
                alloc,
                source,
                Printing::Output,
                Turns::Threads,
                link,
                watch,
            )
        }
        Some(Command::RunSeed(seed)) => {
            answer_run(
                rt,
                alloc,
                source,
                Printing::Output,
                Turns::Seeded(seed),
                link,
                watch,
            )
        }
        Some(Command::RunStats) => {
            answer_run(
                rt,
                alloc,
                source,
                Printing::Stats,
                Turns::Threads,
                link,
                watch,
            )
        }
        Some(Command::History) => {
            answer_run(
                rt,
                alloc,
                source,
                Printing::History,
                Turns::Threads,
                link,
                watch,
            )
        }
        Some(Command::Trace) => {
            answer_run(
                rt,
                alloc,
                source,
                Printing::Trace,
                Turns::Threads,
                link,
                watch,
            )
        }
        Some(Command::Load(count)) => answer_load(rt, alloc, count, link, watch),
        Some(Command::Check) => answer_check(alloc, source, link),
        Some(Command::Audit) => answer_audit(alloc, source, link),
        Some(Command::Frames) => answer_frames(alloc, source, link),
        Some(Command::File) => answer_steps(alloc, source, link),
        Some(Command::Lend) => answer_lend(alloc, source, link),
        None => (refuse(alloc, Status::Usage, USAGE_LINE), link),
    }
}

/// What is due for a command that runs a cluster, and this source, and the link. The one error is want of memory.
fn answer_run<R: Threads + Wait + Sync, S: Source, L: Link + Send, W: Watch + Sync>(
    rt: &R,
    alloc: Global,
    source: &mut S,
    print: Printing,
    turns: Turns,
    link: L,
    watch: &W,
) -> (Result<Answer, NoMemory>, L)
    ensures causes { (words : List (List ℕ)) → AsksFor print words → IfOk result.0 (λ a. Causes (AreTold L.faults L.asked link result.1) a.status words (S.left source.old) (S.left source.new) (S.faults source.old) (S.faults source.new) a.closed a.due) }
    ensures over { IfOk result.0 (λ a. RunsOver L.faults L.asked link result.1 a.closed) }
{
    match read_all(alloc, source, FILE_BYTES) {
        Ok(bytes) => answer_file(rt, alloc, bytes.as_slice(), print, turns, link, watch),
        Err(ReadEnd::TooLong) => (refuse(alloc, Status::Refused, TOO_LONG_LINE), link),
        Err(ReadEnd::Fault { .. }) => (refuse(alloc, Status::ReadFault, FAULT_LINE), link),
        Err(ReadEnd::NoMemory) => (Err(NoMemory), link),
    }
}

/// What is due for a workload of that many processes, and the link. The one error is want of memory.
fn answer_load<R: Threads + Wait + Sync, L: Link + Send, W: Watch + Sync>(
    rt: &R,
    alloc: Global,
    count: u8,
    link: L,
    watch: &W,
) -> (Result<Answer, NoMemory>, L)
    requires { (1 ≤ count) × (count ≤ 64) }
    ensures causes { IfOk result.0 (λ a. LoadCauses count a.status a.closed a.due) }
    ensures over { IfOk result.0 (λ a. RunsOver L.faults L.asked link result.1 a.closed) }
{
    match workload(alloc, count) {
        Ok(description) => {
            answer_cluster(
                rt,
                alloc,
                description,
                Printing::Summary(count),
                Turns::Threads,
                link,
                watch,
            )
        }
        Err(NoMemory) => (Err(NoMemory), link),
    }
}

/// What is due for the word `check` and this source, and the link. The one error is want of memory.
fn answer_check<S: Source, L: Link>(
    alloc: Global,
    source: &mut S,
    link: L,
) -> (Result<Answer, NoMemory>, L)
    ensures no_run { IfOk result.0 (λ a. a.closed ≡ None) }
    ensures causes { (words : List (List ℕ)) → IsSpelled Check words → IfOk result.0 (λ a. Causes (AreTold L.faults L.asked link result.1) a.status words (S.left source.old) (S.left source.new) (S.faults source.old) (S.faults source.new) a.closed a.due) }
{
    match read_all(alloc, source, TEXT_BYTES) {
        Ok(bytes) => (answer_text(alloc, bytes.as_slice()), link),
        Err(ReadEnd::TooLong) => (refuse(alloc, Status::Refused, TOO_LONG_LINE), link),
        Err(ReadEnd::Fault { .. }) => (refuse(alloc, Status::ReadFault, FAULT_LINE), link),
        Err(ReadEnd::NoMemory) => (Err(NoMemory), link),
    }
}

/// What is due for the word `audit` and this source, and the link. The one error is want of memory.
fn answer_audit<S: Source, L: Link>(
    alloc: Global,
    source: &mut S,
    link: L,
) -> (Result<Answer, NoMemory>, L)
    ensures no_run { IfOk result.0 (λ a. a.closed ≡ None) }
    ensures causes { (words : List (List ℕ)) → IsSpelled AuditWord words → IfOk result.0 (λ a. Causes (AreTold L.faults L.asked link result.1) a.status words (S.left source.old) (S.left source.new) (S.faults source.old) (S.faults source.new) a.closed a.due) }
{
    match read_all(alloc, source, TEXT_BYTES) {
        Ok(bytes) => (answer_trace(alloc, bytes.as_slice()), link),
        Err(ReadEnd::TooLong) => (refuse(alloc, Status::Refused, TOO_LONG_LINE), link),
        Err(ReadEnd::Fault { .. }) => (refuse(alloc, Status::ReadFault, FAULT_LINE), link),
        Err(ReadEnd::NoMemory) => (Err(NoMemory), link),
    }
}

/// What is due for the word `frames` and this source, and the link. The one error is want of memory.
fn answer_frames<S: Source, L: Link>(
    alloc: Global,
    source: &mut S,
    link: L,
) -> (Result<Answer, NoMemory>, L)
    ensures no_run { IfOk result.0 (λ a. a.closed ≡ None) }
    ensures causes { (words : List (List ℕ)) → IsSpelled Frames words → IfOk result.0 (λ a. Causes (AreTold L.faults L.asked link result.1) a.status words (S.left source.old) (S.left source.new) (S.faults source.old) (S.faults source.new) a.closed a.due) }
{
    match read_all(alloc, source, TEXT_BYTES) {
        Ok(bytes) => answer_packets(alloc, bytes.as_slice(), link),
        Err(ReadEnd::TooLong) => (refuse(alloc, Status::Refused, TOO_LONG_LINE), link),
        Err(ReadEnd::Fault { .. }) => (refuse(alloc, Status::ReadFault, FAULT_LINE), link),
        Err(ReadEnd::NoMemory) => (Err(NoMemory), link),
    }
}

/// What is due for a whole text that is to hold a cluster file and packets, and the link. The one error is want of memory.
#[tactic(auto, using(crate::proofs::TopLaws::from_told))]
fn answer_packets<L: Link>(alloc: Global, text: &[u8], link: L) -> (Result<Answer, NoMemory>, L)
    requires { length text.now ≤ 67108864 }
    ensures no_run { IfOk result.0 (λ a. a.closed ≡ None) }
    ensures causes { IfOk result.0 (λ a. PacketsCauses (AreTold L.faults L.asked link result.1) a.status text.now a.closed a.due) }
{
    let mut link = link;
    match send_text(alloc, &mut link, text) {
        Ok(told) => (Ok(told_answer(told)), link),
        Err(NoMemory) => (Err(NoMemory), link),
    }
}

/// What was told of a text of packets, as an answer.
fn told_answer(told: FramesAnswer) -> Answer
    ensures answer { result ≡ told_answer told }
    ensures no_run { result.closed ≡ None }
{
    match told {
        FramesAnswer::Lines(lines) => Answer {
            status: Status::Answered,
            due: lines,
            closed: None,
        },
        FramesAnswer::Refused(line) => Answer {
            status: Status::Refused,
            due: line,
            closed: None,
        },
    }
}

/// What is due for the word `file` and this source, and the link. The one error is want of memory.
fn answer_steps<S: Source, L: Link>(
    alloc: Global,
    source: &mut S,
    link: L,
) -> (Result<Answer, NoMemory>, L)
    ensures no_run { IfOk result.0 (λ a. a.closed ≡ None) }
    ensures causes { (words : List (List ℕ)) → IsSpelled File words → IfOk result.0 (λ a. Causes (AreTold L.faults L.asked link result.1) a.status words (S.left source.old) (S.left source.new) (S.faults source.old) (S.faults source.new) a.closed a.due) }
{
    match read_all(alloc, source, FILE_BYTES) {
        Ok(bytes) => (answer_step_lines(alloc, bytes.as_slice()), link),
        Err(ReadEnd::TooLong) => (refuse(alloc, Status::Refused, TOO_LONG_LINE), link),
        Err(ReadEnd::Fault { .. }) => (refuse(alloc, Status::ReadFault, FAULT_LINE), link),
        Err(ReadEnd::NoMemory) => (Err(NoMemory), link),
    }
}

/// What is due for a whole text of steps of a file. The one error is want of memory.
fn answer_step_lines(alloc: Global, text: &[u8]) -> Result<Answer, NoMemory>
    ensures no_run { IfOk result (λ a. a.closed ≡ None) }
    ensures causes { IfOk result (λ a. LinesCauses file_text a.status text.now a.closed a.due) }
{
    match file_text(alloc, text) {
        Ok(told) => Ok(answer_lines(told)),
        Err(LineError::Line(number)) => refuse_line(alloc, number),
        Err(LineError::NoMemory) => Err(NoMemory),
    }
}

/// What is due for the word `lend` and this source, and the link. The one error is want of memory.
fn answer_lend<S: Source, L: Link>(
    alloc: Global,
    source: &mut S,
    link: L,
) -> (Result<Answer, NoMemory>, L)
    ensures no_run { IfOk result.0 (λ a. a.closed ≡ None) }
    ensures causes { (words : List (List ℕ)) → IsSpelled Lend words → IfOk result.0 (λ a. Causes (AreTold L.faults L.asked link result.1) a.status words (S.left source.old) (S.left source.new) (S.faults source.old) (S.faults source.new) a.closed a.due) }
{
    match read_all(alloc, source, FILE_BYTES) {
        Ok(bytes) => (answer_events(alloc, bytes.as_slice()), link),
        Err(ReadEnd::TooLong) => (refuse(alloc, Status::Refused, TOO_LONG_LINE), link),
        Err(ReadEnd::Fault { .. }) => (refuse(alloc, Status::ReadFault, FAULT_LINE), link),
        Err(ReadEnd::NoMemory) => (Err(NoMemory), link),
    }
}

/// What is due for a whole text of events of hosts. The one error is want of memory.
fn answer_events(alloc: Global, text: &[u8]) -> Result<Answer, NoMemory>
    ensures no_run { IfOk result (λ a. a.closed ≡ None) }
    ensures causes { IfOk result (λ a. LinesCauses answer_text a.status text.now a.closed a.due) }
{
    match lend_text(alloc, text) {
        Ok(told) => Ok(answer_lines(told)),
        Err(LineError::Line(number)) => refuse_line(alloc, number),
        Err(LineError::NoMemory) => Err(NoMemory),
    }
}

/// An answer to the lines of a text.
fn answer_lines(told: Vec<u8>) -> Answer
    ensures { result ≡ record { status = Status.Answered; due = told.items; closed = None } }
{
    Answer {
        status: Status::Answered,
        due: Bytes::of_vec(told),
        closed: None,
    }
}

/// What is due for a text whose line of that number isn't of its form. The one error is want of memory.
fn refuse_line(alloc: Global, number: usize) -> Result<Answer, NoMemory>
    ensures { IfOk result (λ a. a ≡ record { status = Status.Refused; due = numbered_line (codes "refused: 15 line ") number; closed = None }) }
{
    let line = numbered_line(alloc, b"refused: 15 line ", number as u64)?;
    refuse(alloc, Status::Refused, line.as_slice())
}

/// What is due for a whole text that is to be checked. The one error is want of memory.
fn answer_text(alloc: Global, text: &[u8]) -> Result<Answer, NoMemory>
    ensures { IfOk result (λ a. TextCauses a.status text.now a.closed a.due) }
{
    let judgement = judge(alloc, text)?;
    let line = judgement_line(alloc, &judgement)?;
    refuse(alloc, judgement_status(&judgement), line.as_slice())
}

/// The status of a text that comes to that.
fn judgement_status(judgement: &Judgement) -> Status
    ensures { result ≡ judgement_status judgement.now }
{
    match judgement {
        Judgement::NoHistory => Status::Refused,
        Judgement::Refused(_) => Status::Refused,
        Judgement::BadLine(_) => Status::Refused,
        Judgement::Judged(verdict) => verdict_status(*verdict),
    }
}

/// The status of a history that comes to that.
fn verdict_status(verdict: Verdict) -> Status
    ensures { result ≡ verdict_status verdict }
{
    match verdict {
        Verdict::Legal => Status::Holds,
        Verdict::NotLegal(_) => Status::Fails,
        Verdict::Steps(_) => Status::Steps,
    }
}

/// What is due for a whole text that is to be audited. The one error is want of memory.
fn answer_trace(alloc: Global, text: &[u8]) -> Result<Answer, NoMemory>
    ensures { IfOk result (λ a. AuditCauses a.status text.now a.closed a.due) }
{
    let audited = audit_text(alloc, text)?;
    let line = audited_line(alloc, &audited)?;
    refuse(alloc, audited_status(&audited), line.as_slice())
}

/// The status of a text that is audited so.
fn audited_status(audited: &AuditedText) -> Status
    ensures { result ≡ audited_status audited.now }
{
    match audited {
        AuditedText::NoTrace => Status::Refused,
        AuditedText::Refused(_) => Status::Refused,
        AuditedText::BadLine(_) => Status::Refused,
        AuditedText::Audited(audit) => audit_status(*audit),
    }
}

/// The status of a trace that comes to that.
fn audit_status(audit: Audit) -> Status
    ensures { result ≡ audit_status audit }
{
    match audit {
        Audit::Holds => Status::Holds,
        Audit::Fails(_) => Status::Fails,
        Audit::Steps(_) => Status::Steps,
    }
}

/// An answer with no run.
fn refuse(alloc: Global, status: Status, line: &[u8]) -> Result<Answer, NoMemory>
    ensures { IfOk result (λ a. a ≡ record { status = status; due = line.now; closed = None }) }
{
    Ok(Answer {
        status,
        due: Bytes::of_slice(alloc, line)?,
        closed: None,
    })
}

/// What is due for a whole cluster file, and the link. The one error is want of memory.
fn answer_file<R: Threads + Wait + Sync, L: Link + Send, W: Watch + Sync>(
    rt: &R,
    alloc: Global,
    bytes: &[u8],
    print: Printing,
    turns: Turns,
    link: L,
    watch: &W,
) -> (Result<Answer, NoMemory>, L)
    ensures causes { IfOk result.0 (λ a. FileCauses print a.status bytes.now a.closed a.due) }
    ensures over { IfOk result.0 (λ a. RunsOver L.faults L.asked link result.1 a.closed) }
{
    match read_description(alloc, bytes) {
        Ok(description) => { answer_cluster(rt, alloc, description, print, turns, link, watch) }
        Err(FileEnd::Refused(refusal)) => (answer_refused(alloc, &refusal), link),
        Err(FileEnd::NoMemory) => (Err(NoMemory), link),
    }
}

/// What is due for a cluster file that is refused. The one error is want of memory.
fn answer_refused(alloc: Global, refusal: &Refusal) -> Result<Answer, NoMemory>
    ensures { IfOk result (λ a. a ≡ record { status = Status.Refused; due = refusal_line refusal.now; closed = None }) }
{
    let line = refusal_line(alloc, refusal)?;
    refuse(alloc, Status::Refused, line.as_slice())
}

impl Status {
    /// The exit status of the program, 0 to 10.
    pub fn number(self) -> u8
        ensures { result ≡ status_number self }
    {
        match self {
            Status::Ended => 0,
            Status::Holds => 0,
            Status::Answered => 0,
            Status::Refused => 1,
            Status::Usage => 2,
            Status::ReadFault => 3,
            Status::Budget => 4,
            Status::Stalled => 5,
            Status::NoMemory => 6,
            Status::WriteFault => 7,
            Status::Fails => 8,
            Status::Steps => 9,
            Status::Refuted => 10,
        }
    }
}
