ghost use Rattle.std.specs.Prelude.{◌≡◌, ℕ, List, Some, IfOk};
ghost use Rattle.sprite_words.specs.Words.{spelled};
ghost use Rattle.sprite_words.specs.Writing.{Broke, Wrote};
ghost use Rattle.trace_picture.specs.Top.{Causes, IsAnswered, IsOfText, IsReadFault, IsTooLong, IsUsage};
ghost use Rattle.trace_picture.specs.Words.{asked_of};

use crate::asking::{Asked, asked_of};
use crate::drawing::draw;
use crate::printing::{line_of, status_of};
use crate::status::Status;
use sprite_bytes::{ReadEnd, Sink, Source, read_all, write_all};
use sprite_ids::NoMemory;
use std::alloc::Global;

/// How many bytes may be read.
const MOST_BYTES: usize = 268_435_456;

/// What is written where the words ask for nothing that there is.
const USAGE_LINE: &[u8] = b"usage: trace_picture [FIRST LAST] [follow SERVER:NUMBER]\n";

/// What is written for more bytes than may be read.
const TOO_LONG_LINE: &[u8] = b"refused: more than 268435456 bytes\n";

/// What is written where the source failed.
const FAULT_LINE: &[u8] = b"read fault\n";

/// What is due to be written, with which status.
#[derive(Drop)]
struct Answer {
    status: Status,
    due: Vec<u8>,
}

/// Draws the trace that the source holds, as the words say, to the sink. All that is due is made before its first byte is written; want of
/// memory may come at any point before, and then nothing is written.
pub(crate) fn trace_picture<S: Source, K: Sink>(
    alloc: Global,
    words: &[String],
    source: &mut S,
    sink: &mut K,
) -> Status
    ensures drawn { result ≡ Status.Drawn → Wrote (K.held sink.old) (K.held sink.new) (IsAnswered Status.Drawn (spelled words.now) (S.left source.old) (S.left source.new)) }
    ensures refused { result ≡ Status.Refused → Wrote (K.held sink.old) (K.held sink.new) (IsAnswered Status.Refused (spelled words.now) (S.left source.old) (S.left source.new)) }
    ensures too_long { result ≡ Status.TooLong → Wrote (K.held sink.old) (K.held sink.new) (IsTooLong (S.left source.old) (S.left source.new)) }
    ensures usage { result ≡ Status.Usage → Wrote (K.held sink.old) (K.held sink.new) (IsUsage (spelled words.now) (S.left source.old) (S.left source.new)) }
    ensures read_fault { result ≡ Status.ReadFault → Wrote (K.held sink.old) (K.held sink.new) (IsReadFault (S.faults source.old) (S.faults source.new)) }
    ensures no_memory { result ≡ Status.NoMemory → K.held sink.new ≡ K.held sink.old }
    ensures write_fault { result ≡ Status.WriteFault → Broke (K.held sink.old) (K.held sink.new) (K.faults sink.old) (K.faults sink.new) (λ status. Causes status (spelled words.now) (S.left source.old) (S.left source.new) (S.faults source.old) (S.faults source.new)) }
{
    let Ok(answer) = answer_to(alloc, words, source) else {
        return Status::NoMemory;
    };
    match write_all(sink, answer.due.as_slice()) {
        Ok(()) => answer.status,
        Err(_) => Status::WriteFault,
    }
}

// What is due for these words and this source. The one error is want of memory.
fn answer_to<S: Source>(alloc: Global, words: &[String], source: &mut S) -> Result<Answer, NoMemory>
    ensures { IfOk result (λ a. Causes a.status (spelled words.now) (S.left source.old) (S.left source.new) (S.faults source.old) (S.faults source.new) a.due.items) }
{
    match asked_of(words) {
        Some(asked) => answer_asked(alloc, asked, source),
        None => told(alloc, Status::Usage, USAGE_LINE),
    }
}

// What is due for what is asked of this source. The one error is want of memory.
#[tactic(auto, using(crate::proofs::TopLaws::from_text, crate::proofs::TopLaws::from_fault))]
fn answer_asked<S: Source>(alloc: Global, asked: Asked, source: &mut S) -> Result<Answer, NoMemory>
    ensures { (words : List (List ℕ)) → asked_of words ≡ Some asked → IfOk result (λ a. Causes a.status words (S.left source.old) (S.left source.new) (S.faults source.old) (S.faults source.new) a.due.items) }
{
    match read_all(alloc, source, MOST_BYTES) {
        Ok(text) => answer_text(alloc, asked, text.as_slice()),
        Err(ReadEnd::TooLong) => told(alloc, Status::TooLong, TOO_LONG_LINE),
        Err(ReadEnd::Fault { .. }) => told(alloc, Status::ReadFault, FAULT_LINE),
        Err(ReadEnd::NoMemory) => Err(NoMemory),
    }
}

// What is due for a text. The one error is want of memory.
fn answer_text(alloc: Global, asked: Asked, text: &[u8]) -> Result<Answer, NoMemory>
    ensures { IfOk result (λ a. IsOfText asked text.now a.status a.due.items) }
{
    let outcome = draw(alloc, asked, text)?;
    let status = status_of(&outcome);
    let due = line_of(alloc, outcome)?;
    Ok(Answer { status, due })
}

// A line that is due in place of a picture, with its status.
fn told(alloc: Global, status: Status, line: &[u8]) -> Result<Answer, NoMemory>
    ensures { IfOk result (λ a. (a.status ≡ status) × (a.due.items ≡ line.now)) }
{
    Ok(Answer {
        status,
        due: Vec::from_slice(alloc, line)?,
    })
}
