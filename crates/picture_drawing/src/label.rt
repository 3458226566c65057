ghost use Rattle.std.specs.Prelude.{◌≤◌, IfOk, length};

use history_text::Field;
use link_plan::Fate;
use sprite_ids::{BlockNo, Bytes, CacheMode, CallKind, FileId, Mode, NoMemory};
use std::alloc::Global;
use unix_calls::{DropCause, Entry, Event, Part, SendKind};

/// How many characters what a record says has at most, so that it stays in its lane.
const LABEL_WIDTH: usize = 26;
/// How many characters an entry of the history has at most, so that it stays left of the lanes.
const ENTRY_WIDTH: usize = 36;

/// What a record says in its lane, at most 26 characters. The one error is want of memory.
pub(crate) fn label(alloc: Global, event: &Event) -> Result<Vec<u8>, NoMemory>
    ensures { IfOk result (λ text. length text.items ≤ 26) }
{
    let mut out = Vec::new(alloc);
    put_event(alloc, &mut out, event)?;
    cut(&mut out, LABEL_WIDTH)?;
    Ok(out)
}

/// An entry of the history in the line at the left, at most 36 characters: its number there, its process, the part where it isn't the whole
/// call, the call and the reply. The one error is want of memory.
pub(crate) fn entry_label(alloc: Global, number: u64, entry: &Entry) -> Result<Vec<u8>, NoMemory>
    ensures { IfOk result (λ text. length text.items ≤ 36) }
{
    let mut out = Vec::new(alloc);
    put_entry(alloc, &mut out, number, entry)?;
    cut(&mut out, ENTRY_WIDTH)?;
    Ok(out)
}

// Cuts a text that has too many bytes: its beginning, and two dots.
fn cut(out: &mut Vec<u8>, most: usize) -> Result<(), NoMemory>
    requires { 2 ≤ most }
    ensures { IfOk result (λ _. length out.new.items ≤ most) }
{
    if most < out.len() {
        out.truncate(most - 2);
        out.extend_from_slice(b"..")?;
    }
    Ok(())
}

fn put_entry(alloc: Global, out: &mut Vec<u8>, number: u64, entry: &Entry) -> Result<(), NoMemory> {
    say(alloc, out, b"", &number)?;
    say(alloc, out, b" ", &entry.pid)?;
    out.extend_from_slice(match entry.part {
        Part::Whole => b"",
        Part::Ask => b" ask",
        Part::Done => b" done",
        Part::Death => b" death",
    })?;
    if let Some(call) = &entry.call {
        say(alloc, out, b" ", call)?;
        out.extend_from_slice(b" -> ")?;
    }
    match &entry.reply {
        Some(reply) => reply.put(alloc, out),
        None => Ok(()),
    }
}

// Puts what a record says of a process, of a call or of a packet.
fn put_event(alloc: Global, out: &mut Vec<u8>, event: &Event) -> Result<(), NoMemory> {
    match event {
        Event::Burst { pid, count } => {
            say(alloc, out, b"", pid)?;
            say(alloc, out, b" runs ", count)
        }
        Event::Issue { pid, number, call } => {
            say(alloc, out, b"", pid)?;
            say(alloc, out, b".", number)?;
            say(alloc, out, b" ", call)
        }
        Event::Enter { entry } => {
            say(alloc, out, b"enters ", &entry.pid)?;
            say(alloc, out, b".", &entry.number)
        }
        Event::Return { pid, number, reply } => {
            say(alloc, out, b"", pid)?;
            say(alloc, out, b".", number)?;
            say(alloc, out, b" = ", reply)
        }
        Event::Freeze { pid } => {
            say(alloc, out, b"", pid)?;
            end(out, b" freezes")
        }
        Event::Thaw { pid } => {
            say(alloc, out, b"", pid)?;
            end(out, b" thaws")
        }
        _ => put_packet(alloc, out, event),
    }
}

// Puts what a record says of a packet.
fn put_packet(alloc: Global, out: &mut Vec<u8>, event: &Event) -> Result<(), NoMemory> {
    match event {
        Event::Send { tx, kind, .. } => {
            say(alloc, out, b"send ", &tx.0)?;
            put_kind(alloc, out, kind)
        }
        Event::Fault { b, fate, .. } => say(alloc, out, fate_words(*fate), &b.number()),
        Event::Deliver { tx, reply, .. } => {
            say(
                alloc,
                out,
                if *reply { b"reply " } else { b"request " },
                &tx.0,
            )
        }
        Event::Expire { tx, last } => {
            say(alloc, out, b"expired ", &tx.0)?;
            end(out, if *last { b": gives up" } else { b": retry" })
        }
        _ => put_caching(alloc, out, event),
    }
}

// Puts what a record says of a file's caching.
fn put_caching(alloc: Global, out: &mut Vec<u8>, event: &Event) -> Result<(), NoMemory> {
    match event {
        Event::Grant { file, to, mode, .. } => {
            say_file(alloc, out, b"grant ", file)?;
            say(alloc, out, b" to ", &to.number())?;
            end(out, cache_words(*mode))
        }
        Event::Callback { file, to, kind, .. } => {
            let words: &[u8] = match kind {
                CallKind::Recall => b"recall ",
                CallKind::Stop => b"stop ",
            };
            say_file(alloc, out, words, file)?;
            say(alloc, out, b" at ", &to.number())
        }
        Event::Mode { file, mode, .. } => {
            say_file(alloc, out, b"cache ", file)?;
            end(out, cache_words(*mode))
        }
        Event::Filled { file, block } => say_block(alloc, out, b"filled ", file, *block),
        Event::Dropped { file, block, cause } => {
            say_block(alloc, out, b"dropped ", file, *block)?;
            end(out, cause_words(*cause))
        }
        Event::Dirtied { file, block } => say_block(alloc, out, b"dirtied ", file, *block),
        Event::WroteBack { file, block } => say_block(alloc, out, b"wrote back ", file, *block),
        _ => put_stream(alloc, out, event),
    }
}

// Puts what a record says of a stream or a prefix.
fn put_stream(alloc: Global, out: &mut Vec<u8>, event: &Event) -> Result<(), NoMemory> {
    match event {
        Event::Opened {
            file,
            kernel,
            mode,
            ..
        } => {
            say_file(alloc, out, b"opened ", file)?;
            say(alloc, out, b" by ", &kernel.number())?;
            end(out, mode_words(*mode))
        }
        Event::Closed {
            file,
            kernel,
            mode,
            ..
        } => {
            say_file(alloc, out, b"closed ", file)?;
            say(alloc, out, b" by ", &kernel.number())?;
            end(out, mode_words(*mode))
        }
        Event::Shared { file, stream } => {
            say_file(alloc, out, b"shared ", file)?;
            say(alloc, out, b" stream ", &stream.kernel.number())?;
            say(alloc, out, b":", &stream.number)
        }
        Event::Learned { prefix, server } => {
            say(alloc, out, b"learned ", &Bytes::of_vec(prefix.text(alloc)?))?;
            say(alloc, out, b" at ", &server.number())
        }
        _ => Ok(()),
    }
}

// Puts what a request is for.
fn put_kind(alloc: Global, out: &mut Vec<u8>, kind: &SendKind) -> Result<(), NoMemory> {
    match kind {
        SendKind::Op { file } => say_file(alloc, out, b" op ", file),
        SendKind::Fetch { file, block } => say_block(alloc, out, b" fetch ", file, *block),
        SendKind::WriteBack { file, block } => say_block(alloc, out, b" writeback ", file, *block),
        SendKind::Broadcast { prefix } => {
            let text = Bytes::of_vec(prefix.text(alloc)?);
            say(alloc, out, b" broadcast ", &text)
        }
        SendKind::Other => Ok(()),
    }
}

// Puts words, and a value behind them.
fn say<T: Field>(
    alloc: Global,
    out: &mut Vec<u8>,
    words: &[u8],
    value: &T,
) -> Result<(), NoMemory> {
    end(out, words)?;
    value.put(alloc, out)
}

fn say_file(alloc: Global, out: &mut Vec<u8>, words: &[u8], file: &FileId) -> Result<(), NoMemory> {
    say(alloc, out, words, &file.server.number())?;
    say(alloc, out, b":", &file.number)
}

fn say_block(
    alloc: Global,
    out: &mut Vec<u8>,
    words: &[u8],
    file: &FileId,
    block: BlockNo,
) -> Result<(), NoMemory> {
    say_file(alloc, out, words, file)?;
    say(alloc, out, b"/", &u32::from(block.0))
}

fn end(out: &mut Vec<u8>, words: &[u8]) -> Result<(), NoMemory> {
    out.extend_from_slice(words)?;
    Ok(())
}

fn fate_words(fate: Fate) -> &'static [u8] {
    match fate {
        Fate::Once => b"once to ",
        Fate::Lost => b"lost to ",
        Fate::Twice => b"twice to ",
        Fate::Late => b"late to ",
    }
}

fn cache_words(mode: CacheMode) -> &'static [u8] {
    match mode {
        CacheMode::On => b" on",
        CacheMode::Off => b" off",
        CacheMode::None => b" none",
    }
}

fn cause_words(cause: DropCause) -> &'static [u8] {
    match cause {
        DropCause::Full => b": full",
        DropCause::Stop => b": stop",
        DropCause::Version => b": version",
    }
}

fn mode_words(mode: Mode) -> &'static [u8] {
    match mode {
        Mode::Read => b": read",
        Mode::Write => b": write",
        Mode::Both => b": both",
    }
}
