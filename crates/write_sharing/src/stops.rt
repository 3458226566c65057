ghost use Rattle.std.specs.Prelude.{◌≡◌, OnOk};
ghost use Rattle.call_journal.specs.Matching.{is_off, is_stop};
ghost use Rattle.write_sharing.specs.Kept.{PutsStamp, StoppedOn, has_stamp, is_free_in, is_operation, is_well_stopped};

use crate::kept::StampAt;
use indexmap::IndexSet;
use process_machine::Call;
use sprite_ids::{CacheMode, CallKind, FileId, Kernel, NoMemory};
use trace_tables::Tied;
use unix_calls::{Event, Rec};

/// Whether a record that turns a kernel's caching off was asked for by the server, and an operation that enters at its server goes by
/// no file that was called back since it was opened last.
pub(crate) fn is_well_stopped(
    stopped: &IndexSet<StampAt>,
    called: &IndexSet<FileId>,
    rec: &Rec,
    tied: &Option<Tied>,
) -> bool
    ensures { result ≡ is_well_stopped stopped.now.keys called.now.keys rec.now.kernel rec.now.event tied.now }
{
    match &rec.event {
        Event::Mode { file, stamp, mode } => !is_off(*mode)
            || is_stopped(
                stopped,
                &StampAt {
                    file: *file,
                    kernel: rec.kernel,
                    stamp: *stamp,
                },
            ),
        Event::Enter { entry } => {
            !is_operation(&entry.call) || is_free(called, rec.kernel, tied)
        }
        _ => true,
    }
}

fn is_stopped(stopped: &IndexSet<StampAt>, at: &StampAt) -> bool
    ensures { result ≡ has_stamp stopped.now.keys at.now }
{
    stopped.contains(at)
}

/// Whether caching is turned off.
pub(crate) fn is_off(mode: CacheMode) -> bool
    ensures { result ≡ is_off mode }
{
    match mode {
        CacheMode::Off => true,
        _ => false,
    }
}

/// Whether a callback turns it off.
pub(crate) fn is_stop(kind: CallKind) -> bool
    ensures { result ≡ is_stop kind }
{
    match kind {
        CallKind::Stop => true,
        CallKind::Recall => false,
    }
}

// Whether it is an operation that may enter at a file's server.
fn is_operation(call: &Option<Call>) -> bool
    ensures { result ≡ is_operation call.now }
{
    match call {
        Some(Call::Read { .. }) => true,
        Some(Call::Write { .. }) => true,
        Some(Call::Size { .. }) => true,
        Some(Call::Seek { .. }) => true,
        _ => false,
    }
}

// Whether that kernel isn't the server of a file that was called back.
fn is_free(called: &IndexSet<FileId>, kernel: Kernel, tied: &Option<Tied>) -> bool
    ensures { result ≡ is_free_in called.now.keys kernel tied.now }
{
    match tied {
        Some(tied) => !(kernel == tied.file.server && called.contains(&tied.file)),
        None => true,
    }
}

/// Keeps the stamp by which an event turns caching off. The one error is want of memory.
pub(crate) fn keep_stopped(stopped: &mut IndexSet<StampAt>, event: &Event) -> Result<(), NoMemory>
    ensures { OnOk result (StoppedOn event.now stopped.old.keys stopped.new.keys) }
{
    match event {
        Event::Grant {
            file,
            to,
            stamp,
            mode,
        } => put_stamp(
            stopped,
            is_off(*mode),
            &StampAt {
                file: *file,
                kernel: *to,
                stamp: *stamp,
            },
        ),
        Event::Callback {
            file,
            to,
            stamp,
            kind,
        } => put_stamp(
            stopped,
            is_stop(*kind),
            &StampAt {
                file: *file,
                kernel: *to,
                stamp: *stamp,
            },
        ),
        _ => Ok(()),
    }
}

// Puts the stamp there, if it is to be there.
fn put_stamp(stopped: &mut IndexSet<StampAt>, on: bool, at: &StampAt) -> Result<(), NoMemory>
    ensures { OnOk result (PutsStamp on at.now stopped.old.keys stopped.new.keys) }
{
    if on {
        stopped.insert(*at)?;
    }
    Ok(())
}
