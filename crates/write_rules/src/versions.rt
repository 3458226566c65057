ghost use Rattle.std.specs.Prelude.{◌≡◌, ◌+◌, IfOk, OnOk};
ghost use Rattle.std.specs.List.{list_any};
ghost use Rattle.call_journal.specs.Calls.{is_truncating};
ghost use Rattle.call_journal.specs.Drops.{is_taken};
ghost use Rattle.call_journal.specs.Matching.{is_at, writes};
ghost use Rattle.trace_rules.specs.declared.place.StampAt.{StampAt};
ghost use Rattle.trace_rules.specs.Places.{file_of, has_stamp};
ghost use Rattle.write_rules.specs.Versions.{ChangesBy, FillsBy, GivesBy, MissesBy, ModesBy, OpensBy, StampsBy, StartsOn, TruncatesBy, VersionsOn, change_for, change_of, has_missed_in, is_off_in, is_old_version, is_untaken_in, last_of, next_change, place_or, stamp_at};

use indexmap::{IndexMap, IndexSet};
use process_machine::{Call, Reply};
use sprite_ids::{CacheMode, FileId, Kernel, Mode, NoMemory};
use std::alloc::Global;
use trace_rules::{BlockAt, FileAt, StampAt};
use unix_calls::{Entry, Event, Rec};

/// What a kernel took of a file last (this project).
#[derive(Clone, Copy, Debug, PartialEq, Eq)]
pub(crate) struct Taken {
    pub(crate) stamp: u32,
    pub(crate) mode: CacheMode,
}

/// Where a block came into a cache last, and the stamp of its file that the kernel had taken last before (this project).
#[derive(Clone, Copy, Debug, PartialEq, Eq)]
pub(crate) struct Filling {
    pub(crate) place: u64,
    pub(crate) stamp: Option<u32>,
}

/// Where a file was opened last for writing, or with truncation: the kernel that opened it, the place, and the last such place that
/// counts for that kernel itself (this project).
#[derive(Clone, Copy, Debug, PartialEq, Eq)]
pub(crate) struct Change {
    pub(crate) kernel: Kernel,
    pub(crate) place: u64,
    pub(crate) other: u64,
}

/// What the last record gave or opened (this project).
#[derive(Clone, Copy, Debug, PartialEq, Eq)]
pub(crate) enum Last {
    Granted(StampAt),
    Opened(FileId),
    Other,
}

/// What the records so far tell of the versions of files that kernels hold. Records are counted from 1; the place 0 is before all
/// (this project).
#[derive(Drop)]
pub(crate) struct Versions {
    /// The stamps that kernels take in the whole trace.
    pub(crate) taken: IndexSet<StampAt>,
    pub(crate) modes: IndexMap<FileAt, Taken>,
    pub(crate) filled: IndexMap<BlockAt, Filling>,
    pub(crate) changed: IndexMap<FileId, Change>,
    /// Where a stamp was given last, with a grant or a callback.
    pub(crate) given: IndexMap<StampAt, u64>,
    /// Where a kernel opened a file last for writing directly behind a grant that it never takes.
    pub(crate) missed: IndexMap<FileAt, u64>,
    pub(crate) last: Last,
    pub(crate) place: u64,
}

/// The versions before the first record of a trace. The one error is want of memory.
pub(crate) fn no_versions(alloc: Global, trace: &[Rec]) -> Result<Versions, NoMemory>
    ensures { IfOk result (StartsOn trace.now) }
{
    let taken = stamps_taken(alloc, trace)?;
    Ok(Versions {
        taken,
        modes: IndexMap::new(alloc),
        filled: IndexMap::new(alloc),
        changed: IndexMap::new(alloc),
        given: IndexMap::new(alloc),
        missed: IndexMap::new(alloc),
        last: Last::Other,
        place: 0,
    })
}

// The stamps that kernels take in a trace.
fn stamps_taken(alloc: Global, trace: &[Rec]) -> Result<IndexSet<StampAt>, NoMemory>
    ensures { IfOk result (λ taken. (at : StampAt) → has_stamp taken.keys at ≡ list_any (is_at at.kernel (is_taken at.file at.stamp)) trace.now) }
{
    let mut taken = IndexSet::new(alloc);
    for rec in trace {
        note_taken(&mut taken, rec)?;
    }
    Ok(taken)
}

// Keeps the stamp that a record takes.
fn note_taken(taken: &mut IndexSet<StampAt>, rec: &Rec) -> Result<(), NoMemory>
    ensures { OnOk result (StampsBy rec.now.kernel rec.now.event taken.old.keys taken.new.keys) }
{
    match &rec.event {
        Event::Mode { file, stamp, .. } => {
            taken.insert(StampAt {
                kernel: rec.kernel,
                file: *file,
                stamp: *stamp,
            })?;
            Ok(())
        }
        _ => Ok(()),
    }
}

/// Whether the kernel's last mode of the file is off.
pub(crate) fn is_off(modes: &IndexMap<FileAt, Taken>, at: &FileAt) -> bool
    ensures { result ≡ is_off_in modes.now.entries at.now }
{
    match modes.get(at) {
        Some(taken) => match taken.mode {
            CacheMode::Off => true,
            _ => false,
        },
        None => false,
    }
}

// The stamp that the kernel took of the file last.
fn stamp_at(modes: &IndexMap<FileAt, Taken>, at: &FileAt) -> Option<u32>
    ensures { result ≡ stamp_at modes.now.entries at.now }
{
    match modes.get(at) {
        Some(taken) => Some(taken.stamp),
        None => None,
    }
}

// Keeps the mode that a kernel takes.
fn keep_mode(modes: &mut IndexMap<FileAt, Taken>, rec: &Rec) -> Result<(), NoMemory>
    ensures { OnOk result (ModesBy rec.now.kernel rec.now.event modes.old.entries modes.new.entries) }
{
    match &rec.event {
        Event::Mode { file, stamp, mode } => {
            let at = FileAt {
                kernel: rec.kernel,
                file: *file,
            };
            modes.insert(
                at,
                Taken {
                    stamp: *stamp,
                    mode: *mode,
                },
            )?;
            Ok(())
        }
        _ => Ok(()),
    }
}

// Keeps where a block comes in.
fn keep_fill(
    filled: &mut IndexMap<BlockAt, Filling>,
    modes: &IndexMap<FileAt, Taken>,
    rec: &Rec,
    place: u64,
) -> Result<(), NoMemory>
    ensures { OnOk result (FillsBy rec.now.kernel rec.now.event place modes.now.entries filled.old.entries filled.new.entries) }
{
    match &rec.event {
        Event::Filled { file, block } => {
            let stamp = stamp_at(
                modes,
                &FileAt {
                    kernel: rec.kernel,
                    file: *file,
                },
            );
            let at = BlockAt {
                kernel: rec.kernel,
                file: *file,
                block: *block,
            };
            filled.insert(at, Filling { place, stamp })?;
            Ok(())
        }
        _ => Ok(()),
    }
}

// Keeps where a stamp is given.
fn keep_given(given: &mut IndexMap<StampAt, u64>, rec: &Rec, place: u64) -> Result<(), NoMemory>
    ensures { OnOk result (GivesBy rec.now.event place given.old.entries given.new.entries) }
{
    match &rec.event {
        Event::Grant {
            file,
            to,
            stamp,
            ..
        }
        | Event::Callback {
            file,
            to,
            stamp,
            ..
        } => {
            given.insert(
                StampAt {
                    kernel: *to,
                    file: *file,
                    stamp: *stamp,
                },
                place,
            )?;
            Ok(())
        }
        _ => Ok(()),
    }
}

// A stream of that mode may be written.
fn writes(mode: Mode) -> bool
    ensures { result ≡ writes mode }
{
    match mode {
        Mode::Read => false,
        Mode::Write => true,
        Mode::Both => true,
    }
}

// Where a file changes last, if that kernel writes it there.
fn next_change(before: Option<Change>, kernel: Kernel, place: u64) -> Change
    ensures { result ≡ next_change before kernel place }
{
    Change {
        kernel,
        place,
        other: change_for(before, kernel),
    }
}

// Where a file changed last, for a kernel.
fn change_for(change: Option<Change>, kernel: Kernel) -> u64
    ensures { result ≡ change_for change kernel }
{
    match change {
        Some(change) => {
            if change.kernel == kernel {
                change.other
            } else {
                change.place
            }
        }
        None => 0,
    }
}

// Whether an entry is an open that truncates.
fn is_truncating(entry: &Entry) -> bool
    ensures { result ≡ is_truncating entry.now }
{
    match &entry.call {
        Some(Call::OpenFile { flags, .. }) => match &entry.reply {
            Some(Reply::Value { .. }) => *flags / 8 % 2 == 1,
            _ => false,
        },
        _ => false,
    }
}

// Keeps where a file is opened for writing, or with truncation.
fn keep_change(
    changed: &mut IndexMap<FileId, Change>,
    last: Last,
    rec: &Rec,
    mark: bool,
    place: u64,
) -> Result<(), NoMemory>
    ensures { OnOk result (ChangesBy rec.now.kernel rec.now.event mark place last changed.old.entries changed.new.entries) }
{
    match &rec.event {
        Event::Opened {
            file,
            kernel,
            mode,
            ..
        } => open_file(changed, file, *kernel, *mode, place),
        Event::Enter { entry } => truncate_file(changed, last, entry, mark, rec.kernel, place),
        _ => Ok(()),
    }
}

// A kernel opens a file.
fn open_file(
    changed: &mut IndexMap<FileId, Change>,
    file: &FileId,
    kernel: Kernel,
    mode: Mode,
    place: u64,
) -> Result<(), NoMemory>
    ensures { OnOk result (OpensBy file.now kernel mode place changed.old.entries changed.new.entries) }
{
    if !writes(mode) {
        return Ok(());
    }
    let next = next_change(changed.get(file).copied(), kernel, place);
    changed.insert(*file, next)?;
    Ok(())
}

// An entry behind an Opened truncates the file.
fn truncate_file(
    changed: &mut IndexMap<FileId, Change>,
    last: Last,
    entry: &Entry,
    mark: bool,
    kernel: Kernel,
    place: u64,
) -> Result<(), NoMemory>
    ensures { OnOk result (TruncatesBy kernel entry.now mark place last changed.old.entries changed.new.entries) }
{
    if !mark || !is_truncating(entry) {
        return Ok(());
    }
    match last {
        Last::Opened(file) => {
            changed.insert(
                file,
                Change {
                    kernel,
                    place,
                    other: place,
                },
            )?;
            Ok(())
        }
        _ => Ok(()),
    }
}

// Whether the last record gave the kernel leave to use the file, which it never takes.
fn is_untaken(last: Last, taken: &IndexSet<StampAt>, at: &FileAt) -> bool
    ensures { result ≡ is_untaken_in last taken.now.keys at.now }
{
    match last {
        Last::Granted(stamp) => {
            stamp.kernel == at.kernel && stamp.file == at.file && !taken.contains(&stamp)
        }
        _ => false,
    }
}

// Keeps where a kernel opens a file for writing behind a grant that it never takes.
fn keep_missed(
    missed: &mut IndexMap<FileAt, u64>,
    last: Last,
    taken: &IndexSet<StampAt>,
    rec: &Rec,
    place: u64,
) -> Result<(), NoMemory>
    ensures { OnOk result (MissesBy rec.now.event place last taken.now.keys missed.old.entries missed.new.entries) }
{
    match &rec.event {
        Event::Opened {
            file,
            kernel,
            mode,
            ..
        } => {
            let at = FileAt {
                kernel: *kernel,
                file: *file,
            };
            if writes(*mode) && is_untaken(last, taken, &at) {
                missed.insert(at, place)?;
            }
            Ok(())
        }
        _ => Ok(()),
    }
}

// What an event gives or opens.
fn last_of(event: &Event) -> Last
    ensures { result ≡ last_of event.now }
{
    match event {
        Event::Grant {
            file,
            to,
            stamp,
            ..
        } => Last::Granted(StampAt {
            kernel: *to,
            file: *file,
            stamp: *stamp,
        }),
        Event::Opened { file, .. } => Last::Opened(*file),
        _ => Last::Other,
    }
}

// The next record's place. The one error is that there are 2^64, which no trace has.
fn next_place(place: u64) -> Result<u64, NoMemory>
    ensures { IfOk result (λ next. next ≡ place + 1) }
{
    place.checked_add(1).ok_or(NoMemory)
}

/// Keeps what the next record tells, which has that mark. The one error is want of memory; a part may be kept then.
pub(crate) fn version_on(versions: &mut Versions, rec: &Rec, mark: bool) -> Result<(), NoMemory>
    ensures { OnOk result (VersionsOn rec.now.kernel rec.now.event mark versions.old versions.new) }
{
    let place = next_place(versions.place)?;
    keep_fill(&mut versions.filled, &versions.modes, rec, place)?;
    keep_mode(&mut versions.modes, rec)?;
    keep_given(&mut versions.given, rec, place)?;
    keep_change(&mut versions.changed, versions.last, rec, mark, place)?;
    keep_missed(
        &mut versions.missed,
        versions.last,
        &versions.taken,
        rec,
        place,
    )?;
    versions.last = last_of(&rec.event);
    versions.place = place;
    Ok(())
}

/// Whether a block is of an old version: since it came in, another kernel opened the file for writing, or it was opened with
/// truncation; or since the stamp was given that its kernel had taken last before, that kernel opened it for writing behind a grant
/// that it never takes.
pub(crate) fn is_old_version(versions: &Versions, at: &BlockAt) -> bool
    ensures { result ≡ is_old_version versions.now.filled.entries versions.now.changed.entries versions.now.given.entries versions.now.missed.entries at.now }
{
    let (place, stamp) = match versions.filled.get(at) {
        Some(filling) => (filling.place, filling.stamp),
        None => (0, None),
    };
    if place < change_for(versions.changed.get(&at.file).copied(), at.kernel) {
        return true;
    }
    match stamp {
        Some(stamp) => has_missed(versions, at, stamp),
        None => false,
    }
}

// Whether the kernel opened the file for writing since that stamp was given, behind a grant that it never takes.
fn has_missed(versions: &Versions, at: &BlockAt, stamp: u32) -> bool
    ensures { result ≡ has_missed_in versions.now.given.entries versions.now.missed.entries (file_of at.now) stamp }
{
    let given = StampAt {
        kernel: at.kernel,
        file: at.file,
        stamp,
    };
    let missed = FileAt {
        kernel: at.kernel,
        file: at.file,
    };
    place_or(versions.given.get(&given).copied()) < place_or(versions.missed.get(&missed).copied())
}

// A place, or the one before all.
fn place_or(place: Option<u64>) -> u64
    ensures { result ≡ place_or place }
{
    place.unwrap_or(0)
}
