ghost use Rattle.std.specs.Prelude.{◌≡◌, OnOk};
ghost use Rattle.write_sharing.specs.Kept.{CalledOn, CutsFile, GrantsOn, LicensedOn, PutsFile, SettlesOn, StopsOn, has_file, waits_in};

use crate::kept::{OpenedAt, Opening};
use crate::opens::is_open;
use crate::stops::{is_off, is_stop};
use indexmap::{IndexMap, IndexSet};
use sprite_ids::{FileId, Items, NoMemory};
use unix_calls::{Description, Event};

/// Whether the file has the mark.
pub(crate) fn has_file(files: &IndexSet<FileId>, file: &FileId) -> bool
    ensures { result ≡ has_file files.now.keys file.now }
{
    files.contains(file)
}

// Puts the file there, if it is to be there.
fn put_file(files: &mut IndexSet<FileId>, on: bool, file: &FileId) -> Result<(), NoMemory>
    ensures { OnOk result (PutsFile on file.now files.old.keys files.new.keys) }
{
    if on {
        files.insert(*file)?;
    }
    Ok(())
}

// Takes the file away, if it is to go.
fn cut_file(files: &mut IndexSet<FileId>, on: bool, file: &FileId)
    ensures { CutsFile on file.now files.old.keys files.new.keys }
{
    if on {
        files.swap_remove(file);
    }
}

/// The file that the last record opened has its licence, where there is one. The one error is want of memory.
pub(crate) fn settle(
    licensed: &mut IndexSet<FileId>,
    last: &Option<Opening>,
    licence: bool,
) -> Result<(), NoMemory>
    ensures { OnOk result (SettlesOn last.now licence licensed.old.keys licensed.new.keys) }
{
    match last {
        Some(opening) => put_file(licensed, licence, &opening.file),
        None => Ok(()),
    }
}

/// Keeps whether a file has a licence behind an event, which leaves these streams open. The one error is want of memory.
pub(crate) fn keep_licensed(
    licensed: &mut IndexSet<FileId>,
    opens: &IndexMap<FileId, Items<OpenedAt>>,
    event: &Event,
) -> Result<(), NoMemory>
    ensures { OnOk result (LicensedOn event.now opens.now.entries licensed.old.keys licensed.new.keys) }
{
    match event {
        Event::Closed { file, .. } => {
            cut_file(licensed, !is_open(opens, file), file);
            Ok(())
        }
        Event::Shared { file, .. } => put_file(licensed, is_open(opens, file), file),
        _ => Ok(()),
    }
}

// Whether a grant or a stop of a file waits for a licence.
fn waits(c: &Description, licensed: &IndexSet<FileId>, file: &FileId) -> bool
    ensures { result ≡ waits_in c.now licensed.now.keys file.now }
{
    c.cache != 0 && !has_file(licensed, file)
}

/// Keeps the files with a grant that waits. The one error is want of memory.
pub(crate) fn keep_grants(
    grants: &mut IndexSet<FileId>,
    licensed: &IndexSet<FileId>,
    c: &Description,
    event: &Event,
) -> Result<(), NoMemory>
    ensures { OnOk result (GrantsOn c.now event.now licensed.now.keys grants.old.keys grants.new.keys) }
{
    match event {
        Event::Opened { file, .. } => {
            cut_file(grants, true, file);
            Ok(())
        }
        Event::Shared { file, .. } => {
            cut_file(grants, true, file);
            Ok(())
        }
        Event::Grant { file, mode, .. } => {
            let on = is_off(*mode) && waits(c, licensed, file);
            put_file(grants, on, file)
        }
        _ => Ok(()),
    }
}

/// Keeps the files with a stop that waits. The one error is want of memory.
pub(crate) fn keep_stops(
    stops: &mut IndexSet<FileId>,
    licensed: &IndexSet<FileId>,
    c: &Description,
    event: &Event,
) -> Result<(), NoMemory>
    ensures { OnOk result (StopsOn c.now event.now licensed.now.keys stops.old.keys stops.new.keys) }
{
    match event {
        Event::Opened { file, .. } => {
            cut_file(stops, true, file);
            Ok(())
        }
        Event::Shared { file, .. } => {
            cut_file(stops, true, file);
            Ok(())
        }
        Event::Callback { file, kind, .. } => {
            let on = is_stop(*kind) && waits(c, licensed, file);
            put_file(stops, on, file)
        }
        _ => Ok(()),
    }
}

/// Keeps the files that were called back since they were opened last. The one error is want of memory.
pub(crate) fn keep_called(called: &mut IndexSet<FileId>, event: &Event) -> Result<(), NoMemory>
    ensures { OnOk result (CalledOn event.now called.old.keys called.new.keys) }
{
    match event {
        Event::Opened { file, .. } => {
            cut_file(called, true, file);
            Ok(())
        }
        Event::Callback { file, .. } => put_file(called, true, file),
        _ => Ok(()),
    }
}
