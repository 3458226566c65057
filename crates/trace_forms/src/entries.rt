ghost use Rattle.std.specs.Prelude.{◌≡◌, [], IfOk, OnOk, slice_get};
ghost use Rattle.unix_calls.specs.Lawful.{Lawful};
ghost use Rattle.unix_calls.specs.State.{same_file};
ghost use Rattle.call_journal.specs.Calls.{server_of};
ghost use Rattle.call_journal.specs.Formed.{is_boot_file, is_due_name};
ghost use Rattle.trace_forms.specs.Openings.{openings_of};
ghost use Rattle.trace_forms.specs.Parts.{entries_are_formed};
ghost use Rattle.trace_forms.specs.Entries.{KeepsNames, PutsName, PutsObject, entry_fits, file_at, is_free_file, is_free_name, name_at, object_fits, opened_by, place_at};

use crate::places::FileFor;
use crate::uses::first_opening;
use indexmap::IndexMap;
use sprite_ids::{FileId, Kernel, NoMemory};
use sprite_paths::Path;
use std::alloc::Global;
use trace_places::{Place, boot_places, is_kernel_of, keep_place};
use unix_calls::{Description, Event, FileName, Object, Rec, Stream};

/// Whether each entry of a trace that opens a file stands directly behind an open for the kernel of its process, both at the file's
/// server, and files and their servers' names agree one to one; of the cluster file's files the names are fixed (this project).
/// `openings` tells of each record which stream of a file its entry makes. The one error is want of memory.
pub fn entries_are_formed(
    alloc: Global,
    c: &Description,
    trace: &[Rec],
    openings: &[Option<Stream>],
) -> Result<bool, NoMemory>
    requires lawful { Lawful c.now }
    requires openings { openings.now ≡ openings_of c.now trace.now }
    ensures { IfOk result (λ kept. kept ≡ entries_are_formed c.now trace.now) }
{
    let mut places = boot_places(alloc, c)?;
    let mut names = Names::new(alloc);
    let mut opened = None;
    for (place, rec) in trace.iter().enumerate() {
        let made = first_opening(&openings[place..]);
        if !fits(c, &places, &names, &opened, rec, &made) {
            return Ok(false);
        }
        keep_place(&mut places, rec.kernel, &rec.event)?;
        keep_names(&mut names, &opened, &made)?;
        opened = opened_by(&rec.event);
    }
    Ok(true)
}

/// The files that entries opened so far: their servers' names of them, and back (this project).
#[derive(Drop)]
pub(crate) struct Names {
    pub(crate) names: IndexMap<FileId, FileName>,
    pub(crate) boots: IndexMap<u32, FileId>,
    pub(crate) mades: IndexMap<u32, FileId>,
}

impl Names {
    fn new(alloc: Global) -> Names
        ensures names { result.names.entries ≡ [] }
        ensures boots { result.boots.entries ≡ [] }
        ensures mades { result.mades.entries ≡ [] }
    {
        Names {
            names: IndexMap::new(alloc),
            boots: IndexMap::new(alloc),
            mades: IndexMap::new(alloc),
        }
    }
}

// Whether a record's entry is written as it should be, which makes that stream of a file.
fn fits(
    c: &Description,
    places: &IndexMap<u64, Place>,
    names: &Names,
    opened: &Option<FileFor>,
    rec: &Rec,
    made: &Option<Stream>,
) -> bool
    requires { Lawful c.now }
    ensures { result ≡ entry_fits c.now places.now.entries names.now opened.now rec.now.kernel rec.now.event made.now }
{
    match &rec.event {
        Event::Enter { entry } => match made {
            Some(stream) => match opened {
                Some(opened) => {
                    is_kernel_of(places, entry.pid, opened.to)
                        && rec.kernel == opened.file.server
                        && names_fit(c, names, &opened.file, &stream.object)
                }
                None => false,
            },
            None => true,
        },
        _ => true,
    }
}

// Whether the name of a stream's file is due for that of its server, and they agree with those so far.
fn names_fit(c: &Description, names: &Names, file: &FileId, object: &Object) -> bool
    requires { Lawful c.now }
    ensures { result ≡ object_fits c.now names.now file.now object.now }
{
    match object {
        Object::OfFile(name) => {
            is_due_name(c, name, file)
                && is_name_free(&names.names, file, name)
                && is_file_free(names, name, file)
        }
        _ => true,
    }
}

// Whether the server's name is fixed by the cluster file.
fn is_due_name(c: &Description, name: &FileName, file: &FileId) -> bool
    requires { Lawful c.now }
    ensures { result ≡ is_due_name c.now name.now file.now }
{
    match name {
        FileName::Boot(place) => is_boot_file(c, *place, file),
        FileName::Made(_) => true,
    }
}

fn is_boot_file(c: &Description, place: u32, file: &FileId) -> bool
    requires { Lawful c.now }
    ensures { result ≡ is_boot_file c.now place (slice_get c.now.files place) file.now }
{
    let at = place as usize;
    if at < c.files.len() {
        let number = u64::from(place) + 1;
        file.server == server_of(c, &c.files.at(at).path) && u64::from(file.number) == number
    } else {
        false
    }
}

// The server of the longest domain of the path (Welch and Ousterhout 1986).
fn server_of(c: &Description, path: &Path) -> Kernel
    requires { Lawful c.now }
    ensures { result ≡ server_of c.now path.now }
{
    c.server_at(c.domain_of(path))
}

// Whether a file of a server has no other name so far.
fn is_name_free(names: &IndexMap<FileId, FileName>, file: &FileId, name: &FileName) -> bool
    ensures { result ≡ is_free_name (name_at names.now.entries file.now) name.now }
{
    match names.get(file) {
        Some(other) => same_name(other, name),
        None => true,
    }
}

// Whether a name belongs to no other file so far.
fn is_file_free(names: &Names, name: &FileName, file: &FileId) -> bool
    ensures { result ≡ is_free_file (file_at names.now name.now) file.now }
{
    match name {
        FileName::Boot(place) => is_place_free(&names.boots, *place, file),
        FileName::Made(place) => is_place_free(&names.mades, *place, file),
    }
}

fn is_place_free(files: &IndexMap<u32, FileId>, place: u32, file: &FileId) -> bool
    ensures { result ≡ is_free_file (place_at files.now.entries place) file.now }
{
    match files.get(&place) {
        Some(other) => other == file,
        None => true,
    }
}

fn same_name(name: &FileName, other: &FileName) -> bool
    ensures { result ≡ same_file name.now other.now }
{
    match (name, other) {
        (FileName::Boot(place), FileName::Boot(other)) => place == other,
        (FileName::Made(place), FileName::Made(other)) => place == other,
        _ => false,
    }
}

// Keeps the names of the file that an entry opens. The one error is want of memory; a part may be kept then.
fn keep_names(
    names: &mut Names,
    opened: &Option<FileFor>,
    made: &Option<Stream>,
) -> Result<(), NoMemory>
    ensures { OnOk result (KeepsNames made.now opened.now names.old names.new) }
{
    match made {
        Some(stream) => match opened {
            Some(opened) => put_object(names, &stream.object, &opened.file),
            None => Ok(()),
        },
        None => Ok(()),
    }
}

fn put_object(names: &mut Names, object: &Object, file: &FileId) -> Result<(), NoMemory>
    ensures { OnOk result (PutsObject object.now file.now names.old names.new) }
{
    match object {
        Object::OfFile(name) => put_name(names, name, file),
        _ => Ok(()),
    }
}

fn put_name(names: &mut Names, name: &FileName, file: &FileId) -> Result<(), NoMemory>
    ensures { OnOk result (PutsName name.now file.now names.old names.new) }
{
    names.names.insert(*file, *name)?;
    match name {
        FileName::Boot(place) => {
            names.boots.insert(*place, *file)?;
            Ok(())
        }
        FileName::Made(place) => {
            names.mades.insert(*place, *file)?;
            Ok(())
        }
    }
}

// What an event opens, and for which kernel.
fn opened_by(event: &Event) -> Option<FileFor>
    ensures { result ≡ opened_by event.now }
{
    match event {
        Event::Opened { file, kernel, .. } => Some(FileFor {
            file: *file,
            to: *kernel,
        }),
        _ => None,
    }
}
