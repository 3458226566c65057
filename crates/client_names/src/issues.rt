ghost use Rattle.std.specs.Prelude.{◌≡◌, OnOk};
ghost use Rattle.client_names.specs.Issues.{refuses_here, issues_name, issues_tree, issues_open, opens, opens_path, opens_at, issues_make, makes, makes_path, makes_at, issues_path, names_path, issues_list, issues_rename, renames_from, renames_to};

use crate::flags::lawful;
use crate::lookups::look_up;
use crate::making::{free_descriptor, new_stream};
use crate::paths::cleaned;
use client_file_tables::{ClientFiles, NameKind, NameWork};
use packet_bodies::{Descriptor, NameOp};
use process_machine::{Call, Reply};
use sprite_ids::{Bytes, Copying, DeviceId, Errno, NoMemory};
use sprite_paths::Path;
use std::alloc::Global;
use unix_calls::About;

/// A process came to a name call: what it names is looked up. Three refusals are entered here, in this order: Invalid where an
/// open's flags are none; TooMany where an open or make finds all 16 descriptors in use; BadName. All others are the server's
/// (this project).
///
/// `device` is the pseudo-device that a `pd_make` makes, which has its number by then; without it nothing happens, and so with
/// a call that is no name call. The one error is want of memory, also where a counter of 32 bits has come to its limit.
pub fn issue_name(
    files: &mut ClientFiles,
    alloc: Global,
    about: &About,
    call: &Call,
    device: &Option<DeviceId>,
) -> Result<(), NoMemory>
    ensures { OnOk result (files.new ≡ issues_name about.now call.now device.now files.old) }
{
    match call {
        Call::OpenFile { path, flags } => issue_open(files, alloc, about, call, path, *flags),
        Call::PdMake { path } => issue_make(files, alloc, about, call, path, device),
        Call::Rename { old, new } => issue_rename(files, alloc, about, call, old, new),
        Call::List { path, max } => issue_list(files, alloc, about, call, path, *max),
        _ => issue_tree(files, alloc, about, call),
    }
}

// A name call with one path.
fn issue_tree(
    files: &mut ClientFiles,
    alloc: Global,
    about: &About,
    call: &Call,
) -> Result<(), NoMemory>
    ensures { OnOk result (files.new ≡ issues_tree about.now call.now files.old) }
{
    match call {
        Call::Stat { path } => issue_path(files, alloc, about, call, path, NameOp::Stat),
        Call::Mkdir { path } => issue_path(files, alloc, about, call, path, NameOp::Mkdir),
        Call::Rmdir { path } => issue_path(files, alloc, about, call, path, NameOp::Rmdir),
        Call::Unlink { path } => issue_path(files, alloc, about, call, path, NameOp::Unlink),
        Call::Chdir { path } => issue_path(files, alloc, about, call, path, NameOp::Chdir),
        _ => Ok(()),
    }
}

// An open: its flags, a descriptor, its path.
fn issue_open(
    files: &mut ClientFiles,
    alloc: Global,
    about: &About,
    call: &Call,
    text: &Bytes,
    flags: u64,
) -> Result<(), NoMemory>
    ensures { OnOk result (files.new ≡ issues_open about.now call.now text.now flags files.old) }
{
    match lawful(flags) {
        Some(flags) => open_lawful(files, alloc, about, call, text, flags),
        None => refuse_here(files, alloc, about, call, Errno::Invalid),
    }
}

fn open_lawful(
    files: &mut ClientFiles,
    alloc: Global,
    about: &About,
    call: &Call,
    text: &Bytes,
    flags: u8,
) -> Result<(), NoMemory>
    ensures { OnOk result (files.new ≡ opens about.now call.now text.now flags files.old) }
{
    match free_descriptor(files, about.pid) {
        Some(fd) => open_path(files, alloc, about, call, text, flags, fd),
        None => refuse_here(files, alloc, about, call, Errno::TooMany),
    }
}

fn open_path(
    files: &mut ClientFiles,
    alloc: Global,
    about: &About,
    call: &Call,
    text: &Bytes,
    flags: u8,
    fd: Descriptor,
) -> Result<(), NoMemory>
    ensures { OnOk result (files.new ≡ opens_path about.now call.now text.now flags fd files.old) }
{
    match cleaned(files, alloc, about.pid, text.as_slice())? {
        Some(path) => open_at(files, alloc, about, call, path, flags, fd),
        None => refuse_here(files, alloc, about, call, Errno::BadName),
    }
}

fn open_at(
    files: &mut ClientFiles,
    alloc: Global,
    about: &About,
    call: &Call,
    path: Path,
    flags: u8,
    fd: Descriptor,
) -> Result<(), NoMemory>
    ensures { OnOk result (files.new ≡ opens_at about.now call.now path flags fd files.old) }
{
    let stream = new_stream(files)?;
    let work = NameWork {
        number: about.number,
        call: call.copy(alloc)?,
        path,
        kind: NameKind::Open { flags, stream, fd },
    };
    look_up(files, alloc, about.pid, work)
}

// A make of a pseudo-device: a descriptor, its path.
fn issue_make(
    files: &mut ClientFiles,
    alloc: Global,
    about: &About,
    call: &Call,
    text: &Bytes,
    device: &Option<DeviceId>,
) -> Result<(), NoMemory>
    ensures { OnOk result (files.new ≡ issues_make about.now call.now text.now device.now files.old) }
{
    match device {
        Some(device) => make(files, alloc, about, call, text, device),
        None => Ok(()),
    }
}

fn make(
    files: &mut ClientFiles,
    alloc: Global,
    about: &About,
    call: &Call,
    text: &Bytes,
    device: &DeviceId,
) -> Result<(), NoMemory>
    ensures { OnOk result (files.new ≡ makes about.now call.now text.now device.now files.old) }
{
    match free_descriptor(files, about.pid) {
        Some(fd) => make_path(files, alloc, about, call, text, device, fd),
        None => refuse_here(files, alloc, about, call, Errno::TooMany),
    }
}

fn make_path(
    files: &mut ClientFiles,
    alloc: Global,
    about: &About,
    call: &Call,
    text: &Bytes,
    device: &DeviceId,
    fd: Descriptor,
) -> Result<(), NoMemory>
    ensures { OnOk result (files.new ≡ makes_path about.now call.now text.now device.now fd files.old) }
{
    match cleaned(files, alloc, about.pid, text.as_slice())? {
        Some(path) => make_at(files, alloc, about, call, path, device, fd),
        None => refuse_here(files, alloc, about, call, Errno::BadName),
    }
}

fn make_at(
    files: &mut ClientFiles,
    alloc: Global,
    about: &About,
    call: &Call,
    path: Path,
    device: &DeviceId,
    fd: Descriptor,
) -> Result<(), NoMemory>
    ensures { OnOk result (files.new ≡ makes_at about.now call.now path device.now fd files.old) }
{
    let stream = new_stream(files)?;
    let kind = NameKind::Make {
        device: *device,
        stream,
        fd,
    };
    let work = NameWork {
        number: about.number,
        call: call.copy(alloc)?,
        path,
        kind,
    };
    look_up(files, alloc, about.pid, work)
}

// A list asks for at most that many bytes; more than 32 bits can tell are refused as Invalid.
fn issue_list(
    files: &mut ClientFiles,
    alloc: Global,
    about: &About,
    call: &Call,
    text: &Bytes,
    max: u64,
) -> Result<(), NoMemory>
    ensures { OnOk result (files.new ≡ issues_list about.now call.now text.now max files.old) }
{
    if max > u64::from(u32::MAX) {
        return refuse_here(files, alloc, about, call, Errno::Invalid);
    }
    name_path(files, alloc, about, call, text, NameOp::List, max as u32)
}

fn issue_path(
    files: &mut ClientFiles,
    alloc: Global,
    about: &About,
    call: &Call,
    text: &Bytes,
    op: NameOp,
) -> Result<(), NoMemory>
    ensures { OnOk result (files.new ≡ issues_path about.now call.now text.now op files.old) }
{
    name_path(files, alloc, about, call, text, op, 0)
}

fn name_path(
    files: &mut ClientFiles,
    alloc: Global,
    about: &About,
    call: &Call,
    text: &Bytes,
    op: NameOp,
    max: u32,
) -> Result<(), NoMemory>
    ensures { OnOk result (files.new ≡ names_path about.now call.now text.now op max files.old) }
{
    match cleaned(files, alloc, about.pid, text.as_slice())? {
        Some(path) => {
            let kind = NameKind::Name {
                op,
                second: None,
                max,
            };
            let work = NameWork {
                number: about.number,
                call: call.copy(alloc)?,
                path,
                kind,
            };
            look_up(files, alloc, about.pid, work)
        }
        None => refuse_here(files, alloc, about, call, Errno::BadName),
    }
}

// A rename: its old path, then its new one.
fn issue_rename(
    files: &mut ClientFiles,
    alloc: Global,
    about: &About,
    call: &Call,
    old: &Bytes,
    new: &Bytes,
) -> Result<(), NoMemory>
    ensures { OnOk result (files.new ≡ issues_rename about.now call.now old.now new.now files.old) }
{
    match cleaned(files, alloc, about.pid, old.as_slice())? {
        Some(path) => rename_from(files, alloc, about, call, path, new),
        None => refuse_here(files, alloc, about, call, Errno::BadName),
    }
}

fn rename_from(
    files: &mut ClientFiles,
    alloc: Global,
    about: &About,
    call: &Call,
    path: Path,
    new: &Bytes,
) -> Result<(), NoMemory>
    ensures { OnOk result (files.new ≡ renames_from about.now call.now path new.now files.old) }
{
    match cleaned(files, alloc, about.pid, new.as_slice())? {
        Some(second) => rename_to(files, alloc, about, call, path, second),
        None => refuse_here(files, alloc, about, call, Errno::BadName),
    }
}

fn rename_to(
    files: &mut ClientFiles,
    alloc: Global,
    about: &About,
    call: &Call,
    path: Path,
    second: Path,
) -> Result<(), NoMemory>
    ensures { OnOk result (files.new ≡ renames_to about.now call.now path second files.old) }
{
    let kind = NameKind::Name {
        op: NameOp::Rename,
        second: Some(second),
        max: 0,
    };
    let work = NameWork {
        number: about.number,
        call: call.copy(alloc)?,
        path,
        kind,
    };
    look_up(files, alloc, about.pid, work)
}

/// The call is refused here, in this step. The one error is want of memory.
pub fn refuse_here(
    files: &mut ClientFiles,
    alloc: Global,
    about: &About,
    call: &Call,
    errno: Errno,
) -> Result<(), NoMemory>
    ensures { OnOk result (files.new ≡ refuses_here about.now call.now errno files.old) }
{
    let entered = call.copy(alloc)?;
    files.answer_here(alloc, about, entered, Reply::Error(errno))
}
