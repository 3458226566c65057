ghost use Rattle.std.specs.Prelude.{◌≡◌, OnOk};
ghost use Rattle.std.specs.List.{list_all, list_any};
ghost use Rattle.stream_table.specs.Entries.{is_placed, is_start};
ghost use Rattle.stream_table.specs.Streams.{same_fd};
ghost use Rattle.client_files.specs.Arrivals.{arrives, takes_carried, puts_streams, can_arrive, is_fit, is_known_so, leads_there, same_object, same_file, same_device, are_apart, is_repeated};

use crate::asked::take_some;
use client_file_tables::ClientFiles;
use packet_bodies::CarriedStream;
use sprite_ids::{DeviceId, FileId, NoMemory, Object, Pid};
use sprite_paths::Path;
use stream_table::{Carried, Place, Stream, Streams};

/// A process arrives with its streams (Douglis and Ousterhout 1991): the grants that came with them are taken, in their order,
/// and then it has its working directory, and each stream at its descriptor. To a stream that is here already its grants are
/// added once, and its offset is kept where that of the arriving one is.
///
/// The streams are put in only where the process has no descriptor here, the descriptors are of 0 to 15 and all different, and a stream
/// that is here already leads where the arriving one does. The one error is want of memory, which is also the answer where a stream here has over 2,000,000,000 grants.
pub fn install(
    files: &mut ClientFiles,
    pid: Pid,
    cwd: Path,
    streams: &[CarriedStream],
    carried: &[Carried],
) -> Result<(), NoMemory>
    ensures { OnOk result (files.new ≡ arrives pid cwd streams.now carried.now files.old) }
{
    take_carried(files, streams)?;
    files.set_cwd(pid, cwd)?;
    put_streams(files, pid, carried)
}

// Takes the grants that came, in their order.
fn take_carried(files: &mut ClientFiles, streams: &[CarriedStream]) -> Result<(), NoMemory>
    ensures { OnOk result (files.new ≡ takes_carried streams.now files.old) }
{
    for stream in streams {
        take_some(files, &stream.grant)?;
    }
    Ok(())
}

// Puts each stream at its descriptor.
fn put_streams(files: &mut ClientFiles, pid: Pid, carried: &[Carried]) -> Result<(), NoMemory>
    ensures { OnOk result (files.new ≡ puts_streams pid carried.now files.old) }
{
    if !files.streams.room() {
        return Err(NoMemory);
    }
    if !can_arrive(files, pid, carried) {
        return Ok(());
    }
    files.streams.put_all(pid, carried)
}

// Whether the streams may be put in.
fn can_arrive(files: &ClientFiles, pid: Pid, carried: &[Carried]) -> bool
    ensures { result ≡ can_arrive pid carried.now files.now }
{
    if files.streams.has_descriptors(pid) || !are_apart(carried) {
        return false;
    }
    are_fit(carried) && are_known_so(&files.streams, carried)
}

// Whether each item may be put in.
fn are_fit(carried: &[Carried]) -> bool
    ensures { result ≡ list_all is_fit carried.now }
{
    carried.iter().all(|item| is_fit(item))
}

// Whether the item may be put in.
fn is_fit(item: &Carried) -> bool
    ensures { result ≡ is_fit item.now }
{
    item.fd < 16 && item.stream.grants <= 2_000_000_000 && is_placed(&item.stream)
}

// Whether each item leads where its stream does, where that is open here.
fn are_known_so(streams: &Streams, carried: &[Carried]) -> bool
    ensures { result ≡ list_all (is_known_so streams.now.entries) carried.now }
{
    carried.iter().all(|item| is_known_so(streams, item))
}

// Whether one does.
fn is_known_so(streams: &Streams, item: &Carried) -> bool
    ensures { result ≡ is_known_so streams.now.entries item.now }
{
    leads_there(item.stream.object, &streams.stream(item.number))
}

// Whether an object is that of a looked-up open stream, where there is one.
fn leads_there(object: Object, known: &Option<Stream>) -> bool
    ensures { result ≡ leads_there object known.now }
{
    match known {
        Some(stream) => same_object(object, stream.object),
        None => true,
    }
}

// Whether both are one file, or the same end of one pseudo-device.
fn same_object(object: Object, other: Object) -> bool
    ensures { result ≡ same_object object other }
{
    match (object, other) {
        (Object::File(file), Object::File(other)) => same_file(file, other),
        (Object::Device(device), Object::Device(other)) => same_device(device, other),
        (Object::Master(device), Object::Master(other)) => same_device(device, other),
        _ => false,
    }
}

// Whether both are one file.
fn same_file(file: FileId, other: FileId) -> bool
    ensures { result ≡ same_file file other }
{
    file.server == other.server && file.number == other.number
}

// Whether both are one pseudo-device.
fn same_device(device: DeviceId, other: DeviceId) -> bool
    ensures { result ≡ same_device device other }
{
    device.kernel == other.kernel && device.number == other.number
}

// Whether the stream's offset is where it may be.
fn is_placed(stream: &Stream) -> bool
    ensures { result ≡ is_placed stream.now }
{
    match &stream.object {
        Object::File(_) => true,
        Object::Device(_) => is_start(&stream.place),
        Object::Master(_) => is_start(&stream.place),
    }
}

// Whether it is the offset 0, kept here.
fn is_start(place: &Place) -> bool
    ensures { result ≡ is_start place.now }
{
    match place {
        Place::Local(offset) => *offset == 0,
        Place::Shared => false,
    }
}

// Whether no descriptor stands twice.
fn are_apart(carried: &[Carried]) -> bool
    ensures { result ≡ are_apart carried.now }
{
    for at in 0..carried.len() {
        if is_repeated(&carried[at..]) {
            return false;
        }
    }
    true
}

// Whether the first item's descriptor stands once more behind it.
fn is_repeated(carried: &[Carried]) -> bool
    ensures { result ≡ is_repeated carried.now }
{
    match carried.split_first() {
        Some((first, rest)) => stands_in(first, rest),
        None => false,
    }
}

// Whether the item's descriptor stands among these.
fn stands_in(item: &Carried, others: &[Carried]) -> bool
    ensures { result ≡ list_any (same_fd item.now) others.now }
{
    others.iter().any(|other| item.fd == other.fd)
}
