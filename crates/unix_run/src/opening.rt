ghost use Rattle.std.specs.Prelude.{◌≡◌, ◌<◌, ◌∷◌, ◌++◌, [], None, IfOk, OnOk, length};
ghost use Rattle.unix_calls.specs.declared.state.Object.TheVariants.{OfFile};
ghost use Rattle.unix_calls.specs.Answers.{value};
ghost use Rattle.unix_calls.specs.Opening.{creates_file, cut, flags_by, flags_of, mode_of, open_at, open_file, opened, pd_make, make_at};
ghost use Rattle.unix_run.specs.declared.came.Came.TheVariants as came;
ghost use Rattle.unix_run.specs.Contents.{cut_files};
ghost use Rattle.unix_run.specs.Coming.{Comes};

use crate::answers::{give_value, refuse};
use crate::came::Came;
use crate::names::{new_refusal, path_of};
use crate::streams::writes;
use sprite_ids::{Bytes, Errno, Items, Mode, NoMemory};
use sprite_paths::Path;
use std::alloc::Global;
use unix_calls::{Description, Device, File, FileName, Flags, Node, Object, Process, Stream};
use unix_world::{Devices, Files, World, above, free_descriptor};

// The mode of two bits: 1 read, 2 write, 3 both.
fn mode_of(bits: u64) -> Option<Mode>
    ensures { result ≡ mode_of bits }
{
    match bits {
        1 => Some(Mode::Read),
        2 => Some(Mode::Write),
        3 => Some(Mode::Both),
        _ => None,
    }
}

// The flags of that mode; a truncation or an append without write is none.
fn flags_by(number: u64, mode: Mode) -> Option<Flags>
    ensures { result ≡ flags_by number mode }
{
    let creates = (number / 4) % 2 == 1;
    let truncates = (number / 8) % 2 == 1;
    let appends = (number / 16) % 2 == 1;
    if (truncates || appends) && !writes(mode) {
        None
    } else {
        Some(Flags {
            mode,
            creates,
            truncates,
            appends,
        })
    }
}

/// 1 read, 2 write, 3 both; and 4 to create, 8 to truncate, 16 to append. No mode or another bit is none.
pub(crate) fn flags_of(number: u64) -> Option<Flags>
    ensures { result ≡ flags_of number }
{
    if number >= 32 {
        return None;
    }
    match mode_of(number % 4) {
        Some(mode) => flags_by(number, mode),
        None => None,
    }
}

/// `open path len flags`: the descriptor of a new stream. Invalid: the flags are none; TooMany: all sixteen descriptors are in use;
/// BadName, walk; NoEntry: nothing stands there and no file is to be made; TooMany: the directory is full; IsDir.
pub(crate) fn open_file(
    alloc: Global,
    c: &Description,
    world: &mut World,
    p: &mut Process,
    text: &[u8],
    flags: u64,
) -> Result<Came, NoMemory>
    requires { p.old.calls < 4294967295 }
    ensures { IfOk result (λ came. Comes c.now (λ u q. open_file c.now u q text.now flags) world.old p.old came world.new p.new) }
{
    let Some(flags) = flags_of(flags) else {
        return Ok(refuse(c, p, Errno::Invalid));
    };
    let Some(fd) = free_descriptor(p) else {
        return Ok(refuse(c, p, Errno::TooMany));
    };
    let Some(path) = path_of(alloc, p, text)? else {
        return Ok(refuse(c, p, Errno::BadName));
    };
    open_at(alloc, c, world, p, fd, &flags, &path)
}

// What stands at the path is opened.
fn open_at(
    alloc: Global,
    c: &Description,
    world: &mut World,
    p: &mut Process,
    fd: usize,
    flags: &Flags,
    path: &Path,
) -> Result<Came, NoMemory>
    requires calls { p.old.calls < 4294967295 }
    requires descriptor { fd < length p.old.descriptors }
    ensures { IfOk result (λ came. Comes c.now (λ u q. open_at c.now u q fd flags.now path.now) world.old p.old came world.new p.new) }
{
    if let Some(errno) = world.nodes.walk(path.parts()) {
        return Ok(refuse(c, p, errno));
    }
    match world.nodes.node_at(path.parts()) {
        None => create_file(alloc, c, world, p, fd, flags, path),
        Some(Node::Directory) => Ok(refuse(c, p, Errno::IsDir)),
        Some(Node::FileNode(name)) => open_named(alloc, c, world, p, fd, flags, name),
        Some(Node::DeviceNode(place)) => {
            add_stream(
                alloc,
                c,
                world,
                p,
                fd,
                Object::OfDevice(place),
                flags.mode,
                flags.appends,
            )
        }
    }
}

// A file is opened, and loses its bytes where that is asked for.
fn open_named(
    alloc: Global,
    c: &Description,
    world: &mut World,
    p: &mut Process,
    fd: usize,
    flags: &Flags,
    name: FileName,
) -> Result<Came, NoMemory>
    requires calls { p.old.calls < 4294967295 }
    requires descriptor { fd < length p.old.descriptors }
    ensures { IfOk result (λ came. Comes c.now (λ u q. opened c.now (cut flags.now.truncates name u) q fd (OfFile name) flags.now.mode flags.now.appends) world.old p.old came world.new p.new) }
{
    cut_bytes(alloc, &mut world.files, flags.truncates, name);
    add_stream(
        alloc,
        c,
        world,
        p,
        fd,
        Object::OfFile(name),
        flags.mode,
        flags.appends,
    )
}

// Takes all bytes of a file away, where that is asked for.
fn cut_bytes(alloc: Global, files: &mut Files, truncates: bool, name: FileName)
    ensures { files.new ≡ cut_files truncates name files.old }
{
    if truncates {
        files.clear(alloc, name);
    }
}

// A file is made where nothing stands. NoEntry: that isn't asked for; TooMany: the directory is full.
fn create_file(
    alloc: Global,
    c: &Description,
    world: &mut World,
    p: &mut Process,
    fd: usize,
    flags: &Flags,
    path: &Path,
) -> Result<Came, NoMemory>
    requires calls { p.old.calls < 4294967295 }
    requires descriptor { fd < length p.old.descriptors }
    ensures { IfOk result (λ came. Comes c.now (λ u q. creates_file c.now u q fd flags.now path.now) world.old p.old came world.new p.new) }
{
    if !flags.creates {
        return Ok(refuse(c, p, Errno::NoEntry));
    }
    if world.nodes.is_full(above(path.parts())) {
        return Ok(refuse(c, p, Errno::TooMany));
    }
    let name = FileName::Made(world.entries);
    let bytes = Bytes::new(alloc);
    world.files.push(File { name, bytes })?;
    world.nodes.add(alloc, path.parts(), Node::FileNode(name))?;
    add_stream(
        alloc,
        c,
        world,
        p,
        fd,
        Object::OfFile(name),
        flags.mode,
        flags.appends,
    )
}

// The call gives the descriptor of a new stream, whose offset is 0.
fn add_stream(
    alloc: Global,
    c: &Description,
    world: &mut World,
    p: &mut Process,
    fd: usize,
    object: Object,
    mode: Mode,
    appends: bool,
) -> Result<Came, NoMemory>
    requires calls { p.old.calls < 4294967295 }
    requires descriptor { fd < length p.old.descriptors }
    ensures opened { IfOk result (λ came. Comes c.now (λ u q. opened c.now u q fd object mode appends) world.old p.old came world.new p.new) }
    ensures answered { IfOk result (λ told. told ≡ came.Answered (value fd)) }
{
    let place = world.entries;
    world.streams.push(Stream {
        place,
        object,
        mode,
        appends,
        offset: 0,
    })?;
    p.descriptors.as_mut_slice()[fd] = Some(place);
    Ok(give_value(alloc, c, p, fd as u64))
}

/// `pd_make path len`: the descriptor of the master stream of a new device. TooMany: all sixteen descriptors are in use; BadName,
/// walk, Exists; TooMany: the directory is full (Welch and Ousterhout 1988).
pub(crate) fn pd_make(
    alloc: Global,
    c: &Description,
    world: &mut World,
    p: &mut Process,
    text: &[u8],
) -> Result<Came, NoMemory>
    requires { p.old.calls < 4294967295 }
    ensures { IfOk result (λ came. Comes c.now (λ u q. pd_make c.now u q text.now) world.old p.old came world.new p.new) }
{
    let Some(fd) = free_descriptor(p) else {
        return Ok(refuse(c, p, Errno::TooMany));
    };
    let Some(path) = path_of(alloc, p, text)? else {
        return Ok(refuse(c, p, Errno::BadName));
    };
    make_at(alloc, c, world, p, fd, &path)
}

// A device is made at the path.
fn make_at(
    alloc: Global,
    c: &Description,
    world: &mut World,
    p: &mut Process,
    fd: usize,
    path: &Path,
) -> Result<Came, NoMemory>
    requires calls { p.old.calls < 4294967295 }
    requires descriptor { fd < length p.old.descriptors }
    ensures { IfOk result (λ came. Comes c.now (λ u q. make_at c.now u q fd path.now) world.old p.old came world.new p.new) }
{
    if let Some(errno) = new_refusal(world, path) {
        return Ok(refuse(c, p, errno));
    }
    let place = world.entries;
    add_device(alloc, &mut world.devices, place)?;
    world
        .nodes
        .add(alloc, path.parts(), Node::DeviceNode(place))?;
    add_stream(
        alloc,
        c,
        world,
        p,
        fd,
        Object::OfMaster(place),
        Mode::Both,
        false,
    )
}

// A device with no ask and no answer.
fn add_device(alloc: Global, devices: &mut Devices, place: u32) -> Result<(), NoMemory>
    ensures { OnOk result (devices.new ≡ devices.old ++ record { place = place; asks = []; in_hand = None; answers = [] } ∷ []) }
{
    let asks = Items::new(alloc);
    let answers = Items::new(alloc);
    let in_hand = None;
    devices.push(Device {
        place,
        asks,
        in_hand,
        answers,
    })
}
