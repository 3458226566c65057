ghost use Rattle.std.specs.Prelude.{◌≡◌, ◌<◌, IfOk, []};
ghost use Rattle.sprite_paths.specs.Path.{clean_path};
ghost use Rattle.unix_calls.specs.Lawful.{Lawful};
ghost use Rattle.unix_calls.specs.NameCalls.{at_path, chdir, chdir_refusal, list, mkdir, new_refusal, rename, rename_refusal, rmdir, rmdir_refusal, stat, unlink, unlink_refusal};
ghost use Rattle.unix_run.specs.Names.{lists, place_refusal};
ghost use Rattle.unix_world.specs.Worlds.{bare, unix_of};
ghost use Rattle.unix_run.specs.Coming.{Comes};

use crate::answers::{answer, give_two, give_value, refuse};
use crate::came::Came;
use process_machine::Reply;
use sprite_ids::{Errno, NoMemory};
use sprite_paths::{Path, PathEnd};
use std::alloc::Global;
use unix_calls::{Description, Node, Process};
use unix_world::{NameTree, World, above, begins_domain};

/// The path of a text, from the process's cwd; none where the text is no path.
pub(crate) fn path_of(alloc: Global, p: &Process, text: &[u8]) -> Result<Option<Path>, NoMemory>
    ensures { IfOk result (λ path. path ≡ clean_path p.now.cwd text.now) }
{
    match Path::clean(alloc, &p.cwd, text) {
        Ok(path) => Ok(Some(path)),
        Err(PathEnd::BadName) => Ok(None),
        Err(PathEnd::NoMemory) => Err(NoMemory),
    }
}

/// `stat path len`: 1 for a file, 2 for a directory with the number of its entries, 3 for a device. BadName, walk, NoEntry.
pub(crate) fn stat(
    alloc: Global,
    c: &Description,
    world: &mut World,
    p: &mut Process,
    text: &[u8],
) -> Result<Came, NoMemory>
    requires { p.old.calls < 4294967295 }
    ensures { IfOk result (λ came. Comes c.now (λ u q. at_path c.now u q text.now (stat c.now u q)) world.old p.old came world.new p.new) }
{
    let Some(path) = path_of(alloc, p, text)? else {
        return Ok(refuse(c, p, Errno::BadName));
    };
    if let Some(errno) = world.nodes.walk(path.parts()) {
        return Ok(refuse(c, p, errno));
    }
    match world.nodes.node_at(path.parts()) {
        None => Ok(refuse(c, p, Errno::NoEntry)),
        Some(Node::Directory) => {
            let second = world.nodes.count_below(path.parts()) as u64;
            Ok(give_two(alloc, c, p, 2, second))
        }
        Some(Node::FileNode(_)) => Ok(give_value(alloc, c, p, 1)),
        Some(Node::DeviceNode(_)) => Ok(give_value(alloc, c, p, 3)),
    }
}

/// `mkdir path len`: an empty directory. BadName; walk; Exists: something stands there; TooMany: the directory is full.
pub(crate) fn mkdir(
    alloc: Global,
    c: &Description,
    world: &mut World,
    p: &mut Process,
    text: &[u8],
) -> Result<Came, NoMemory>
    requires { p.old.calls < 4294967295 }
    ensures { IfOk result (λ came. Comes c.now (λ u q. at_path c.now u q text.now (mkdir c.now u q)) world.old p.old came world.new p.new) }
{
    let Some(path) = path_of(alloc, p, text)? else {
        return Ok(refuse(c, p, Errno::BadName));
    };
    if let Some(errno) = new_refusal(world, &path) {
        return Ok(refuse(c, p, errno));
    }
    world.nodes.add(alloc, path.parts(), Node::Directory)?;
    Ok(give_value(alloc, c, p, 0))
}

/// Why no new name can be made. Walk; Exists: something stands there; TooMany: the directory is full.
pub(crate) fn new_refusal(world: &World, path: &Path) -> Option<Errno>
    ensures { result ≡ new_refusal (bare world.now) path.now }
{
    let nodes = &world.nodes;
    if let Some(errno) = nodes.walk(path.parts()) {
        return Some(errno);
    }
    if nodes.node_at(path.parts()).is_some() {
        return Some(Errno::Exists);
    }
    if nodes.is_full(above(path.parts())) {
        return Some(Errno::TooMany);
    }
    None
}

/// `rmdir path len`: the directory goes. BadName; Busy: a domain; walk, NoEntry, NotDir; NotEmpty: something stands below.
pub(crate) fn rmdir(
    alloc: Global,
    c: &Description,
    world: &mut World,
    p: &mut Process,
    text: &[u8],
) -> Result<Came, NoMemory>
    requires { p.old.calls < 4294967295 }
    ensures { IfOk result (λ came. Comes c.now (λ u q. at_path c.now u q text.now (rmdir c.now u q)) world.old p.old came world.new p.new) }
{
    let Some(path) = path_of(alloc, p, text)? else {
        return Ok(refuse(c, p, Errno::BadName));
    };
    if let Some(errno) = rmdir_refusal(c, world, &path) {
        return Ok(refuse(c, p, errno));
    }
    world.nodes.remove(path.parts());
    Ok(give_value(alloc, c, p, 0))
}

// Why a directory can't go.
fn rmdir_refusal(c: &Description, world: &World, path: &Path) -> Option<Errno>
    ensures { result ≡ rmdir_refusal (unix_of c.now world.now []) path.now }
{
    if begins_domain(c, path) {
        return Some(Errno::Busy);
    }
    let nodes = &world.nodes;
    if let Some(errno) = nodes.walk(path.parts()) {
        return Some(errno);
    }
    match nodes.node_at(path.parts()) {
        None => Some(Errno::NoEntry),
        Some(Node::Directory) if nodes.count_below(path.parts()) > 0 => Some(Errno::NotEmpty),
        Some(Node::Directory) => None,
        Some(_) => Some(Errno::NotDir),
    }
}

// Why a path isn't that of a directory: walk, NoEntry, NotDir.
fn directory_refusal(world: &World, path: &Path) -> Option<Errno>
    ensures { result ≡ chdir_refusal (bare world.now) path.now }
{
    let nodes = &world.nodes;
    if let Some(errno) = nodes.walk(path.parts()) {
        return Some(errno);
    }
    match nodes.node_at(path.parts()) {
        None => Some(Errno::NoEntry),
        Some(Node::Directory) => None,
        Some(_) => Some(Errno::NotDir),
    }
}

/// `unlink path len`: the name goes; a file's streams keep it. BadName, walk, NoEntry, IsDir.
pub(crate) fn unlink(
    alloc: Global,
    c: &Description,
    world: &mut World,
    p: &mut Process,
    text: &[u8],
) -> Result<Came, NoMemory>
    requires { p.old.calls < 4294967295 }
    ensures { IfOk result (λ came. Comes c.now (λ u q. at_path c.now u q text.now (unlink c.now u q)) world.old p.old came world.new p.new) }
{
    let Some(path) = path_of(alloc, p, text)? else {
        return Ok(refuse(c, p, Errno::BadName));
    };
    if let Some(errno) = unlink_refusal(world, &path) {
        return Ok(refuse(c, p, errno));
    }
    world.nodes.remove(path.parts());
    Ok(give_value(alloc, c, p, 0))
}

// Why a name can't go: walk, NoEntry, IsDir.
fn unlink_refusal(world: &World, path: &Path) -> Option<Errno>
    ensures { result ≡ unlink_refusal (bare world.now) path.now }
{
    let nodes = &world.nodes;
    if let Some(errno) = nodes.walk(path.parts()) {
        return Some(errno);
    }
    match nodes.node_at(path.parts()) {
        None => Some(Errno::NoEntry),
        Some(Node::Directory) => Some(Errno::IsDir),
        Some(_) => None,
    }
}

/// `rename old len new nlen`: the file or device at the old path has the new one. BadName; XDev: two domains; walk and NoEntry of
/// the old path; IsDir; walk of the new path; Exists; TooMany: another directory that is full.
pub(crate) fn rename(
    alloc: Global,
    c: &Description,
    world: &mut World,
    p: &mut Process,
    old: &[u8],
    new: &[u8],
) -> Result<Came, NoMemory>
    requires calls { p.old.calls < 4294967295 }
    requires lawful { Lawful c.now }
    ensures { IfOk result (λ came. Comes c.now (λ u q. at_path c.now u q old.now (λ from. at_path c.now u q new.now (rename c.now u q from))) world.old p.old came world.new p.new) }
{
    let Some(from) = path_of(alloc, p, old)? else {
        return Ok(refuse(c, p, Errno::BadName));
    };
    let Some(to) = path_of(alloc, p, new)? else {
        return Ok(refuse(c, p, Errno::BadName));
    };
    rename_at(alloc, c, world, p, &from, &to)
}

// From path to path.
fn rename_at(
    alloc: Global,
    c: &Description,
    world: &mut World,
    p: &mut Process,
    old: &Path,
    new: &Path,
) -> Result<Came, NoMemory>
    requires calls { p.old.calls < 4294967295 }
    requires lawful { Lawful c.now }
    ensures { IfOk result (λ came. Comes c.now (λ u q. rename c.now u q old.now new.now) world.old p.old came world.new p.new) }
{
    if let Some(errno) = rename_refusal(c, world, old, new) {
        return Ok(refuse(c, p, errno));
    }
    if let Some(node) = world.nodes.node_at(old.parts()) {
        world.nodes.remove(old.parts());
        world.nodes.add(alloc, new.parts(), node)?;
    }
    Ok(give_value(alloc, c, p, 0))
}

// Why what stands at the old path can't have the new one.
fn rename_refusal(c: &Description, world: &World, old: &Path, new: &Path) -> Option<Errno>
    requires lawful { Lawful c.now }
    ensures { result ≡ rename_refusal (unix_of c.now world.now []) old.now new.now }
{
    if c.domain_of(old) != c.domain_of(new) {
        return Some(Errno::XDev);
    }
    let nodes = &world.nodes;
    if let Some(errno) = nodes.walk(old.parts()) {
        return Some(errno);
    }
    match nodes.node_at(old.parts()) {
        None => Some(Errno::NoEntry),
        Some(Node::Directory) => Some(Errno::IsDir),
        Some(_) => place_refusal(nodes, old, new),
    }
}

// Why the new path isn't free for what stands at the old one. Walk; Exists; TooMany: another directory that is full.
fn place_refusal(nodes: &NameTree, old: &Path, new: &Path) -> Option<Errno>
    ensures { result ≡ place_refusal nodes.now old.now new.now }
{
    if let Some(errno) = nodes.walk(new.parts()) {
        return Some(errno);
    }
    if nodes.node_at(new.parts()).is_some() {
        return Some(Errno::Exists);
    }
    if above(old.parts()) != above(new.parts()) && nodes.is_full(above(new.parts())) {
        return Some(Errno::TooMany);
    }
    None
}

/// `list path len addr max`: each name and byte 10, in byte order, and how many bytes they are. BadName, walk, NoEntry, NotDir;
/// Invalid: more than `max`.
pub(crate) fn list(
    alloc: Global,
    c: &Description,
    world: &mut World,
    p: &mut Process,
    text: &[u8],
    max: u64,
) -> Result<Came, NoMemory>
    requires { p.old.calls < 4294967295 }
    ensures { IfOk result (λ came. Comes c.now (λ u q. at_path c.now u q text.now (λ directory. list c.now u q directory max)) world.old p.old came world.new p.new) }
{
    let Some(path) = path_of(alloc, p, text)? else {
        return Ok(refuse(c, p, Errno::BadName));
    };
    if let Some(errno) = world.nodes.walk(path.parts()) {
        return Ok(refuse(c, p, errno));
    }
    match world.nodes.node_at(path.parts()) {
        None => Ok(refuse(c, p, Errno::NoEntry)),
        Some(Node::Directory) => list_directory(alloc, c, world, p, &path, max),
        Some(_) => Ok(refuse(c, p, Errno::NotDir)),
    }
}

// Of a directory.
fn list_directory(
    alloc: Global,
    c: &Description,
    world: &mut World,
    p: &mut Process,
    path: &Path,
    max: u64,
) -> Result<Came, NoMemory>
    requires { p.old.calls < 4294967295 }
    ensures { IfOk result (λ came. Comes c.now (λ u q. lists c.now u q path.now max) world.old p.old came world.new p.new) }
{
    let bytes = world.nodes.listing(alloc, path.parts())?;
    let first = bytes.len() as u64;
    if max < first {
        return Ok(refuse(c, p, Errno::Invalid));
    }
    let second = 0;
    Ok(answer(
        c,
        p,
        Reply::Value {
            first,
            second,
            bytes,
        },
    ))
}

/// `chdir path len`: the path is the caller's cwd. BadName, walk, NoEntry, NotDir.
pub(crate) fn chdir(
    alloc: Global,
    c: &Description,
    world: &mut World,
    p: &mut Process,
    text: &[u8],
) -> Result<Came, NoMemory>
    requires { p.old.calls < 4294967295 }
    ensures { IfOk result (λ came. Comes c.now (λ u q. at_path c.now u q text.now (chdir c.now u q)) world.old p.old came world.new p.new) }
{
    let Some(path) = path_of(alloc, p, text)? else {
        return Ok(refuse(c, p, Errno::BadName));
    };
    if let Some(errno) = directory_refusal(world, &path) {
        return Ok(refuse(c, p, errno));
    }
    p.cwd = path;
    Ok(give_value(alloc, c, p, 0))
}
