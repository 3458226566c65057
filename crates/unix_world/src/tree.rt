ghost use Rattle.std.specs.Prelude.{◌≡◌, ◌∷◌, ◌++◌, ◌≤◌, [], IfOk, OnOk, length, slice_get};
ghost use Rattle.std.specs.Option.{option_map};
ghost use Rattle.sprite_ids.specs.declared.errno.Errno.TheVariants as errno;
ghost use Rattle.unix_calls.specs.Tree.{above, is_full, looked_up, name_below, names_in, node_at, path_before, same_path, text_before, walk, walk_stop, with_name, without_name};
ghost use Rattle.std.specs.List.{flat_map, position, position_or_len, prefix_len};
ghost use Rattle.unix_calls.specs.declared.state.Named.{Named};
ghost use Rattle.unix_calls.specs.Lawful.{holds};
ghost use Rattle.unix_world.specs.Paths.{MayPrecede, is_up_to};
ghost use Rattle.unix_world.specs.Places.{Ordered};

use sprite_ids::{Bytes, Copying, Errno, Items, NoMemory};
use std::alloc::Global;
use std::marker::Model;
use unix_calls::{Named, Node};

/// The tree of names of the one-kernel Unix, by ascending path. Contracts see the list of its names.
///
/// A name is found by halves, in time proportional to the logarithm of how many there are, and only those at or below a directory
/// are looked at for its names. A name that comes or goes moves those behind it in memory.
#[derive(Debug, Drop)]
pub struct NameTree {
    names: Items<Named>,
}

impl Model for NameTree {
    ghost use Rattle.std.specs.Prelude.{List};
    ghost use Rattle.unix_calls.specs.declared.Named.{Named};
    ghost use Rattle.unix_world.specs.Paths.{MayPrecede};
    ghost use Rattle.unix_world.specs.Places.{Ordered};

    ghost Value = { List Named };

    ghost view = { λ tree. tree.names };

    ghost invariant = { λ tree. Ordered MayPrecede tree.names };
}

impl NameTree {
    /// No names. It takes no memory, and keeps the allocator.
    pub fn new(alloc: Global) -> NameTree
        ensures { result ≡ [] }
    {
        NameTree {
            names: Items::new(alloc),
        }
    }

    /// The names, by ascending path.
    pub fn as_slice(&self) -> &[Named]
        ensures { result.now ≡ self.now }
    {
        self.names.as_slice()
    }

    /// What stands at a path; the root is a directory.
    pub fn node_at(&self, path: &[Bytes]) -> Option<Node>
        ensures { result ≡ node_at self.now path.now }
    {
        node_at(self.names.as_slice(), path)
    }

    /// The walk along a path: the first part before the last one that isn't a directory refuses.
    pub fn walk(&self, path: &[Bytes]) -> Option<Errno>
        ensures { result ≡ walk self.now path.now }
    {
        walk(self.names.as_slice(), path)
    }

    /// How many names are in a directory.
    pub fn count_below(&self, directory: &[Bytes]) -> usize
        ensures { result ≡ length (names_in self.now directory.now) }
    {
        count_in(within(self.names.as_slice(), directory), directory)
    }

    /// Whether a directory has no room for one name more.
    pub fn is_full(&self, directory: &[Bytes]) -> bool
        ensures { result ≡ is_full self.now directory.now }
    {
        self.count_below(directory) >= 256
    }

    /// The names in a directory, each with byte 10 behind it.
    pub fn listing(&self, alloc: Global, directory: &[Bytes]) -> Result<Bytes, NoMemory>
        ensures { IfOk result (λ text. text ≡ flat_map (λ name. name ++ 10 ∷ []) (names_in self.now directory.now)) }
    {
        list_of(alloc, within(self.names.as_slice(), directory), directory)
    }

    /// Puts one name more into the tree, in its place: behind one of the same path. The one error is want of memory.
    pub fn add(&mut self, alloc: Global, path: &[Bytes], node: Node) -> Result<(), NoMemory>
        ensures { OnOk result (self.new ≡ with_name (record { path = path.now; node = node }) self.old) }
    {
        add_name(alloc, &mut self.names, path, node)
    }

    /// Takes a name out of the tree.
    pub fn remove(&mut self, path: &[Bytes])
        ensures { self.new ≡ without_name path.now self.old }
    {
        remove_name(&mut self.names, path);
    }
}

// Where the first name of a path stands.
fn find(nodes: &[Named], path: &[Bytes]) -> Option<usize>
    requires { Ordered MayPrecede nodes.now }
    ensures { result ≡ position (λ (n : Named). same_path n.path path.now) nodes.now }
{
    let at = place_of(nodes, path);
    if is_at(nodes, at, path) {
        Some(at)
    } else {
        None
    }
}

// How many names stand before a path.
fn place_of(nodes: &[Named], path: &[Bytes]) -> usize
    requires { Ordered MayPrecede nodes.now }
    ensures count { result ≡ prefix_len (λ (n : Named). path_before n.path path.now) nodes.now }
    ensures bound { result ≤ length nodes.now }
{
    nodes.partition_point(|named| path_before(named.path.as_slice(), path))
}

// How many names stand before a path's place, among them those of the path.
fn place_for(nodes: &[Named], path: &[Bytes]) -> usize
    requires { Ordered MayPrecede nodes.now }
    ensures count { result ≡ position_or_len (λ (n : Named). path_before path.now n.path) nodes.now }
    ensures bound { result ≤ length nodes.now }
{
    nodes.partition_point(|named| !path_before(path, named.path.as_slice()))
}

// How many names stand before those that are behind a directory's.
fn end_of(nodes: &[Named], directory: &[Bytes]) -> usize
    requires { Ordered MayPrecede nodes.now }
    ensures count { result ≡ prefix_len (λ (n : Named). is_up_to directory.now n.path) nodes.now }
    ensures bound { result ≤ length nodes.now }
{
    nodes.partition_point(|named| is_up_to(directory, named.path.as_slice()))
}

// What stands at a path below the root.
fn looked_up(nodes: &[Named], path: &[Bytes]) -> Option<Node>
    requires { Ordered MayPrecede nodes.now }
    ensures { result ≡ looked_up nodes.now path.now }
{
    match find(nodes, path) {
        Some(at) => Some(nodes[at].node),
        None => None,
    }
}

// What stands at a path; the root is a directory.
fn node_at(nodes: &[Named], path: &[Bytes]) -> Option<Node>
    requires { Ordered MayPrecede nodes.now }
    ensures { result ≡ node_at nodes.now path.now }
{
    if path.is_empty() {
        Some(Node::Directory)
    } else {
        looked_up(nodes, path)
    }
}

// Why a walk doesn't go on at a part: nothing is there, or no directory.
fn walk_stop(node: Option<Node>) -> Option<Errno>
    ensures { result ≡ walk_stop node }
{
    match node {
        Some(Node::Directory) => None,
        Some(_) => Some(Errno::NotDir),
        None => Some(Errno::NoEntry),
    }
}

// The walk along a path: the first part before the last one that isn't a directory refuses.
fn walk(nodes: &[Named], path: &[Bytes]) -> Option<Errno>
    requires { Ordered MayPrecede nodes.now }
    ensures { result ≡ walk nodes.now path.now }
{
    for count in 0..path.len().saturating_sub(1) {
        let (directory, _) = path.split_at(count + 1);
        let stop = walk_stop(node_at(nodes, directory));
        if stop.is_some() {
            return stop;
        }
    }
    None
}

/// The directory above a path.
pub fn above(path: &[Bytes]) -> &[Bytes]
    ensures { result.now ≡ above path.now }
{
    let (directory, _) = path.split_at(path.len().saturating_sub(1));
    directory
}

// The last part of a path right below a directory; none for other paths.
fn name_below<'a>(directory: &[Bytes], path: &'a [Bytes]) -> Option<&'a Bytes>
    ensures { option_map (λ name. name.now) result ≡ name_below directory.now path.now }
{
    match directory {
        [] => match path {
            [part] => Some(part),
            _ => None,
        },
        [first, below @ ..] => match path {
            [] => None,
            [part, parts @ ..] => {
                if first == part {
                    name_below(below, parts)
                } else {
                    None
                }
            }
        },
    }
}

// Whether a path stands before a directory's, is it or is below it.
fn is_up_to(directory: &[Bytes], path: &[Bytes]) -> bool
    ensures { result ≡ is_up_to directory.now path.now }
{
    match directory {
        [] => true,
        [first, below @ ..] => match path {
            [] => true,
            [part, parts @ ..] => {
                text_before(part.as_slice(), first.as_slice())
                    || (part == first && is_up_to(below, parts))
            }
        },
    }
}

// The names at or below a directory, which stand side by side.
fn within<'a>(nodes: &'a [Named], directory: &[Bytes]) -> &'a [Named]
    requires { Ordered MayPrecede nodes.now }
    ensures { names_in result.now directory.now ≡ names_in nodes.now directory.now }
{
    let (_, rest) = nodes.split_at(place_of(nodes, directory));
    let (range, _) = rest.split_at(end_of(rest, directory));
    range
}

// How many of these are right below a directory.
fn count_in(nodes: &[Named], directory: &[Bytes]) -> usize
    ensures { result ≡ length (names_in nodes.now directory.now) }
{
    let mut count = 0;
    for named in nodes {
        if name_below(directory, named.path.as_slice()).is_some() {
            count += 1;
        }
    }
    count
}

// The last parts of those that are right below a directory, each with byte 10 behind it.
fn list_of(alloc: Global, nodes: &[Named], directory: &[Bytes]) -> Result<Bytes, NoMemory>
    ensures { IfOk result (λ text. text ≡ flat_map (λ name. name ++ 10 ∷ []) (names_in nodes.now directory.now)) }
{
    let mut text = Bytes::new(alloc);
    for named in nodes {
        if let Some(name) = name_below(directory, named.path.as_slice()) {
            text.append(name.as_slice())?;
            text.push(10)?;
        }
    }
    Ok(text)
}

// The order of bytes: a text stands behind each that it begins with.
fn text_before(one: &[u8], other: &[u8]) -> bool
    ensures { result ≡ text_before one.now other.now }
{
    match one {
        [] => match other {
            [] => false,
            [_, ..] => true,
        },
        [a, more @ ..] => match other {
            [] => false,
            [b, others @ ..] => *a < *b || (*a == *b && text_before(more, others)),
        },
    }
}

// The order of paths, part by part.
fn path_before(one: &[Bytes], other: &[Bytes]) -> bool
    ensures { result ≡ path_before one.now other.now }
{
    match one {
        [] => match other {
            [] => false,
            [_, ..] => true,
        },
        [a, more @ ..] => match other {
            [] => false,
            [b, others @ ..] => {
                text_before(a.as_slice(), b.as_slice()) || (a == b && path_before(more, others))
            }
        },
    }
}

// Puts one name more into the tree, in its place.
fn add_name(
    alloc: Global,
    nodes: &mut Items<Named>,
    path: &[Bytes],
    node: Node,
) -> Result<(), NoMemory>
    requires { Ordered MayPrecede nodes.old }
    ensures added { OnOk result (nodes.new ≡ with_name (record { path = path.now; node = node }) nodes.old) }
    ensures ordered { Ordered MayPrecede nodes.new }
{
    let at = place_for(nodes.as_slice(), path);
    let path = parts_of(alloc, path)?;
    let mut list = std::mem::replace(nodes, Items::new(alloc)).into_vec();
    list.insert(at, Named { path, node })?;
    *nodes = Items::of_vec(list);
    Ok(())
}

// A copy of the parts.
fn parts_of(alloc: Global, parts: &[Bytes]) -> Result<Items<Bytes>, NoMemory>
    ensures { IfOk result (λ copy. copy ≡ parts.now) }
{
    let mut copy = Items::new(alloc);
    for part in parts {
        copy.push(part.copy(alloc)?)?;
    }
    Ok(copy)
}

// Takes the names of a path out of the tree, which stand side by side.
fn remove_name(nodes: &mut Items<Named>, path: &[Bytes])
    requires { Ordered MayPrecede nodes.old }
    ensures { nodes.new ≡ without_name path.now nodes.old }
{
    let at = place_of(nodes.as_slice(), path);
    while is_at(nodes.as_slice(), at, path) {
        let _gone = nodes.remove(at);
    }
}

// Whether the name that stands there has the path.
fn is_at(nodes: &[Named], at: usize, path: &[Bytes]) -> bool
    ensures { result ≡ holds (λ (n : Named). same_path n.path path.now) (slice_get nodes.now at) }
{
    at < nodes.len() && nodes[at].path.as_slice() == path
}
