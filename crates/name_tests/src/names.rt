use crate::paths::{has_text, is_none, path};
use server_names::{NameEnd, Names, Node};
use sprite_ids::{DeviceId, Errno, FileId, Items, Kernel};
use sprite_paths::{Path, PathEnd};
use std::alloc::Global;

// What a call answers: nothing more, a directory, a file or a device by its number, a text, a count, an error, or the path
// of a remote link.
#[derive(Clone, Copy)]
enum Told {
    Done,
    Dir,
    File(u32),
    Device(u32),
    Text(&'static [u8]),
    Count(usize),
    Refused(Errno),
    Redirect(&'static [u8]),
}

// A call; `Fill` makes 256 directories in `/d`.
#[derive(Clone, Copy)]
enum Step {
    Find,
    MakeDir,
    MakeFile(u32),
    MakeDevice(u32),
    Rmdir,
    Unlink,
    Rename(&'static [u8]),
    List,
    Count,
    Boot(u32),
    Fill,
}

// The text of a path, a call on it, and what that answers.
type Row = (&'static [u8], Step, Told);

// Calls on names in which other domains hang at `/m/n` and `/z`.
static STEPS: [Row; 55] = [
    (b"/", Step::Find, Told::Dir),
    (b"/m", Step::Find, Told::Dir),
    (b"/m/n", Step::Find, Told::Redirect(b"/m/n")),
    (b"/m/n/x/y", Step::Find, Told::Redirect(b"/m/n")),
    (b"/z/f", Step::MakeFile(1), Told::Redirect(b"/z")),
    (b"/z", Step::MakeDir, Told::Redirect(b"/z")),
    (b"/m/x", Step::Find, Told::Refused(Errno::NoEntry)),
    (b"/x/y", Step::Find, Told::Refused(Errno::NoEntry)),
    (b"/", Step::MakeDir, Told::Refused(Errno::Exists)),
    (b"/x/y", Step::MakeDir, Told::Refused(Errno::NoEntry)),
    (b"/a", Step::MakeDir, Told::Done),
    (b"/a", Step::MakeDir, Told::Refused(Errno::Exists)),
    (b"/a/f", Step::MakeFile(1), Told::Done),
    (b"/a/f", Step::MakeFile(2), Told::Refused(Errno::Exists)),
    (b"/a/f", Step::Find, Told::File(1)),
    (b"/a/f/g", Step::Find, Told::Refused(Errno::NotDir)),
    (b"/a/f/g", Step::MakeDir, Told::Refused(Errno::NotDir)),
    (b"/a/d", Step::MakeDevice(3), Told::Done),
    (b"/a/d", Step::Find, Told::Device(3)),
    (b"/a/d/e", Step::Find, Told::Refused(Errno::NotDir)),
    (b"/", Step::List, Told::Text(b"a\nm\nz\n")),
    (b"/a", Step::List, Told::Text(b"d\nf\n")),
    (b"/m", Step::List, Told::Text(b"n\n")),
    (b"/a/f", Step::List, Told::Refused(Errno::NotDir)),
    (b"/", Step::Count, Told::Count(3)),
    (b"/m/n", Step::Count, Told::Redirect(b"/m/n")),
    (b"/", Step::Rmdir, Told::Refused(Errno::Busy)),
    (b"/a", Step::Rmdir, Told::Refused(Errno::NotEmpty)),
    (b"/m", Step::Rmdir, Told::Refused(Errno::NotEmpty)),
    (b"/a/f", Step::Rmdir, Told::Refused(Errno::NotDir)),
    (b"/a", Step::Unlink, Told::Refused(Errno::IsDir)),
    (b"/a/x", Step::Unlink, Told::Refused(Errno::NoEntry)),
    (b"/a/f", Step::Rename(b"/a/f"), Told::Refused(Errno::Exists)),
    (b"/a/f", Step::Rename(b"/a/d"), Told::Refused(Errno::Exists)),
    (b"/a", Step::Rename(b"/b"), Told::Refused(Errno::IsDir)),
    (b"/a/x", Step::Rename(b"/b"), Told::Refused(Errno::NoEntry)),
    (
        b"/a/f",
        Step::Rename(b"/b/c"),
        Told::Refused(Errno::NoEntry),
    ),
    (
        b"/a/f",
        Step::Rename(b"/a/d/c"),
        Told::Refused(Errno::NotDir),
    ),
    (b"/a/f", Step::Rename(b"/B"), Told::Done),
    (b"/a/f", Step::Find, Told::Refused(Errno::NoEntry)),
    (b"/B", Step::Find, Told::File(1)),
    (b"/", Step::List, Told::Text(b"B\na\nm\nz\n")),
    (b"/B", Step::Unlink, Told::File(1)),
    (b"/a/d", Step::Unlink, Told::Device(3)),
    (b"/a", Step::Rmdir, Told::Dir),
    (b"/a", Step::Find, Told::Refused(Errno::NoEntry)),
    (b"/b/c/f", Step::Boot(7), Told::Done),
    (b"/b", Step::Find, Told::Dir),
    (b"/b/c/f", Step::Find, Told::File(7)),
    (b"/b/g", Step::Boot(8), Told::Done),
    (b"/b", Step::List, Told::Text(b"c\ng\n")),
    (b"/b/g", Step::Boot(9), Told::Refused(Errno::Exists)),
    (b"/b/g/h", Step::Boot(9), Told::Refused(Errno::NotDir)),
    (b"/m/n/x", Step::Boot(9), Told::Redirect(b"/m/n")),
    (b"/", Step::Boot(9), Told::Refused(Errno::Exists)),
];

// Two places where others hang, and why they can't: the second lies below the first, is above it, is there, or is the root.
static LINKS: [(&[u8], &[u8], Told); 4] = [
    (b"/z", b"/z/y", Told::Redirect(b"/z")),
    (b"/z/y", b"/z", Told::Refused(Errno::Exists)),
    (b"/z", b"/z", Told::Redirect(b"/z")),
    (b"/z", b"/", Told::Refused(Errno::Exists)),
];

// What a directory with 256 entries takes no more.
static FULL: [Row; 9] = [
    (b"/d", Step::MakeDir, Told::Done),
    (b"/f", Step::MakeFile(1), Told::Done),
    (b"/d", Step::Fill, Told::Done),
    (b"/d", Step::Count, Told::Count(256)),
    (b"/d/x", Step::MakeDir, Told::Refused(Errno::TooMany)),
    (b"/d/aa", Step::MakeDir, Told::Refused(Errno::Exists)),
    (b"/d/x/y", Step::Boot(1), Told::Refused(Errno::TooMany)),
    (b"/f", Step::Rename(b"/d/x"), Told::Refused(Errno::TooMany)),
    (b"/f", Step::Rename(b"/g"), Told::Done),
];

// Whether the node is the one that was told.
fn is_node(node: Node, told: Told) -> bool {
    match node {
        Node::Dir => matches!(told, Told::Dir),
        Node::File(file) => matches!(told, Told::File(number) if file.number == number),
        Node::Device(device) => matches!(told, Told::Device(number) if device.number == number),
    }
}

// Whether the link's path is the one that was told.
fn is_link(alloc: Global, link: &Path, told: Told) -> bool {
    match told {
        Told::Redirect(known) => has_text(alloc, link, known),
        _ => false,
    }
}

// Whether the end is the one that was told.
fn is_end(alloc: Global, end: &NameEnd, told: Told) -> bool {
    match end {
        NameEnd::Errno(errno) => matches!(told, Told::Refused(known) if *errno == known),
        NameEnd::Redirect(link) => is_link(alloc, link, told),
        NameEnd::NoMemory => false,
    }
}

// Whether the answer about a node is the one that was told.
fn is_found(alloc: Global, answer: &Result<Node, NameEnd>, told: Told) -> bool {
    match answer {
        Ok(node) => is_node(*node, told),
        Err(end) => is_end(alloc, end, told),
    }
}

// Whether the answer without a value is the one that was told.
fn is_done(alloc: Global, answer: &Result<(), NameEnd>, told: Told) -> bool {
    match answer {
        Ok(()) => matches!(told, Told::Done),
        Err(end) => is_end(alloc, end, told),
    }
}

// Whether the listing is the one that was told.
fn is_listed(alloc: Global, answer: &Result<Vec<u8>, NameEnd>, told: Told) -> bool {
    match answer {
        Ok(lines) => matches!(told, Told::Text(known) if lines.as_slice() == known),
        Err(end) => is_end(alloc, end, told),
    }
}

// Whether the count is the one that was told.
fn is_counted(alloc: Global, answer: &Result<usize, NameEnd>, told: Told) -> bool {
    match answer {
        Ok(count) => matches!(told, Told::Count(known) if *count == known),
        Err(end) => is_end(alloc, end, told),
    }
}

// A file of kernel 2.
fn file(number: u32) -> Option<Node> {
    let server = Kernel::new(2)?;
    Some(Node::File(FileId { server, number }))
}

// A device of kernel 2.
fn device(number: u32) -> Option<Node> {
    let kernel = Kernel::new(2)?;
    Some(Node::Device(DeviceId { kernel, number }))
}

// Whether making that file or device answers so.
fn makes(alloc: Global, names: &mut Names, path: &Path, node: Option<Node>, told: Told) -> bool {
    match node {
        Some(node) => is_done(alloc, &names.make(path, node), told),
        None => false,
    }
}

// Whether making that file at boot answers so.
fn boots(alloc: Global, names: &mut Names, path: &Path, file: Option<Node>, told: Told) -> bool {
    match file {
        Some(file) => is_done(alloc, &names.boot(path, file), told),
        None => false,
    }
}

// Whether giving the path another name answers so.
fn renames(alloc: Global, names: &mut Names, old: &Path, new: &[u8], told: Told) -> bool {
    match path(alloc, new) {
        Ok(new) => is_done(alloc, &names.rename(old, &new), told),
        Err(_) => false,
    }
}

// Whether making a directory in `/d`, by its number, answers so.
fn grows(alloc: Global, names: &mut Names, number: u8, told: Told) -> bool {
    let text = [b'/', b'd', b'/', b'a' + number / 16, b'a' + number % 16];
    match path(alloc, text.as_slice()) {
        Ok(path) => is_done(alloc, &names.make(&path, Node::Dir), told),
        Err(_) => false,
    }
}

// Whether making each of 256 directories in `/d` answers so.
fn fills(alloc: Global, names: &mut Names, told: Told) -> bool {
    for number in 0..=255 {
        if !grows(alloc, names, number, told) {
            return false;
        }
    }
    true
}

// Makes the call on the path; true where it answers so.
fn answers(alloc: Global, names: &mut Names, path: &Path, step: Step, told: Told) -> bool {
    match step {
        Step::Find => is_found(alloc, &names.find(path), told),
        Step::MakeDir => makes(alloc, names, path, Some(Node::Dir), told),
        Step::MakeFile(number) => makes(alloc, names, path, file(number), told),
        Step::MakeDevice(number) => makes(alloc, names, path, device(number), told),
        Step::Rmdir => is_found(alloc, &names.remove(path, true), told),
        Step::Unlink => is_found(alloc, &names.remove(path, false), told),
        Step::Rename(new) => renames(alloc, names, path, new, told),
        Step::List => is_listed(alloc, &names.list(path), told),
        Step::Count => is_counted(alloc, &names.count(path), told),
        Step::Boot(number) => boots(alloc, names, path, file(number), told),
        Step::Fill => fills(alloc, names, told),
    }
}

// Makes the call; true where it answers so.
fn does(alloc: Global, names: &mut Names, row: &Row) -> bool {
    match path(alloc, row.0) {
        Ok(path) => answers(alloc, names, &path, row.1, row.2),
        Err(_) => false,
    }
}

// The first step that answers otherwise.
fn first_wrong(alloc: Global, names: &mut Names, rows: &[Row]) -> Option<usize> {
    for (at, row) in rows.iter().enumerate() {
        if !does(alloc, names, row) {
            return Some(at);
        }
    }
    None
}

// The paths of these texts.
fn paths(alloc: Global, first: &[u8], second: &[u8]) -> Result<Items<Path>, PathEnd> {
    let mut paths = Items::new(alloc);
    paths.push(path(alloc, first)?)?;
    paths.push(path(alloc, second)?)?;
    Ok(paths)
}

// The first step that answers otherwise, in a domain in which others hang at these links.
fn first_wrong_below(alloc: Global, links: &[Path], rows: &[Row]) -> Option<usize> {
    match Names::new(alloc, links) {
        Ok(mut names) => first_wrong(alloc, &mut names, rows),
        Err(_) => Some(0),
    }
}

// The first step that answers otherwise, in a domain in which others hang at `/m/n` and `/z`.
fn first_wrong_below_links(alloc: Global, rows: &[Row]) -> Option<usize> {
    match paths(alloc, b"/m/n", b"/z") {
        Ok(links) => first_wrong_below(alloc, links.as_slice(), rows),
        Err(_) => Some(0),
    }
}

// Whether the links are refused so.
fn are_refused(alloc: Global, links: &[Path], told: Told) -> bool {
    match Names::new(alloc, links) {
        Ok(_) => false,
        Err(end) => is_end(alloc, &end, told),
    }
}

// The first pair of links that isn't refused so.
fn first_taken(alloc: Global, pairs: &[(&[u8], &[u8], Told)]) -> Option<usize> {
    for (at, (first, second, told)) in pairs.iter().enumerate() {
        let Ok(links) = paths(alloc, *first, *second) else {
            return Some(at);
        };
        if !are_refused(alloc, links.as_slice(), *told) {
            return Some(at);
        }
    }
    None
}

#[test]
fn names_are_made_and_taken_away(rt: HostRuntime) {
    is_none(&rt, first_wrong_below_links(rt.alloc(), &STEPS));
}

#[test]
fn links_hang_in_directories(rt: HostRuntime) {
    is_none(&rt, first_taken(rt.alloc(), &LINKS));
}

#[test]
fn a_directory_has_256_entries(rt: HostRuntime) {
    is_none(&rt, first_wrong_below_links(rt.alloc(), &FULL));
}
