use sprite_ids::{Copying, NoMemory};
use sprite_paths::{Path, PathEnd};
use std::alloc::Global;
use std::process::Abort;

/// Asserts that no row is wrong, and tells the place of the one that is.
pub fn is_none(rt: &impl Abort, wrong: Option<usize>) {
    assert_eq!(rt; wrong, None);
}

/// The path of that text.
pub fn path(alloc: Global, text: &[u8]) -> Result<Path, PathEnd> {
    Path::clean(alloc, &Path::root(alloc), text)
}

// A text, and what it is cleaned into from /a/b; `BadName` where it is none.
static CLEANED: [(&[u8], &[u8]); 28] = [
    (b"/", b"/"),
    (b"//", b"/"),
    (b"/.", b"/"),
    (b"/..", b"/"),
    (b"/../../c", b"/c"),
    (b"/a/", b"/a"),
    (b"/a//b/./c", b"/a/b/c"),
    (b"/a/../b", b"/b"),
    (b"/a/b/../../..", b"/"),
    (b".", b"/a/b"),
    (b"..", b"/a"),
    (b"../..", b"/"),
    (b"../../../c", b"/c"),
    (b"c", b"/a/b/c"),
    (b"./c/", b"/a/b/c"),
    (b"c/../../d", b"/a/d"),
    (b"...", b"/a/b/..."),
    (b".c", b"/a/b/.c"),
    (b"..c", b"/a/b/..c"),
    (b"c..", b"/a/b/c.."),
    (b"!", b"/a/b/!"),
    (b"~", b"/a/b/~"),
    (b"", b"BadName"),
    (b" ", b"BadName"),
    (b"/a b", b"BadName"),
    (b"/a\t/..", b"BadName"),
    (b"/a\x7f", b"BadName"),
    (b"/\xe9", b"BadName"),
];

// The text of a path and of a prefix, and the text of what the path has behind the prefix; none where it doesn't begin
// with it.
static PREFIXES: [(&[u8], &[u8], &[u8]); 11] = [
    (b"/", b"/", b"/"),
    (b"/a", b"/", b"/a"),
    (b"/", b"/a", b""),
    (b"/a", b"/a", b"/"),
    (b"/ab", b"/a", b""),
    (b"/a", b"/ab", b""),
    (b"/a/b", b"/a", b"/b"),
    (b"/a/b", b"/b", b""),
    (b"/a/b", b"/a/c", b""),
    (b"/a/b", b"/a/b/c", b""),
    (b"/a/b/c/d", b"/a/b", b"/c/d"),
];

// A limit: the text of a cwd as a piece so many times, and a head and a piece of which so many are the most of a path
// from there. They are the bytes of a part, the parts, the parts below a cwd of 16, and the bytes of a part below a cwd
// whose text has 231.
static LIMITS: [(&[u8], usize, &[u8], &[u8], usize); 4] = [
    (b"/", 1, b"/", b"x", 32),
    (b"/", 1, b"", b"/x", 16),
    (b"/p", 16, b".", b"/x", 0),
    (b"/abcdefghijklmnopqrstuvwxyzabcdef", 7, b"", b"x", 23),
];

// Pieces and a tail, and whether so many pieces and the tail are a path text: 255 bytes are, and 256 are not, whatever
// `..` drops.
static TEXTS: [(&[u8], usize, &[u8], bool); 4] = [
    (b"/", 255, b"", true),
    (b"/", 256, b"", false),
    (b"/..", 85, b"", true),
    (b"/..", 85, b"/", false),
];

/// Whether that is the path's text.
pub fn has_text(alloc: Global, path: &Path, wanted: &[u8]) -> bool {
    match path.text(alloc) {
        Ok(text) => text.as_slice() == wanted,
        Err(_) => false,
    }
}

// Whether the text is cleaned into that one, or is none for `BadName`, which no cleaned text is.
fn is_cleaned(alloc: Global, cwd: &Path, text: &[u8], wanted: &[u8]) -> bool {
    match Path::clean(alloc, cwd, text) {
        Ok(path) => has_text(alloc, &path, wanted),
        Err(end) => end == PathEnd::BadName && wanted == b"BadName".as_slice(),
    }
}

// The case that is cleaned into another text.
fn wrongly_cleaned(alloc: Global, cwd: &Path, cases: &[(&[u8], &[u8])]) -> Option<usize> {
    for (at, (text, wanted)) in cases.iter().enumerate() {
        if !is_cleaned(alloc, cwd, *text, *wanted) {
            return Some(at);
        }
    }
    None
}

// The same from `/a/b`.
fn wrongly_cleaned_there(alloc: Global, cases: &[(&[u8], &[u8])]) -> Option<usize> {
    match path(alloc, b"/a/b") {
        Ok(cwd) => wrongly_cleaned(alloc, &cwd, cases),
        Err(_) => Some(0),
    }
}

#[test]
fn texts_are_cleaned(rt: HostRuntime) {
    is_none(&rt, wrongly_cleaned_there(rt.alloc(), &CLEANED));
}

// The head, the piece so many times, and the tail.
fn spelled(
    alloc: Global,
    head: &[u8],
    piece: &[u8],
    times: usize,
    tail: &[u8],
) -> Result<Vec<u8>, NoMemory> {
    let mut text = Vec::from_slice(alloc, head)?;
    for _ in 0..times {
        text.extend_from_slice(piece)?;
    }
    text.extend_from_slice(tail)?;
    Ok(text)
}

// Whether the text is taken for a path, or is none.
fn is_so_taken(alloc: Global, cwd: &Path, text: &[u8], taken: bool) -> bool {
    match Path::clean(alloc, cwd, text) {
        Ok(_) => taken,
        Err(end) => !taken && end == PathEnd::BadName,
    }
}

// Whether the head, the piece so many times and the tail are taken for a path, or are none.
fn are_so_taken(
    alloc: Global,
    cwd: &Path,
    head: &[u8],
    piece: &[u8],
    times: usize,
    tail: &[u8],
    taken: bool,
) -> bool {
    match spelled(alloc, head, piece, times, tail) {
        Ok(text) => is_so_taken(alloc, cwd, text.as_slice(), taken),
        Err(_) => false,
    }
}

// Whether so many pieces are the most of a path: one more is none, but where `..` drops it again.
fn is_most(alloc: Global, cwd: &Path, head: &[u8], piece: &[u8], most: usize) -> bool {
    let more = most.saturating_add(1);
    are_so_taken(alloc, cwd, head, piece, most, b"", true)
        && are_so_taken(alloc, cwd, head, piece, more, b"", false)
        && are_so_taken(alloc, cwd, head, piece, more, b"/..", true)
}

// The cwd whose text is the piece so many times.
fn cwd_of(alloc: Global, piece: &[u8], times: usize) -> Result<Path, PathEnd> {
    let text = spelled(alloc, b"", piece, times, b"")?;
    path(alloc, text.as_slice())
}

// The limit that is another.
fn wrong_limit(alloc: Global, cases: &[(&[u8], usize, &[u8], &[u8], usize)]) -> Option<usize> {
    for (at, (base, times, head, piece, most)) in cases.iter().enumerate() {
        let Ok(cwd) = cwd_of(alloc, *base, *times) else {
            return Some(at);
        };
        if !is_most(alloc, &cwd, *head, *piece, *most) {
            return Some(at);
        }
    }
    None
}

// The text that is taken or refused wrongly.
fn wrong_text(alloc: Global, cases: &[(&[u8], usize, &[u8], bool)]) -> Option<usize> {
    let root = Path::root(alloc);
    for (at, (piece, times, tail, taken)) in cases.iter().enumerate() {
        if !are_so_taken(alloc, &root, b"", *piece, *times, *tail, *taken) {
            return Some(at);
        }
    }
    None
}

#[test]
fn limits_are_those_of_the_cleaned_path(rt: HostRuntime) {
    is_none(&rt, wrong_limit(rt.alloc(), &LIMITS));
    is_none(&rt, wrong_text(rt.alloc(), &TEXTS));
}

// Whether the prefix and the rest are joined into that path.
fn is_joined(alloc: Global, prefix: &Path, rest: &Path, path: &Path) -> bool {
    match prefix.join(alloc, rest) {
        Ok(whole) => whole.same(path),
        Err(_) => false,
    }
}

// Whether the path has that text behind the prefix, and is joined of the two again.
fn is_behind(alloc: Global, path: &Path, prefix: &Path, wanted: &[u8]) -> bool {
    let is_one = *path == *prefix;
    match path.behind(alloc, prefix) {
        Ok(Some(rest)) => {
            has_text(alloc, &rest, wanted)
                && is_joined(alloc, prefix, &rest, path)
                && path.starts_with(prefix)
                && path.same(prefix) == is_one
        }
        Ok(None) => wanted.is_empty() && !path.starts_with(prefix),
        Err(_) => false,
    }
}

// The same of a prefix by its text.
fn is_behind_text(alloc: Global, whole: &Path, front: &[u8], wanted: &[u8]) -> bool {
    match path(alloc, front) {
        Ok(prefix) => is_behind(alloc, whole, &prefix, wanted),
        Err(_) => false,
    }
}

// The pair that is told wrongly.
fn wrong_prefix(alloc: Global, cases: &[(&[u8], &[u8], &[u8])]) -> Option<usize> {
    for (at, (text, front, rest)) in cases.iter().enumerate() {
        let Ok(whole) = path(alloc, *text) else {
            return Some(at);
        };
        if !is_behind_text(alloc, &whole, *front, *rest) {
            return Some(at);
        }
    }
    None
}

#[test]
fn prefixes_are_by_parts(rt: HostRuntime) {
    is_none(&rt, wrong_prefix(rt.alloc(), &PREFIXES));
}

// Whether it has a part of three bytes and a last one of five.
fn has_three_and_five(path: &Path) -> bool {
    let are_so_long = match path.parts() {
        [first, second] => first.len() == 3 && second.len() == 5,
        _ => false,
    };
    let is_last = match path.last() {
        Some(last) => last.len() == 5,
        None => false,
    };
    are_so_long && is_last && path.len() == 2 && !path.is_root()
}

fn is_copied(alloc: Global, path: &Path) -> bool {
    match path.copy(alloc) {
        Ok(copy) => copy.same(path),
        Err(_) => false,
    }
}

fn hosts_are_read(alloc: Global) -> bool {
    match path(alloc, b"etc/hosts") {
        Ok(hosts) => has_three_and_five(&hosts) && is_copied(alloc, &hosts),
        Err(_) => false,
    }
}

#[test]
fn paths_are_read(rt: HostRuntime) {
    assert!(rt; hosts_are_read(rt.alloc()));
}
