ghost use Rattle.std.specs.Prelude.{◌≡◌, ◌↔◌, ◌≤◌, ◌++◌, ◌∷◌, [], ℕ, List, Some, None, IsTrue, IfOk, OnOk, OnErr, IfSome, IfNone, IsErrOf, All, length, fold};
ghost use Rattle.std.specs.List.{AllByRecursion, list_all, slice_split};
ghost use Rattle.sprite_paths.specs.Path.{is_slash, is_printed, is_short, is_path_text, stays, goes_up, step_into, start_of, walked, joined, text_of, is_within_limits, clean_path, joined_path, is_prefix, behind, IsPrefix, IsPath};

use crate::path_end::PathEnd;
use sprite_ids::{Bytes, Copying, Items, NoMemory};
use std::alloc::Global;
use std::marker::Model;

/// The most bytes of a path text, and of a path's cleaned text.
const TEXT_LIMIT: usize = 255;

/// The most bytes of one part.
const PART_LIMIT: usize = 32;

/// The most parts of a path.
const PARTS_LIMIT: usize = 16;

/// A path, as the list of its parts from the root on. The root has none.
///
/// Every path has at most 16 parts, of 1 to 32 bytes each; a byte is one of 33 to 126 and not `/`, no part is `.` or
/// `..`, and the cleaned text has at most 255 bytes (this project).
#[derive(Debug, PartialEq, Eq, Drop)]
pub struct Path {
    parts: Items<Bytes>,
}

impl Model for Path {
    ghost use Rattle.std.specs.Prelude.{List, ℕ};
    ghost use Rattle.sprite_paths.specs.Path.{IsPath};

    ghost Value = { List (List ℕ) };

    ghost view = { λ path. path.parts };

    ghost invariant = { λ path. IsPath path.parts };

    ghost inverse = { λ parts. record { parts = parts } };
}

impl Path {
    /// The root. It takes no memory, and keeps the allocator.
    pub fn root(alloc: Global) -> Path
        ensures { result ≡ [] }
    {
        Path {
            parts: Items::new(alloc),
        }
    }

    /// The path that the text leads to. A text that begins with `/` starts at the root, any other at the cwd. It is
    /// split at `/`; an empty part and `.` lead nowhere, and `..` leads to the parts before the last one, which at the
    /// root is nowhere. So a part or a number of parts past the limits does no harm where a `..` drops it again.
    ///
    /// BadName comes exactly where the text hasn't 1 to 255 bytes, each of 33 to 126, or where the path would be past
    /// the limits (this project). NoMemory may always come.
    pub fn clean(alloc: Global, cwd: &Path, text: &[u8]) -> Result<Path, PathEnd>
        ensures path { IfOk result (λ path. clean_path cwd.now text.now ≡ Some path) }
        ensures bad_name { IsErrOf result PathEnd.BadName → clean_path cwd.now text.now ≡ None }
    {
        if !is_text(text) {
            return Err(PathEnd::BadName);
        }
        let start = start(alloc, cwd, text)?;
        let parts = walk(alloc, start, text)?;
        if !fits(parts.as_slice()) {
            return Err(PathEnd::BadName);
        }
        Ok(Path { parts })
    }

    /// The path of this one's parts and then those of the rest, as a name below a domain is found from the domain's prefix.
    ///
    /// BadName comes exactly where there would be more than 16 parts, or a cleaned text of more than 255 bytes (this
    /// project). NoMemory may always come.
    pub fn join(&self, alloc: Global, rest: &Path) -> Result<Path, PathEnd>
        ensures path { IfOk result (λ path. joined_path self.now rest.now ≡ Some path) }
        ensures bad_name { IsErrOf result PathEnd.BadName → joined_path self.now rest.now ≡ None }
    {
        let prefix = followed(alloc, Items::new(alloc), self.parts())?;
        let parts = followed(alloc, prefix, rest.parts())?;
        if !fits(parts.as_slice()) {
            return Err(PathEnd::BadName);
        }
        Ok(Path { parts })
    }

    /// The path of the parts behind those of the prefix, as a name is looked up below the prefix of its domain (Welch and
    /// Ousterhout 1986); None exactly where the path doesn't begin with the prefix. The one error is want of memory.
    pub fn behind(&self, alloc: Global, prefix: &Path) -> Result<Option<Path>, NoMemory>
        ensures { IfOk result (λ rest. rest ≡ behind prefix.now self.now) }
    {
        match self.parts().strip_prefix(prefix.parts()) {
            Some(rest) => Ok(Some(Path {
                parts: followed(alloc, Items::new(alloc), rest)?,
            })),
            None => Ok(None),
        }
    }

    /// Whether the path begins with the parts of the prefix: `/ab` begins with `/` and `/ab`, and not with `/a`.
    pub fn starts_with(&self, prefix: &Path) -> bool
        ensures test { result ≡ is_prefix prefix.now self.now }
        ensures prefix { IsTrue result ↔ IsPrefix prefix.now self.now }
    {
        self.parts().starts_with(prefix.parts())
    }

    /// Whether the two are one path.
    pub fn same(&self, other: &Path) -> bool
        ensures { IsTrue result ↔ (self.now ≡ other.now) }
    {
        self.parts == other.parts
    }

    /// The cleaned text: `/`, or `/` before each part.
    pub fn text(&self, alloc: Global) -> Result<Vec<u8>, NoMemory>
        ensures text { IfOk result (λ text. text.items ≡ text_of self.now) }
        ensures short { IfOk result (λ text. length text.items ≤ 255) }
    {
        let mut text = Vec::new(alloc);
        for part in self.parts() {
            text.push(b'/')?;
            text.extend_from_slice(part.as_slice())?;
        }
        if self.is_root() {
            text.push(b'/')?;
        }
        Ok(text)
    }

    /// The parts, from the root on.
    pub fn parts(&self) -> &[Bytes]
        ensures parts { result.now ≡ self.now }
        ensures path { IsPath result.now }
    {
        self.parts.as_slice()
    }

    /// How many parts the path has, from 0 to 16.
    pub fn len(&self) -> usize
        ensures parts { result ≡ length self.now }
        ensures few { result ≤ 16 }
    {
        self.parts.len()
    }

    /// Whether the path is the root.
    pub fn is_root(&self) -> bool
        ensures { IsTrue result ↔ (self.now ≡ []) }
    {
        self.parts.is_empty()
    }

    /// The last part; None exactly at the root.
    pub fn last(&self) -> Option<&Bytes>
        ensures some { IfSome result (λ last. (before : List (List ℕ)) × (self.now ≡ before ++ last.now ∷ [])) }
        ensures none { IfNone result (self.now ≡ []) }
    {
        self.parts().last()
    }
}

impl Copying for Path {
    fn copy(&self, alloc: Global) -> Result<Path, NoMemory> {
        Ok(Path {
            parts: self.parts.copy(alloc)?,
        })
    }
}

/// Whether it is a path text.
fn is_text(text: &[u8]) -> bool
    ensures { result ≡ is_path_text text.now }
{
    1 <= text.len() && text.len() <= TEXT_LIMIT && are_printed(text)
}

/// Whether each byte is one of 33 to 126.
fn are_printed(text: &[u8]) -> bool
    ensures { result ≡ list_all is_printed text.now }
{
    text.iter().all(|byte| 33 <= *byte && *byte <= 126)
}

/// The parts at which the text begins. Whoever calls it learns what the cwd keeps.
fn start(alloc: Global, cwd: &Path, text: &[u8]) -> Result<Items<Bytes>, NoMemory>
    ensures start { IfOk result (λ parts. parts ≡ start_of cwd.now text.now) }
    ensures path { IsPath cwd.now }
{
    match text {
        [b'/', ..] => Ok(Items::new(alloc)),
        _ => cwd.parts.copy(alloc),
    }
}

/// The parts to which the text leads from these.
fn walk(alloc: Global, mut parts: Items<Bytes>, text: &[u8]) -> Result<Items<Bytes>, NoMemory>
    ensures { IfOk result (λ end. end ≡ walked parts text.now) }
{
    for part in text.split(|byte| *byte == b'/') {
        step(alloc, &mut parts, part)?;
    }
    Ok(parts)
}

/// Goes on by one part.
fn step(alloc: Global, parts: &mut Items<Bytes>, part: &[u8]) -> Result<(), NoMemory>
    ensures ok { OnOk result (parts.new ≡ step_into parts.old part.now) }
    ensures err { OnErr result (parts.new ≡ parts.old) }
{
    if part.is_empty() || part == b".".as_slice() {
        return Ok(());
    }
    if part == b"..".as_slice() {
        let _ = parts.pop();
        return Ok(());
    }
    parts.push(Bytes::of_slice(alloc, part)?)
}

/// The parts, and copies of more behind them.
fn followed(
    alloc: Global,
    mut parts: Items<Bytes>,
    more: &[Bytes],
) -> Result<Items<Bytes>, NoMemory>
    ensures { IfOk result (λ all. all ≡ parts ++ more.now) }
{
    for part in more {
        parts.push(part.copy(alloc)?)?;
    }
    Ok(parts)
}

/// Whether the parts are within the limits of a path.
fn fits(parts: &[Bytes]) -> bool
    ensures { result ≡ is_within_limits parts.now }
{
    parts.len() <= PARTS_LIMIT && are_short(parts) && joined_len(parts) <= TEXT_LIMIT
}

/// Whether each part has at most 32 bytes.
fn are_short(parts: &[Bytes]) -> bool
    ensures { result ≡ list_all is_short parts.now }
{
    parts.iter().all(|part| part.len() <= PART_LIMIT)
}

/// The number of bytes with `/` before each part.
fn joined_len(parts: &[Bytes]) -> usize
    requires few { length parts.now ≤ 16 }
    requires short { IsTrue (list_all is_short parts.now) }
    ensures { result ≡ length (joined parts.now) }
{
    let mut len = 0;
    for part in parts {
        len += 1 + part.len();
    }
    len
}
