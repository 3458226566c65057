ghost use Rattle.std.specs.Prelude.{◌≡◌, ◌≤◌, ◌+◌, ◌∷◌, ◌++◌, IfOk, OnOk, [], drop, length, take};
ghost use Rattle.std.specs.List.{position};
ghost use Rattle.unix_calls.specs.declared.state.File.{File};
ghost use Rattle.unix_calls.specs.State.{bytes_of, same_file, with_bytes};
ghost use Rattle.unix_calls.specs.StreamCalls.{written};
ghost use Rattle.unix_world.specs.Contents.{grown, over};
ghost use Rattle.unix_world.specs.Places.{Ordered, OrderedIf, Precedes, is_before};

use sprite_ids::{Bytes, Items, NoMemory};
use std::alloc::Global;
use std::marker::Model;
use unix_calls::{File, FileName};

/// The files of the one-kernel Unix, in the order in which they were made, also those without a name. Contracts see their list.
///
/// A file is found by halves, in time proportional to the logarithm of how many there are, as long as each that was put there comes
/// behind all before it in the order of files, as those of one run do: those of the cluster file's lines, by line, and then those
/// that entries made, by entry. Else they are looked through one after another.
#[derive(Debug, Drop)]
pub struct Files {
    files: Items<File>,
    ascend: bool,
}

impl Model for Files {
    ghost use Rattle.std.specs.Prelude.{List};
    ghost use Rattle.unix_calls.specs.declared.File.{File};
    ghost use Rattle.unix_world.specs.Places.{OrderedIf, Precedes};

    ghost Value = { List File };

    ghost view = { λ all. all.files };

    ghost invariant = { λ all. OrderedIf all.ascend Precedes all.files };
}

impl Files {
    /// No files. It takes no memory, and keeps the allocator.
    pub fn new(alloc: Global) -> Files
        ensures { result ≡ [] }
    {
        Files {
            files: Items::new(alloc),
            ascend: true,
        }
    }

    /// Puts a file behind the others. The one error is want of memory.
    pub fn push(&mut self, file: File) -> Result<(), NoMemory>
        ensures { OnOk result (self.new ≡ self.old ++ file ∷ []) }
    {
        let ascend = ascend_with(self.ascend, self.files.as_slice(), file.name);
        self.files.push(file)?;
        self.ascend = ascend;
        Ok(())
    }

    /// The files, in their order.
    pub fn as_slice(&self) -> &[File]
        ensures { result.now ≡ self.now }
    {
        self.files.as_slice()
    }

    /// The bytes of a file; none where there is no such file.
    pub fn bytes_of(&self, name: FileName) -> &[u8]
        ensures { result.now ≡ bytes_of self.now name }
    {
        match self.place_of(name) {
            Some(at) => self.files.at(at).bytes.as_slice(),
            None => &[],
        }
    }

    /// A copy of the bytes of a file from there on, at most that many.
    pub fn read(
        &self,
        alloc: Global,
        name: FileName,
        from: u64,
        many: u64,
    ) -> Result<Bytes, NoMemory>
        ensures { IfOk result (λ bytes. bytes ≡ take many (drop from (bytes_of self.now name))) }
    {
        let bytes = self.bytes_of(name);
        let start = (bytes.len() as u64).min(from) as usize;
        let (_, rest) = bytes.split_at(start);
        let count = (rest.len() as u64).min(many) as usize;
        let (part, _) = rest.split_at(count);
        Bytes::of_slice(alloc, part)
    }

    /// Writes the bytes over those of a file from there on.
    pub fn write(
        &mut self,
        alloc: Global,
        name: FileName,
        from: u64,
        bytes: &[u8],
    ) -> Result<(), NoMemory>
        requires { from + length bytes.now ≤ 4294967295 }
        ensures { OnOk result (self.new ≡ with_bytes name (written (bytes_of self.old name) from bytes.now) self.old) }
    {
        match self.place_of(name) {
            Some(at) => write_at(alloc, self.files.at_mut(at), from as usize, bytes),
            None => Ok(()),
        }
    }

    /// Takes all bytes of a file away.
    pub fn clear(&mut self, alloc: Global, name: FileName)
        ensures { self.new ≡ with_bytes name [] self.old }
    {
        if let Some(at) = self.place_of(name) {
            self.files.at_mut(at).bytes = Bytes::new(alloc);
        }
    }

    // Where a file stands.
    fn place_of(&self, name: FileName) -> Option<usize>
        ensures { result ≡ position (λ (f : File). same_file f.name name) self.now }
    {
        if self.ascend {
            bisect(self.files.as_slice(), name)
        } else {
            scan(self.files.as_slice(), name)
        }
    }
}

// Whether two files are the same.
fn same_file(one: FileName, other: FileName) -> bool
    ensures { result ≡ same_file one other }
{
    match (one, other) {
        (FileName::Boot(i), FileName::Boot(j)) => i == j,
        (FileName::Made(i), FileName::Made(j)) => i == j,
        _ => false,
    }
}

// Whether a file is before the other, in the order of files.
fn is_before(one: FileName, other: FileName) -> bool
    ensures { result ≡ is_before one other }
{
    match (one, other) {
        (FileName::Boot(i), FileName::Boot(j)) => i < j,
        (FileName::Boot(_), FileName::Made(_)) => true,
        (FileName::Made(_), FileName::Boot(_)) => false,
        (FileName::Made(i), FileName::Made(j)) => i < j,
    }
}

// Whether all ascend with a file of that name behind them, where they do before.
fn ascend_with(ascend: bool, files: &[File], name: FileName) -> bool
    ensures { (f : File) → f.name ≡ name → OrderedIf ascend Precedes files.now → OrderedIf result Precedes (files.now ++ f ∷ []) }
{
    if !ascend {
        return false;
    }
    if files.is_empty() {
        return true;
    }
    is_before(files[files.len() - 1].name, name)
}

// Where a file stands, among files that ascend.
fn bisect(files: &[File], name: FileName) -> Option<usize>
    requires { Ordered Precedes files.now }
    ensures { result ≡ position (λ (f : File). same_file f.name name) files.now }
{
    let mut low = 0;
    let mut high = files.len();
    while low < high {
        let middle = low + (high - low) / 2;
        let found = files[middle].name;
        if same_file(found, name) {
            return Some(middle);
        }
        if is_before(found, name) {
            low = middle + 1;
        } else {
            high = middle;
        }
    }
    None
}

// Where the first file of the name stands.
fn scan(files: &[File], name: FileName) -> Option<usize>
    ensures { result ≡ position (λ (f : File). same_file f.name name) files.now }
{
    files.iter().position(|file| same_file(file.name, name))
}

// Writes the bytes over those of this file.
fn write_at(alloc: Global, file: &mut File, from: usize, bytes: &[u8]) -> Result<(), NoMemory>
    requires { from + length bytes.now ≤ 4294967295 }
    ensures bytes { OnOk result (file.new ≡ record file.old { bytes = written file.old.bytes from bytes.now }) }
    ensures name { file.new.name ≡ file.old.name }
{
    if bytes.is_empty() {
        return Ok(());
    }
    let mut items = std::mem::replace(&mut file.bytes, Bytes::new(alloc)).into_vec();
    write_over(&mut items, from, bytes)?;
    file.bytes = Bytes::of_vec(items);
    Ok(())
}

// Puts the bytes over those that stand there, and lets them grow before where they have to.
fn write_over(items: &mut Vec<u8>, from: usize, bytes: &[u8]) -> Result<(), NoMemory>
    requires { from + length bytes.now ≤ 4294967295 }
    ensures { OnOk result (items.new.items ≡ over (grown items.old.items (from + length bytes.now)) from bytes.now) }
{
    let end = from + bytes.len();
    if items.len() < end {
        items.resize(end, 0)?;
    }
    items[from..end].copy_from_slice(bytes);
    Ok(())
}
