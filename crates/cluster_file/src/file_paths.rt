ghost use Rattle.std.specs.Prelude.{◌≡◌, IfOk, IfErr, Ok, map};
ghost use Rattle.std.specs.List.{list_any};
ghost use Rattle.sprite_paths.specs.Path.{is_prefix};
ghost use Rattle.unix_calls.specs.Lawful.{is_above};
ghost use Rattle.cluster_file.specs.Refusals.{IsRefusedBy};
ghost use Rattle.cluster_file.specs.Paths.{path_of, paths_of, kernel_line, kernel_lines, file_paths, is_taken, is_above_one, has_earlier, is_free, repeated, file_line, filed, file_lines};

use crate::keys::{KeyName, Section};
use crate::places::refused_at;
use crate::refusal::FileEnd;
use crate::rows::{FileRow, KernelRow};
use sprite_ids::{Bytes, Copying, Items, NoMemory};
use sprite_paths::{Path, PathEnd};
use std::alloc::Global;
use unix_calls::{FileLine, KernelLine};

/// The path that is cleaned from the text; None exactly where there is none, or where its own text is another.
fn path_of(alloc: Global, text: &[u8]) -> Result<Option<Path>, NoMemory>
    ensures { IfOk result (λ path. path ≡ path_of text.now) }
{
    match Path::clean(alloc, &Path::root(alloc), text) {
        Ok(path) => {
            let cleaned = path.text(alloc)?;
            if cleaned.as_slice() == text {
                Ok(Some(path))
            } else {
                Ok(None)
            }
        }
        Err(PathEnd::BadName) => Ok(None),
        Err(PathEnd::NoMemory) => Err(NoMemory),
    }
}

/// The paths of the texts; None exactly where one is no path.
fn paths_of(alloc: Global, texts: &[Bytes]) -> Result<Option<Items<Path>>, NoMemory>
    ensures { IfOk result (λ paths. paths ≡ paths_of texts.now) }
{
    let mut paths = Items::new(alloc);
    for text in texts {
        match path_of(alloc, text.as_slice())? {
            Some(path) => paths.push(path)?,
            None => return Ok(None),
        }
    }
    Ok(Some(paths))
}

/// The kernels with their domains; the first refusal is for a text that is no path.
pub fn kernel_lines(alloc: Global, rows: &[KernelRow]) -> Result<Items<KernelLine>, FileEnd>
    ensures lines { IfOk result (λ lines. kernel_lines rows.now ≡ Ok lines) }
    ensures refused { IfErr result (IsRefusedBy (kernel_lines rows.now)) }
{
    let mut lines: Items<KernelLine> = Items::new(alloc);
    for row in rows {
        let line = kernel_line(alloc, lines.as_slice(), row)?;
        lines.push(line)?;
    }
    Ok(lines)
}

fn kernel_line(
    alloc: Global,
    earlier: &[KernelLine],
    row: &KernelRow,
) -> Result<KernelLine, FileEnd>
    ensures line { IfOk result (λ line. kernel_line earlier.now row.now ≡ Ok line) }
    ensures refused { IfErr result (IsRefusedBy (kernel_line earlier.now row.now)) }
{
    let Some(serves) = paths_of(alloc, row.serves.as_slice())? else {
        return Err(refused_at(
            alloc,
            10,
            Section::Kernel,
            earlier.len() + 1,
            KeyName::Serves,
        ));
    };
    Ok(KernelLine {
        name: row.name.copy(alloc)?,
        serves,
    })
}

/// The files with their bytes; the first refusal is for a path that a file may not have.
pub fn file_lines(
    alloc: Global,
    kernels: &[KernelLine],
    rows: &[FileRow],
) -> Result<Items<FileLine>, FileEnd>
    ensures lines { IfOk result (λ lines. file_lines kernels.now rows.now ≡ Ok lines) }
    ensures refused { IfErr result (IsRefusedBy (file_lines kernels.now rows.now)) }
{
    let paths = file_paths(alloc, rows)?;
    filed(alloc, kernels, paths.as_slice(), rows)
}

/// The files, once the paths of all are known.
fn filed(
    alloc: Global,
    kernels: &[KernelLine],
    paths: &[Path],
    rows: &[FileRow],
) -> Result<Items<FileLine>, FileEnd>
    ensures lines { IfOk result (λ lines. filed kernels.now paths.now rows.now ≡ Ok lines) }
    ensures refused { IfErr result (IsRefusedBy (filed kernels.now paths.now rows.now)) }
{
    let mut lines: Items<FileLine> = Items::new(alloc);
    for row in rows {
        let line = file_line(alloc, kernels, paths, lines.as_slice(), row)?;
        lines.push(line)?;
    }
    Ok(lines)
}

/// The paths of those files that have one.
fn file_paths(alloc: Global, rows: &[FileRow]) -> Result<Items<Path>, NoMemory>
    ensures { IfOk result (λ paths. paths ≡ file_paths rows.now) }
{
    let mut paths = Items::new(alloc);
    for row in rows {
        if let Some(path) = path_of(alloc, row.path.as_slice())? {
            paths.push(path)?;
        }
    }
    Ok(paths)
}

fn file_line(
    alloc: Global,
    kernels: &[KernelLine],
    paths: &[Path],
    earlier: &[FileLine],
    row: &FileRow,
) -> Result<FileLine, FileEnd>
    ensures line { IfOk result (λ line. file_line kernels.now paths.now earlier.now row.now ≡ Ok line) }
    ensures refused { IfErr result (IsRefusedBy (file_line kernels.now paths.now earlier.now row.now)) }
{
    let Some(path) = path_of(alloc, row.path.as_slice())? else {
        return Err(refused_at(alloc, 10, Section::File, earlier.len() + 1, KeyName::Path));
    };
    if !is_free(kernels, paths, earlier, row.append, &path) {
        return Err(refused_at(alloc, 10, Section::File, earlier.len() + 1, KeyName::Path));
    }
    Ok(FileLine {
        path,
        bytes: repeated(alloc, row.text.as_slice(), row.repeat)?,
        append: row.append,
    })
}

/// Whether a file may have the path: it isn't `/`, no domain's nor a prefix of one, and a proper prefix of no other
/// file's; and an earlier file has it exactly where the bytes are to be appended.
fn is_free(
    kernels: &[KernelLine],
    paths: &[Path],
    earlier: &[FileLine],
    append: bool,
    path: &Path,
) -> bool
    ensures { result ≡ is_free kernels.now paths.now earlier.now append path.now }
{
    let is_blocked = path.len() == 0 || is_taken(kernels, path) || is_above_one(paths, path);
    !is_blocked && append == has_earlier(earlier, path)
}

/// Whether the path is a domain's or a prefix of it.
fn is_taken(kernels: &[KernelLine], path: &Path) -> bool
    ensures { result ≡ is_taken kernels.now path.now }
{
    for line in kernels {
        if begins_one(path, line.serves.as_slice()) {
            return true;
        }
    }
    false
}

/// Whether the path is a prefix of one of the others.
fn begins_one(path: &Path, others: &[Path]) -> bool
    ensures { result ≡ list_any (is_prefix path.now) others.now }
{
    for other in others {
        if other.starts_with(path) {
            return true;
        }
    }
    false
}

/// Whether the path is a proper prefix of one of the others.
fn is_above_one(others: &[Path], path: &Path) -> bool
    ensures { result ≡ is_above_one others.now path.now }
{
    for other in others {
        if other.starts_with(path) && path.parts() != other.parts() {
            return true;
        }
    }
    false
}

/// Whether an earlier file has the path.
fn has_earlier(earlier: &[FileLine], path: &Path) -> bool
    ensures { result ≡ has_earlier earlier.now path.now }
{
    for line in earlier {
        if line.path.parts() == path.parts() {
            return true;
        }
    }
    false
}

/// The text so many times. Its room is taken once; an empty text takes none, and no turn.
fn repeated(alloc: Global, text: &[u8], times: u32) -> Result<Bytes, NoMemory>
    ensures { IfOk result (λ bytes. bytes ≡ repeated text.now times) }
{
    if text.is_empty() {
        return Ok(Bytes::new(alloc));
    }
    let room = text.len().saturating_mul(times as usize);
    let mut bytes = Bytes::of_vec(Vec::with_capacity(alloc, room)?);
    for time in 0..times {
        bytes.append(text)?;
    }
    Ok(bytes)
}
