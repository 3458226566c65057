use link_plan::Plan;
use sprite_ids::{Bytes, Items, NoMemory};
use sprite_paths::Path;
use std::alloc::Global;
use unix_calls::{Description, FileLine, KernelLine};

/// The path of that text.
pub(crate) fn path(alloc: Global, text: &[u8]) -> Result<Path, NoMemory> {
    Path::clean(alloc, &Path::root(alloc), text).or(Err(NoMemory))
}

fn paths(alloc: Global, texts: &[&'static [u8]]) -> Result<Items<Path>, NoMemory> {
    let mut paths = Items::new(alloc);
    for text in texts {
        paths.push(path(alloc, text)?)?;
    }
    Ok(paths)
}

// A kernel that serves these domains.
fn line(alloc: Global, texts: &[&'static [u8]]) -> Result<KernelLine, NoMemory> {
    let name = Bytes::of_slice(alloc, b"k")?;
    let serves = paths(alloc, texts)?;
    Ok(KernelLine { name, serves })
}

// What the kernels serve: 1 to 14 are clients, 15 serves `/m`, and 16 serves `/` and `/d`.
static SERVED: [&[&[u8]]; 16] = [
    &[],
    &[],
    &[],
    &[],
    &[],
    &[],
    &[],
    &[],
    &[],
    &[],
    &[],
    &[],
    &[],
    &[],
    &[b"/m"],
    &[b"/", b"/d"],
];

fn kernels(alloc: Global) -> Result<Items<KernelLine>, NoMemory> {
    let mut lines = Items::new(alloc);
    for texts in SERVED.iter() {
        lines.push(line(alloc, *texts)?)?;
    }
    Ok(lines)
}

/// A cluster of these kernels that begins with these files.
pub(crate) fn described(alloc: Global, files: Items<FileLine>) -> Result<Description, NoMemory> {
    Ok(Description {
        version: 1,
        budget: 100,
        cache: 32,
        kernels: kernels(alloc)?,
        programs: Items::new(alloc),
        starts: Items::new(alloc),
        files,
        plan: Plan {
            entries: Items::new(alloc),
        },
        evicts: Items::new(alloc),
    })
}

/// A line of a file.
pub(crate) fn file_line(
    alloc: Global,
    text: &[u8],
    bytes: &[u8],
    append: bool,
) -> Result<FileLine, NoMemory> {
    let path = path(alloc, text)?;
    let bytes = Bytes::of_slice(alloc, bytes)?;
    Ok(FileLine {
        path,
        bytes,
        append,
    })
}
