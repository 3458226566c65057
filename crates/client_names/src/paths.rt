ghost use Rattle.std.specs.Prelude.{◌≡◌, IfOk};
ghost use Rattle.sprite_paths.specs.Path.{clean_path};
ghost use Rattle.client_names.specs.Paths.{cleaned};

use client_file_tables::ClientFiles;
use sprite_ids::{NoMemory, Pid};
use sprite_paths::{Path, PathEnd};
use std::alloc::Global;

// The path that the text leads to from the process's working directory; None where it is a bad name. A process that has no
// working directory here begins at the root.
pub(crate) fn cleaned(
    files: &ClientFiles,
    alloc: Global,
    pid: Pid,
    text: &[u8],
) -> Result<Option<Path>, NoMemory>
    ensures { IfOk result (λ path. path ≡ cleaned pid text.now files.now) }
{
    match files.cwd(pid) {
        Some(cwd) => cleaned_at(alloc, cwd, text),
        None => cleaned_at(alloc, &Path::root(alloc), text),
    }
}

fn cleaned_at(alloc: Global, cwd: &Path, text: &[u8]) -> Result<Option<Path>, NoMemory>
    ensures { IfOk result (λ path. path ≡ clean_path cwd.now text.now) }
{
    match Path::clean(alloc, cwd, text) {
        Ok(path) => Ok(Some(path)),
        Err(PathEnd::BadName) => Ok(None),
        Err(PathEnd::NoMemory) => Err(NoMemory),
    }
}
