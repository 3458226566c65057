ghost use Rattle.std.specs.Prelude.{◌≡◌, IsTrue, IfOk, OnOk, OnErr, IsOk, Some, None, false, option_copied};
ghost use Rattle.std.specs.Map.{lookup};
ghost use Rattle.version_table.specs.Files.{fresh, is_busy, is_ready, is_roomy, decided, answered, is_last, settled, settled_grant, is_closed, IsPrepared};
ghost use Rattle.version_table.specs.Decisions.{decision_of};
ghost use Rattle.version_table.specs.Versions.{files_in, is_file, file_of, with_file, with_closed, forgotten};

use crate::action::{Action, Decision};
use crate::versioned::Versioned;
use lru::LruCache;
use sprite_ids::{FileId, Grant, Kernel, NoMemory, StreamNo};
use std::alloc::Global;

// What is kept of the file.
pub(crate) fn find<'a>(
    files: &'a Option<LruCache<FileId, Versioned>>,
    file: &FileId,
) -> Option<&'a Versioned>
    ensures { option_copied result ≡ lookup (is_file file.now) (files_in files.now) }
{
    match files {
        Some(list) => list.peek(file),
        None => None,
    }
}

// Decides on an open or a move of the file.
pub(crate) fn decide(
    files: &mut Option<LruCache<FileId, Versioned>>,
    alloc: Global,
    cached: bool,
    file: &FileId,
    action: &Action,
) -> Result<Decision, NoMemory>
    requires { IsTrue (is_roomy (file_of (files_in files.old) file.now)) }
    ensures ok { OnOk result (files_in files.new ≡ with_file (files_in files.old) file.now (decided cached (file_of (files_in files.old) file.now) action.now)) }
    ensures decision { IfOk result (λ decision. decision ≡ decision_of cached (file_of (files_in files.old) file.now) action.now) }
    ensures err { OnErr result (files_in files.new ≡ files_in files.old) }
{
    match files {
        Some(list) => decide_in(list, alloc, cached, file, action),
        None => begin(files, alloc, cached, file, action),
    }
}

// Decides on the first open of the first file.
fn begin(
    files: &mut Option<LruCache<FileId, Versioned>>,
    alloc: Global,
    cached: bool,
    file: &FileId,
    action: &Action,
) -> Result<Decision, NoMemory>
    requires { files.old ≡ None }
    ensures ok { OnOk result (files_in files.new ≡ with_file (files_in files.old) file.now (decided cached (fresh file.now) action.now)) }
    ensures decision { IfOk result (λ decision. decision ≡ decision_of cached (fresh file.now) action.now) }
    ensures err { OnErr result (files_in files.new ≡ files_in files.old) }
{
    let mut list = LruCache::unbounded(alloc)?;
    let decision = decide_first(&mut list, alloc, cached, file, action)?;
    *files = Some(list);
    Ok(decision)
}

// Decides on an open or a move of the file, where there are others.
fn decide_in(
    list: &mut LruCache<FileId, Versioned>,
    alloc: Global,
    cached: bool,
    file: &FileId,
    action: &Action,
) -> Result<Decision, NoMemory>
    requires { IsTrue (is_roomy (file_of list.old.entries file.now)) }
    ensures ok { OnOk result (list.new.entries ≡ with_file list.old.entries file.now (decided cached (file_of list.old.entries file.now) action.now)) }
    ensures decision { IfOk result (λ decision. decision ≡ decision_of cached (file_of list.old.entries file.now) action.now) }
    ensures err { OnErr result (list.new.entries ≡ list.old.entries) }
{
    match list.peek_mut(file) {
        Some(versioned) => versioned.decide(alloc, cached, action),
        None => decide_first(list, alloc, cached, file, action),
    }
}

// Decides on the first open of a file.
fn decide_first(
    list: &mut LruCache<FileId, Versioned>,
    alloc: Global,
    cached: bool,
    file: &FileId,
    action: &Action,
) -> Result<Decision, NoMemory>
    requires { lookup (is_file file.now) list.old.entries ≡ None }
    ensures ok { OnOk result (list.new.entries ≡ with_file list.old.entries file.now (decided cached (fresh file.now) action.now)) }
    ensures decision { IfOk result (λ decision. decision ≡ decision_of cached (fresh file.now) action.now) }
    ensures err { OnErr result (list.new.entries ≡ list.old.entries) }
{
    let mut first = Versioned::fresh(alloc, file);
    let decision = first.decide(alloc, cached, action)?;
    append(list, file, first)?;
    Ok(decision)
}

// Puts in a file that isn't there, behind the others.
fn append(
    list: &mut LruCache<FileId, Versioned>,
    file: &FileId,
    versioned: Versioned,
) -> Result<(), NoMemory>
    requires { lookup (is_file file.now) list.old.entries ≡ None }
    ensures ok { OnOk result (list.new.entries ≡ with_file list.old.entries file.now versioned) }
    ensures err { OnErr result (list.new.entries ≡ list.old.entries) }
{
    if list.len() >= list.cap().get() {
        return Err(NoMemory);
    }
    list.put(*file, versioned)?;
    list.demote(file);
    Ok(())
}

// The kernel's answer to a callback came.
pub(crate) fn answer(
    files: &mut Option<LruCache<FileId, Versioned>>,
    file: &FileId,
    kernel: Kernel,
) -> bool
    requires { IsTrue (is_busy (file_of (files_in files.old) file.now)) }
    ensures files { files_in files.new ≡ with_file (files_in files.old) file.now (answered (file_of (files_in files.old) file.now) kernel) }
    ensures last { result ≡ is_last (file_of (files_in files.old) file.now) kernel }
{
    match files {
        Some(list) => answer_in(list, file, kernel),
        None => false,
    }
}

// The kernel's answer to a callback came, where there are files.
fn answer_in(list: &mut LruCache<FileId, Versioned>, file: &FileId, kernel: Kernel) -> bool
    requires { IsTrue (is_busy (file_of list.old.entries file.now)) }
    ensures files { list.new.entries ≡ with_file list.old.entries file.now (answered (file_of list.old.entries file.now) kernel) }
    ensures last { result ≡ is_last (file_of list.old.entries file.now) kernel }
{
    match list.peek_mut(file) {
        Some(versioned) => versioned.answer(kernel),
        None => false,
    }
}

// Grants what waits.
pub(crate) fn settle(files: &mut Option<LruCache<FileId, Versioned>>, file: &FileId) -> Grant
    requires ready { IsTrue (is_ready (file_of (files_in files.old) file.now)) }
    requires prepared { IsPrepared (file_of (files_in files.old) file.now) }
    ensures files { files_in files.new ≡ with_file (files_in files.old) file.now (settled (file_of (files_in files.old) file.now)) }
    ensures grant { settled_grant (file_of (files_in files.old) file.now) ≡ Some result }
{
    match files {
        Some(list) => settle_in(list, file),
        None => unreachable!(),
    }
}

// Grants what waits, where there are files.
fn settle_in(list: &mut LruCache<FileId, Versioned>, file: &FileId) -> Grant
    requires ready { IsTrue (is_ready (file_of list.old.entries file.now)) }
    requires prepared { IsPrepared (file_of list.old.entries file.now) }
    ensures files { list.new.entries ≡ with_file list.old.entries file.now (settled (file_of list.old.entries file.now)) }
    ensures grant { settled_grant (file_of list.old.entries file.now) ≡ Some result }
{
    match list.peek_mut(file) {
        Some(versioned) => versioned.settle(),
        None => unreachable!(),
    }
}

// Takes grants of the stream off the kernel, and tells whether no kernel has the file open any more.
pub(crate) fn close(
    files: &mut Option<LruCache<FileId, Versioned>>,
    file: &FileId,
    kernel: Kernel,
    stream: &StreamNo,
    grants: u32,
) -> bool
    ensures files { files_in files.new ≡ with_closed (files_in files.old) file.now kernel stream.now grants }
    ensures last { result ≡ is_closed (file_of (files_in files.old) file.now) kernel stream.now grants }
{
    match files {
        Some(list) => close_in(list, file, kernel, stream, grants),
        None => true,
    }
}

// The same where there are files.
fn close_in(
    list: &mut LruCache<FileId, Versioned>,
    file: &FileId,
    kernel: Kernel,
    stream: &StreamNo,
    grants: u32,
) -> bool
    ensures files { list.new.entries ≡ with_closed list.old.entries file.now kernel stream.now grants }
    ensures last { result ≡ is_closed (file_of list.old.entries file.now) kernel stream.now grants }
{
    match list.peek_mut(file) {
        Some(versioned) => versioned.close(kernel, stream, grants),
        None => true,
    }
}

// Drops what is kept of the file.
pub(crate) fn forget(files: &mut Option<LruCache<FileId, Versioned>>, file: &FileId)
    ensures { files_in files.new ≡ forgotten (files_in files.old) file.now }
{
    if let Some(list) = files {
        list.pop(file);
    }
}
