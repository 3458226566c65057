ghost use Rattle.std.specs.Prelude.{◌≡◌, IfOk, Some};
ghost use Rattle.client_names.specs.Requests.{text_of, second_text_of, request_of, broadcast_of};

use client_file_tables::{ClientFiles, NameKind, NameWork, about};
use kernel_steps::Sending;
use packet_bodies::{MakeRequest, NameRequest, OpeningRequest, Request};
use process_machine::Call;
use sprite_ids::{Bytes, Copying, NoMemory, Pid, Tries};
use sprite_paths::Path;
use std::alloc::Global;

// What is asked of the server.
pub(crate) fn request_of(alloc: Global, pid: Pid, work: &NameWork) -> Result<Request, NoMemory>
    ensures { IfOk result (λ request. request ≡ request_of pid work.now) }
{
    let path = work.path.copy(alloc)?;
    let text = text_of(alloc, &work.call)?;
    match &work.kind {
        NameKind::Open { flags, stream, fd } => Ok(Request::Opening(OpeningRequest {
            pid,
            number: work.number,
            stream: *stream,
            path,
            flags: *flags,
            fd: *fd,
            text,
        })),
        NameKind::Make { device, stream, fd } => Ok(Request::Make(MakeRequest {
            pid,
            number: work.number,
            stream: *stream,
            path,
            device: *device,
            fd: *fd,
            text,
        })),
        NameKind::Name { op, second, max } => Ok(Request::Name(NameRequest {
            pid,
            number: work.number,
            op: *op,
            path,
            second: second.copy(alloc)?,
            max: *max,
            text,
            second_text: second_text_of(alloc, &work.call)?,
        })),
    }
}

// The question who serves the prefix.
pub(crate) fn broadcast_of(
    files: &ClientFiles,
    alloc: Global,
    pid: Pid,
    work: &NameWork,
    prefix: &Path,
) -> Result<Sending, NoMemory>
    ensures { IfOk result (λ sending. sending ≡ broadcast_of pid work.now prefix.now files.now) }
{
    Ok(Sending {
        to: files.servers.copy(alloc)?,
        tries: Tries::Eight,
        about: Some(about(pid, work.number)),
        body: Request::Prefix {
            path: prefix.copy(alloc)?,
        },
    })
}

// The path text of a name call, as the process gave it; of a rename the old one.
fn text_of(alloc: Global, call: &Call) -> Result<Bytes, NoMemory>
    ensures { IfOk result (λ text. text ≡ text_of call.now) }
{
    match call {
        Call::OpenFile { path, .. } => path.copy(alloc),
        Call::PdMake { path } => path.copy(alloc),
        Call::Stat { path } => path.copy(alloc),
        Call::Mkdir { path } => path.copy(alloc),
        Call::Rmdir { path } => path.copy(alloc),
        Call::Unlink { path } => path.copy(alloc),
        Call::Rename { old, .. } => old.copy(alloc),
        Call::List { path, .. } => path.copy(alloc),
        Call::Chdir { path } => path.copy(alloc),
        _ => Ok(Bytes::new(alloc)),
    }
}

// The text of a rename's new path.
fn second_text_of(alloc: Global, call: &Call) -> Result<Option<Bytes>, NoMemory>
    ensures { IfOk result (λ text. text ≡ second_text_of call.now) }
{
    match call {
        Call::Rename { new, .. } => Ok(Some(new.copy(alloc)?)),
        _ => Ok(None),
    }
}
