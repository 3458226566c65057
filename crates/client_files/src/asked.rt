ghost use Rattle.std.specs.Prelude.{◌≡◌, OnOk};
ghost use Rattle.client_files.specs.Asked.{answers_name, finds_server, ends_asked, opens_answered, takes_some};

use client_data::take_grant;
use client_file_tables::{ClientFiles, NameCall, NameState, NameWork};
use client_names::{ask, end_opened, end_refused, end_value, learn, look_up, redirect};
use packet_bodies::{OpenedReply, ReplyBody};
use sprite_ids::{Copying, Grant, Kernel, NoMemory, Pid};
use sprite_paths::Path;
use std::alloc::Global;

// A broadcast, an echo or a request of a name call was answered by that kernel (Welch and Ousterhout 1986).
pub(crate) fn answer_name(
    files: &mut ClientFiles,
    alloc: Global,
    pid: Pid,
    call: NameCall,
    from: Kernel,
    body: &ReplyBody,
) -> Result<(), NoMemory>
    ensures { OnOk result (files.new ≡ answers_name pid call from body.now files.old) }
{
    let NameCall { work, state } = call;
    match state {
        NameState::Broadcasting { prefix, .. } => {
            find_server(files, alloc, pid, work, prefix, from)
        }
        NameState::Echoing { server, .. } => ask(files, alloc, pid, work, server),
        NameState::Asking { .. } => end_asked(files, alloc, pid, work, body),
    }
}

// The server of the prefix is learned, and the path is looked up anew.
fn find_server(
    files: &mut ClientFiles,
    alloc: Global,
    pid: Pid,
    work: NameWork,
    prefix: Path,
    server: Kernel,
) -> Result<(), NoMemory>
    ensures { OnOk result (files.new ≡ finds_server pid work prefix server files.old) }
{
    learn(files, alloc, prefix, server)?;
    look_up(files, alloc, pid, work)
}

// The request was answered: but for a redirection the call ends. No other bodies answer it.
fn end_asked(
    files: &mut ClientFiles,
    alloc: Global,
    pid: Pid,
    work: NameWork,
    body: &ReplyBody,
) -> Result<(), NoMemory>
    ensures { OnOk result (files.new ≡ ends_asked pid work body.now files.old) }
{
    match body {
        ReplyBody::Refused { errno } => end_refused(files, pid, *errno),
        ReplyBody::Redirect { path } => {
            let prefix = path.copy(alloc)?;
            redirect(files, alloc, pid, work, prefix)
        }
        ReplyBody::Opened(opened) => open_answered(files, alloc, pid, &work, opened),
        ReplyBody::Value(value) => {
            let value = value.copy(alloc)?;
            end_value(files, alloc, pid, work, value)
        }
        _ => Ok(()),
    }
}

// An open was answered: its grant is taken, and then the stream is there.
fn open_answered(
    files: &mut ClientFiles,
    alloc: Global,
    pid: Pid,
    work: &NameWork,
    opened: &OpenedReply,
) -> Result<(), NoMemory>
    ensures { OnOk result (files.new ≡ opens_answered pid work.now opened.now files.old) }
{
    take_some(files, &opened.grant)?;
    end_opened(files, alloc, pid, work, opened)
}

// Takes a grant, where there is one.
pub(crate) fn take_some(files: &mut ClientFiles, grant: &Option<Grant>) -> Result<(), NoMemory>
    ensures { OnOk result (files.new ≡ takes_some grant.now files.old) }
{
    match grant {
        Some(grant) => take_grant(files, grant),
        None => Ok(()),
    }
}
