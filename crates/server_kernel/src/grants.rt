ghost use Rattle.std.specs.Prelude.{◌≡◌, IfOk, OnOk};
ghost use Rattle.server_kernel.specs.Grants.{about_of, callback_sending, sends_callback, calls_one, calls_all, asks, calls_first, cuts, notes_opened, notes_closed, grants_sized, grants_open, shares_first, keeps_offset, counts_grant, joins_shared, shares, moved_sized, grants_move, leaves_source, grants, decides};
ghost use Rattle.version_table.specs.Modes.{mode_of_grant};

use crate::asked::{Asked, CallOut};
use crate::files::repeated;
use crate::flags::{TRUNCATE, has};
use crate::server::Server;
use kernel_steps::Sending;
use packet_bodies::{
    CallbackRequest, MoveRequest, OpenedReply, OpeningRequest, ReplyBody, Request, Target,
};
use sprite_ids::{
    CacheMode, Callback, Copying, FileId, Grant, Items, Kernel, Mode, NoMemory, StreamNo, Tries,
    TxNo,
};
use std::alloc::Global;
use unix_calls::{About, Event, SendKind};
use version_table::{Action, Decision};

impl Server {
    // Decides on an open or a move: it waits where the file is busy, it is granted, or callbacks go first (Nelson, Welch and
    // Ousterhout 1988). Where a counter of the file has come to its limit, the answer is want of memory.
    pub(crate) fn decide(
        &mut self,
        alloc: Global,
        asked: &Asked,
        file: &FileId,
        action: &Action,
    ) -> Result<(), NoMemory>
        ensures { OnOk result (self.new ≡ decides asked.now file.now action.now self.old) }
    {
        if self.versions.busy(*file) {
            return self.wait(alloc, asked, file);
        }
        if !self.versions.room(*file) {
            return Err(NoMemory);
        }
        match self.versions.decide(*file, *action)? {
            Decision::Grant(grant) => self.grant(alloc, asked, file, &grant),
            Decision::CallFirst(calls) => self.call_first(alloc, asked, file, calls.as_slice()),
        }
    }

    // Keeps the request, and calls the kernels back.
    fn call_first(
        &mut self,
        alloc: Global,
        asked: &Asked,
        file: &FileId,
        calls: &[Callback],
    ) -> Result<(), NoMemory>
        ensures { OnOk result (self.new ≡ calls_first asked.now file.now calls.now self.old) }
    {
        self.ask(alloc, asked, file)?;
        self.call_all(alloc, asked, calls)
    }

    // Keeps the open or move until the callbacks are answered.
    fn ask(&mut self, alloc: Global, asked: &Asked, file: &FileId) -> Result<(), NoMemory>
        ensures { OnOk result (self.new ≡ asks asked.now file.now self.old) }
    {
        self.asking.push(*file, asked.copy(alloc)?)
    }

    // Calls the kernels back.
    fn call_all(&mut self, alloc: Global, asked: &Asked, calls: &[Callback]) -> Result<(), NoMemory>
        ensures { OnOk result (self.new ≡ calls_all asked.now calls.now self.old) }
    {
        for call in calls {
            self.call(alloc, asked, call)?;
        }
        Ok(())
    }

    // Calls one kernel back, about the open that asks.
    fn call(&mut self, alloc: Global, asked: &Asked, call: &Callback) -> Result<(), NoMemory>
        ensures { OnOk result (self.new ≡ calls_one asked.now call.now self.old) }
    {
        self.note(Event::Callback {
            file: call.file,
            to: call.to,
            stamp: call.stamp,
            kind: call.kind,
        })?;
        let tx = self.send_callback(alloc, asked, call)?;
        let out = CallOut {
            file: call.file,
            kernel: call.to,
        };
        self.callbacks.push(tx, out)
    }

    fn send_callback(
        &mut self,
        alloc: Global,
        asked: &Asked,
        call: &Callback,
    ) -> Result<TxNo, NoMemory>
        ensures number { IfOk result (λ tx. tx ≡ self.old.out.next) }
        ensures ok { OnOk result (self.new ≡ sends_callback asked.now call.now self.old) }
    {
        let sending = callback_sending(alloc, asked, call)?;
        self.out.send(alloc, sending, SendKind::Other)
    }

    // Gives the grant to the open or move that asked for it.
    pub(crate) fn grant(
        &mut self,
        alloc: Global,
        asked: &Asked,
        file: &FileId,
        grant: &Grant,
    ) -> Result<(), NoMemory>
        ensures { OnOk result (self.new ≡ grants asked.now file.now grant.now self.old) }
    {
        match &asked.body {
            Request::Opening(request) => self.grant_open(alloc, asked, request, file, grant),
            Request::Move(request) => self.grant_move(alloc, asked, request, file, grant),
            _ => Ok(()),
        }
    }

    // Grants an open: the file is emptied where that is asked for, and the grant has the size after that.
    fn grant_open(
        &mut self,
        alloc: Global,
        asked: &Asked,
        request: &OpeningRequest,
        file: &FileId,
        grant: &Grant,
    ) -> Result<(), NoMemory>
        ensures { OnOk result (self.new ≡ grants_open asked.now request.now file.now grant.now self.old) }
    {
        self.cut(request.flags, file);
        let grant = self.sized(file, grant);
        self.grant_sized(alloc, asked, request, file, &grant)
    }

    fn cut(&mut self, flags: u8, file: &FileId)
        ensures { self.new ≡ cuts flags file.now self.old }
    {
        if has(flags, TRUNCATE) {
            self.empty(file);
        }
    }

    fn grant_sized(
        &mut self,
        alloc: Global,
        asked: &Asked,
        request: &OpeningRequest,
        file: &FileId,
        grant: &Grant,
    ) -> Result<(), NoMemory>
        ensures { OnOk result (self.new ≡ grants_sized asked.now request.now file.now grant.now self.old) }
    {
        self.note_opened(file, &request.stream, asked.from, grant)?;
        self.give_open(alloc, asked.tx, request)?;
        let opened = OpenedReply {
            object: Target::File(*file),
            grant: Some(*grant),
            size: grant.size,
        };
        self.answer(asked.tx, ReplyBody::Opened(opened))
    }

    // Grants a move.
    fn grant_move(
        &mut self,
        alloc: Global,
        asked: &Asked,
        request: &MoveRequest,
        file: &FileId,
        grant: &Grant,
    ) -> Result<(), NoMemory>
        ensures { OnOk result (self.new ≡ grants_move asked.now request.now file.now grant.now self.old) }
    {
        self.share(alloc, asked, request, file)?;
        let grant = self.sized(file, grant);
        self.move_sized(asked, request, file, &grant)
    }

    fn move_sized(
        &mut self,
        asked: &Asked,
        request: &MoveRequest,
        file: &FileId,
        grant: &Grant,
    ) -> Result<(), NoMemory>
        ensures { OnOk result (self.new ≡ moved_sized asked.now request.now file.now grant.now self.old) }
    {
        self.note_opened(file, &request.stream, request.to, grant)?;
        self.leave_source(asked, request, file)?;
        let moved = ReplyBody::Moved {
            grant: Some(*grant),
            grants: 1,
        };
        self.answer(asked.tx, moved)
    }

    // Notes that the source has closed the stream, where it has none of it left.
    fn leave_source(
        &mut self,
        asked: &Asked,
        request: &MoveRequest,
        file: &FileId,
    ) -> Result<(), NoMemory>
        ensures { OnOk result (self.new ≡ leaves_source asked.now request.now file.now self.old) }
    {
        let mode = self.mode_of(file, &request.stream);
        self.note_closed(file, &request.stream, asked.from, mode)
    }

    // Counts the moved stream's grants where its offset is here, and takes its offset where references stay at the source
    // (Douglis and Ousterhout 1991).
    fn share(
        &mut self,
        alloc: Global,
        asked: &Asked,
        request: &MoveRequest,
        file: &FileId,
    ) -> Result<(), NoMemory>
        ensures { OnOk result (self.new ≡ shares asked.now request.now file.now self.old) }
    {
        if self.shadows.offset(request.stream).is_some() {
            return self.join_shared(asked, request);
        }
        if !request.kept {
            return Ok(());
        }
        self.share_first(alloc, asked, request, file)
    }

    // One grant of the shared stream more for the target, and fewer for a source where no reference stays.
    fn join_shared(&mut self, asked: &Asked, request: &MoveRequest) -> Result<(), NoMemory>
        ensures { OnOk result (self.new ≡ joins_shared asked.now request.now self.old) }
    {
        self.count_grant(request)?;
        if request.kept {
            return Ok(());
        }
        self.shadows
            .close(request.stream, asked.from, request.grants);
        Ok(())
    }

    // The stream becomes shared: its offset is here from now on.
    fn share_first(
        &mut self,
        alloc: Global,
        asked: &Asked,
        request: &MoveRequest,
        file: &FileId,
    ) -> Result<(), NoMemory>
        ensures { OnOk result (self.new ≡ shares_first asked.now request.now file.now self.old) }
    {
        self.keep_offset(alloc, asked, request, file)?;
        self.count_grant(request)?;
        self.note(Event::Shared {
            file: *file,
            stream: request.stream,
        })
    }

    fn keep_offset(
        &mut self,
        alloc: Global,
        asked: &Asked,
        request: &MoveRequest,
        file: &FileId,
    ) -> Result<(), NoMemory>
        ensures { OnOk result (self.new ≡ keeps_offset asked.now request.now file.now self.old) }
    {
        let count = self.versions.count(*file, request.stream, asked.from);
        let kernels = repeated(alloc, asked.from, count)?;
        let offset = match request.offset {
            Some(offset) => offset,
            None => 0,
        };
        self.shadows
            .share(request.stream, offset, kernels.as_slice())
    }

    // One grant of the shared stream more for the target. Where a count has come to its limit, the answer is want of memory.
    fn count_grant(&mut self, request: &MoveRequest) -> Result<(), NoMemory>
        ensures { OnOk result (self.new ≡ counts_grant request.now self.old) }
    {
        if !self.shadows.room() {
            return Err(NoMemory);
        }
        self.shadows.grant(request.stream, request.to);
        Ok(())
    }

    // Notes the grant, and that the kernel has the stream open.
    fn note_opened(
        &mut self,
        file: &FileId,
        stream: &StreamNo,
        to: Kernel,
        grant: &Grant,
    ) -> Result<(), NoMemory>
        ensures { OnOk result (self.new ≡ notes_opened file.now stream.now to grant.now self.old) }
    {
        self.note(Event::Grant {
            file: *file,
            to,
            stamp: grant.stamp,
            mode: mode_of_grant(grant.on),
        })?;
        let mode = self.mode_of(file, stream);
        self.note(Event::Opened {
            file: *file,
            stream: *stream,
            kernel: to,
            mode,
        })
    }

    // Notes that the kernel has closed the stream, where it has no grant of it left.
    pub(crate) fn note_closed(
        &mut self,
        file: &FileId,
        stream: &StreamNo,
        kernel: Kernel,
        mode: Mode,
    ) -> Result<(), NoMemory>
        ensures { OnOk result (self.new ≡ notes_closed file.now stream.now kernel mode self.old) }
    {
        if self.versions.count(*file, *stream, kernel) > 0 {
            return Ok(());
        }
        self.note(Event::Closed {
            file: *file,
            stream: *stream,
            kernel,
            mode,
        })
    }
}

// The mode of a grant.
fn mode_of_grant(on: bool) -> CacheMode
    ensures { result ≡ mode_of_grant on }
{
    if on { CacheMode::On } else { CacheMode::Off }
}

// The remote call of a callback: for the sake of the open that asks; a move has no call.
fn callback_sending(alloc: Global, asked: &Asked, call: &Callback) -> Result<Sending, NoMemory>
    ensures { IfOk result (λ sending. sending ≡ callback_sending asked.now call.now) }
{
    let mut to = Items::new(alloc);
    to.push(call.to)?;
    let request = CallbackRequest {
        file: call.file,
        stamp: call.stamp,
        kind: call.kind,
    };
    Ok(Sending {
        to,
        tries: Tries::Always,
        about: about_of(&asked.body),
        body: Request::Callback(request),
    })
}

// The call that a request carries.
fn about_of(request: &Request) -> Option<About>
    ensures { result ≡ about_of request.now }
{
    match request.about() {
        Some((pid, number)) => Some(About { pid, number }),
        None => None,
    }
}
