ghost use Rattle.std.specs.Prelude.{◌≡◌, IfOk, OnOk};
ghost use Rattle.server_kernel.specs.Names.{name_call, text_or_none, refuses_name, gives_name, names, stats, stats_node, makes_directory, removes_directory, removes_empty, lists, lists_text, changes_directory, changes_to, unlinks, unlinks_file, takes_away, takes_name, unnamed, forgets_closed, renames, renames_to, renames_here, renames_file, renames_now, refuses_apart, makes_device};

use crate::asked::{Asked, Caller};
use crate::saying::value;
use crate::server::Server;
use packet_bodies::{MakeRequest, NameOp, NameRequest, ReplyBody, ValueReply};
use process_machine::Call;
use server_names::{NameEnd, Node};
use sprite_ids::{Bytes, Copying, Errno, FileId, NoMemory, TxNo};
use sprite_paths::Path;
use std::alloc::Global;

impl Server {
    // Does a name call (Welch and Ousterhout 1986).
    pub(crate) fn name(
        &mut self,
        alloc: Global,
        asked: &Asked,
        request: &NameRequest,
    ) -> Result<(), NoMemory>
        ensures { OnOk result (self.new ≡ names asked.now request.now self.old) }
    {
        match request.op {
            NameOp::Walk => Ok(()),
            NameOp::Stat => self.stat(alloc, asked.tx, request),
            NameOp::Mkdir => self.make_directory(alloc, asked.tx, request),
            NameOp::Rmdir => self.remove_directory(alloc, asked.tx, request),
            NameOp::Unlink => self.unlink(alloc, asked, request),
            NameOp::Rename => self.rename_name(alloc, asked, request),
            NameOp::List => self.list_names(alloc, asked.tx, request),
            NameOp::Chdir => self.change_directory(alloc, asked.tx, request),
        }
    }

    // Tells what the path names, and how many entries a directory has.
    fn stat(&mut self, alloc: Global, tx: TxNo, request: &NameRequest) -> Result<(), NoMemory>
        ensures { OnOk result (self.new ≡ stats tx request.now self.old) }
    {
        match self.find(&request.path) {
            Ok(node) => self.stat_node(alloc, tx, request, node),
            Err(NameEnd::Errno(errno)) => self.refuse_name(alloc, tx, request, errno),
            Err(NameEnd::Redirect(path)) => self.answer(tx, ReplyBody::Redirect { path }),
            Err(NameEnd::NoMemory) => Err(NoMemory),
        }
    }

    fn stat_node(
        &mut self,
        alloc: Global,
        tx: TxNo,
        request: &NameRequest,
        node: Node,
    ) -> Result<(), NoMemory>
        ensures { OnOk result (self.new ≡ stats_node tx request.now node self.old) }
    {
        match node {
            Node::File(_) => self.give_name(alloc, tx, request, value(alloc, 1, 0)),
            Node::Device(_) => self.give_name(alloc, tx, request, value(alloc, 3, 0)),
            Node::Dir => match self.count(&request.path) {
                Ok(count) => self.give_name(alloc, tx, request, value(alloc, 2, count as u64)),
                Err(NameEnd::Errno(errno)) => self.refuse_name(alloc, tx, request, errno),
                Err(NameEnd::Redirect(path)) => self.answer(tx, ReplyBody::Redirect { path }),
                Err(NameEnd::NoMemory) => Err(NoMemory),
            },
        }
    }

    // Makes a directory.
    fn make_directory(
        &mut self,
        alloc: Global,
        tx: TxNo,
        request: &NameRequest,
    ) -> Result<(), NoMemory>
        ensures { OnOk result (self.new ≡ makes_directory tx request.now self.old) }
    {
        match self.make(&request.path, Node::Dir) {
            Ok(()) => self.give_name(alloc, tx, request, value(alloc, 0, 0)),
            Err(NameEnd::Errno(errno)) => self.refuse_name(alloc, tx, request, errno),
            Err(NameEnd::Redirect(path)) => self.answer(tx, ReplyBody::Redirect { path }),
            Err(NameEnd::NoMemory) => Err(NoMemory),
        }
    }

    // Takes an empty directory away. A domain's root stays.
    fn remove_directory(
        &mut self,
        alloc: Global,
        tx: TxNo,
        request: &NameRequest,
    ) -> Result<(), NoMemory>
        ensures { OnOk result (self.new ≡ removes_directory tx request.now self.old) }
    {
        if self.is_root(&request.path) {
            return self.refuse_name(alloc, tx, request, Errno::Busy);
        }
        match self.remove(&request.path, true) {
            Ok(_) => self.give_name(alloc, tx, request, value(alloc, 0, 0)),
            Err(NameEnd::Errno(errno)) => self.refuse_name(alloc, tx, request, errno),
            Err(NameEnd::Redirect(path)) => self.answer(tx, ReplyBody::Redirect { path }),
            Err(NameEnd::NoMemory) => Err(NoMemory),
        }
    }

    // Tells a directory's names.
    fn list_names(&mut self, alloc: Global, tx: TxNo, request: &NameRequest) -> Result<(), NoMemory>
        ensures { OnOk result (self.new ≡ lists tx request.now self.old) }
    {
        match self.list(alloc, &request.path) {
            Ok(text) => self.list_text(alloc, tx, request, text),
            Err(NameEnd::Errno(errno)) => self.refuse_name(alloc, tx, request, errno),
            Err(NameEnd::Redirect(path)) => self.answer(tx, ReplyBody::Redirect { path }),
            Err(NameEnd::NoMemory) => Err(NoMemory),
        }
    }

    fn list_text(
        &mut self,
        alloc: Global,
        tx: TxNo,
        request: &NameRequest,
        text: Bytes,
    ) -> Result<(), NoMemory>
        ensures { OnOk result (self.new ≡ lists_text tx request.now text self.old) }
    {
        let length = text.as_slice().len() as u64;
        if length > u64::from(request.max) {
            return self.refuse_name(alloc, tx, request, Errno::Invalid);
        }
        let value = ValueReply {
            first: length,
            second: 0,
            bytes: text,
        };
        self.give_name(alloc, tx, request, value)
    }

    // Checks a new working directory.
    fn change_directory(
        &mut self,
        alloc: Global,
        tx: TxNo,
        request: &NameRequest,
    ) -> Result<(), NoMemory>
        ensures { OnOk result (self.new ≡ changes_directory tx request.now self.old) }
    {
        match self.find(&request.path) {
            Ok(node) => self.change_to(alloc, tx, request, node),
            Err(NameEnd::Errno(errno)) => self.refuse_name(alloc, tx, request, errno),
            Err(NameEnd::Redirect(path)) => self.answer(tx, ReplyBody::Redirect { path }),
            Err(NameEnd::NoMemory) => Err(NoMemory),
        }
    }

    fn change_to(
        &mut self,
        alloc: Global,
        tx: TxNo,
        request: &NameRequest,
        node: Node,
    ) -> Result<(), NoMemory>
        ensures { OnOk result (self.new ≡ changes_to tx request.now node self.old) }
    {
        match node {
            Node::Dir => self.give_name(alloc, tx, request, value(alloc, 0, 0)),
            Node::File(_) => self.refuse_name(alloc, tx, request, Errno::NotDir),
            Node::Device(_) => self.refuse_name(alloc, tx, request, Errno::NotDir),
        }
    }

    // Takes a file's or device's name away. The name of a busy file waits: an open that waits for callbacks is entered by it.
    fn unlink(
        &mut self,
        alloc: Global,
        asked: &Asked,
        request: &NameRequest,
    ) -> Result<(), NoMemory>
        ensures { OnOk result (self.new ≡ unlinks asked.now request.now self.old) }
    {
        match self.find(&request.path) {
            Ok(Node::File(file)) => self.unlink_file(alloc, asked, request, &file),
            Ok(Node::Dir) => self.take_away(alloc, asked.tx, request),
            Ok(Node::Device(_)) => self.take_away(alloc, asked.tx, request),
            Err(NameEnd::Errno(errno)) => self.refuse_name(alloc, asked.tx, request, errno),
            Err(NameEnd::Redirect(path)) => self.answer(asked.tx, ReplyBody::Redirect { path }),
            Err(NameEnd::NoMemory) => Err(NoMemory),
        }
    }

    fn unlink_file(
        &mut self,
        alloc: Global,
        asked: &Asked,
        request: &NameRequest,
        file: &FileId,
    ) -> Result<(), NoMemory>
        ensures { OnOk result (self.new ≡ unlinks_file asked.now request.now file.now self.old) }
    {
        if self.versions.busy(*file) {
            return self.wait(alloc, asked, file);
        }
        self.take_away(alloc, asked.tx, request)
    }

    // Takes the name away, and forgets a file that nobody has open.
    fn take_away(&mut self, alloc: Global, tx: TxNo, request: &NameRequest) -> Result<(), NoMemory>
        ensures { OnOk result (self.new ≡ takes_away tx request.now self.old) }
    {
        if let Some(file) = self.take_name(alloc, tx, request)? {
            self.forget_closed(&file);
        }
        Ok(())
    }

    // What had the name has it no more, and a file is marked. Answers that file.
    fn take_name(
        &mut self,
        alloc: Global,
        tx: TxNo,
        request: &NameRequest,
    ) -> Result<Option<FileId>, NoMemory>
        ensures new { OnOk result (self.new ≡ takes_name tx request.now self.old) }
        ensures file { IfOk result (λ file. file ≡ unnamed request.now self.old) }
    {
        match self.remove(&request.path, false) {
            Ok(Node::File(file)) => {
                self.give_name(alloc, tx, request, value(alloc, 0, 0))?;
                self.mark(&file)?;
                Ok(Some(file))
            }
            Ok(Node::Dir) => {
                self.give_name(alloc, tx, request, value(alloc, 0, 0))?;
                Ok(None)
            }
            Ok(Node::Device(_)) => {
                self.give_name(alloc, tx, request, value(alloc, 0, 0))?;
                Ok(None)
            }
            Err(NameEnd::Errno(errno)) => {
                self.refuse_name(alloc, tx, request, errno)?;
                Ok(None)
            }
            Err(NameEnd::Redirect(path)) => {
                self.answer(tx, ReplyBody::Redirect { path })?;
                Ok(None)
            }
            Err(NameEnd::NoMemory) => Err(NoMemory),
        }
    }

    // Forgets the file, which has no name, where nobody has it open.
    fn forget_closed(&mut self, file: &FileId)
        ensures { self.new ≡ forgets_closed file.now self.old }
    {
        if self.versions.is_open(*file) {
            return;
        }
        self.forget(file);
    }

    // Gives a file or device another name.
    fn rename_name(
        &mut self,
        alloc: Global,
        asked: &Asked,
        request: &NameRequest,
    ) -> Result<(), NoMemory>
        ensures { OnOk result (self.new ≡ renames asked.now request.now self.old) }
    {
        match &request.second {
            Some(new) => self.rename_to(alloc, asked, request, new),
            None => Ok(()),
        }
    }

    fn rename_to(
        &mut self,
        alloc: Global,
        asked: &Asked,
        request: &NameRequest,
        new: &Path,
    ) -> Result<(), NoMemory>
        ensures { OnOk result (self.new ≡ renames_to asked.now request.now new.now self.old) }
    {
        if self.are_apart(&request.path, new) {
            return self.refuse_apart(alloc, asked.tx, request);
        }
        self.rename_here(alloc, asked, request, new)
    }

    // Names in two domains: no rename, unless the old name isn't in this domain at all.
    fn refuse_apart(
        &mut self,
        alloc: Global,
        tx: TxNo,
        request: &NameRequest,
    ) -> Result<(), NoMemory>
        ensures { OnOk result (self.new ≡ refuses_apart tx request.now self.old) }
    {
        match self.find(&request.path) {
            Ok(_) => self.refuse_name(alloc, tx, request, Errno::XDev),
            Err(NameEnd::Errno(_)) => self.refuse_name(alloc, tx, request, Errno::XDev),
            Err(NameEnd::Redirect(path)) => self.answer(tx, ReplyBody::Redirect { path }),
            Err(NameEnd::NoMemory) => Err(NoMemory),
        }
    }

    // The name of a busy file waits, as in `unlink`.
    fn rename_here(
        &mut self,
        alloc: Global,
        asked: &Asked,
        request: &NameRequest,
        new: &Path,
    ) -> Result<(), NoMemory>
        ensures { OnOk result (self.new ≡ renames_here asked.now request.now new.now self.old) }
    {
        match self.find(&request.path) {
            Ok(Node::File(file)) => self.rename_file(alloc, asked, request, new, &file),
            Ok(Node::Dir) => self.rename_now(alloc, asked.tx, request, new),
            Ok(Node::Device(_)) => self.rename_now(alloc, asked.tx, request, new),
            Err(NameEnd::Errno(errno)) => self.refuse_name(alloc, asked.tx, request, errno),
            Err(NameEnd::Redirect(path)) => self.answer(asked.tx, ReplyBody::Redirect { path }),
            Err(NameEnd::NoMemory) => Err(NoMemory),
        }
    }

    fn rename_file(
        &mut self,
        alloc: Global,
        asked: &Asked,
        request: &NameRequest,
        new: &Path,
        file: &FileId,
    ) -> Result<(), NoMemory>
        ensures { OnOk result (self.new ≡ renames_file asked.now request.now new.now file.now self.old) }
    {
        if self.versions.busy(*file) {
            return self.wait(alloc, asked, file);
        }
        self.rename_now(alloc, asked.tx, request, new)
    }

    fn rename_now(
        &mut self,
        alloc: Global,
        tx: TxNo,
        request: &NameRequest,
        new: &Path,
    ) -> Result<(), NoMemory>
        ensures { OnOk result (self.new ≡ renames_now tx request.now new.now self.old) }
    {
        match self.rename(&request.path, new) {
            Ok(()) => self.give_name(alloc, tx, request, value(alloc, 0, 0)),
            Err(NameEnd::Errno(errno)) => self.refuse_name(alloc, tx, request, errno),
            Err(NameEnd::Redirect(path)) => self.answer(tx, ReplyBody::Redirect { path }),
            Err(NameEnd::NoMemory) => Err(NoMemory),
        }
    }

    // The name call gives this value.
    fn give_name(
        &mut self,
        alloc: Global,
        tx: TxNo,
        request: &NameRequest,
        value: ValueReply,
    ) -> Result<(), NoMemory>
        ensures { OnOk result (self.new ≡ gives_name tx request.now value self.old) }
    {
        let call = call_of(alloc, request)?;
        let caller = Caller {
            tx,
            pid: request.pid,
            number: request.number,
        };
        self.give(alloc, &caller, call, value)
    }

    // The name call is refused.
    fn refuse_name(
        &mut self,
        alloc: Global,
        tx: TxNo,
        request: &NameRequest,
        errno: Errno,
    ) -> Result<(), NoMemory>
        ensures { OnOk result (self.new ≡ refuses_name tx request.now errno self.old) }
    {
        let call = call_of(alloc, request)?;
        let caller = Caller {
            tx,
            pid: request.pid,
            number: request.number,
        };
        self.refuse(&caller, call, errno)
    }
}

// The call that the request carries. Nobody asks for a walk alone.
fn call_of(alloc: Global, request: &NameRequest) -> Result<Call, NoMemory>
    ensures { IfOk result (λ call. call ≡ name_call request.now) }
{
    let path = request.text.copy(alloc)?;
    match request.op {
        NameOp::Walk => Ok(Call::Stat { path }),
        NameOp::Stat => Ok(Call::Stat { path }),
        NameOp::Mkdir => Ok(Call::Mkdir { path }),
        NameOp::Rmdir => Ok(Call::Rmdir { path }),
        NameOp::Unlink => Ok(Call::Unlink { path }),
        NameOp::Rename => {
            let new = second_text(alloc, request)?;
            Ok(Call::Rename { old: path, new })
        }
        NameOp::List => {
            let max = u64::from(request.max);
            Ok(Call::List { path, max })
        }
        NameOp::Chdir => Ok(Call::Chdir { path }),
    }
}

// The text of a rename's new path.
fn second_text(alloc: Global, request: &NameRequest) -> Result<Bytes, NoMemory>
    ensures { IfOk result (λ text. text ≡ text_or_none request.now.second_text) }
{
    match &request.second_text {
        Some(text) => text.copy(alloc),
        None => Ok(Bytes::new(alloc)),
    }
}
