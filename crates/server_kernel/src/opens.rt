ghost use Rattle.std.specs.Prelude.{◌≡◌, IfOk, OnOk};
ghost use Rattle.server_kernel.specs.OpenCalls.{open_call, open_caller, gives_open};
ghost use Rattle.server_kernel.specs.Opens.{refuses_open, opens, opens_for, opens_absent, creates_file, opens_made, counts_file, opens_node, opens_device, opening_of, opens_file, new_file, is_no_entry};

use crate::asked::{Asked, Caller};
use crate::flags::{CREATE, TRUNCATE, has, opening_mode};
use crate::server::Server;
use packet_bodies::{OpenedReply, OpeningRequest, ReplyBody, Target};
use process_machine::{Call, Reply};
use server_names::{NameEnd, Node};
use sprite_ids::{Bytes, Copying, DeviceId, Errno, FileId, Kernel, Mode, NoMemory, TxNo};
use std::alloc::Global;
use version_table::Action;

impl Server {
    // Opens a path (Nelson, Welch and Ousterhout 1988).
    pub(crate) fn open(
        &mut self,
        alloc: Global,
        asked: &Asked,
        request: &OpeningRequest,
    ) -> Result<(), NoMemory>
        ensures { OnOk result (self.new ≡ opens asked.now request.now self.old) }
    {
        match opening_mode(request.flags) {
            Some(mode) => self.open_for(alloc, asked, request, mode),
            None => self.refuse_open(alloc, asked.tx, request, Errno::Invalid),
        }
    }

    fn open_for(
        &mut self,
        alloc: Global,
        asked: &Asked,
        request: &OpeningRequest,
        mode: Mode,
    ) -> Result<(), NoMemory>
        ensures { OnOk result (self.new ≡ opens_for asked.now request.now mode self.old) }
    {
        match self.find(&request.path) {
            Ok(node) => self.open_node(alloc, asked, request, mode, node),
            Err(NameEnd::Errno(errno)) => self.open_absent(alloc, asked, request, mode, errno),
            Err(NameEnd::Redirect(path)) => self.answer(asked.tx, ReplyBody::Redirect { path }),
            Err(NameEnd::NoMemory) => Err(NoMemory),
        }
    }

    // Nothing has that name: a file is made where that is asked for.
    fn open_absent(
        &mut self,
        alloc: Global,
        asked: &Asked,
        request: &OpeningRequest,
        mode: Mode,
        errno: Errno,
    ) -> Result<(), NoMemory>
        ensures { OnOk result (self.new ≡ opens_absent asked.now request.now mode errno self.old) }
    {
        if is_no_entry(errno) && has(request.flags, CREATE) {
            return self.create_file(alloc, asked, request, mode);
        }
        self.refuse_open(alloc, asked.tx, request, errno)
    }

    fn create_file(
        &mut self,
        alloc: Global,
        asked: &Asked,
        request: &OpeningRequest,
        mode: Mode,
    ) -> Result<(), NoMemory>
        ensures { OnOk result (self.new ≡ creates_file asked.now request.now mode self.old) }
    {
        let node = Node::File(self.new_file());
        match self.make(&request.path, node) {
            Ok(()) => self.open_made(alloc, asked, request, mode),
            Err(NameEnd::Errno(errno)) => self.refuse_open(alloc, asked.tx, request, errno),
            Err(NameEnd::Redirect(path)) => self.answer(asked.tx, ReplyBody::Redirect { path }),
            Err(NameEnd::NoMemory) => Err(NoMemory),
        }
    }

    fn open_made(
        &mut self,
        alloc: Global,
        asked: &Asked,
        request: &OpeningRequest,
        mode: Mode,
    ) -> Result<(), NoMemory>
        ensures { OnOk result (self.new ≡ opens_made asked.now request.now mode self.old) }
    {
        let file = self.new_file();
        self.make_file(&file)?;
        self.count_file()?;
        self.open_file(alloc, asked, request, mode, &file)
    }

    // The next file that is made.
    pub(crate) fn new_file(&self) -> FileId
        ensures { result ≡ new_file self.now }
    {
        FileId {
            server: self.kernel,
            number: self.next_file,
        }
    }

    // One file more is made. Where its number was the last of 32 bits, the answer is want of memory.
    pub(crate) fn count_file(&mut self) -> Result<(), NoMemory>
        ensures { OnOk result (self.new ≡ counts_file self.old) }
    {
        self.next_file = self.next_file.checked_add(1).ok_or(NoMemory)?;
        Ok(())
    }

    // Opens what has that name.
    fn open_node(
        &mut self,
        alloc: Global,
        asked: &Asked,
        request: &OpeningRequest,
        mode: Mode,
        node: Node,
    ) -> Result<(), NoMemory>
        ensures { OnOk result (self.new ≡ opens_node asked.now request.now mode node self.old) }
    {
        match node {
            Node::Dir => self.refuse_open(alloc, asked.tx, request, Errno::IsDir),
            Node::Device(device) => self.open_device(alloc, asked.tx, request, &device),
            Node::File(file) => self.open_file(alloc, asked, request, mode, &file),
        }
    }

    // Leads to a pseudo-device, whose streams nobody counts here (Welch and Ousterhout 1988).
    fn open_device(
        &mut self,
        alloc: Global,
        tx: TxNo,
        request: &OpeningRequest,
        device: &DeviceId,
    ) -> Result<(), NoMemory>
        ensures { OnOk result (self.new ≡ opens_device tx request.now device.now self.old) }
    {
        self.give_open(alloc, tx, request)?;
        let opened = OpenedReply {
            object: Target::Device(*device),
            grant: None,
            size: 0,
        };
        self.answer(tx, ReplyBody::Opened(opened))
    }

    // Decides on the open of a file.
    fn open_file(
        &mut self,
        alloc: Global,
        asked: &Asked,
        request: &OpeningRequest,
        mode: Mode,
        file: &FileId,
    ) -> Result<(), NoMemory>
        ensures { OnOk result (self.new ≡ opens_file asked.now request.now mode file.now self.old) }
    {
        let action = opening_of(asked.from, request, mode);
        self.decide(alloc, asked, file, &action)
    }

    // The open takes effect: it gives the descriptor.
    pub(crate) fn give_open(
        &mut self,
        alloc: Global,
        tx: TxNo,
        request: &OpeningRequest,
    ) -> Result<(), NoMemory>
        ensures { OnOk result (self.new ≡ gives_open tx request.now self.old) }
    {
        let call = open_call(alloc, request)?;
        let reply = Reply::Value {
            first: u64::from(request.fd.number()),
            second: 0,
            bytes: Bytes::new(alloc),
        };
        self.enter(&open_caller(tx, request), call, reply)
    }

    // The open is refused.
    fn refuse_open(
        &mut self,
        alloc: Global,
        tx: TxNo,
        request: &OpeningRequest,
        errno: Errno,
    ) -> Result<(), NoMemory>
        ensures { OnOk result (self.new ≡ refuses_open tx request.now errno self.old) }
    {
        let call = open_call(alloc, request)?;
        self.refuse(&open_caller(tx, request), call, errno)
    }
}

// What the open asks of the table of opens.
fn opening_of(from: Kernel, request: &OpeningRequest, mode: Mode) -> Action
    ensures { result ≡ opening_of from request.now mode }
{
    Action::Opening {
        kernel: from,
        stream: request.stream,
        mode,
        truncate: has(request.flags, TRUNCATE),
    }
}

// The call that the request carries.
fn open_call(alloc: Global, request: &OpeningRequest) -> Result<Call, NoMemory>
    ensures { IfOk result (λ call. call ≡ open_call request.now) }
{
    let path = request.text.copy(alloc)?;
    let flags = u64::from(request.flags);
    Ok(Call::OpenFile { path, flags })
}

// The process that it goes for.
fn open_caller(tx: TxNo, request: &OpeningRequest) -> Caller
    ensures { result ≡ open_caller tx request.now }
{
    Caller {
        tx,
        pid: request.pid,
        number: request.number,
    }
}

// Whether the name is missing.
fn is_no_entry(errno: Errno) -> bool
    ensures { result ≡ is_no_entry errno }
{
    matches!(errno, Errno::NoEntry)
}
