ghost use Rattle.std.specs.Prelude.{◌≡◌, OnOk};
ghost use Rattle.server_kernel.specs.Served.{serves, serves_file, tells, puts_page, gives_page};

use crate::asked::Asked;
use crate::server::Server;
use packet_bodies::{PageOutRequest, ReplyBody, Request};
use sprite_ids::{Bytes, Copying, NoMemory, Pid, TxNo};
use sprite_paths::Path;
use std::alloc::Global;

impl Server {
    // Serves a request.
    pub(crate) fn serve(&mut self, alloc: Global, asked: &Asked) -> Result<(), NoMemory>
        ensures { OnOk result (self.new ≡ serves asked.now self.old) }
    {
        match &asked.body {
            Request::Echo => self.answer(asked.tx, ReplyBody::Done),
            Request::Prefix { path } => self.tell(alloc, asked.tx, path),
            Request::Opening(request) => self.open(alloc, asked, request),
            Request::Name(request) => self.name(alloc, asked, request),
            Request::Make(request) => self.make_device(alloc, asked.tx, request),
            Request::PageOut(request) => self.put_page(alloc, asked.tx, request),
            Request::PageIn { pid, page } => self.give_page(asked.tx, *pid, *page),
            _ => self.serve_file(alloc, asked),
        }
    }

    // Serves a request about a file. Other requests are never sent to a server.
    fn serve_file(&mut self, alloc: Global, asked: &Asked) -> Result<(), NoMemory>
        ensures { OnOk result (self.new ≡ serves_file asked.now self.old) }
    {
        match &asked.body {
            Request::Close(request) => self.close(alloc, asked, request),
            Request::Move(request) => self.move_stream(alloc, asked, request),
            Request::Op(request) => self.use_file(alloc, asked, &request.file, request.stamp),
            Request::Fetch(request) => self.use_file(alloc, asked, &request.file, request.stamp),
            Request::WriteBack(request) => self.bring_back(alloc, asked, request),
            _ => Ok(()),
        }
    }

    // Tells that a domain hangs there which this server serves; of any other it says nothing (Welch and Ousterhout 1986).
    fn tell(&mut self, alloc: Global, tx: TxNo, path: &Path) -> Result<(), NoMemory>
        ensures { OnOk result (self.new ≡ tells tx path.now self.old) }
    {
        if !self.is_root(path) {
            return Ok(());
        }
        let path = path.copy(alloc)?;
        self.answer(tx, ReplyBody::Here { path })
    }

    // Keeps a page of a process that moves (Douglis and Ousterhout 1991).
    fn put_page(
        &mut self,
        alloc: Global,
        tx: TxNo,
        request: &PageOutRequest,
    ) -> Result<(), NoMemory>
        ensures { OnOk result (self.new ≡ puts_page tx request.now self.old) }
    {
        let bytes = request.bytes.copy(alloc)?.into_vec();
        self.swap.put(request.pid, request.page, bytes)?;
        self.answer(tx, ReplyBody::Done)
    }

    // Gives it back. It is kept: the process's image has it away.
    fn give_page(&mut self, tx: TxNo, pid: Pid, page: u8) -> Result<(), NoMemory>
        ensures { OnOk result (self.new ≡ gives_page tx pid page self.old) }
    {
        match self.swap.take(pid, page) {
            Some(bytes) => {
                let bytes = Bytes::of_vec(bytes);
                self.answer(tx, ReplyBody::Page { bytes })
            }
            None => Ok(()),
        }
    }
}
