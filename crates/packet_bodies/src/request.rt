ghost use Rattle.std.specs.Prelude.{◌≡◌};
ghost use Rattle.packet_bodies.specs.About.{about_of};

use crate::ask_request::AskRequest;
use crate::callback_request::CallbackRequest;
use crate::close_request::CloseRequest;
use crate::fetch_request::FetchRequest;
use crate::home_request::HomeRequest;
use crate::launch_request::LaunchRequest;
use crate::make_request::MakeRequest;
use crate::move_request::MoveRequest;
use crate::name_request::NameRequest;
use crate::op_request::OpRequest;
use crate::opening_request::OpeningRequest;
use crate::page_out_request::PageOutRequest;
use crate::transfer_request::TransferRequest;
use crate::write_back_request::WriteBackRequest;
use sprite_ids::{Copying, Kernel, NoMemory, Pid};
use sprite_paths::Path;
use std::alloc::Global;

/// What a kernel asks of another, with the fields of its form.
#[derive(Debug, PartialEq, Eq, Drop)]
pub enum Request {
    /// 1: asks for a sign of life (this project).
    Echo,
    /// 2: asks which server has the domain of the path (Welch and Ousterhout 1986).
    Prefix {
        /// The path.
        path: Path,
    },
    /// 3: opens a path.
    Opening(OpeningRequest),
    /// 4: does a name call.
    Name(NameRequest),
    /// 5: makes a pseudo-device.
    Make(MakeRequest),
    /// 6: closes a kernel's last reference to a stream.
    Close(CloseRequest),
    /// 7: reads, writes, measures or seeks at the server.
    Op(OpRequest),
    /// 8: asks for a block.
    Fetch(FetchRequest),
    /// 9: brings a block.
    WriteBack(WriteBackRequest),
    /// 10: calls a client about a file that it caches.
    Callback(CallbackRequest),
    /// 11: moves a stream.
    Move(MoveRequest),
    /// 12: brings a process.
    Transfer(TransferRequest),
    /// 13: asks for a call to be done at the home.
    Home(HomeRequest),
    /// 14: tells a home where its process runs (Douglis and Ousterhout 1991).
    Place {
        /// The process.
        pid: Pid,
        /// Where it runs.
        kernel: Kernel,
    },
    /// 15: tells a kernel of a kill of a process that runs there (Douglis and Ousterhout 1991).
    Killed {
        /// The process.
        pid: Pid,
    },
    /// 16: asks the master of a pseudo-device.
    Ask(AskRequest),
    /// 17: puts a page to the server.
    PageOut(PageOutRequest),
    /// 18: asks for a page (Nelson, Welch and Ousterhout 1988).
    PageIn {
        /// The process.
        pid: Pid,
        /// Which of its pages.
        page: u8,
    },
    /// 19: brings a process that starts its next program.
    Launch(LaunchRequest),
}

impl Request {
    /// The process and the number of the call that the request carries; None where it carries none (this project).
    pub fn about(&self) -> Option<(Pid, u32)>
        ensures { result ≡ about_of self.now }
    {
        match self {
            Request::Opening(fields) => Some((fields.pid, fields.number)),
            Request::Name(fields) => Some((fields.pid, fields.number)),
            Request::Make(fields) => Some((fields.pid, fields.number)),
            Request::Op(fields) => Some((fields.pid, fields.number)),
            Request::Transfer(fields) => Some((fields.pid, fields.number)),
            Request::Home(fields) => Some((fields.pid, fields.number)),
            Request::Ask(fields) => Some((fields.pid, fields.number)),
            Request::Launch(fields) => Some((fields.pid, fields.number)),
            _ => None,
        }
    }
}

impl Copying for Request {
    fn copy(&self, alloc: Global) -> Result<Request, NoMemory> {
        Ok(match self {
            Request::Echo => Request::Echo,
            Request::Prefix { path } => Request::Prefix {
                path: path.copy(alloc)?,
            },
            Request::Opening(fields) => Request::Opening(fields.copy(alloc)?),
            Request::Name(fields) => Request::Name(fields.copy(alloc)?),
            Request::Make(fields) => Request::Make(fields.copy(alloc)?),
            Request::Close(fields) => Request::Close(*fields),
            Request::Op(fields) => Request::Op(fields.copy(alloc)?),
            Request::Fetch(fields) => Request::Fetch(*fields),
            Request::WriteBack(fields) => Request::WriteBack(fields.copy(alloc)?),
            Request::Callback(fields) => Request::Callback(*fields),
            Request::Move(fields) => Request::Move(*fields),
            Request::Transfer(fields) => Request::Transfer(fields.copy(alloc)?),
            Request::Home(fields) => Request::Home(fields.copy(alloc)?),
            Request::Place { pid, kernel } => Request::Place {
                pid: *pid,
                kernel: *kernel,
            },
            Request::Killed { pid } => Request::Killed { pid: *pid },
            Request::Ask(fields) => Request::Ask(fields.copy(alloc)?),
            Request::PageOut(fields) => Request::PageOut(fields.copy(alloc)?),
            Request::PageIn { pid, page } => Request::PageIn {
                pid: *pid,
                page: *page,
            },
            Request::Launch(fields) => Request::Launch(fields.copy(alloc)?),
        })
    }
}
