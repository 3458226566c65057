ghost use Rattle.std.specs.Prelude.{◌≡◌, OnOk};
ghost use Rattle.server_kernel.specs.Names.{gives_device, refuses_device, makes_device};

use crate::asked::Caller;
use crate::saying::value;
use crate::server::Server;
use packet_bodies::{MakeRequest, ReplyBody};
use process_machine::Call;
use server_names::{NameEnd, Node};
use sprite_ids::{Copying, Errno, NoMemory, TxNo};
use std::alloc::Global;

impl Server {
    // Makes a pseudo-device's name (Welch and Ousterhout 1988).
    pub(crate) fn make_device(
        &mut self,
        alloc: Global,
        tx: TxNo,
        request: &MakeRequest,
    ) -> Result<(), NoMemory>
        ensures { OnOk result (self.new ≡ makes_device tx request.now self.old) }
    {
        match self.make(&request.path, Node::Device(request.device)) {
            Ok(()) => self.give_device(alloc, tx, request),
            Err(NameEnd::Errno(errno)) => self.refuse_device(alloc, tx, request, errno),
            Err(NameEnd::Redirect(path)) => self.answer(tx, ReplyBody::Redirect { path }),
            Err(NameEnd::NoMemory) => Err(NoMemory),
        }
    }

    fn give_device(
        &mut self,
        alloc: Global,
        tx: TxNo,
        request: &MakeRequest,
    ) -> Result<(), NoMemory>
        ensures { OnOk result (self.new ≡ gives_device tx request.now self.old) }
    {
        let path = request.text.copy(alloc)?;
        let caller = Caller {
            tx,
            pid: request.pid,
            number: request.number,
        };
        let fd = u64::from(request.fd.number());
        self.give(alloc, &caller, Call::PdMake { path }, value(alloc, fd, 0))
    }

    fn refuse_device(
        &mut self,
        alloc: Global,
        tx: TxNo,
        request: &MakeRequest,
        errno: Errno,
    ) -> Result<(), NoMemory>
        ensures { OnOk result (self.new ≡ refuses_device tx request.now errno self.old) }
    {
        let path = request.text.copy(alloc)?;
        let caller = Caller {
            tx,
            pid: request.pid,
            number: request.number,
        };
        self.refuse(&caller, Call::PdMake { path }, errno)
    }
}
