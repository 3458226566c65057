ghost use Rattle.std.specs.Prelude.{◌≡◌, [], OnOk};
ghost use Rattle.server_kernel.specs.Says.{answers, notes, enters, gives, refuses};

use crate::asked::Caller;
use crate::server::Server;
use packet_bodies::{ReplyBody, ValueReply};
use process_machine::{Call, Reply};
use sprite_ids::{Bytes, Copying, Errno, NoMemory, TxNo};
use std::alloc::Global;
use unix_calls::{Entry, Event, Part};

impl Server {
    // Answers the remote call.
    pub(crate) fn answer(&mut self, tx: TxNo, body: ReplyBody) -> Result<(), NoMemory>
        ensures { OnOk result (self.new ≡ answers tx body self.old) }
    {
        self.out.answer(tx, body)
    }

    // Notes what was done.
    pub(crate) fn note(&mut self, event: Event) -> Result<(), NoMemory>
        ensures { OnOk result (self.new ≡ notes event self.old) }
    {
        self.out.event(event)
    }

    // Notes that the call took effect, with that reply.
    pub(crate) fn enter(
        &mut self,
        caller: &Caller,
        call: Call,
        reply: Reply,
    ) -> Result<(), NoMemory>
        ensures { OnOk result (self.new ≡ enters caller.now call reply self.old) }
    {
        let entry = Entry {
            pid: caller.pid,
            number: caller.number,
            part: Part::Whole,
            call: Some(call),
            reply: Some(reply),
        };
        self.note(Event::Enter { entry })
    }

    // The call gives this value, and its request is answered with it.
    pub(crate) fn give(
        &mut self,
        alloc: Global,
        caller: &Caller,
        call: Call,
        value: ValueReply,
    ) -> Result<(), NoMemory>
        ensures { OnOk result (self.new ≡ gives caller.now call value self.old) }
    {
        let bytes = value.bytes.copy(alloc)?;
        let reply = Reply::Value {
            first: value.first,
            second: value.second,
            bytes,
        };
        self.enter(caller, call, reply)?;
        self.answer(caller.tx, ReplyBody::Value(value))
    }

    // The call is refused, and so is its request.
    pub(crate) fn refuse(
        &mut self,
        caller: &Caller,
        call: Call,
        errno: Errno,
    ) -> Result<(), NoMemory>
        ensures { OnOk result (self.new ≡ refuses caller.now call errno self.old) }
    {
        self.enter(caller, call, Reply::Error(errno))?;
        self.answer(caller.tx, ReplyBody::Refused { errno })
    }
}

// A value without bytes.
pub(crate) fn value(alloc: Global, first: u64, second: u64) -> ValueReply
    ensures { result ≡ record { first = first; second = second; bytes = [] } }
{
    ValueReply {
        first,
        second,
        bytes: Bytes::new(alloc),
    }
}
