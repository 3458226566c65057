ghost use Rattle.std.specs.Prelude.{◌≡◌, IfOk, OnOk};
ghost use Rattle.client_homes.specs.Says.{answers, enters, enters_death, gives, next_tx, notes, sends, value};

use crate::client::ClientProcs;
use client_file_tables::to_one;
use packet_bodies::{ReplyBody, Request};
use process_machine::{Call, Reply};
use sprite_ids::{Bytes, Kernel, NoMemory, Pid, Tries, TxNo};
use std::alloc::Global;
use unix_calls::{About, Entry, Event, Part, SendKind};

impl ClientProcs {
    /// Answers the remote call. The one error is want of memory.
    pub fn answer(&mut self, tx: TxNo, body: ReplyBody) -> Result<(), NoMemory>
        ensures { OnOk result (self.new ≡ answers tx body self.old) }
    {
        self.files.answer(tx, body)
    }

    /// Notes what was done. The one error is want of memory.
    pub fn note(&mut self, event: Event) -> Result<(), NoMemory>
        ensures { OnOk result (self.new ≡ notes event self.old) }
    {
        self.files.note(event)
    }

    /// Begins a remote call to that kernel, which is tried until it is answered, and gives its number. The one error is
    /// want of memory, which is also the answer where no number is left.
    pub fn send(
        &mut self,
        alloc: Global,
        to: Kernel,
        about: &Option<About>,
        body: Request,
    ) -> Result<TxNo, NoMemory>
        ensures number { IfOk result (λ tx. tx ≡ next_tx self.old) }
        ensures ok { OnOk result (self.new ≡ sends to about.now body self.old) }
    {
        let sending = to_one(alloc, to, Tries::Always, *about, body)?;
        self.files.send(alloc, sending, SendKind::Other)
    }

    /// Notes that the call took effect, with that reply. The one error is want of memory.
    pub fn enter(&mut self, about: &About, call: Call, reply: Reply) -> Result<(), NoMemory>
        ensures { OnOk result (self.new ≡ enters about.now call reply self.old) }
    {
        self.files.enter(about, call, reply)
    }

    /// Notes that the process died by a kill, as if it had come to that call. The one error is want of memory.
    pub fn enter_death(&mut self, about: &About) -> Result<(), NoMemory>
        ensures { OnOk result (self.new ≡ enters_death about.now self.old) }
    {
        let entry = Entry {
            pid: about.pid,
            number: about.number,
            part: Part::Death,
            call: None,
            reply: None,
        };
        self.note(Event::Enter { entry })
    }

    /// Puts the reply on the list of those that are given in this step. The one error is want of memory.
    pub fn give(&mut self, pid: Pid, reply: Reply) -> Result<(), NoMemory>
        ensures { OnOk result (self.new ≡ gives pid reply self.old) }
    {
        self.files.reply(pid, reply)
    }
}

// A value without bytes.
pub(crate) fn value(alloc: Global, first: u64, second: u64) -> Reply
    ensures { result ≡ value first second }
{
    Reply::Value {
        first,
        second,
        bytes: Bytes::new(alloc),
    }
}
