ghost use Rattle.std.specs.Prelude.{◌≡◌, ◌∷◌, [], IfOk, OnOk, Some};
ghost use Rattle.client_file_tables.specs.Says.{notes, replies, answers, enters, answers_here, sends, sends_for, about_of, plain_value, to_one};

use crate::client_files::ClientFiles;
use kernel_steps::Sending;
use packet_bodies::{ReplyBody, Request};
use process_machine::{Call, Reply};
use sprite_ids::{Bytes, Copying, Items, Kernel, NoMemory, Pid, Tries, TxNo};
use std::alloc::Global;
use unix_calls::{About, Entry, Event, Part, SendKind};

impl ClientFiles {
    /// Notes what was done. The one error is want of memory.
    pub fn note(&mut self, event: Event) -> Result<(), NoMemory>
        ensures { OnOk result (self.new ≡ notes event self.old) }
    {
        self.out.event(event)
    }

    /// Gives a process the reply to its call. The one error is want of memory.
    pub fn reply(&mut self, pid: Pid, reply: Reply) -> Result<(), NoMemory>
        ensures { OnOk result (self.new ≡ replies pid reply self.old) }
    {
        self.out.reply(pid, reply)
    }

    /// Answers a remote call of another kernel. The one error is want of memory.
    pub fn answer(&mut self, tx: TxNo, body: ReplyBody) -> Result<(), NoMemory>
        ensures { OnOk result (self.new ≡ answers tx body self.old) }
    {
        self.out.answer(tx, body)
    }

    /// Notes that the call took effect here, with that reply. The one error is want of memory.
    pub fn enter(&mut self, about: &About, call: Call, reply: Reply) -> Result<(), NoMemory>
        ensures { OnOk result (self.new ≡ enters about.now call reply self.old) }
    {
        let entry = Entry {
            pid: about.pid,
            number: about.number,
            part: Part::Whole,
            call: Some(call),
            reply: Some(reply),
        };
        self.note(Event::Enter { entry })
    }

    /// The call takes effect here and has its reply in this step. The one error is want of memory.
    pub fn answer_here(
        &mut self,
        alloc: Global,
        about: &About,
        call: Call,
        reply: Reply,
    ) -> Result<(), NoMemory>
        ensures { OnOk result (self.new ≡ answers_here about.now call reply self.old) }
    {
        let entered = reply.copy(alloc)?;
        self.enter(about, call, entered)?;
        self.reply(about.pid, reply)
    }

    /// Begins a remote call, and gives its number. The one error is want of memory, which is also the answer where no number
    /// is left.
    pub fn send(
        &mut self,
        alloc: Global,
        sending: Sending,
        kind: SendKind,
    ) -> Result<TxNo, NoMemory>
        ensures number { IfOk result (λ tx. tx ≡ self.old.out.next) }
        ensures files { OnOk result (self.new ≡ sends sending kind self.old) }
    {
        self.out.send(alloc, sending, kind)
    }

    /// Begins a remote call for whose answer the process's operation waits, and gives its number. The one error is want of
    /// memory, which is also the answer where no number is left.
    pub fn send_for(
        &mut self,
        alloc: Global,
        pid: Pid,
        sending: Sending,
        kind: SendKind,
    ) -> Result<TxNo, NoMemory>
        ensures number { IfOk result (λ tx. tx ≡ self.old.out.next) }
        ensures files { OnOk result (self.new ≡ sends_for pid sending kind self.old) }
    {
        let tx = self.out.send(alloc, sending, kind)?;
        self.txs.push(tx, pid)?;
        Ok(tx)
    }
}

/// The call of that process with that number.
pub fn about(pid: Pid, number: u32) -> About
    ensures { result ≡ about_of pid number }
{
    About { pid, number }
}

/// A reply with one value and no bytes.
pub fn plain(alloc: Global, first: u64) -> Reply
    ensures { result ≡ plain_value first }
{
    Reply::Value {
        first,
        second: 0,
        bytes: Bytes::new(alloc),
    }
}

/// A remote call to one kernel. The one error is want of memory.
pub fn to_one(
    alloc: Global,
    to: Kernel,
    tries: Tries,
    about: Option<About>,
    body: Request,
) -> Result<Sending, NoMemory>
    ensures { IfOk result (λ sending. sending ≡ to_one to tries about body) }
{
    let mut receivers = Items::new(alloc);
    receivers.push(to)?;
    Ok(Sending {
        to: receivers,
        tries,
        about,
        body,
    })
}
