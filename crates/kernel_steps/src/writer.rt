ghost use Rattle.std.specs.Prelude.{◌≡◌, ◌∷◌, ◌++◌, IfOk, OnErr, OnOk, length, map, take};
ghost use Rattle.kernel_steps.specs.Outs.{answered, given, noted, send_event, sent, started};

use crate::sending::Sending;
use packet_bodies::ReplyBody;
use process_machine::Reply;
use sprite_ids::{Copying, Items, NoMemory, Pid, TxNo};
use std::alloc::Global;
use unix_calls::{Event, SendKind};

/// What a step of a kernel says: the remote calls that it begins, the answers to those of other kernels, the replies to its
/// processes and the records of what it did, each in the order in which the step says it (this project).
#[derive(Debug, Drop)]
pub struct Out {
    /// The number of the next remote call.
    pub next: TxNo,
    /// The remote calls that begin, with the numbers up to `next`.
    pub sends: Items<Sending>,
    /// The answers, each with the remote call that it answers.
    pub answers: Items<(TxNo, ReplyBody)>,
    /// The replies, each with the process that it goes to.
    pub replies: Items<(Pid, Reply)>,
    /// The records.
    pub events: Items<Event>,
}

impl Out {
    /// Nothing is said yet, and the first remote call will have that number.
    pub fn new(alloc: Global, next: TxNo) -> Out
        ensures { result ≡ started next }
    {
        Out {
            next,
            sends: Items::new(alloc),
            answers: Items::new(alloc),
            replies: Items::new(alloc),
            events: Items::new(alloc),
        }
    }

    /// Begins the remote call, with a record for each of its receivers, and gives its number. The one error is want of
    /// memory, which is also the answer where no number is left in 32 bits; then all is as before.
    pub fn send(
        &mut self,
        alloc: Global,
        sending: Sending,
        kind: SendKind,
    ) -> Result<TxNo, NoMemory>
        ensures number { IfOk result (λ tx. tx ≡ self.old.next) }
        ensures ok { OnOk result (self.new ≡ sent sending kind self.old) }
        ensures err { OnErr result (self.new ≡ self.old) }
    {
        let tx = self.next;
        let next = tx.0.checked_add(1).ok_or(NoMemory)?;
        let before = self.events.len();
        match self.put_call(alloc, sending, &kind) {
            Ok(()) => {
                self.next = TxNo(next);
                Ok(tx)
            }
            Err(error) => {
                self.events.truncate(before);
                Err(error)
            }
        }
    }

    /// Answers a remote call. After want of memory, the one error, all is as before.
    pub fn answer(&mut self, tx: TxNo, body: ReplyBody) -> Result<(), NoMemory>
        ensures ok { OnOk result (self.new ≡ answered tx body self.old) }
        ensures err { OnErr result (self.new ≡ self.old) }
    {
        self.answers.push((tx, body))
    }

    /// Gives a process the reply to its call. After want of memory, the one error, all is as before.
    pub fn reply(&mut self, pid: Pid, reply: Reply) -> Result<(), NoMemory>
        ensures ok { OnOk result (self.new ≡ given pid reply self.old) }
        ensures err { OnErr result (self.new ≡ self.old) }
    {
        self.replies.push((pid, reply))
    }

    /// Notes what was done. After want of memory, the one error, all is as before.
    pub fn event(&mut self, event: Event) -> Result<(), NoMemory>
        ensures ok { OnOk result (self.new ≡ noted event self.old) }
        ensures err { OnErr result (self.new ≡ self.old) }
    {
        self.events.push(event)
    }

    // Puts the call and its records under the next number. After want of memory, the one error, some of the records may
    // stand behind those of before.
    fn put_call(&mut self, alloc: Global, sending: Sending, kind: &SendKind) -> Result<(), NoMemory>
        ensures ok { OnOk result (self.new ≡ record (sent sending kind.now self.old) { next = self.old.next }) }
        ensures err { OnErr result (record self.new { events = take (length self.old.events) self.new.events } ≡ self.old) }
    {
        note_sends(alloc, &mut self.events, self.next, &sending, kind)?;
        self.sends.push(sending)
    }
}

// Notes for each receiver that the call went to it. After want of memory, the one error, some of these records may stand
// behind those of before.
fn note_sends(
    alloc: Global,
    events: &mut Items<Event>,
    tx: TxNo,
    sending: &Sending,
    kind: &SendKind,
) -> Result<(), NoMemory>
    ensures ok { OnOk result (events.new ≡ events.old ++ map (send_event tx sending.now.about kind.now) sending.now.to) }
    ensures err { OnErr result (take (length events.old) events.new ≡ events.old) }
{
    for to in sending.to.as_slice() {
        let kind = kind.copy(alloc)?;
        events.push(Event::Send {
            tx,
            to: *to,
            about: sending.about,
            kind,
        })?;
    }
    Ok(())
}
