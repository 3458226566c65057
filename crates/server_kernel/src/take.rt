ghost use Rattle.std.specs.Prelude.{◌≡◌, IfOk, OnOk};
ghost use Rattle.server_kernel.specs.Steps.{begins, said, takes, takes_reply, server_step};

use crate::asked::Asked;
use crate::server::Server;
use kernel_steps::{Input, Out};
use packet_bodies::ReplyBody;
use sprite_ids::{Copying, NoMemory, TxNo};
use std::alloc::Global;

impl Server {
    /// Does one step of the server: with a request of another kernel, or with the answer to a callback of its own. The
    /// first remote call of the step has the number `next`. What comes back is all that the step says: callbacks, answers
    /// and records, each in its order (Nelson, Welch and Ousterhout 1988; Welch and Ousterhout 1986; the order of records
    /// is this project's).
    ///
    /// A request about a busy file has no answer in this step: it waits until the file's callbacks are answered. No other
    /// input means anything to a server, and it does nothing with it.
    ///
    /// The one error is want of memory, which is also the answer where a counter of 32 bits, of a stream's grants or of a
    /// file has come to its limit. The server is then of no use any more.
    pub fn take(&mut self, alloc: Global, input: &Input, next: TxNo) -> Result<Out, NoMemory>
        ensures { IfOk result (λ out. server_step self.old input.now next ≡ (self.new, out)) }
    {
        self.begin(alloc, next);
        self.take_input(alloc, input)?;
        Ok(self.end(alloc))
    }

    // Nothing is said so far.
    fn begin(&mut self, alloc: Global, next: TxNo)
        ensures { self.new ≡ begins next self.old }
    {
        self.out = Out::new(alloc, next);
    }

    // What was said.
    fn end(&mut self, alloc: Global) -> Out
        ensures server { self.new ≡ said self.old }
        ensures out { result ≡ self.old.out }
    {
        std::mem::replace(&mut self.out, Out::new(alloc, TxNo(0)))
    }

    fn take_input(&mut self, alloc: Global, input: &Input) -> Result<(), NoMemory>
        ensures { OnOk result (self.new ≡ takes input.now self.old) }
    {
        match input {
            Input::Request { tx, from, body } => {
                let asked = Asked {
                    tx: *tx,
                    from: *from,
                    body: body.copy(alloc)?,
                };
                self.serve(alloc, &asked)
            }
            Input::Replied { tx, body, .. } => self.take_reply(alloc, *tx, body),
            _ => Ok(()),
        }
    }

    fn take_reply(&mut self, alloc: Global, tx: TxNo, body: &ReplyBody) -> Result<(), NoMemory>
        ensures { OnOk result (self.new ≡ takes_reply tx body.now self.old) }
    {
        match body {
            ReplyBody::Flushed(flushed) => self.flushed(alloc, tx, flushed),
            _ => Ok(()),
        }
    }
}
