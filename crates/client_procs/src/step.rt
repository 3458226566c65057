ghost use Rattle.std.specs.Prelude.{◌≡◌, IfOk, OnOk};
ghost use Rattle.client_procs.specs.Steps.{begins_step, client_step, ends_step, takes};

use crate::answers::hear;
use crate::issuing::issue;
use crate::requests::serve;
use crate::turns::go_on;
use client_file_tables::about;
use client_homes::ClientProcs;
use client_moves::page_needed;
use kernel_steps::{Input, Out};
use sprite_ids::{NoMemory, TxNo};
use std::alloc::Global;

/// Does one step of a client kernel: with a call of a process that runs here, a request of another kernel, an answer to one of its
/// own remote calls or the end of its tries, a block whose write-back is due, or a page that a process wants. `step` is the
/// kernel's count of recorded steps, this one among them, and the first remote call of the step has the number `next`. What comes
/// back is all that the step says: remote calls, answers and records, each in its order (Nelson, Welch and Ousterhout 1988; Welch
/// and Ousterhout 1986 and 1988; Douglis and Ousterhout 1991; the order of records is this project's).
///
/// The one error is want of memory, which is also the answer where a counter has come to its limit. The kernel is then of no use
/// any more.
///
/// Of places: what the functions say that it calls, of each process, image, page and offset.
pub fn take(
    client: &mut ClientProcs,
    alloc: Global,
    input: &Input,
    next: TxNo,
    step: u64,
) -> Result<Out, NoMemory>
    ensures { IfOk result (λ out. client_step client.old input.now next step ≡ (client.new, out)) }
{
    begin(client, alloc, next, step);
    take_input(client, alloc, input)?;
    go_on(client, alloc)?;
    Ok(end(client, alloc))
}

fn begin(client: &mut ClientProcs, alloc: Global, next: TxNo, step: u64)
    ensures { client.new ≡ begins_step next step client.old }
{
    client.files.begin(alloc, next, step);
}

fn end(client: &mut ClientProcs, alloc: Global) -> Out
    ensures state { client.new ≡ ends_step client.old }
    ensures out { result ≡ client.old.files.out }
{
    client.files.end(alloc)
}

fn take_input(client: &mut ClientProcs, alloc: Global, input: &Input) -> Result<(), NoMemory>
    ensures { OnOk result (client.new ≡ takes input.now client.old) }
{
    match input {
        Input::Issued { pid, number, call } => {
            let about = about(*pid, *number);
            issue(client, alloc, &about, call)
        }
        Input::Request { tx, body, .. } => serve(client, alloc, *tx, body),
        Input::Replied { tx, from, body } => hear(client, alloc, *tx, *from, body),
        Input::GaveUp { tx } => client_files::give_up_name(&mut client.files, alloc, *tx),
        Input::Due { file, block } => {
            client_files::write_back_due(&mut client.files, alloc, file, *block)
        }
        Input::PageNeeded { pid, page } => page_needed(client, alloc, *pid, *page),
    }
}
