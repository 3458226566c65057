ghost use Rattle.std.specs.Prelude.{◌≡◌, OnOk};
ghost use Rattle.client_procs.specs.Answered.{hears, hears_for};

use crate::arriving::hear_place;
use client_devices::hear_ask;
use client_homes::{ClientProcs, Unfinished};
use client_moves::{leave_on, page_came};
use packet_bodies::ReplyBody;
use sprite_ids::{Kernel, NoMemory, TxNo};
use std::alloc::Global;

// A remote call of this kernel is answered: one of the files' side, or one for a process.
pub(crate) fn hear(
    client: &mut ClientProcs,
    alloc: Global,
    tx: TxNo,
    from: Kernel,
    body: &ReplyBody,
) -> Result<(), NoMemory>
    ensures { OnOk result (client.new ≡ hears tx from body.now client.old) }
{
    if client.files.owns(tx) {
        return client_files::replied(&mut client.files, alloc, tx, from, body);
    }
    match client.unfinished.take(&tx) {
        Some(call) => hear_for(client, alloc, tx, call, body),
        None => Ok(()),
    }
}

fn hear_for(
    client: &mut ClientProcs,
    alloc: Global,
    tx: TxNo,
    call: Unfinished,
    body: &ReplyBody,
) -> Result<(), NoMemory>
    ensures { OnOk result (client.new ≡ hears_for tx call body.now client.old) }
{
    match call {
        Unfinished::PageOut(pid) => leave_on(client, alloc, pid),
        Unfinished::PageIn(pid) => page_came(client, alloc, pid, tx, body),
        Unfinished::Home(pid) => client.hear_home(alloc, tx, pid, body),
        Unfinished::Ask(pid) => hear_ask(client, alloc, pid, body),
        Unfinished::Death(pid) => client.end(alloc, pid, &None),
        Unfinished::Place(pid) => hear_place(client, alloc, pid),
        Unfinished::Killed(pid) => client.hear_killed(alloc, pid, body),
        Unfinished::Transfer(_) => Ok(()),
    }
}
