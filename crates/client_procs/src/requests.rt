ghost use Rattle.std.specs.Prelude.{◌≡◌, OnOk};
ghost use Rattle.client_procs.specs.Answered.{serves};

use crate::arriving::arrive;
use client_devices::serve_ask;
use client_homes::ClientProcs;
use packet_bodies::Request;
use sprite_ids::{NoMemory, TxNo};
use std::alloc::Global;

// Another kernel asks something of this one. Other requests are never sent to a client.
pub(crate) fn serve(
    client: &mut ClientProcs,
    alloc: Global,
    tx: TxNo,
    body: &Request,
) -> Result<(), NoMemory>
    ensures { OnOk result (client.new ≡ serves tx body.now client.old) }
{
    match body {
        Request::Callback(request) => client_files::callback(&mut client.files, tx, request),
        Request::Home(request) => client.serve_home(alloc, tx, request),
        Request::Transfer(_) => arrive(client, alloc, tx, body),
        Request::Launch(_) => arrive(client, alloc, tx, body),
        Request::Place { pid, kernel } => client.hear_place(alloc, tx, *pid, *kernel),
        Request::Killed { pid } => client.hear_kill(alloc, tx, *pid),
        Request::Ask(request) => serve_ask(client, alloc, tx, request),
        _ => Ok(()),
    }
}
