ghost use Rattle.std.specs.Prelude.{◌≡◌, IfOk, OnOk};
ghost use Rattle.client_devices.specs.Making.{closes_master, ends_all, ends_making, forgets_device, makes_device, next_device, unmakes};

use crate::asking::answer_ask;
use crate::tables::{add_device, drop_master};
use client_homes::ClientProcs;
use process_machine::Reply;
use pseudo_device::Ask;
use sprite_ids::{DeviceId, Errno, NoMemory, Pid};
use std::alloc::Global;

/// Makes a pseudo-device of this kernel with one master, for the process inside `pd_make` (Welch and Ousterhout 1988). It is
/// there before the call is answered, since asks may come before the answer does (this project). The one error is want of memory,
/// which is also the answer where no number is left.
pub fn make_device(client: &mut ClientProcs, alloc: Global, pid: Pid) -> Result<DeviceId, NoMemory>
    ensures device { IfOk result (λ device. device ≡ next_device client.old) }
    ensures state { OnOk result (client.new ≡ makes_device pid client.old) }
{
    let number = client.next_device;
    client.next_device = number.checked_add(1).ok_or(NoMemory)?;
    add_device(client, alloc, number)?;
    client.making.push(pid, number)?;
    Ok(DeviceId {
        kernel: client.kernel,
        number,
    })
}

/// The `pd_make` of the process is answered: a refused one leaves no device. Of a process that is in no `pd_make` it does
/// nothing.
pub fn end_making(client: &mut ClientProcs, pid: Pid, reply: &Reply)
    ensures { client.new ≡ ends_making pid reply.now client.old }
{
    match client.making.take(&pid) {
        Some(device) => unmake(client, device, reply),
        None => {}
    }
}

fn unmake(client: &mut ClientProcs, device: u32, reply: &Reply)
    ensures { client.new ≡ unmakes device reply.now client.old }
{
    match reply {
        Reply::Error(_) => forget(client, device),
        Reply::Value { .. } => {}
    }
}

fn forget(client: &mut ClientProcs, device: u32)
    ensures { client.new ≡ forgets_device device client.old }
{
    client.devices.take(&device);
    client.getters.remove_all(&device);
}

/// The last descriptor of a master of the pseudo-device is closed (Welch and Ousterhout 1988): each ask ends with NoServer, the
/// one in hand first, then those that wait, in order. The one error is want of memory.
pub fn close_master(client: &mut ClientProcs, alloc: Global, device: u32) -> Result<(), NoMemory>
    ensures { OnOk result (client.new ≡ closes_master device client.old) }
{
    let asks = drop_master(client, alloc, device)?;
    end_all(client, alloc, asks.as_slice())
}

// All these asks end with NoServer.
fn end_all(client: &mut ClientProcs, alloc: Global, asks: &[Ask]) -> Result<(), NoMemory>
    ensures { OnOk result (client.new ≡ ends_all asks.now client.old) }
{
    for ask in asks {
        answer_ask(client, alloc, ask, Reply::Error(Errno::NoServer))?;
    }
    Ok(())
}
