ghost use Rattle.std.specs.Prelude.{◌≡◌, ◌<◌, ◌==◌, ◌++◌, true, IfOk, IfSome, OnOk, None, Some, map};
ghost use Rattle.unix_calls.specs.Lawful.{Lawful};
ghost use Rattle.kernel_rpc.specs.Machine.{call_of, is_free, may_answer};
ghost use Rattle.kernel_rpc.specs.Ports.{AreUsed};
ghost use Rattle.kernel_rpc.specs.Servers.{pairs};
ghost use Rattle.link_plan.specs.Counts.{Asks};
ghost use Rattle.cluster_wire.specs.Calling.{sent_as, BeginsIf, Begun};
ghost use Rattle.cluster_wire.specs.Faults.{packets};
ghost use Rattle.cluster_wire.specs.Goings.{AllGo, broadcast_to, goes, goes_by, next_of, other_than, owner_of, server_in};
ghost use Rattle.cluster_wire.specs.Links.{AskedMore};
ghost use Rattle.cluster_wire.specs.Replying.{asker, goes_back, Answered, AnswersIf};

use crate::servers::{least_of, may_go_to};
use crate::telling::Sent;
use kernel_rpc::Wire;
use kernel_steps::Sending;
use link_plan::{Fate, Link};
use packet_bodies::{Body, ReplyBody, Request};
use sprite_ids::{Items, Kernel, NoMemory, TxNo};
use sprite_paths::Path;
use std::alloc::Global;
use unix_calls::Description;
use wire_format::Packet;

/// The number of the next remote call. Want of memory is the answer where no number is left in 32 bits.
pub fn next_call<L: Link>(wire: &Wire<Packet, L>) -> Result<TxNo, NoMemory>
    ensures number { IfOk result (λ tx. tx ≡ next_of wire.now.machine) }
    ensures left { IfOk result (λ _. wire.now.machine.begun < 4294967295) }
{
    match wire.begun().checked_add(1) {
        Some(next) => Ok(TxNo(next)),
        None => Err(NoMemory),
    }
}

/// Begins the remote calls in their order, which takes them out of the list, and tells of each packet what the link made of it. A call
/// goes to the first kernel of its list, and the broadcast of a prefix to all of it (Welch and Ousterhout 1986); no kernel calls
/// itself, and a broadcast goes only where the server that is to answer is in its list. The one error is want of memory; it is also the
/// answer where one of the calls has no one to go to, which never comes: so all of them begin, the first with the number of the next
/// call.
pub fn begin_all<L: Link>(
    alloc: Global,
    c: &Description,
    wire: &mut Wire<Packet, L>,
    kernel: Kernel,
    sends: &mut Items<Sending>,
) -> Result<Items<Sent>, NoMemory>
    requires lawful { Lawful c.now }
    ensures begun { IfOk result (Begun L.faults L.asked c.now kernel sends.old wire.old wire.new) }
    ensures go { IfOk result (λ _. AllGo c.now kernel sends.old) }
    ensures asked { IfOk result (λ sent. Asks L.faults L.asked kernel wire.old.link wire.new.link (packets sent)) }
{
    let mut sent = Items::new(alloc);
    'sends: while !sends.is_empty() {
        let sending = sends.remove(0);
        begin(alloc, c, wire, kernel, sending, &mut sent)?;
    }
    Ok(sent)
}

// Begins a remote call with the next number at the least free port: the broadcast of a prefix, or a call of one kernel. Want of memory
// is also the answer where it has no one to go to.
fn begin<L: Link>(
    alloc: Global,
    c: &Description,
    wire: &mut Wire<Packet, L>,
    kernel: Kernel,
    sending: Sending,
    sent: &mut Items<Sent>,
) -> Result<(), NoMemory>
    requires lawful { Lawful c.now }
    ensures begun { OnOk result (BeginsIf L.faults L.asked kernel (goes c.now kernel sending) wire.old wire.new sent.old sent.new) }
    ensures asked { OnOk result (AskedMore L.faults L.asked kernel wire.old.link wire.new.link (packets sent.old) (packets sent.new)) }
{
    let tx = next_call(wire)?;
    let port = wire.free_port(alloc, kernel)?;
    match owner_of(c, &sending.body) {
        Some(owner) => broadcast(alloc, wire, kernel, tx, port, owner, sending, sent),
        None => call(alloc, wire, kernel, tx, port, sending, sent),
    }
}

// The server that is to answer, where the request asks for the server of a prefix.
fn owner_of(c: &Description, body: &Request) -> Option<Kernel>
    requires lawful { Lawful c.now }
    ensures { result ≡ owner_of c.now body.now }
{
    match body {
        Request::Prefix { path } => Some(server_of(c, path)),
        _ => None,
    }
}

// The server of the longest domain of the path.
fn server_of(c: &Description, path: &Path) -> Kernel
    requires lawful { Lawful c.now }
    ensures { result ≡ server_in c.now path.now }
{
    c.server_at(c.domain_of(path))
}

// Calls one kernel. No kernel calls itself.
fn call<L: Link>(
    alloc: Global,
    wire: &mut Wire<Packet, L>,
    kernel: Kernel,
    tx: TxNo,
    port: u32,
    sending: Sending,
    sent: &mut Items<Sent>,
) -> Result<(), NoMemory>
    requires free { is_free wire.old.machine kernel port ≡ true }
    requires least { AreUsed wire.old.machine kernel port }
    requires number { tx ≡ next_of wire.old.machine }
    requires left { wire.old.machine.begun < 4294967295 }
    ensures begun { OnOk result (BeginsIf L.faults L.asked kernel (goes_by None kernel sending) wire.old wire.new sent.old sent.new) }
    ensures asked { OnOk result (AskedMore L.faults L.asked kernel wire.old.link wire.new.link (packets sent.old) (packets sent.new)) }
{
    let Sending {
        to,
        tries,
        about: _about,
        body,
    } = sending;
    let Some(to) = other_than(kernel, to.as_slice()) else {
        return Err(NoMemory);
    };
    let about = body.about();
    let packet = Packet {
        from: kernel,
        to,
        tx,
        body: Body::Request(body),
    };
    let (tx, fate) = wire.begin(alloc, kernel, port, to, packet, tries, about)?;
    sent.push(Sent { tx, to, fate })
}

// The first kernel of the list, where that isn't this one.
fn other_than(kernel: Kernel, list: &[Kernel]) -> Option<Kernel>
    ensures is { result ≡ other_than kernel list.now }
    ensures apart { IfSome result (λ other. kernel ≡ other → ⊥) }
{
    match list {
        [first, ..] if *first != kernel => Some(*first),
        _ => None,
    }
}

// Asks the servers which of them has the domain of the path; the owner is to answer.
fn broadcast<L: Link>(
    alloc: Global,
    wire: &mut Wire<Packet, L>,
    kernel: Kernel,
    tx: TxNo,
    port: u32,
    owner: Kernel,
    sending: Sending,
    sent: &mut Items<Sent>,
) -> Result<(), NoMemory>
    requires free { is_free wire.old.machine kernel port ≡ true }
    requires least { AreUsed wire.old.machine kernel port }
    requires number { tx ≡ next_of wire.old.machine }
    requires left { wire.old.machine.begun < 4294967295 }
    ensures begun { OnOk result (BeginsIf L.faults L.asked kernel (goes_by (Some owner) kernel sending) wire.old wire.new sent.old sent.new) }
    ensures asked { OnOk result (AskedMore L.faults L.asked kernel wire.old.link wire.new.link (packets sent.old) (packets sent.new)) }
{
    let Sending {
        to,
        tries: _tries,
        about: _about,
        body,
    } = sending;
    let servers = to.as_slice();
    if !may_go_to(servers, kernel, owner) {
        return Err(NoMemory);
    }
    let about = body.about();
    let packet = Packet {
        from: kernel,
        to: least_of(servers, owner),
        tx,
        body: Body::Request(body),
    };
    let (tx, fates) = wire.broadcast(alloc, kernel, port, servers, owner, packet, about)?;
    put_all(sent, tx, servers, fates.as_slice())
}

// Notes the packets of a broadcast.
#[tactic(auto, using(crate::proofs::CallLaws::sent_first))]
fn put_all(
    sent: &mut Items<Sent>,
    tx: TxNo,
    servers: &[Kernel],
    fates: &[Fate],
) -> Result<(), NoMemory>
    ensures { OnOk result (sent.new ≡ sent.old ++ map (sent_as tx) (pairs servers.now fates.now)) }
{
    let [to, servers @ ..] = servers else {
        return Ok(());
    };
    let [fate, fates @ ..] = fates else {
        return Ok(());
    };
    sent.push(Sent {
        tx,
        to: *to,
        fate: *fate,
    })?;
    put_all(sent, tx, servers, fates)
}

/// Answers in their order, which takes the answers out of the list, and tells of each reply where it goes and what the link made of
/// it. The one error is want of memory; it is also the answer where the kernel isn't the one that is to answer a call, wasn't handed its
/// request or has answered it, which never comes: so all answers go out.
pub fn answer_all<L: Link>(
    alloc: Global,
    wire: &mut Wire<Packet, L>,
    kernel: Kernel,
    answers: &mut Items<(TxNo, ReplyBody)>,
) -> Result<Items<(Kernel, Fate)>, NoMemory>
    ensures answered { IfOk result (Answered L.faults L.asked kernel answers.old wire.old wire.new) }
    ensures asked { IfOk result (λ answered. Asks L.faults L.asked kernel wire.old.link wire.new.link answered) }
{
    let mut answered = Items::new(alloc);
    'answers: while !answers.is_empty() {
        let (tx, body) = answers.remove(0);
        answer(alloc, wire, kernel, tx, body, &mut answered)?;
    }
    Ok(answered)
}

// Answers a remote call that the kernel was asked and has not answered. Want of memory is also the answer where no one waits for it.
#[tactic(auto, using(crate::proofs::ReplyLaws::answer_goes, crate::proofs::ReplyLaws::answer_asks, crate::proofs::LinkLaws::one_more))]
fn answer<L: Link>(
    alloc: Global,
    wire: &mut Wire<Packet, L>,
    kernel: Kernel,
    tx: TxNo,
    body: ReplyBody,
    answered: &mut Items<(Kernel, Fate)>,
) -> Result<(), NoMemory>
    ensures answered { OnOk result (AnswersIf L.faults L.asked (goes_back kernel wire.old.machine (tx, body)) wire.old wire.new answered.old answered.new) }
    ensures asked { OnOk result (AskedMore L.faults L.asked kernel wire.old.link wire.new.link answered.old answered.new) }
{
    let Some(to) = asker(wire, kernel, tx) else {
        return Err(NoMemory);
    };
    let packet = Packet {
        from: kernel,
        to,
        tx,
        body: Body::Reply(body),
    };
    let fate = wire.answer(alloc, tx, packet)?;
    answered.push((to, fate))
}

// Who waits for the kernel's answer to the call; None exactly where the kernel has no such call to answer.
fn asker<L: Link>(wire: &Wire<Packet, L>, kernel: Kernel, tx: TxNo) -> Option<Kernel>
    ensures is { result ≡ asker kernel wire.now.machine tx }
    ensures may { IfSome result (λ _. may_answer wire.now.machine tx ≡ true) }
{
    let may = wire.may_answer(tx);
    match wire.call(tx) {
        Some(call) if may && call.owner == kernel => Some(call.from),
        _ => None,
    }
}
