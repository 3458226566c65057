ghost use Rattle.std.specs.Prelude.{◌≡◌, ◌≤◌, ◌<◌, ◌+◌, ◌*◌, ◌^◌, ◌++◌, ◌∷◌, [], Some, IfOk, OnOk, OnErr, IsTrue, IsSome, length, map, option_map, slice_index, slice_set};
ghost use Rattle.std.specs.List.{find, position, remove};
ghost use Rattle.std.specs.Vec.{vec_capacity, vec_len};
ghost use Rattle.link_plan.specs.Counts.{Asks, IsAsked};
ghost use Rattle.kernel_rpc.specs.Machine.{answer, arrival_again, arrival_at, arrival_of, begun, delivered_as, gave_up, call_of, idle, is_call, is_copy, landed, replied, reply_to, request, resent, silent};
ghost use Rattle.link_plan.specs.declared.Fate.TheVariants.{Once};
ghost use Rattle.kernel_rpc.specs.declared.call.Arrival.TheVariants.{FirstRequest, FirstReply, AskedAgain};
ghost use Rattle.kernel_rpc.specs.Links.{AsksAll, AsksBack};
ghost use Rattle.kernel_rpc.specs.Table.{Stands, counts_of, machine_of};

use crate::call::{Arrival, Call, PacketCopy, Part};
use crate::calls::{lost_more, place_of};
use crate::copies::{land, make_room, send, send_to};
use crate::receivers::{part_of, set_part};
use link_plan::{Fate, Link};
use sprite_ids::{Bytes, CopyNo, Kernel, NoMemory, TxNo};
use std::alloc::Global;

// The calls that aren't finished and the copies in flight.
#[derive(Debug, Drop)]
pub(crate) struct CallTable {
    // How many calls were begun.
    pub(crate) begun: u32,
    // In ascending order of their numbers.
    pub(crate) unfinished: Vec<Call>,
    // How many copies of each of them are in flight, in the same order.
    pub(crate) flying: Vec<usize>,
    // The calls that were given up, in this order.
    pub(crate) given_up: Vec<TxNo>,
    // In the order of sending, so their numbers rise.
    pub(crate) copies: Vec<PacketCopy>,
    // At least 1, and greater than the number of every copy so far.
    pub(crate) next_copy: u64,
}

impl CallTable {
    // No calls.
    pub(crate) fn new(alloc: Global) -> CallTable
        ensures machine { machine_of result ≡ idle }
        ensures counted { result.flying.items ≡ [] }
    {
        CallTable {
            begun: 0,
            unfinished: Vec::new(alloc),
            flying: Vec::new(alloc),
            given_up: Vec::new(alloc),
            copies: Vec::new(alloc),
            next_copy: 1,
        }
    }
}

// The packet of a call's request to one of its receivers.
fn request(call: &Call, number: u64, to: Kernel) -> PacketCopy
    ensures { result ≡ request call.now number to }
{
    PacketCopy {
        number: CopyNo(number),
        tx: call.tx,
        from: call.from,
        to,
        reply: false,
        late: false,
        about: call.about,
    }
}

// The packet of a call's reply.
fn reply_to(call: &Call, number: u64) -> PacketCopy
    ensures { result ≡ reply_to call.now number }
{
    PacketCopy {
        number: CopyNo(number),
        tx: call.tx,
        from: call.owner,
        to: call.from,
        reply: true,
        late: false,
        about: call.about,
    }
}

// What a request is to a receiver, by how far that is and by the kept reply.
fn arrival_at(part: Option<Part>, reply: &Option<Bytes>) -> Arrival
    ensures { result ≡ arrival_at part reply.now }
{
    match part {
        Some(Part::Waiting) => Arrival::FirstRequest,
        Some(Part::Answered) => arrival_again(reply),
        Some(Part::Holding) | Some(Part::Silent) | None => Arrival::Past,
    }
}

// What a request is to a receiver that has answered, by the kept reply.
fn arrival_again(reply: &Option<Bytes>) -> Arrival
    ensures { result ≡ arrival_again reply.now }
{
    match reply {
        Some(_) => Arrival::AskedAgain,
        None => Arrival::Past,
    }
}

// What a copy of an unfinished call is to its receiver.
pub(crate) fn arrival_to(call: &Call, copy: &PacketCopy) -> Arrival
    ensures { result ≡ arrival_of copy.now (Some call.now) }
{
    if !copy.reply {
        let part = part_of(call.receivers.as_slice(), copy.to);
        return arrival_at(part, &call.reply);
    }
    match call.reply {
        Some(_) => Arrival::FirstReply,
        None => Arrival::Past,
    }
}

// A copy of the call that stands there landed.
pub(crate) fn arrive(table: &mut CallTable, at: usize, copy: &PacketCopy)
    requires stands { Stands table.old }
    requires place { position (is_call copy.now.tx) table.old.unfinished.items ≡ Some at }
    requires flying { find (is_copy copy.now.number) table.old.copies.items ≡ Some copy.now }
    ensures machine { machine_of table.new ≡ landed copy.now (machine_of table.old) }
    ensures stands { Stands table.new }
    ensures len { vec_len table.new.copies ≤ vec_len table.old.copies }
    ensures capacity { vec_capacity table.new.copies ≡ vec_capacity table.old.copies }
{
    land(&mut table.copies, copy.number);
    let flying = table.flying[at];
    table.flying[at] = flying.saturating_sub(1);
}

// The copy came to a receiver that had no copy of the request.
pub(crate) fn take_request(table: &mut CallTable, at: usize, copy: &PacketCopy)
    requires stands { Stands table.old }
    requires place { position (is_call copy.now.tx) table.old.unfinished.items ≡ Some at }
    requires flying { find (is_copy copy.now.number) table.old.copies.items ≡ Some copy.now }
    ensures machine { machine_of table.new ≡ delivered_as FirstRequest copy.now Once (landed copy.now (machine_of table.old)) }
    ensures counted { table.new.flying.items ≡ counts_of table.new.copies.items table.new.unfinished.items }
{
    arrive(table, at, copy);
    let call = &mut table.unfinished[at];
    set_part(&mut call.receivers, copy.to, Part::Holding);
}

// The copy came to a caller that had no copy of the reply.
pub(crate) fn take_reply(table: &mut CallTable, at: usize, copy: &PacketCopy)
    requires stands { Stands table.old }
    requires place { position (is_call copy.now.tx) table.old.unfinished.items ≡ Some at }
    requires flying { find (is_copy copy.now.number) table.old.copies.items ≡ Some copy.now }
    ensures machine { machine_of table.new ≡ delivered_as FirstReply copy.now Once (landed copy.now (machine_of table.old)) }
    ensures counted { table.new.flying.items ≡ counts_of table.new.copies.items table.new.unfinished.items }
{
    arrive(table, at, copy);
    finish(table, at);
}

// The call that stands there is finished.
fn finish(table: &mut CallTable, at: usize)
    requires inside { at < length table.old.unfinished.items }
    requires counted { table.old.flying.items ≡ counts_of table.old.copies.items table.old.unfinished.items }
    ensures machine { machine_of table.new ≡ record (machine_of table.old) { unfinished = remove table.old.unfinished.items at } }
    ensures counted { table.new.flying.items ≡ counts_of table.new.copies.items table.new.unfinished.items }
{
    table.unfinished.remove(at);
    table.flying.remove(at);
}

// The copy came to a receiver that has answered; the reply is sent again. Answers its fate.
pub(crate) fn take_again<L: Link>(
    table: &mut CallTable,
    link: &mut L,
    at: usize,
    copy: &PacketCopy,
) -> Result<Fate, NoMemory>
    requires stands { Stands table.old }
    requires place { position (is_call copy.now.tx) table.old.unfinished.items ≡ Some at }
    requires flying { find (is_copy copy.now.number) table.old.copies.items ≡ Some copy.now }
    ensures link { IfOk result (λ answer. AsksBack L.faults L.asked link.old link.new answer (call_of (machine_of table.old) copy.now.tx)) }
    ensures ok { IfOk result (λ answer. machine_of table.new ≡ delivered_as AskedAgain copy.now answer (landed copy.now (machine_of table.old))) }
    ensures counted { table.new.flying.items ≡ counts_of table.new.copies.items table.new.unfinished.items }
    ensures err { OnErr result (machine_of table.new ≡ machine_of table.old) }
    ensures asks_nothing { OnErr result (link.new ≡ link.old) }
{
    make_room(&mut table.copies, table.next_copy, 1)?;
    arrive(table, at, copy);
    Ok(reply(table, link, copy.tx, at))
}

// The owner of a call answered, and the reply is sent. Answers its fate.
pub(crate) fn answer<L: Link>(
    table: &mut CallTable,
    link: &mut L,
    tx: TxNo,
    bytes: Bytes,
) -> Result<Fate, NoMemory>
    requires stands { Stands table.old }
    requires there { IsSome (call_of (machine_of table.old) tx) }
    ensures link { IfOk result (λ fate. AsksBack L.faults L.asked link.old link.new fate (call_of (machine_of table.old) tx)) }
    ensures ok { IfOk result (λ fate. machine_of table.new ≡ answer tx bytes fate (machine_of table.old)) }
    ensures counted { table.new.flying.items ≡ counts_of table.new.copies.items table.new.unfinished.items }
    ensures err { OnErr result (machine_of table.new ≡ machine_of table.old) }
    ensures asks_nothing { OnErr result (link.new ≡ link.old) }
{
    let at = place(table, tx);
    make_room(&mut table.copies, table.next_copy, 1)?;
    let fate = reply(table, link, tx, at);
    let call = &mut table.unfinished[at];
    set_part(&mut call.receivers, call.owner, Part::Answered);
    call.reply = Some(bytes);
    Ok(fate)
}

// Where an unfinished call stands.
fn place(table: &CallTable, tx: TxNo) -> usize
    requires stands { Stands table.now }
    requires there { IsSome (call_of (machine_of table.now) tx) }
    ensures { position (is_call tx) table.now.unfinished.items ≡ Some result }
{
    match place_of(table.unfinished.as_slice(), tx) {
        Some(at) => at,
        None => unreachable!(),
    }
}

// A receiver of an unfinished call went silent.
pub(crate) fn silence(table: &mut CallTable, tx: TxNo, kernel: Kernel)
    requires stands { Stands table.old }
    requires there { IsSome (call_of (machine_of table.old) tx) }
    ensures machine { machine_of table.new ≡ silent tx kernel (machine_of table.old) }
    ensures counted { table.new.flying.items ≡ counts_of table.new.copies.items table.new.unfinished.items }
{
    let at = place(table, tx);
    let call = &mut table.unfinished[at];
    set_part(&mut call.receivers, kernel, Part::Silent);
}

// The call was given up.
pub(crate) fn give_up(table: &mut CallTable, tx: TxNo) -> Result<(), NoMemory>
    requires stands { Stands table.old }
    requires there { IsSome (call_of (machine_of table.old) tx) }
    ensures ok { OnOk result (machine_of table.new ≡ gave_up tx (machine_of table.old)) }
    ensures counted { table.new.flying.items ≡ counts_of table.new.copies.items table.new.unfinished.items }
    ensures err { OnErr result (machine_of table.new ≡ machine_of table.old) }
{
    let at = place(table, tx);
    table.given_up.extend_from_slice(&[tx])?;
    finish(table, at);
    Ok(())
}

// Lists a call that is begun, and how many of its copies are in flight. There is room for both.
fn list(table: &mut CallTable, call: Call, flying: usize)
    requires calls { vec_len table.old.unfinished < vec_capacity table.old.unfinished }
    requires counts { vec_len table.old.flying < vec_capacity table.old.flying }
    ensures calls { machine_of table.new ≡ record (machine_of table.old) { unfinished = table.old.unfinished.items ++ call ∷ [] } }
    ensures counts { table.new.flying.items ≡ table.old.flying.items ++ flying ∷ [] }
{
    match table.unfinished.push(call) {
        Ok(()) => {}
        Err(_) => unreachable!(),
    }
    match table.flying.push(flying) {
        Ok(()) => {}
        Err(_) => unreachable!(),
    }
}

// Begins the call, and sends its request to its receivers in turn. Answers these with the fates of their packets.
pub(crate) fn begin<L: Link>(
    table: &mut CallTable,
    alloc: Global,
    link: &mut L,
    call: Call,
) -> Result<Vec<(Kernel, Fate)>, NoMemory>
    requires numbers { table.old.begun < 4294967295 }
    requires stands { Stands table.old }
    requires next { call.tx.0 ≡ table.old.begun + 1 }
    ensures ok { IfOk result (λ sent. machine_of table.new ≡ begun call sent.items (machine_of table.old)) }
    ensures counted { table.new.flying.items ≡ counts_of table.new.copies.items table.new.unfinished.items }
    ensures receivers { IfOk result (λ sent. map (λ packet. packet.0) sent.items ≡ map (λ receiver. receiver.kernel) call.receivers) }
    ensures link { IfOk result (λ sent. Asks L.faults L.asked call.from link.old link.new sent.items) }
    ensures err { OnErr result (machine_of table.new ≡ machine_of table.old) }
    ensures asks_nothing { OnErr result (link.new ≡ link.old) }
{
    let count = call.receivers.len();
    make_room(&mut table.copies, table.next_copy, count)?;
    table.unfinished.reserve(1)?;
    table.flying.reserve(1)?;
    let mut sent = Vec::with_capacity(alloc, count)?;
    let packet = request(&call, table.next_copy, call.owner);
    let before = table.copies.len();
    send_to(
        link,
        &mut table.copies,
        &packet,
        call.receivers.as_slice(),
        &mut sent,
    );
    table.next_copy += 2 * (count as u64);
    table.begun += 1;
    let flying = table.copies.len() - before;
    list(table, call, flying);
    Ok(sent)
}

// Sends the request of an unfinished call again to its receivers in turn, after a lost try that wasn't the last one. Answers
// these with the fates of their packets.
pub(crate) fn resend<L: Link>(
    table: &mut CallTable,
    alloc: Global,
    link: &mut L,
    tx: TxNo,
) -> Result<Vec<(Kernel, Fate)>, NoMemory>
    requires stands { Stands table.old }
    requires there { IsSome (call_of (machine_of table.old) tx) }
    ensures link { IfOk result (λ sent. AsksAll L.faults L.asked link.old link.new sent.items (call_of (machine_of table.old) tx)) }
    ensures ok { IfOk result (λ sent. machine_of table.new ≡ resent tx (call_of (machine_of table.old) tx) sent.items (machine_of table.old)) }
    ensures counted { table.new.flying.items ≡ counts_of table.new.copies.items table.new.unfinished.items }
    ensures err { OnErr result (machine_of table.new ≡ machine_of table.old) }
    ensures asks_nothing { OnErr result (link.new ≡ link.old) }
{
    let at = place(table, tx);
    let call = &table.unfinished[at];
    let receivers = call.receivers.as_slice();
    let count = receivers.len();
    make_room(&mut table.copies, table.next_copy, count)?;
    let mut sent = Vec::with_capacity(alloc, count)?;
    let packet = request(call, table.next_copy, call.owner);
    let before = table.copies.len();
    send_to(link, &mut table.copies, &packet, receivers, &mut sent);
    table.next_copy += 2 * (count as u64);
    let flying = table.flying[at];
    table.flying[at] = flying.saturating_add(table.copies.len() - before);
    let call = &mut table.unfinished[at];
    call.lost = lost_more(call.tries, call.lost);
    Ok(sent)
}

// Sends the reply of the unfinished call that stands there, for which there is room. Answers its fate.
pub(crate) fn reply<L: Link>(table: &mut CallTable, link: &mut L, tx: TxNo, at: usize) -> Fate
    requires stands { Stands table.old }
    requires place { position (is_call tx) table.old.unfinished.items ≡ Some at }
    requires room { vec_len table.old.copies + 2 ≤ vec_capacity table.old.copies }
    requires number { table.old.next_copy + 2 < 2 ^ 64 }
    ensures link { AsksBack L.faults L.asked link.old link.new result (call_of (machine_of table.old) tx) }
    ensures machine { machine_of table.new ≡ replied (call_of (machine_of table.old) tx) result (machine_of table.old) }
    ensures counted { table.new.flying.items ≡ counts_of table.new.copies.items table.new.unfinished.items }
{
    let packet = reply_to(&table.unfinished[at], table.next_copy);
    table.next_copy += 2;
    let before = table.copies.len();
    let fate = send(link, &mut table.copies, &packet);
    let flying = table.flying[at];
    table.flying[at] = flying.saturating_add(table.copies.len() - before);
    fate
}
