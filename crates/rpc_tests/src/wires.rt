use kernel_rpc::{CallState, Delivered, Expired, Wire};
use link_plan::{Fate, Link, Plan, PlanEntry, PlanLink};
use sprite_ids::{Bytes, CopyNo, Items, Kernel, NoMemory, Tries, TxNo};
use std::alloc::Global;
use std::process::Abort;

// What is done to the wire. Kernel 1 calls, and kernel 2 answers.
#[derive(Clone, Copy)]
enum Act {
    // Begins a call of so many tries.
    Begin(Tries),
    // Takes the copy of that number to its receiver.
    Deliver(u64),
    // Answers the call of that number.
    Answer(u32),
    // The timer of the call of that number fires.
    Expire(u32),
    // Asks how many copies may come to kernel 2.
    Offered,
    // Asks whether the copy of the second number may come to the kernel of the first one.
    Comes(u8, u64),
    // Kernel 1 asks kernels 2 and 3, of which 3 is to answer.
    Broadcast,
    // Asks whether the owner of the call of that number has it, and so may answer.
    MayAnswer(u32),
    // Kernel 2 can't answer the call of that number.
    Silent(u32),
    // Asks how many timers of kernel 1 may fire.
    Due,
    // Asks whether nothing moves.
    Quiet,
    // Asks how the call of that number stands.
    State(u32),
}

// What is then seen.
#[derive(Clone, Copy, PartialEq, Eq)]
enum Seen {
    Sent(Fate),
    Request,
    Reply,
    Again(Fate),
    Old,
    GivenUp(u64, u64),
    Copies(usize),
    Comes(bool),
    MayAnswer(bool),
    Timers(usize),
    Quiet(bool),
    State(Option<CallState>),
}

// The first reply is lost, and the second packet of kernel 1 is doubled.
static REPEATED: [(Act, Seen); 12] = [
    (Act::Begin(Tries::Always), Seen::Sent(Fate::Once)),
    (Act::Offered, Seen::Copies(1)),
    (Act::Deliver(1), Seen::Request),
    (Act::Answer(1), Seen::Sent(Fate::Lost)),
    (Act::Expire(1), Seen::Sent(Fate::Twice)),
    (Act::Offered, Seen::Copies(2)),
    (Act::Deliver(5), Seen::Again(Fate::Once)),
    (Act::Deliver(7), Seen::Reply),
    (Act::Deliver(6), Seen::Old),
    (Act::Offered, Seen::Copies(0)),
    (Act::Begin(Tries::Eight), Seen::Sent(Fate::Once)),
    (Act::Deliver(9), Seen::Request),
];

// Every packet of kernel 1 is lost.
static GIVEN_UP: [(Act, Seen); 9] = [
    (Act::Begin(Tries::Eight), Seen::Sent(Fate::Lost)),
    (Act::Expire(1), Seen::Sent(Fate::Lost)),
    (Act::Expire(1), Seen::Sent(Fate::Lost)),
    (Act::Expire(1), Seen::Sent(Fate::Lost)),
    (Act::Expire(1), Seen::Sent(Fate::Lost)),
    (Act::Expire(1), Seen::Sent(Fate::Lost)),
    (Act::Expire(1), Seen::Sent(Fate::Lost)),
    (Act::Expire(1), Seen::Sent(Fate::Lost)),
    (Act::Expire(1), Seen::GivenUp(0, 8)),
];

// The first packet of kernel 1 to kernel 3 is lost. That kernel 2 has the call lets nobody answer.
static BROADCAST: [(Act, Seen); 18] = [
    (Act::Quiet, Seen::Quiet(true)),
    (Act::Broadcast, Seen::Sent(Fate::Once)),
    (Act::Due, Seen::Timers(0)),
    (Act::Deliver(1), Seen::Request),
    (Act::State(1), Seen::State(Some(CallState::Taken))),
    (Act::MayAnswer(1), Seen::MayAnswer(false)),
    (Act::Silent(1), Seen::Copies(0)),
    (Act::Due, Seen::Timers(1)),
    (Act::Quiet, Seen::Quiet(false)),
    (Act::Expire(1), Seen::Sent(Fate::Once)),
    (Act::Deliver(5), Seen::Old),
    (Act::Deliver(7), Seen::Request),
    (Act::MayAnswer(1), Seen::MayAnswer(true)),
    (Act::Answer(1), Seen::Sent(Fate::Once)),
    (Act::MayAnswer(1), Seen::MayAnswer(false)),
    (Act::Deliver(9), Seen::Reply),
    (Act::State(1), Seen::State(Some(CallState::Done))),
    (Act::Quiet, Seen::Quiet(true)),
];

// Of the packets from kernel 1 to kernel 2 the first and the third are late, the fourth and the fifth doubled, and the sixth and
// the seventh late; of those from kernel 2 to kernel 1 the first, the second and the fifth are late. Each packet takes two numbers
// of copies.
static LATE: [(Act, Seen); 71] = [
    // A late request stays behind a request of another call to the same kernel.
    (Act::Begin(Tries::Always), Seen::Sent(Fate::Late)),
    (Act::Offered, Seen::Copies(1)),
    (Act::Comes(2, 1), Seen::Comes(true)),
    (Act::Broadcast, Seen::Sent(Fate::Once)),
    (Act::Offered, Seen::Copies(1)),
    (Act::Comes(2, 1), Seen::Comes(false)),
    (Act::Comes(2, 3), Seen::Comes(true)),
    (Act::Due, Seen::Timers(0)),
    // Then it may come, and is the request.
    (Act::Deliver(3), Seen::Request),
    (Act::Offered, Seen::Copies(1)),
    (Act::Comes(2, 1), Seen::Comes(true)),
    (Act::State(1), Seen::State(Some(CallState::Sent))),
    (Act::Deliver(1), Seen::Request),
    (Act::State(1), Seen::State(Some(CallState::Taken))),
    // A late reply stays behind the reply of another server.
    (Act::Answer(1), Seen::Sent(Fate::Late)),
    (Act::Comes(1, 7), Seen::Comes(true)),
    (Act::Deliver(5), Seen::Request),
    (Act::Answer(2), Seen::Sent(Fate::Once)),
    (Act::Comes(1, 7), Seen::Comes(false)),
    (Act::Comes(1, 9), Seen::Comes(true)),
    (Act::Deliver(9), Seen::Reply),
    (Act::Comes(1, 7), Seen::Comes(true)),
    (Act::State(1), Seen::State(Some(CallState::Answered))),
    (Act::Due, Seen::Timers(0)),
    (Act::Deliver(7), Seen::Reply),
    (Act::State(1), Seen::State(Some(CallState::Done))),
    (Act::Quiet, Seen::Quiet(true)),
    // A copy for another kernel doesn't hold a late request back. This one comes after its call is done, and is old.
    (Act::Broadcast, Seen::Sent(Fate::Late)),
    (Act::Comes(2, 11), Seen::Comes(true)),
    (Act::Deliver(13), Seen::Request),
    (Act::Answer(3), Seen::Sent(Fate::Once)),
    (Act::Deliver(15), Seen::Reply),
    (Act::State(3), Seen::State(Some(CallState::Done))),
    (Act::Due, Seen::Timers(0)),
    (Act::Quiet, Seen::Quiet(false)),
    (Act::Comes(2, 11), Seen::Comes(true)),
    (Act::Deliver(11), Seen::Old),
    (Act::Quiet, Seen::Quiet(true)),
    // A late reply is overtaken by the one that answers the repeated request, and is old.
    (Act::Begin(Tries::Always), Seen::Sent(Fate::Twice)),
    (Act::Offered, Seen::Copies(2)),
    (Act::Deliver(17), Seen::Request),
    (Act::Answer(4), Seen::Sent(Fate::Late)),
    (Act::Comes(1, 19), Seen::Comes(true)),
    (Act::Deliver(18), Seen::Again(Fate::Once)),
    (Act::Comes(1, 19), Seen::Comes(false)),
    (Act::Deliver(21), Seen::Reply),
    (Act::Comes(1, 19), Seen::Comes(true)),
    (Act::Quiet, Seen::Quiet(false)),
    (Act::Deliver(19), Seen::Old),
    (Act::Quiet, Seen::Quiet(true)),
    // The one that answers the repeated request is late itself, and is old.
    (Act::Begin(Tries::Always), Seen::Sent(Fate::Twice)),
    (Act::Deliver(24), Seen::Request),
    (Act::Answer(5), Seen::Sent(Fate::Once)),
    (Act::Deliver(23), Seen::Again(Fate::Late)),
    (Act::Comes(1, 27), Seen::Comes(false)),
    (Act::Deliver(25), Seen::Reply),
    (Act::Comes(1, 27), Seen::Comes(true)),
    (Act::State(5), Seen::State(Some(CallState::Done))),
    (Act::Deliver(27), Seen::Old),
    (Act::Quiet, Seen::Quiet(true)),
    // Where all copies for a kernel are late, each of them may come first.
    (Act::Begin(Tries::Eight), Seen::Sent(Fate::Late)),
    (Act::Broadcast, Seen::Sent(Fate::Late)),
    (Act::Offered, Seen::Copies(2)),
    (Act::Comes(2, 29), Seen::Comes(true)),
    (Act::Comes(2, 31), Seen::Comes(true)),
    (Act::Deliver(31), Seen::Request),
    (Act::Comes(2, 29), Seen::Comes(true)),
    (Act::Deliver(29), Seen::Request),
    (Act::Offered, Seen::Copies(0)),
    (Act::Answer(6), Seen::Sent(Fate::Once)),
    (Act::Deliver(35), Seen::Reply),
];

// Begins a call of kernel 1 to kernel 2.
fn begin(alloc: Global, wire: &mut Wire<Bytes, PlanLink>, tries: Tries) -> Option<Seen> {
    let from = Kernel::new(1)?;
    let to = Kernel::new(2)?;
    if from == to || !wire.is_free(from, 7) || wire.begun() == u32::MAX {
        return None;
    }
    let Ok(body) = Bytes::of_slice(alloc, b"ask") else {
        return None;
    };
    match wire.begin(alloc, from, 7, to, body, tries, None) {
        Ok((_tx, fate)) => Some(Seen::Sent(fate)),
        Err(_) => None,
    }
}

// Begins a broadcast; the fate is that of the packet to kernel 2.
fn broadcast(alloc: Global, wire: &mut Wire<Bytes, PlanLink>) -> Option<Seen> {
    let from = Kernel::new(1)?;
    let other = Kernel::new(2)?;
    let owner = Kernel::new(3)?;
    let Ok(port) = wire.free_port(alloc, from) else {
        return None;
    };
    if from == other || from == owner || other == owner || wire.begun() == u32::MAX {
        return None;
    }
    let Ok(body) = Bytes::of_slice(alloc, b"ask") else {
        return None;
    };
    match wire.broadcast(alloc, from, port, &[other, owner], owner, body, None) {
        Ok((_tx, fates)) => first_of_two(fates.as_slice()),
        Err(_) => None,
    }
}

// What is seen of two packets, the first of which has that fate.
fn first_of_two(fates: &[Fate]) -> Option<Seen> {
    match fates {
        [fate, _] => Some(Seen::Sent(*fate)),
        _ => None,
    }
}

// Asks how many copies may come to kernel 2.
fn offered(wire: &Wire<Bytes, PlanLink>) -> Option<Seen> {
    let kernel = Kernel::new(2)?;
    Some(Seen::Copies(wire.copies_offered(kernel)))
}

// Asks whether the copy may come to the kernel next.
fn comes(wire: &Wire<Bytes, PlanLink>, kernel: u8, copy: CopyNo) -> Option<Seen> {
    let kernel = Kernel::new(kernel)?;
    for place in 0..wire.copies_offered(kernel) {
        if wire.copy_offered(kernel, place) == Some(copy) {
            return Some(Seen::Comes(true));
        }
    }
    Some(Seen::Comes(false))
}

// Asks how many timers of kernel 1 may fire, each at its place.
fn due(wire: &Wire<Bytes, PlanLink>) -> Option<Seen> {
    let kernel = Kernel::new(1)?;
    let count = wire.timers_due(kernel);
    for place in 0..count {
        let _call = wire.timer_due(kernel, place)?;
    }
    Some(Seen::Timers(count))
}

// Kernel 2 goes silent.
fn silent(wire: &mut Wire<Bytes, PlanLink>, tx: TxNo) -> Option<Seen> {
    let kernel = Kernel::new(2)?;
    if !wire.may_be_silent(tx, kernel) {
        return None;
    }
    wire.silent(tx, kernel);
    Some(Seen::Copies(0))
}

// What is seen of the body, where it is that text.
fn told(body: &Bytes, text: &[u8], seen: Seen) -> Option<Seen> {
    if body.as_slice() == text {
        Some(seen)
    } else {
        None
    }
}

// What is seen of a copy that has come.
fn delivered(delivered: &Delivered<Bytes>) -> Option<Seen> {
    match delivered {
        Delivered::Request(_tx, body) => told(body, b"ask", Seen::Request),
        Delivered::Reply(_tx, body) => told(body, b"yes", Seen::Reply),
        Delivered::Repeated(_tx, fate) => Some(Seen::Again(*fate)),
        Delivered::Old => Some(Seen::Old),
    }
}

// Takes a copy to its receiver.
fn deliver(alloc: Global, wire: &mut Wire<Bytes, PlanLink>, copy: CopyNo) -> Option<Seen> {
    if !wire.is_in_flight(copy) {
        return None;
    }
    match wire.deliver(alloc, copy) {
        Ok(came) => delivered(&came),
        Err(_) => None,
    }
}

// Answers a call.
fn answer(alloc: Global, wire: &mut Wire<Bytes, PlanLink>, tx: TxNo) -> Option<Seen> {
    if !wire.may_answer(tx) {
        return None;
    }
    let Ok(body) = Bytes::of_slice(alloc, b"yes") else {
        return None;
    };
    match wire.answer(alloc, tx, body) {
        Ok(fate) => Some(Seen::Sent(fate)),
        Err(_) => None,
    }
}

// What is seen of a call whose timer has fired.
fn expired(expired: &Expired) -> Seen {
    match expired {
        Expired::Resent(sent) => match sent.as_slice().first() {
            Some(packet) => Seen::Sent(packet.1),
            None => Seen::Copies(0),
        },
        Expired::GivenUp { before, now } => Seen::GivenUp(*before, *now),
    }
}

// Lets the timer of a call fire.
fn expire(alloc: Global, wire: &mut Wire<Bytes, PlanLink>, tx: TxNo) -> Option<Seen> {
    if !wire.may_expire(tx) {
        return None;
    }
    match wire.expire(alloc, tx) {
        Ok(end) => Some(expired(&end)),
        Err(_) => None,
    }
}

// Does one thing to the wire; None where it can't be done, or memory is wanting.
fn perform(alloc: Global, wire: &mut Wire<Bytes, PlanLink>, act: Act) -> Option<Seen> {
    match act {
        Act::Begin(tries) => begin(alloc, wire, tries),
        Act::Deliver(copy) => deliver(alloc, wire, CopyNo(copy)),
        Act::Answer(tx) => answer(alloc, wire, TxNo(tx)),
        Act::Expire(tx) => expire(alloc, wire, TxNo(tx)),
        Act::Offered => offered(wire),
        Act::Comes(kernel, copy) => comes(wire, kernel, CopyNo(copy)),
        Act::Broadcast => broadcast(alloc, wire),
        Act::MayAnswer(tx) => Some(Seen::MayAnswer(wire.may_answer(TxNo(tx)))),
        Act::Silent(tx) => silent(wire, TxNo(tx)),
        Act::Due => due(wire),
        Act::Quiet => Some(Seen::Quiet(wire.quiet())),
        Act::State(tx) => Some(Seen::State(wire.state_of(TxNo(tx)))),
    }
}

// The place of the first act after which something else is seen.
fn first_wrong(
    alloc: Global,
    wire: &mut Wire<Bytes, PlanLink>,
    acts: &[(Act, Seen)],
) -> Option<usize> {
    for (at, (act, seen)) in acts.iter().enumerate() {
        if perform(alloc, wire, *act) != Some(*seen) {
            return Some(at);
        }
    }
    None
}

// A link's faults: from that kernel to that one, from that packet on, so many of them, with that fate.
type Fault = (u8, u8, u32, u32, Fate);

// A plan of these faults.
fn plan(alloc: Global, faults: &[Fault]) -> Result<Plan, NoMemory> {
    let mut entries = Items::new(alloc);
    for fault in faults {
        entries.push(PlanEntry {
            from: Kernel::new(fault.0),
            to: Kernel::new(fault.1),
            first: fault.2,
            every: 1,
            count: fault.3,
            fate: fault.4,
        })?;
    }
    Ok(Plan { entries })
}

// A link that makes these faults.
fn link(alloc: Global, faults: &[Fault]) -> Result<PlanLink, NoMemory> {
    let plan = plan(alloc, faults)?;
    let mut link = PlanLink::new(alloc);
    link.load(alloc, &plan)?;
    Ok(link)
}

// The same over a link that makes these faults.
fn first_wrong_over(alloc: Global, faults: &[Fault], acts: &[(Act, Seen)]) -> Option<usize> {
    let Ok(link) = link(alloc, faults) else {
        return Some(0);
    };
    match Wire::new(alloc, link) {
        Ok(mut wire) => first_wrong(alloc, &mut wire, acts),
        Err(_) => Some(0),
    }
}

// Asserts that no act is seen otherwise, and tells the place of the one that is.
fn is_none(rt: &impl Abort, wrong: Option<usize>) {
    assert_eq!(rt; wrong, None);
}

#[test]
fn a_repeated_request_is_answered_again(rt: HostRuntime) {
    let faults = [(2, 1, 1, 1, Fate::Lost), (1, 2, 2, 1, Fate::Twice)];
    is_none(&rt, first_wrong_over(rt.alloc(), &faults, &REPEATED));
}

#[test]
fn an_echo_is_given_up_after_eight_tries(rt: HostRuntime) {
    let faults = [(1, 2, 1, 100, Fate::Lost)];
    is_none(&rt, first_wrong_over(rt.alloc(), &faults, &GIVEN_UP));
}

#[test]
fn a_broadcast_is_answered_by_its_owner(rt: HostRuntime) {
    let faults = [(1, 3, 1, 1, Fate::Lost)];
    is_none(&rt, first_wrong_over(rt.alloc(), &faults, &BROADCAST));
}

#[test]
fn a_late_copy_goes_behind_the_others(rt: HostRuntime) {
    let faults = [
        (1, 2, 1, 1, Fate::Late),
        (1, 2, 3, 1, Fate::Late),
        (1, 2, 4, 2, Fate::Twice),
        (1, 2, 6, 2, Fate::Late),
        (2, 1, 1, 2, Fate::Late),
        (2, 1, 5, 1, Fate::Late),
    ];
    is_none(&rt, first_wrong_over(rt.alloc(), &faults, &LATE));
}
