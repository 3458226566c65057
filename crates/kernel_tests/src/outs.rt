use kernel_steps::{Out, Sending};
use packet_bodies::{ReplyBody, Request};
use process_machine::Reply;
use sprite_ids::{Errno, Items, Kernel, NoMemory, Pid, Tries, TxNo};
use std::alloc::Global;
use unix_calls::{Event, SendKind};

// Begins a call to these two kernels.
fn sent(alloc: Global, out: &mut Out, first: Kernel, second: Kernel) -> Result<TxNo, NoMemory> {
    let mut to = Items::new(alloc);
    to.append(&[first, second])?;
    let sending = Sending {
        to,
        tries: Tries::Eight,
        about: None,
        body: Request::Echo,
    };
    out.send(alloc, sending, SendKind::Other)
}

// Whether the record says that a call of that number went to the kernel.
fn is_send(event: Option<&Event>, number: u32, kernel: Kernel) -> bool {
    match event {
        Some(Event::Send { tx, to, .. }) => tx.0 == number && *to == kernel,
        _ => false,
    }
}

// Whether two calls to two kernels each have their records in their order.
fn has_two_calls(out: &Out, first: Kernel, second: Kernel) -> bool {
    let events = out.events.as_slice();
    out.next == TxNo(9)
        && out.sends.len() == 2
        && events.len() == 4
        && is_send(events.get(0), 7, first)
        && is_send(events.get(1), 7, second)
        && is_send(events.get(2), 8, second)
        && is_send(events.get(3), 8, first)
}

// Whether calls are numbered, one after the other.
fn numbers(alloc: Global, first: Kernel, second: Kernel) -> bool {
    let mut out = Out::new(alloc, TxNo(7));
    sent(alloc, &mut out, first, second) == Ok(TxNo(7))
        && sent(alloc, &mut out, second, first) == Ok(TxNo(8))
        && has_two_calls(&out, first, second)
}

// Says an answer, a reply and a record; whether there was memory for them.
fn says_three(out: &mut Out, pid: Pid) -> bool {
    out.answer(TxNo(5), ReplyBody::Done).is_ok()
        && out.reply(pid, Reply::Error(Errno::Busy)).is_ok()
        && out
            .event(Event::Expire {
                tx: TxNo(5),
                last: false,
            })
            .is_ok()
}

// Whether an answer, a reply and a record stand each in its list, and nothing else does.
fn says(alloc: Global, pid: Pid) -> bool {
    let mut out = Out::new(alloc, TxNo(1));
    says_three(&mut out, pid)
        && out.next == TxNo(1)
        && out.sends.is_empty()
        && out.answers.len() == 1
        && out.replies.len() == 1
        && out.events.len() == 1
}

// Whether the last number is given to no call.
fn ends(alloc: Global, kernel: Kernel) -> bool {
    let mut out = Out::new(alloc, TxNo(u32::MAX));
    sent(alloc, &mut out, kernel, kernel) == Err(NoMemory)
        && out.events.is_empty()
        && out.sends.is_empty()
}

// Whether each of them is so, of kernels 2 and 3 and process 2001.
fn all_are_so(alloc: Global) -> bool {
    let (Some(first), Some(second)) = (Kernel::new(2), Kernel::new(3)) else {
        return false;
    };
    let Some(pid) = Pid::new(first, 1) else {
        return false;
    };
    numbers(alloc, first, second) && says(alloc, pid) && ends(alloc, first)
}

#[test]
fn a_step_says_one_thing_after_the_other(rt: HostRuntime) {
    assert!(rt; all_are_so(rt.alloc()));
}
