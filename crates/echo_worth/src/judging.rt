ghost use Rattle.std.specs.Prelude.{◌≡◌, IfOk, OnOk};
ghost use Rattle.unix_calls.specs.Lawful.{Lawful};
ghost use Rattle.echo_worth.specs.Parts.{tries_end};
ghost use Rattle.echo_worth.specs.Echoes.{ExpiresOn, GoesOn, KeepsOn, SendsOn, SendsOther, ends_well, may_be_sent, may_come};

use crate::echoes::{is_echo, is_limited, is_name_call};
use crate::kept::{
    Kept, count_sender, give_up, keep_echo, nothing_kept, put_limited, put_named, put_other,
    sender_count,
};
use crate::keys::{CallTo, OtherAt, Sender};
use sprite_ids::{Kernel, NoMemory};
use std::alloc::Global;
use trace_places::keep_place;
use trace_tables::{CallAt, call_of};
use unix_calls::{About, Description, Event, Rec, SendKind};

/// Whether each echo and each broadcast of the trace is given up at its eighth try and not before, and nothing goes to a kernel any
/// more for the sake of a call of which an echo there was given up (this project). The one error is want of memory.
pub fn tries_end(alloc: Global, c: &Description, trace: &[Rec]) -> Result<bool, NoMemory>
    requires { Lawful c.now }
    ensures { IfOk result (λ kept. kept ≡ tries_end c.now trace.now) }
{
    let mut kept = nothing_kept(alloc, c)?;
    for rec in trace {
        if !may_come(&kept, rec) {
            return Ok(false);
        }
        go_on(&mut kept, c, rec)?;
    }
    Ok(true)
}

// Whether the next record may come, by those before it.
fn may_come(kept: &Kept, rec: &Rec) -> bool
    ensures { result ≡ may_come kept.now rec.now.kernel rec.now.event }
{
    match &rec.event {
        Event::Expire { tx, last } => ends_well(
            kept,
            &Sender {
                kernel: rec.kernel,
                tx: *tx,
            },
            *last,
        ),
        Event::Send { to, about, .. } => may_be_sent(kept, *to, about),
        _ => true,
    }
}

// Whether a limited number's eighth try is its last, and no other is.
fn ends_well(kept: &Kept, at: &Sender, last: bool) -> bool
    ensures { result ≡ ends_well kept.now at.now last }
{
    if !kept.limited.contains(at) {
        return true;
    }
    let count = u128::from(sender_count(&kept.expires, at)) + 1;
    count <= 8 && (if last { count == 8 } else { count != 8 })
}

// Whether no echo for the sake of the call was given up there.
fn may_be_sent(kept: &Kept, to: Kernel, about: &Option<About>) -> bool
    ensures { result ≡ may_be_sent kept.now to about.now }
{
    match about {
        Some(about) => !kept.given_up.contains(&CallTo {
            call: call_of(about),
            to,
        }),
        None => true,
    }
}

// Keeps what the next record tells. The one error is want of memory; a part may be kept then.
fn go_on(kept: &mut Kept, c: &Description, rec: &Rec) -> Result<(), NoMemory>
    ensures { OnOk result (GoesOn c.now rec.now.kernel rec.now.event kept.old kept.new) }
{
    keep_event(kept, c, rec)?;
    keep_place(&mut kept.places, rec.kernel, &rec.event)?;
    Ok(())
}

// Keeps it but for where processes are.
fn keep_event(kept: &mut Kept, c: &Description, rec: &Rec) -> Result<(), NoMemory>
    ensures { OnOk result (KeepsOn c.now rec.now.kernel rec.now.event kept.old kept.new) }
{
    match &rec.event {
        Event::Issue { pid, number, call } => put_named(
            &mut kept.named,
            CallAt {
                pid: *pid,
                number: *number,
            },
            is_name_call(call),
        ),
        Event::Send {
            tx,
            to,
            about,
            kind,
        } => send(
            kept,
            c,
            &Sender {
                kernel: rec.kernel,
                tx: *tx,
            },
            *to,
            about,
            kind,
        ),
        Event::Expire { tx, last } => expire(
            kept,
            &Sender {
                kernel: rec.kernel,
                tx: *tx,
            },
            *last,
        ),
        _ => Ok(()),
    }
}

// Keeps that a try is over; behind the last one its echoes are given up.
fn expire(kept: &mut Kept, at: &Sender, last: bool) -> Result<(), NoMemory>
    ensures { OnOk result (ExpiresOn at.now last kept.old kept.new) }
{
    count_sender(&mut kept.expires, at)?;
    if !last {
        return Ok(());
    }
    let count = sender_count(&kept.counts, at);
    give_up(&mut kept.given_up, &kept.slots, at, count)?;
    Ok(())
}

// Keeps what a packet tells.
fn send(
    kept: &mut Kept,
    c: &Description,
    at: &Sender,
    to: Kernel,
    about: &Option<About>,
    kind: &SendKind,
) -> Result<(), NoMemory>
    ensures { OnOk result (SendsOn c.now at.now to about.now kind.now kept.old kept.new) }
{
    let limited = is_limited(kept, c, at.kernel, to, about, kind);
    put_limited(&mut kept.limited, at, limited)?;
    match kind {
        SendKind::Other => send_other(kept, c, at, to, about),
        _ => Ok(()),
    }
}

// Keeps what a packet of no stated kind tells.
fn send_other(
    kept: &mut Kept,
    c: &Description,
    at: &Sender,
    to: Kernel,
    about: &Option<About>,
) -> Result<(), NoMemory>
    ensures { OnOk result (SendsOther c.now at.now to about.now kept.old kept.new) }
{
    let echo = is_echo(kept, c, at.kernel, to, about);
    let Some(about) = about else {
        return Ok(());
    };
    let call = CallTo {
        call: call_of(about),
        to,
    };
    keep_echo(&mut kept.counts, &mut kept.slots, at, &call, echo)?;
    put_other(
        &mut kept.others,
        OtherAt {
            kernel: at.kernel,
            call,
        },
    )?;
    Ok(())
}
