use crate::words::{Word, word_of};
use kernel_steps::{Out, Sending};
use packet_bodies::{ReplyBody, Request};
use process_machine::Reply;
use sprite_ids::{AskKind, Errno, Items, NoMemory, Pid, TxNo};
use std::alloc::Global;
use unix_calls::{Entry, Event, Part};

/// What is asked of another kernel.
#[derive(Clone, Copy, PartialEq, Eq)]
pub(crate) enum Asked {
    Prefix,
    Echo,
    /// The descriptor.
    Opening(u8),
    /// The descriptor.
    Make(u8),
    /// How many grants.
    Close(u32),
    /// Whether references stay, the offset and the grants.
    Move(bool, Option<u32>, u32),
    /// A reading at the server.
    Op,
    /// The process, the number of the call and the call.
    Home(u32, u32, Word),
    /// The process, and where it runs.
    Place(u32, u8),
    Killed(u32),
    /// The process, the number of the call, what is asked and how many bytes may be answered.
    Ask(u32, u32, AskKind, u32),
    /// The process, and how many bytes.
    PageOut(u32, usize),
    PageIn(u32, u8),
    /// The process, the number, how many streams, and whether it is in its own `migrate`.
    Transfer(u32, u32, usize, bool),
    /// The process, the number of its `rexec` and the program.
    Launch(u32, u32, u8),
    /// Nothing that these tests come to.
    Other,
}

/// What the client answers.
#[derive(Clone, Copy, PartialEq, Eq)]
pub(crate) enum Given {
    Done,
    Gone,
    /// The two values.
    Value(u64, u64),
    Refused(Errno),
    /// Nothing that these tests come to.
    Other,
}

/// What a step says: its remote calls in order, then what becomes of processes in order, then its answers in order.
#[derive(Clone, Copy, PartialEq, Eq)]
pub(crate) enum Told {
    /// What is asked, of which kernel (of a broadcast the last one), and whether it is for the sake of a call.
    Calls(Asked, u8, bool),
    /// The process, and the two values of the reply that it is given.
    Gives(u32, u64, u64),
    /// The process, and the error that it is given.
    Fails(u32, Errno),
    Dies(u32),
    Freezes(u32),
    Thaws(u32),
    /// The remote call of another kernel, and its answer.
    Answers(u32, Given),
}

/// All that a step says.
#[derive(Clone, Copy)]
pub(crate) enum Said {
    Silence,
    One(Told),
    Two(Told, Told),
    Three(Told, Told, Told),
}

fn asked_of_process(body: &Request) -> Asked {
    match body {
        Request::Transfer(request) => Asked::Transfer(
            request.pid.number(),
            request.number,
            request.streams.len(),
            request.moving,
        ),
        Request::Launch(request) => {
            Asked::Launch(request.pid.number(), request.number, request.program)
        }
        Request::Home(request) => Asked::Home(
            request.pid.number(),
            request.number,
            word_of(&request.call),
        ),
        Request::Place { pid, kernel } => Asked::Place(pid.number(), kernel.number()),
        Request::Killed { pid } => Asked::Killed(pid.number()),
        Request::Ask(request) => Asked::Ask(
            request.pid.number(),
            request.number,
            request.kind,
            request.length,
        ),
        Request::PageOut(request) => Asked::PageOut(request.pid.number(), request.bytes.len()),
        Request::PageIn { pid, page } => Asked::PageIn(pid.number(), *page),
        _ => Asked::Other,
    }
}

fn asked_of(body: &Request) -> Asked {
    match body {
        Request::Echo => Asked::Echo,
        Request::Prefix { .. } => Asked::Prefix,
        Request::Opening(request) => Asked::Opening(request.fd.number()),
        Request::Make(request) => Asked::Make(request.fd.number()),
        Request::Close(request) => Asked::Close(request.grants),
        Request::Move(request) => Asked::Move(request.kept, request.offset, request.grants),
        Request::Op(_) => Asked::Op,
        _ => asked_of_process(body),
    }
}

fn given_of(body: &ReplyBody) -> Given {
    match body {
        ReplyBody::Done => Given::Done,
        ReplyBody::Gone => Given::Gone,
        ReplyBody::Value(value) => Given::Value(value.first, value.second),
        ReplyBody::Refused { errno } => Given::Refused(*errno),
        _ => Given::Other,
    }
}

fn reply_told(pid: Pid, reply: &Reply) -> Told {
    match reply {
        Reply::Value { first, second, .. } => Told::Gives(pid.number(), *first, *second),
        Reply::Error(errno) => Told::Fails(pid.number(), *errno),
    }
}

fn death_told(entry: &Entry) -> Option<Told> {
    match entry.part {
        Part::Death => Some(Told::Dies(entry.pid.number())),
        _ => None,
    }
}

fn event_told(event: &Event) -> Option<Told> {
    match event {
        Event::Return { pid, reply, .. } => Some(reply_told(*pid, reply)),
        Event::Freeze { pid } => Some(Told::Freezes(pid.number())),
        Event::Thaw { pid } => Some(Told::Thaws(pid.number())),
        Event::Enter { entry } => death_told(entry),
        _ => None,
    }
}

fn add_calls(told: &mut Items<Told>, sends: &[Sending]) -> Result<(), NoMemory> {
    for sending in sends {
        let to = match sending.to.as_slice().last() {
            Some(kernel) => kernel.number(),
            None => 0,
        };
        told.push(Told::Calls(asked_of(&sending.body), to, sending.about.is_some()))?;
    }
    Ok(())
}

fn add_events(told: &mut Items<Told>, events: &[Event]) -> Result<(), NoMemory> {
    for event in events {
        if let Some(one) = event_told(event) {
            told.push(one)?;
        }
    }
    Ok(())
}

fn add_answers(told: &mut Items<Told>, answers: &[(TxNo, ReplyBody)]) -> Result<(), NoMemory> {
    for answer in answers {
        told.push(Told::Answers(answer.0.0, given_of(&answer.1)))?;
    }
    Ok(())
}

fn is_said(told: &[Told], said: Said) -> bool {
    match said {
        Said::Silence => told.is_empty(),
        Said::One(first) => told == [first].as_slice(),
        Said::Two(first, second) => told == [first, second].as_slice(),
        Said::Three(first, second, third) => told == [first, second, third].as_slice(),
    }
}

/// Whether the step says that.
pub(crate) fn says(alloc: Global, out: &Out, said: Said) -> Result<bool, NoMemory> {
    let mut told = Items::new(alloc);
    add_calls(&mut told, out.sends.as_slice())?;
    add_events(&mut told, out.events.as_slice())?;
    add_answers(&mut told, out.answers.as_slice())?;
    Ok(is_said(told.as_slice(), said))
}
