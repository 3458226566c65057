use client_files::Report;
use kernel_steps::Out;
use packet_bodies::{NameOp, ReplyBody, Request};
use process_machine::Reply;
use sprite_ids::{Errno, Grant};
use stream_table::Place;

/// What is asked of a server.
#[derive(Clone, Copy, PartialEq, Eq)]
pub(crate) enum Asked {
    Prefix,
    Echo,
    /// The flags and the descriptor.
    Opening(u8, u8),
    Name(NameOp),
    /// The descriptor.
    Make(u8),
    /// How many grants.
    Close(u32),
    /// Whether references stay, the offset and the grants.
    Move(bool, Option<u32>, u32),
    Op,
    /// The stamp and the block.
    Fetch(u32, u16),
    /// The stamp and the block.
    Back(u32, u16),
    /// Nothing that this side of a kernel asks.
    Other,
}

/// What a step says last: a report, where there is one; else a remote call, a reply, an answer.
#[derive(Clone, Copy, PartialEq, Eq)]
pub(crate) enum Told {
    Nothing,
    /// What is asked, and the number of the last kernel that it goes to.
    Asks(Asked, u8),
    /// The first value of a reply whose second one is 0, and how many bytes.
    Gives(u64, usize),
    /// A reply that is an error.
    Fails(Errno),
    /// The file's size, and how many blocks.
    Flushes(u32, usize),
    /// Where the offset is kept, the stamp of the target's grant, and how many grants.
    Moved(Place, Option<u32>, u32),
    /// All descriptors are closed.
    AllClosed,
    /// The master's last reference is closed.
    MasterClosed,
    /// Nothing that this side of a kernel says.
    Other,
}

fn asked_of(body: &Request) -> Asked {
    match body {
        Request::Echo => Asked::Echo,
        Request::Prefix { .. } => Asked::Prefix,
        Request::Opening(request) => Asked::Opening(request.flags, request.fd.number()),
        Request::Name(request) => Asked::Name(request.op),
        Request::Make(request) => Asked::Make(request.fd.number()),
        Request::Close(request) => Asked::Close(request.grants),
        Request::Move(request) => Asked::Move(request.kept, request.offset, request.grants),
        Request::Op(_) => Asked::Op,
        Request::Fetch(request) => Asked::Fetch(request.stamp, request.block.0),
        Request::WriteBack(request) => Asked::Back(request.stamp, request.block.0),
        _ => Asked::Other,
    }
}

fn reply_told(reply: &Reply) -> Told {
    match reply {
        Reply::Value {
            first,
            second: 0,
            bytes,
        } => Told::Gives(*first, bytes.len()),
        Reply::Error(errno) => Told::Fails(*errno),
        _ => Told::Other,
    }
}

fn answer_told(answer: &ReplyBody) -> Told {
    match answer {
        ReplyBody::Flushed(flushed) => Told::Flushes(flushed.size, flushed.blocks.len()),
        _ => Told::Other,
    }
}

fn stamp_of(grant: &Option<Grant>) -> Option<u32> {
    match grant {
        Some(grant) => Some(grant.stamp),
        None => None,
    }
}

fn report_told(report: &Report) -> Told {
    match report {
        Report::Moved {
            place,
            grant,
            grants,
            ..
        } => Told::Moved(*place, stamp_of(grant), *grants),
        Report::AllClosed { .. } => Told::AllClosed,
        Report::MasterClosed { .. } => Told::MasterClosed,
    }
}

fn out_told(out: &Out) -> Told {
    if let Some(sending) = out.sends.as_slice().last() {
        return match sending.to.as_slice().last() {
            Some(kernel) => Told::Asks(asked_of(&sending.body), kernel.number()),
            None => Told::Other,
        };
    }
    if let Some(reply) = out.replies.as_slice().last() {
        return reply_told(&reply.1);
    }
    match out.answers.as_slice().last() {
        Some(answer) => answer_told(&answer.1),
        None => Told::Nothing,
    }
}

/// What the step says last.
pub(crate) fn told_of(out: &Out, reports: &[Report]) -> Told {
    match reports.last() {
        Some(report) => report_told(report),
        None => out_told(out),
    }
}
