use kernel_steps::{Out, Sending};
use packet_bodies::{FileOp, OpRequest, ReplyBody, Request, WriteBackRequest};
use process_machine::Reply;
use sprite_ids::{Errno, Pid, TxNo};

/// What a step asks of the server.
#[derive(Clone, Copy)]
pub(crate) enum Asked {
    /// What is done there, and the offset that goes along.
    Op(FileOp, Option<u32>),
    /// The stamp and the block.
    Fetch(u32, u16),
    /// The stamp, the block and the file's size.
    Back(u32, u16, u32),
}

/// What a step says last.
#[derive(Clone, Copy)]
pub(crate) enum Told {
    /// No remote call, no reply and no answer.
    Nothing,
    /// The last remote call.
    Asks(Asked),
    /// The last reply: its first value, and how many bytes.
    Gives(u64, usize),
    /// The last reply is an error.
    Fails(Errno),
    /// The last answer: the file's size, and how many blocks.
    Flushes(u32, usize),
}

fn is_op(request: &OpRequest, asked: Asked) -> bool {
    match asked {
        Asked::Op(op, offset) => op == request.op && offset == request.offset,
        _ => false,
    }
}

fn is_back(request: &WriteBackRequest, asked: Asked) -> bool {
    match asked {
        Asked::Back(stamp, block, size) => {
            stamp == request.stamp && block == request.block.0 && size == request.size
        }
        _ => false,
    }
}

fn is_asked(body: &Request, asked: Asked) -> bool {
    match body {
        Request::Op(request) => is_op(request, asked),
        Request::WriteBack(request) => is_back(request, asked),
        Request::Fetch(request) => {
            matches!(asked, Asked::Fetch(stamp, block) if stamp == request.stamp && block == request.block.0)
        }
        _ => false,
    }
}

fn asks(sends: &[Sending], asked: Asked) -> bool {
    match sends.last() {
        Some(sending) => is_asked(&sending.body, asked),
        None => false,
    }
}

fn gives(replies: &[(Pid, Reply)], wanted: u64, length: usize) -> bool {
    match replies.last() {
        Some(
            (
                _,
                Reply::Value {
                    first,
                    second,
                    bytes,
                },
            ),
        ) => *first == wanted && *second == 0 && bytes.len() == length,
        _ => false,
    }
}

fn fails(replies: &[(Pid, Reply)], errno: Errno) -> bool {
    match replies.last() {
        Some((_, Reply::Error(error))) => *error == errno,
        _ => false,
    }
}

fn flushes(answers: &[(TxNo, ReplyBody)], size: u32, blocks: usize) -> bool {
    match answers.last() {
        Some((_, ReplyBody::Flushed(flushed))) => {
            flushed.size == size && flushed.blocks.len() == blocks
        }
        _ => false,
    }
}

/// Whether the step says that last.
pub(crate) fn is_told(out: &Out, told: Told) -> bool {
    match told {
        Told::Nothing => {
            out.sends.is_empty() && out.replies.is_empty() && out.answers.is_empty()
        }
        Told::Asks(asked) => asks(out.sends.as_slice(), asked),
        Told::Gives(first, length) => gives(out.replies.as_slice(), first, length),
        Told::Fails(errno) => fails(out.replies.as_slice(), errno),
        Told::Flushes(size, blocks) => flushes(out.answers.as_slice(), size, blocks),
    }
}
