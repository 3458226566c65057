use kernel_steps::Out;
use packet_bodies::{ReplyBody, ValueReply};
use sprite_ids::{Errno, TxNo};

/// What a step answers, or that it answers nothing.
#[derive(Clone, Copy)]
pub(crate) enum Told {
    Nothing,
    Done,
    Here,
    Refused(Errno),
    Redirect,
    // Whether the file may be cached, and its size.
    Opened(bool, u32),
    Device,
    // Both numbers, and how many bytes.
    Value(u64, u64, usize),
    // The stamp, and whether the file may be cached.
    Again(u32, bool),
    // How many bytes.
    Block(usize),
    Moved(bool),
    Page(usize),
}

/// How many callbacks a step sends, how many records it writes and how many answers it gives.
pub(crate) type Counts = (usize, usize, usize);

// Whether the value is the one that was told.
fn is_value(value: &ValueReply, told: Told) -> bool {
    match told {
        Told::Value(first, second, length) => {
            value.first == first && value.second == second && value.bytes.len() == length
        }
        _ => false,
    }
}

// Whether the answer is the one that was told.
fn is_told(answer: &ReplyBody, told: Told) -> bool {
    match answer {
        ReplyBody::Done => matches!(told, Told::Done),
        ReplyBody::Here { .. } => matches!(told, Told::Here),
        ReplyBody::Refused { errno } => matches!(told, Told::Refused(wanted) if wanted == *errno),
        ReplyBody::Redirect { .. } => matches!(told, Told::Redirect),
        ReplyBody::Opened(opened) => match opened.grant {
            Some(grant) => {
                matches!(told, Told::Opened(on, size) if on == grant.on && size == grant.size)
            }
            None => matches!(told, Told::Device),
        },
        ReplyBody::Value(value) => is_value(value, told),
        ReplyBody::Again { grant } => {
            matches!(told, Told::Again(stamp, on) if stamp == grant.stamp && on == grant.on)
        }
        ReplyBody::Block { bytes, .. } => {
            matches!(told, Told::Block(length) if length == bytes.len())
        }
        ReplyBody::Moved { grant, .. } => {
            matches!(told, Told::Moved(granted) if granted == grant.is_some())
        }
        ReplyBody::Page { bytes } => { matches!(told, Told::Page(length) if length == bytes.len()) }
        _ => false,
    }
}

// Whether the last answer is the one that was told.
fn ends_with(answers: &[(TxNo, ReplyBody)], told: Told) -> bool {
    match answers.last() {
        Some(answer) => is_told(&answer.1, told),
        None => matches!(told, Told::Nothing),
    }
}

/// Whether the step said so much, and that answer last.
pub(crate) fn is_said(out: &Out, counts: Counts, told: Told) -> bool {
    let (sends, events, answers) = counts;
    out.sends.len() == sends
        && out.events.len() == events
        && out.answers.len() == answers
        && ends_with(out.answers.as_slice(), told)
}
