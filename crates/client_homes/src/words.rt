ghost use Rattle.std.specs.Prelude.{◌≡◌, IfOk};
ghost use Rattle.client_homes.specs.Words.{call_of, home_call_of, kill_of, packet_of, pid_numbered, reply_of, value_of, wait_told};

use crate::saying::value;
use home_table::WaitAnswer;
use packet_bodies::{HomeCall, ReplyBody, ValueReply};
use process_machine::{Call, Reply};
use sprite_ids::{Bytes, Copying, Errno, Kernel, NoMemory, Pid};
use std::alloc::Global;

/// The process of that number; None exactly where no process has it.
pub fn pid_of(number: u64) -> Option<Pid>
    ensures { result ≡ pid_numbered number }
{
    if number > 16_200 {
        return None;
    }
    match Kernel::new((number / 1000) as u8) {
        Some(home) => Pid::new(home, (number % 1000) as u32),
        None => None,
    }
}

/// The reply as the answer to a remote call.
pub fn packet_of(reply: Reply) -> ReplyBody
    ensures { result ≡ packet_of reply }
{
    match reply {
        Reply::Value {
            first,
            second,
            bytes,
        } => ReplyBody::Value(ValueReply {
            first,
            second,
            bytes,
        }),
        Reply::Error(errno) => ReplyBody::Refused { errno },
    }
}

/// The answer to a remote call as a reply; 0, 0 and no bytes where it is neither a value nor a refusal. The one error is
/// want of memory.
pub fn reply_of(alloc: Global, body: &ReplyBody) -> Result<Reply, NoMemory>
    ensures { IfOk result (λ reply. reply ≡ reply_of body.now) }
{
    match body {
        ReplyBody::Value(given) => value_of(alloc, given),
        ReplyBody::Refused { errno } => Ok(Reply::Error(*errno)),
        _ => Ok(value(alloc, 0, 0)),
    }
}

fn value_of(alloc: Global, given: &ValueReply) -> Result<Reply, NoMemory>
    ensures { IfOk result (λ reply. reply ≡ value_of given.now) }
{
    Ok(Reply::Value {
        first: given.first,
        second: given.second,
        bytes: given.bytes.copy(alloc)?,
    })
}

// The call as a process makes it. A bad step ends with 256.
pub(crate) fn call_of(alloc: Global, call: &HomeCall) -> Result<Call, NoMemory>
    ensures { IfOk result (λ made. made ≡ call_of call.now) }
{
    match call {
        HomeCall::Print { bytes } => Ok(Call::Print {
            bytes: bytes.copy(alloc)?,
        }),
        HomeCall::Exit { code } => {
            if *code == 256 {
                Ok(Call::BadStep)
            } else {
                Ok(Call::Exit { code: *code })
            }
        }
        HomeCall::Getppid => Ok(Call::Getppid),
        HomeCall::Host { max } => Ok(Call::Host { max: *max }),
        HomeCall::Tick => Ok(Call::Tick),
        HomeCall::Fork => Ok(Call::Fork),
        HomeCall::Wait => Ok(Call::Wait),
        HomeCall::Kill { pid } => Ok(Call::Kill {
            pid: u64::from(pid.number()),
        }),
    }
}

// The call as a home is asked for it; None where it isn't done at a home, or kills what is no process.
pub(crate) fn home_call_of(alloc: Global, call: &Call) -> Result<Option<HomeCall>, NoMemory>
    ensures { IfOk result (λ made. made ≡ home_call_of call.now) }
{
    match call {
        Call::Print { bytes } => Ok(Some(HomeCall::Print {
            bytes: bytes.copy(alloc)?,
        })),
        Call::Exit { code } => Ok(Some(HomeCall::Exit { code: *code })),
        Call::BadStep => Ok(Some(HomeCall::Exit { code: 256 })),
        Call::Getppid => Ok(Some(HomeCall::Getppid)),
        Call::Host { max } => Ok(Some(HomeCall::Host { max: *max })),
        Call::Tick => Ok(Some(HomeCall::Tick)),
        Call::Fork => Ok(Some(HomeCall::Fork)),
        Call::Wait => Ok(Some(HomeCall::Wait)),
        Call::Kill { pid } => Ok(kill_of(*pid)),
        _ => Ok(None),
    }
}

fn kill_of(number: u64) -> Option<HomeCall>
    ensures { result ≡ kill_of (pid_numbered number) }
{
    match pid_of(number) {
        Some(pid) => Some(HomeCall::Kill { pid }),
        None => None,
    }
}

// What a `wait` replies, where a kill of its process is pending or not; None where it has no reply yet.
pub(crate) fn wait_told(alloc: Global, answer: WaitAnswer, killed: bool) -> Option<Reply>
    ensures { result ≡ wait_told answer killed }
{
    match answer {
        WaitAnswer::Child(pid, status) => {
            Some(value(alloc, u64::from(pid.number()), u64::from(status)))
        }
        WaitAnswer::NoChild => Some(Reply::Error(Errno::NoChild)),
        WaitAnswer::NotYet => {
            if killed {
                Some(Reply::Error(Errno::Interrupted))
            } else {
                None
            }
        }
    }
}
