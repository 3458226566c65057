ghost use Rattle.std.specs.Prelude.{◌≡◌, ◌<◌, []};
ghost use Rattle.process_machine.specs.declared.call.Reply.TheVariants.{Error, Value};
ghost use Rattle.unix_calls.specs.Answers.{nothing, replied, value};
ghost use Rattle.unix_run.specs.declared.came.Came.TheVariants as came;

use crate::came::Came;
use process_machine::{Reply, give};
use sprite_ids::{Bytes, Errno};
use std::alloc::Global;
use unix_calls::{Description, Process};
use unix_world::program_at;

/// The process has that reply.
pub(crate) fn reply_to(c: &Description, p: &mut Process, reply: &Reply)
    requires { p.old.calls < 4294967295 }
    ensures { p.new ≡ replied c.now p.old reply.now }
{
    if let Some(program) = program_at(c.programs.as_slice(), p.image.program_number()) {
        give(program, &mut p.image, reply);
    }
    p.calls += 1;
    p.asking = None;
}

/// The call has that reply.
pub(crate) fn answer(c: &Description, p: &mut Process, reply: Reply) -> Came
    requires { p.old.calls < 4294967295 }
    ensures process { p.new ≡ replied c.now p.old reply }
    ensures came { result ≡ came.Answered reply }
{
    reply_to(c, p, &reply);
    Came::Answered(reply)
}

/// The call is refused.
pub(crate) fn refuse(c: &Description, p: &mut Process, errno: Errno) -> Came
    requires { p.old.calls < 4294967295 }
    ensures process { p.new ≡ replied c.now p.old (Error errno) }
    ensures came { result ≡ came.Answered (Error errno) }
{
    answer(c, p, Reply::Error(errno))
}

/// The call gives that value and no more.
pub(crate) fn give_value(alloc: Global, c: &Description, p: &mut Process, first: u64) -> Came
    requires { p.old.calls < 4294967295 }
    ensures process { p.new ≡ replied c.now p.old (value first) }
    ensures came { result ≡ came.Answered (value first) }
{
    let bytes = Bytes::new(alloc);
    let second = 0;
    answer(
        c,
        p,
        Reply::Value {
            first,
            second,
            bytes,
        },
    )
}

/// The call gives these two values and no bytes.
pub(crate) fn give_two(
    alloc: Global,
    c: &Description,
    p: &mut Process,
    first: u64,
    second: u64,
) -> Came
    requires { p.old.calls < 4294967295 }
    ensures process { p.new ≡ replied c.now p.old (Value first second []) }
    ensures came { result ≡ came.Answered (Value first second []) }
{
    let bytes = Bytes::new(alloc);
    answer(
        c,
        p,
        Reply::Value {
            first,
            second,
            bytes,
        },
    )
}

/// No values and no bytes.
pub(crate) fn nothing(alloc: Global) -> Reply
    ensures { result ≡ nothing }
{
    let bytes = Bytes::new(alloc);
    Reply::Value {
        first: 0,
        second: 0,
        bytes,
    }
}
