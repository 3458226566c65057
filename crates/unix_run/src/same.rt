ghost use Rattle.std.specs.Prelude.{◌≡◌};
ghost use Rattle.unix_calls.specs.Same.{same_call, same_reply};

use process_machine::{Call, Reply};

/// Whether two replies are the same.
pub fn same_reply(one: &Reply, other: &Reply) -> bool
    ensures { result ≡ same_reply one.now other.now }
{
    match (one, other) {
        (
            Reply::Value {
                first,
                second,
                bytes,
            },
            Reply::Value {
                first: x,
                second: y,
                bytes: others,
            },
        ) => *first == *x && *second == *y && bytes == others,
        (Reply::Error(e), Reply::Error(f)) => e.number() == f.number(),
        _ => false,
    }
}

/// Whether two calls are the same.
pub fn same_call(one: &Call, other: &Call) -> bool
    ensures { result ≡ same_call one.now other.now }
{
    match (one, other) {
        (Call::Print { bytes: a }, Call::Print { bytes: x }) => a == x,
        (Call::Exit { code: a }, Call::Exit { code: x }) => *a == *x,
        (Call::Getpid, Call::Getpid) => true,
        (Call::Getppid, Call::Getppid) => true,
        (Call::Host { max: a }, Call::Host { max: x }) => *a == *x,
        (Call::Tick, Call::Tick) => true,
        (Call::Fork, Call::Fork) => true,
        (Call::Exec { name: a, arg: b }, Call::Exec { name: x, arg: y }) => a == x && *b == *y,
        (Call::Wait, Call::Wait) => true,
        (Call::Kill { pid: a }, Call::Kill { pid: x }) => *a == *x,
        (Call::OpenFile { path: a, flags: b }, Call::OpenFile { path: x, flags: y }) => {
            a == x && *b == *y
        }
        (Call::Close { fd: a }, Call::Close { fd: x }) => *a == *x,
        (Call::Dup { fd: a }, Call::Dup { fd: x }) => *a == *x,
        (Call::Read { fd: a, length: b }, Call::Read { fd: x, length: y }) => *a == *x && *b == *y,
        (Call::Write { fd: a, bytes: b }, Call::Write { fd: x, bytes: y }) => *a == *x && b == y,
        (Call::Seek { fd: a, offset: b }, Call::Seek { fd: x, offset: y }) => *a == *x && *b == *y,
        (Call::Size { fd: a }, Call::Size { fd: x }) => *a == *x,
        (Call::Sync { fd: a }, Call::Sync { fd: x }) => *a == *x,
        (Call::Stat { path: a }, Call::Stat { path: x }) => a == x,
        (Call::Mkdir { path: a }, Call::Mkdir { path: x }) => a == x,
        (Call::Rmdir { path: a }, Call::Rmdir { path: x }) => a == x,
        (Call::Unlink { path: a }, Call::Unlink { path: x }) => a == x,
        (Call::Rename { old: a, new: b }, Call::Rename { old: x, new: y }) => a == x && b == y,
        (Call::List { path: a, max: b }, Call::List { path: x, max: y }) => a == x && *b == *y,
        (Call::Chdir { path: a }, Call::Chdir { path: x }) => a == x,
        (Call::Migrate { name: a }, Call::Migrate { name: x }) => a == x,
        (Call::PdMake { path: a }, Call::PdMake { path: x }) => a == x,
        (Call::PdGet { fd: a, max: b }, Call::PdGet { fd: x, max: y }) => *a == *x && *b == *y,
        (
            Call::PdPut {
                fd: a,
                bytes: b,
                errno: c,
            },
            Call::PdPut {
                fd: x,
                bytes: y,
                errno: z,
            },
        ) => *a == *x && b == y && *c == *z,
        (
            Call::Ioctl {
                fd: a,
                command: b,
                bytes: c,
            },
            Call::Ioctl {
                fd: x,
                command: y,
                bytes: z,
            },
        ) => *a == *x && *b == *y && c == z,
        (Call::Rexec { name: a, host: b }, Call::Rexec { name: x, host: y }) => a == x && b == y,
        (Call::Refused { errno: a }, Call::Refused { errno: x }) => a.number() == x.number(),
        (Call::BadStep, Call::BadStep) => true,
        _ => false,
    }
}
