ghost use Rattle.std.specs.Prelude.{◌≡◌};
ghost use Rattle.program_text.specs.Calls.{process_calls, stream_calls, name_calls, among, call_in};

use process_machine::SyscallName;

/// The first version of cluster files whose programs may call `rexec`.
const REXEC_VERSION: u8 = 2;

/// The system call of that name in the version; None exactly where it has none.
pub fn call_in(version: u8, name: &[u8]) -> Option<SyscallName>
    ensures { result ≡ call_in version name.now }
{
    if name == b"rexec".as_slice() {
        return if version >= REXEC_VERSION {
            Some(SyscallName::Rexec)
        } else {
            None
        };
    }
    process_call(name).or(stream_call(name)).or(name_call(name))
}

/// The call of that name, of those on processes and their home; None exactly where it is none of them.
fn process_call(name: &[u8]) -> Option<SyscallName>
    ensures { result ≡ among process_calls name.now }
{
    if name == b"print".as_slice() {
        Some(SyscallName::Print)
    } else if name == b"exit".as_slice() {
        Some(SyscallName::Exit)
    } else if name == b"getpid".as_slice() {
        Some(SyscallName::Getpid)
    } else if name == b"getppid".as_slice() {
        Some(SyscallName::Getppid)
    } else if name == b"host".as_slice() {
        Some(SyscallName::Host)
    } else if name == b"tick".as_slice() {
        Some(SyscallName::Tick)
    } else if name == b"fork".as_slice() {
        Some(SyscallName::Fork)
    } else if name == b"exec".as_slice() {
        Some(SyscallName::Exec)
    } else if name == b"wait".as_slice() {
        Some(SyscallName::Wait)
    } else if name == b"kill".as_slice() {
        Some(SyscallName::Kill)
    } else {
        None
    }
}

/// The call of that name, of those on descriptors; None exactly where it is none of them.
fn stream_call(name: &[u8]) -> Option<SyscallName>
    ensures { result ≡ among stream_calls name.now }
{
    if name == b"open".as_slice() {
        Some(SyscallName::Open)
    } else if name == b"close".as_slice() {
        Some(SyscallName::Close)
    } else if name == b"dup".as_slice() {
        Some(SyscallName::Dup)
    } else if name == b"read".as_slice() {
        Some(SyscallName::Read)
    } else if name == b"write".as_slice() {
        Some(SyscallName::Write)
    } else if name == b"seek".as_slice() {
        Some(SyscallName::Seek)
    } else if name == b"size".as_slice() {
        Some(SyscallName::Size)
    } else if name == b"sync".as_slice() {
        Some(SyscallName::Sync)
    } else if name == b"pd_get".as_slice() {
        Some(SyscallName::PdGet)
    } else if name == b"pd_put".as_slice() {
        Some(SyscallName::PdPut)
    } else if name == b"ioctl".as_slice() {
        Some(SyscallName::Ioctl)
    } else {
        None
    }
}

/// The call of that name, of those on paths, and `migrate`; None exactly where it is none of them.
fn name_call(name: &[u8]) -> Option<SyscallName>
    ensures { result ≡ among name_calls name.now }
{
    if name == b"stat".as_slice() {
        Some(SyscallName::Stat)
    } else if name == b"mkdir".as_slice() {
        Some(SyscallName::Mkdir)
    } else if name == b"rmdir".as_slice() {
        Some(SyscallName::Rmdir)
    } else if name == b"unlink".as_slice() {
        Some(SyscallName::Unlink)
    } else if name == b"rename".as_slice() {
        Some(SyscallName::Rename)
    } else if name == b"list".as_slice() {
        Some(SyscallName::List)
    } else if name == b"chdir".as_slice() {
        Some(SyscallName::Chdir)
    } else if name == b"migrate".as_slice() {
        Some(SyscallName::Migrate)
    } else if name == b"pd_make".as_slice() {
        Some(SyscallName::PdMake)
    } else {
        None
    }
}
