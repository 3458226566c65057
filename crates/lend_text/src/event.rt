ghost use Rattle.std.specs.Prelude.{◌≡◌, ◌≤◌, IfSome};
ghost use Rattle.host_lending.specs.Lending.{IsWithin};
ghost use Rattle.lend_text.specs.Events.{event_by, event_of, hosts_of};

use host_lending::LendEvent;
use text_rows::{kernel_in, rest_of, word_of};

// The event of a name and what stands behind it.
fn event_by(hosts: u8, name: &[u8], values: &[u8]) -> Option<LendEvent>
    requires { hosts ≤ 16 }
    ensures event { result ≡ event_by hosts name.now values.now }
    ensures within { IfSome result (λ event. IsWithin hosts event) }
{
    if name == b"idle".as_slice() {
        let host = kernel_in(hosts, values)?;
        Some(LendEvent::Idle { host })
    } else if name == b"owner".as_slice() {
        let host = kernel_in(hosts, values)?;
        Some(LendEvent::Owner { host })
    } else if name == b"borrow".as_slice() {
        let borrower = kernel_in(hosts, values)?;
        Some(LendEvent::Borrow { borrower })
    } else if name == b"return".as_slice() {
        let borrower = kernel_in(hosts, word_of(values))?;
        let host = kernel_in(hosts, rest_of(values))?;
        Some(LendEvent::Return { borrower, host })
    } else if name == b"leave".as_slice() {
        let borrower = kernel_in(hosts, values)?;
        Some(LendEvent::Leave { borrower })
    } else {
        None
    }
}

/// The event of a line: `idle H`, `owner H`, `borrow B`, `return B H` or `leave B`, where H and B are from 1 to `hosts`;
/// None exactly where the line is none.
pub(crate) fn event_of(hosts: u8, line: &[u8]) -> Option<LendEvent>
    requires { hosts ≤ 16 }
    ensures event { result ≡ event_of hosts line.now }
    ensures within { IfSome result (λ event. IsWithin hosts event) }
{
    event_by(hosts, word_of(line), rest_of(line))
}

/// The number of hosts in the first line, `hosts N` with N from 1 to 16; None exactly where the line isn't of that form.
pub(crate) fn hosts_of(line: &[u8]) -> Option<u8>
    ensures hosts { result ≡ hosts_of line.now }
    ensures within { IfSome result (λ hosts. (1 ≤ hosts) × (hosts ≤ 16)) }
{
    if word_of(line) != b"hosts".as_slice() {
        return None;
    }
    let hosts = kernel_in(16, rest_of(line))?;
    Some(hosts.number())
}
