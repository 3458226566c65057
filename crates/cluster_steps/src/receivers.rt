ghost use Rattle.std.specs.Prelude.{◌≡◌};
ghost use Rattle.std.specs.List.{list_all};
ghost use Rattle.unix_calls.specs.Domains.{begins_domain};
ghost use Rattle.unix_calls.specs.Lawful.{Lawful};
ghost use Rattle.cluster_wire.specs.Goings.{server_in};
ghost use Rattle.cluster_steps.specs.Receivers.{
  all_fit,
  fits,
  is_domain,
  is_for_servers,
  is_receiver,
  is_served,
  may_be_asked,
  serves_at,
  takes_such,
};

use kernel_steps::Sending;
use packet_bodies::{NameOp, Request};
use sprite_ids::Kernel;
use sprite_paths::Path;
use unix_calls::{Description, KernelLine};

// Whether each of the remote calls asks what kernels answer, and goes to kernels of the cluster alone that take its request.
pub(crate) fn all_fit(c: &Description, sends: &[Sending]) -> bool
    requires lawful { Lawful c.now }
    ensures { result ≡ all_fit c.now sends.now }
{
    sends.iter().all(|sending| fits(c, sending))
}

// Whether one does.
fn fits(c: &Description, sending: &Sending) -> bool
    requires lawful { Lawful c.now }
    ensures { result ≡ fits c.now sending.now }
{
    let for_servers = is_for_servers(&sending.body);
    may_be_asked(c, &sending.body) && are_receivers(c, for_servers, sending.to.as_slice())
}

// Whether a request is one that kernels answer: the server of a prefix is asked for where a domain hangs, and a name call is one that is
// done at servers.
fn may_be_asked(c: &Description, body: &Request) -> bool
    requires lawful { Lawful c.now }
    ensures { result ≡ may_be_asked c.now body.now }
{
    match body {
        Request::Prefix { path } => is_domain(c, path),
        Request::Name(request) => is_served(request.op, request.second.is_some()),
        _ => true,
    }
}

// Whether the server of the longest domain of the path serves one that hangs there.
fn is_domain(c: &Description, path: &Path) -> bool
    requires lawful { Lawful c.now }
    ensures { result ≡ is_domain c.now path.now }
{
    serves_at(c, server_of(c, path), path)
}

// The server of the longest domain of the path.
fn server_of(c: &Description, path: &Path) -> Kernel
    requires lawful { Lawful c.now }
    ensures { result ≡ server_in c.now path.now }
{
    c.server_at(c.domain_of(path))
}

// Whether the kernel serves a domain that hangs there.
fn serves_at(c: &Description, kernel: Kernel, path: &Path) -> bool
    ensures { result ≡ serves_at c.now kernel path.now }
{
    let lines = c.kernels.as_slice();
    let place = kernel.number() as usize - 1;
    if place < lines.len() {
        return begins_domain(path, lines[place].serves.as_slice());
    }
    false
}

// Whether one of these domains hangs there.
fn begins_domain(path: &Path, roots: &[Path]) -> bool
    ensures { result ≡ begins_domain roots.now path.now }
{
    for root in roots {
        if path.parts() == root.parts() {
            return true;
        }
    }
    false
}

// Whether a file server does a name call: no walk alone, and no rename without a second path.
fn is_served(op: NameOp, second: bool) -> bool
    ensures { result ≡ is_served op second }
{
    match op {
        NameOp::Walk => false,
        NameOp::Rename => second,
        _ => true,
    }
}

// Whether file servers take such a request, and not clients.
fn is_for_servers(body: &Request) -> bool
    ensures { result ≡ is_for_servers body.now }
{
    match body {
        Request::Callback(_) => false,
        Request::Transfer(_) => false,
        Request::Home(_) => false,
        Request::Place { .. } => false,
        Request::Killed { .. } => false,
        Request::Ask(_) => false,
        Request::Launch(_) => false,
        _ => true,
    }
}

// Whether all of these kernels are of the cluster, and take it.
fn are_receivers(c: &Description, for_servers: bool, kernels: &[Kernel]) -> bool
    ensures { result ≡ list_all (is_receiver c.now for_servers) kernels.now }
{
    kernels
        .iter()
        .all(|kernel| is_receiver(c, for_servers, *kernel))
}

// Whether the kernel is one of the cluster, and takes it.
fn is_receiver(c: &Description, for_servers: bool, kernel: Kernel) -> bool
    ensures { result ≡ is_receiver c.now for_servers kernel }
{
    let lines = c.kernels.as_slice();
    let place = kernel.number() as usize - 1;
    if place < lines.len() {
        return takes_such(for_servers, &lines[place]);
    }
    false
}

// Whether a kernel of that line takes it: a file server serves a domain, and a client none.
fn takes_such(for_servers: bool, line: &KernelLine) -> bool
    ensures { result ≡ takes_such for_servers line.now }
{
    if for_servers {
        !line.serves.is_empty()
    } else {
        line.serves.is_empty()
    }
}
