ghost use Rattle.std.specs.Prelude.{◌≡◌, ◌==◌, IsTrue, true, false};
ghost use Rattle.std.specs.List.{list_any};
ghost use Rattle.kernel_rpc.specs.Servers.{AreApart};
ghost use Rattle.cluster_wire.specs.Goings.{are_apart, least_of, lesser, may_go_to};

use sprite_ids::Kernel;

/// Whether a broadcast may go to these servers: the one that is to answer is among them, the caller isn't, and no one stands twice.
pub(crate) fn may_go_to(servers: &[Kernel], from: Kernel, owner: Kernel) -> bool
    ensures is { result ≡ may_go_to servers.now from owner }
    ensures owner_there { result ≡ true → list_any (λ server. server == owner) servers.now ≡ true }
    ensures caller_apart { result ≡ true → list_any (λ server. server == from) servers.now ≡ false }
    ensures apart { result ≡ true → AreApart servers.now }
{
    has(servers, owner) && !has(servers, from) && are_apart(servers)
}

// Whether no kernel of the list stands twice.
fn are_apart(kernels: &[Kernel]) -> bool
    ensures is { result ≡ are_apart kernels.now }
    ensures apart { IsTrue result → AreApart kernels.now }
{
    match kernels {
        [] => true,
        [first, rest @ ..] => !has(rest, *first) && are_apart(rest),
    }
}

// Whether the kernel stands in the list.
fn has(kernels: &[Kernel], kernel: Kernel) -> bool
    ensures { result ≡ list_any (λ other. other == kernel) kernels.now }
{
    kernels.iter().any(|other| *other == kernel)
}

/// The least of these kernels, and of that one.
pub(crate) fn least_of(kernels: &[Kernel], one: Kernel) -> Kernel
    ensures { result ≡ least_of kernels.now one }
{
    let mut least = one;
    for kernel in kernels {
        least = lesser(*kernel, least);
    }
    least
}

// The lesser of the two.
fn lesser(kernel: Kernel, least: Kernel) -> Kernel
    ensures { result ≡ lesser kernel least }
{
    if kernel.number() < least.number() {
        kernel
    } else {
        least
    }
}
