ghost use Rattle.reached_receivers.specs.Receivers.{
  CallsGoRight,
  ClientsTakeRequests,
  DomainsHang,
  KernelsAreOfTheirKind,
  PacketsGoInside,
  RequestsAreOfTheirKind,
  RequestsHaveAnswers,
};

use link_plan::Link;

/// A law: each kernel of a reached cluster is a file server exactly where its number's line serves a domain, and else a client (this
/// project).
pub fn kernels_are_of_their_kind<L: Link>()
    ensures { KernelsAreOfTheirKind L.faults L.asked }
{}

/// A law: each unfinished call of a reached cluster goes to kernels of its description alone that take such requests, and comes from one
/// of its kernels (Welch 1986).
pub fn calls_go_right<L: Link>()
    ensures { CallsGoRight L.faults L.asked }
{}

/// A law: what is asked of a file server is for file servers, and what is asked of a client is for clients (Welch 1986).
pub fn requests_are_of_their_kind<L: Link>()
    ensures { RequestsAreOfTheirKind L.faults L.asked }
{}

/// A law: each domain that a file server of a reached cluster serves hangs there (Welch and Ousterhout 1986).
pub fn domains_hang<L: Link>()
    ensures { DomainsHang L.faults L.asked }
{}

/// A law: each request that goes to a file server of a reached cluster has an answer there, where the server can take it: a page that is
/// asked for is in its swap (this project).
pub fn requests_have_answers<L: Link>()
    ensures { RequestsHaveAnswers L.faults L.asked }
{}

/// A law: and no client leaves a request alone that goes to it, where it can take it: a process that it brings is new there (Douglis and
/// Ousterhout 1991).
pub fn clients_take_requests<L: Link>()
    ensures { ClientsTakeRequests L.faults L.asked }
{}

/// A law: each packet in flight of a reached cluster goes to a kernel of its description (this project).
pub fn packets_go_inside<L: Link>()
    ensures { PacketsGoInside L.faults L.asked }
{}
