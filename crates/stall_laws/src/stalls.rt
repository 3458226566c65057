ghost use Rattle.stall_laws.specs.Stalls.{
  AllCallsAreTaken,
  AllUnfinishedAreKept,
  NoCallIsLeftAtServers,
  NoCallbackNothingKept,
  NoneIsLeftAtServers,
  NothingFlies,
  StalledCantGoOn,
  UnfinishedAreKept,
};

use link_plan::Link;

/// A law: a cluster whose run stands stalled can't go on, where each packet in flight goes to one of its kernels (this project).
pub fn stalled_cant_go_on()
    ensures { StalledCantGoOn }
{}

/// A law: where a cluster can't go on, no packet is in flight (this project).
pub fn nothing_flies()
    ensures { NothingFlies }
{}

/// A law: where a reached cluster can't go on, the owner of each unfinished call took its request, and hasn't answered it (Welch 1986).
pub fn all_calls_are_taken<L: Link>()
    ensures { AllCallsAreTaken L.faults L.asked }
{}

/// A law: where a reached cluster can't go on, each unfinished call to a server is kept there, where servers have an answer to it whatever
/// they have: its request waits for callbacks, or for its file (Nelson, Welch and Ousterhout 1988).
pub fn unfinished_are_kept<L: Link>()
    ensures { UnfinishedAreKept L.faults L.asked }
{}

/// A law: and so is each unfinished call to a server at all, of a lawful description (this project).
pub fn all_unfinished_are_kept<L: Link>()
    ensures { AllUnfinishedAreKept L.faults L.asked }
{}

/// A law: a server of a reached cluster of which no callback is out has no busy file and keeps no request (Nelson, Welch and Ousterhout
/// 1988).
pub fn no_callback_nothing_kept<L: Link>()
    ensures { NoCallbackNothingKept L.faults L.asked }
{}

/// A law: where a reached cluster can't go on, no call is unfinished at a server of which no callback is out and which always has an answer
/// to it (this project).
pub fn none_is_left_at_servers<L: Link>()
    ensures { NoneIsLeftAtServers L.faults L.asked }
{}

/// A law: and no call at all, of a lawful description (this project).
pub fn no_call_is_left_at_servers<L: Link>()
    ensures { NoCallIsLeftAtServers L.faults L.asked }
{}
