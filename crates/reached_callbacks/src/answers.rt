ghost use Rattle.reached_callbacks.specs.Clients.{CallbacksAreAnswered};
ghost use Rattle.reached_callbacks.specs.Callbacks.{CallbacksAreFlushed, NoClientHasOne, RepliesGoToCallers};

use link_plan::Link;

/// A law: a client answers a callback in the step in which it comes, by the dirty blocks that it has of the file (Nelson, Welch and Ousterhout
/// 1988).
pub fn callbacks_are_answered()
    ensures { CallbacksAreAnswered }
{}

/// A law: so between two changes of a reached cluster no client has the request of a callback (this project).
pub fn no_client_has_one<L: Link>()
    ensures { NoClientHasOne L.faults L.asked }
{}

/// A law: the reply to a callback brings flushed blocks, whoever gave it (this project).
pub fn callbacks_are_flushed<L: Link>()
    ensures { CallbacksAreFlushed L.faults L.asked }
{}

/// A law: the copies of a reply that are in flight go to its caller (Welch 1986).
pub fn replies_go_to_callers<L: Link>()
    ensures { RepliesGoToCallers L.faults L.asked }
{}
