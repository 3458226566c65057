ghost use Rattle.stall_laws.specs.Stalls.{AllTakenAreKept, OwnersAloneHold, ServersKeepSuch, TakenAreKept};

use link_plan::Link;

/// A law: between two changes of a reached cluster nobody but its owner has the request of an unfinished call; a server that was asked for
/// the server of a prefix and isn't that has gone silent (Welch 1986; Welch and Ousterhout 1986).
pub fn owners_alone_hold<L: Link>()
    ensures { OwnersAloneHold L.faults L.asked }
{}

/// A law: each server of a reached cluster keeps such requests alone as may be kept: opens and moves until callbacks are answered, and
/// requests about files and names until their file isn't busy any more (Nelson, Welch and Ousterhout 1988).
pub fn servers_keep_such<L: Link>()
    ensures { ServersKeepSuch L.faults L.asked }
{}

/// A law: in a reached cluster each call that a server took and hasn't answered is kept there, where servers have an answer to it whatever
/// they have: its request waits for callbacks, or for its file (Nelson, Welch and Ousterhout 1988).
pub fn taken_are_kept<L: Link>()
    ensures { TakenAreKept L.faults L.asked }
{}

/// A law: and so is every call to a server of a lawful description (this project).
pub fn all_taken_are_kept<L: Link>()
    ensures { AllTakenAreKept L.faults L.asked }
{}
