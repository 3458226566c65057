ghost use Rattle.stall_laws.specs.Clients.{
  CallbacksGoToClients,
  ClientsKeepTaken,
  ClientsKeepUnfinished,
  NoCallbackWaits,
  NoOtherIsLeftAtClients,
  WaitsAndAsksAreLeft,
};

use link_plan::Link;

/// A law: in a reached cluster each call that a client took and hasn't answered is kept there: as a `wait` that is parked, or as an ask of
/// a pseudo-device that has no answer yet (Welch and Ousterhout 1988; Douglis and Ousterhout 1991).
pub fn clients_keep_taken<L: Link>()
    ensures { ClientsKeepTaken L.faults L.asked }
{}

/// A law: where a reached cluster can't go on, each unfinished call to a client is kept so there (Welch and Ousterhout 1988; Douglis and
/// Ousterhout 1991).
pub fn clients_keep_unfinished<L: Link>()
    ensures { ClientsKeepUnfinished L.faults L.asked }
{}

/// A law: so each of these is a `wait` or an ask of a pseudo-device (this project).
pub fn no_other_is_left_at_clients<L: Link>()
    ensures { NoOtherIsLeftAtClients L.faults L.asked }
{}

/// A law: each unfinished callback of a reached cluster goes to a client (Nelson, Welch and Ousterhout 1988).
pub fn callbacks_go_to_clients<L: Link>()
    ensures { CallbacksGoToClients L.faults L.asked }
{}

/// A law: where a reached cluster can't go on, no callback waits for its client: none is out at any server, so no server keeps a request or
/// has a busy file; where callbacks that are out are unfinished calls (Nelson, Welch and Ousterhout 1988).
pub fn no_callback_waits<L: Link>()
    ensures { NoCallbackWaits L.faults L.asked }
{}

/// A law: a reached cluster of a lawful description that can't go on has nothing left at its servers, and of all remote calls only `wait`s
/// and asks of pseudo-devices are unfinished, each kept at its client; where callbacks that are out are unfinished calls (this project).
pub fn waits_and_asks_are_left<L: Link>()
    ensures { WaitsAndAsksAreLeft L.faults L.asked }
{}
