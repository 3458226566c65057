ghost use Rattle.reached_callbacks.specs.Stalls.{ClientsHaveAll, NoCallbackIsOut, ServersAreDone};

use link_plan::Link;

/// A law: where a reached cluster can't go on, no callback is out at any server (this project).
pub fn no_callback_is_out<L: Link>()
    ensures { NoCallbackIsOut L.faults L.asked }
{}

/// A law: so no server has anything left to do then: no callback of it is out, and it keeps no request (this project).
pub fn servers_are_done<L: Link>()
    ensures { ServersAreDone L.faults L.asked }
{}

/// A law: and each remote call that isn't finished is with a client, which took it and hasn't answered it, where the description is lawful;
/// none of them is a callback (this project).
pub fn clients_have_all<L: Link>()
    ensures { ClientsHaveAll L.faults L.asked }
{}
