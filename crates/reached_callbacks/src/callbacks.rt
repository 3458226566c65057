ghost use Rattle.reached_callbacks.specs.Callbacks.{CallbacksAreCalls, EachHasRow, EachIsOut, ServersCallBack};

use link_plan::Link;

/// A law: the callbacks that are out at a server of a reached cluster are, in their order, the callbacks among its remote calls that aren't
/// finished; so none is lost, none is left, and none stands twice (this project).
pub fn callbacks_are_calls<L: Link>()
    ensures { CallbacksAreCalls L.faults L.asked }
{}

/// A law: each unfinished remote call of a server is a callback, which goes to its one kernel as long as it takes (Nelson, Welch and
/// Ousterhout 1988).
pub fn servers_call_back<L: Link>()
    ensures { ServersCallBack L.faults L.asked }
{}

/// A law: so each callback that is out is an unfinished remote call, of that server, to that one kernel, about that
/// file (this project).
pub fn each_is_out<L: Link>()
    ensures { EachIsOut L.faults L.asked }
{}

/// A law: and each unfinished remote call of a server stands among its callbacks (this project).
pub fn each_has_row<L: Link>()
    ensures { EachHasRow L.faults L.asked }
{}
