ghost use Rattle.cause_entries.specs.Causes.{ClientsCallUnreachableSo, ServersCallNoneUnreachable};
ghost use Rattle.cause_entries.specs.Sayings.{ClientsSaySo};
ghost use Rattle.cause_entries.specs.Waits.{ClientsWaitSo};

/// A law: a step of a client's kernel enters a call whose server is called unreachable only where a remote call is given up and a
/// name call waits for that very one: that name call's entry, once (this project). No process comes to a call that is refused so.
pub fn clients_call_unreachable_so()
    ensures { ClientsCallUnreachableSo }
{}

/// A law: a step of a server's kernel enters no such call.
pub fn servers_call_none_unreachable()
    ensures { ServersCallNoneUnreachable }
{}

/// A law: what a name call waits for was told to go out for its sake: a broadcast to each server, an echo or a request to one. So it
/// stays through each step of a client's kernel, whatever comes (Welch and Ousterhout 1986).
pub fn clients_wait_so()
    ensures { ClientsWaitSo }
{}

/// A law: and whatever a client's kernel tells to have gone out with that number is told to be for the sake of that very call, and for
/// what it waits (this project).
pub fn clients_say_so()
    ensures { ClientsSaySo }
{}
