ghost use Rattle.server_walks.specs.Served.{ServersCallBackSo, ServersTellSo};

/// A law: a step of a server's kernel, whatever comes, tells of calls only that they took effect as a whole, with a value or with an error
/// of a server's own, and else what it does with its files and which kernels it calls back (this project).
pub fn servers_tell_so()
    ensures { ServersTellSo }
{}

/// A law: each remote call of a server's kernel is a callback to one kernel, and goes there as long as it takes (Nelson, Welch and
/// Ousterhout 1988).
pub fn servers_call_back_so()
    ensures { ServersCallBackSo }
{}
