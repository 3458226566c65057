ghost use Rattle.broadcast_laws.specs.Broadcasts.{ClientsAskSo};

/// A law: behind each step of a client's kernel, whatever comes, where an operation waits in a broadcast for the server of a prefix,
/// one waited in that very broadcast for it before, or the step begins that remote call, and it asks for that prefix (Welch and
/// Ousterhout 1986).
pub fn clients_ask_so()
    ensures { ClientsAskSo }
{}
