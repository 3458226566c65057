ghost use Rattle.operation_calls.specs.Asking.{CallsAreNumbered, OperationsAskSo, WriteBacksGoSo};

/// A law: behind each step of a client, whatever comes, each operation on files that waits for a remote call of its own waited for it
/// before, or the step begins that call: what is done at the server sends an operation, what fetches a block a fetch, a sync a write-back,
/// a close a close, a stream's move a move, a name call a broadcast, a sign of life or what is called (this project). Broadcasts and signs
/// of life are tried eight times, all others until they are answered; what is done with a file's data goes to that file's server.
pub fn operations_ask_so()
    ensures { OperationsAskSo }
{}

/// A law: each write-back that is out behind a step was out before it, or goes in the step as one, to its file's server.
pub fn write_backs_go_so()
    ensures { WriteBacksGoSo }
{}

/// A law: the number behind a step is that of its first remote call and as many as it begins.
pub fn calls_are_numbered()
    ensures { CallsAreNumbered }
{}
