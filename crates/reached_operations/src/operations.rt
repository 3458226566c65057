ghost use Rattle.reached_operations.specs.Operations.{OwnCallsAskSo, WriteBacksAskSo};

use link_plan::Link;

/// A law: in each reached cluster, where an operation of a client on files waits for a remote call of its own that isn't finished, that is a
/// call of this client, whose body reads back as a request of the kind that the operation sends, which is tried as often as such a one is,
/// and which the server of its file is to answer, where it is about a file's data (this project).
pub fn own_calls_ask_so<L: Link>()
    ensures { OwnCallsAskSo L.faults L.asked }
{}

/// A law: and where a write-back of a client is out whose call isn't finished, that is a write-back of this client.
pub fn write_backs_ask_so<L: Link>()
    ensures { WriteBacksAskSo L.faults L.asked }
{}
