ghost use Rattle.prefix_laws.specs.Steps.{
  ClientsBeginWithNone,
  ClientsLearnByAnswers,
  ClientsLearnSo,
  ImagesLeavePrefixes,
  ServersLearnNone,
};

/// A law: each step of a client's kernel, whatever comes, leaves the prefixes that it knows with their servers, and puts behind them
/// exactly those of which the step tells that they were learned, in that order; and it asks for a prefix by a broadcast, and learns
/// one, only where it doesn't know that prefix then (Welch and Ousterhout 1986).
pub fn clients_learn_so()
    ensures { ClientsLearnSo }
{}

/// A law: a step of it learns exactly what an answer teaches: where the answer to a remote call comes for which a name call waits that
/// asked all servers for a prefix, that prefix with the server that answered, unless it is known; and else nothing (Welch and Ousterhout
/// 1986).
pub fn clients_learn_by_answers()
    ensures { ClientsLearnByAnswers }
{}

/// A law: a client's kernel begins with no prefix (this project).
pub fn clients_begin_with_none()
    ensures { ClientsBeginWithNone }
{}

/// A law: and what a process does between two calls leaves what it knows.
pub fn images_leave_prefixes()
    ensures { ImagesLeavePrefixes }
{}

/// A law: a step of a server's kernel tells neither that a prefix is asked for nor that one is learned.
pub fn servers_learn_none()
    ensures { ServersLearnNone }
{}
