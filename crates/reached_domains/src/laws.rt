ghost use Rattle.reached_domains.specs.Domains.{
  AnswersAreOwners,
  AnswersTellDomains,
  BroadcastsAskSo,
  LearnedAreDomains,
  OneServerAnswers,
  RedirectsAreDomains,
  RowsAreDomains,
  ServersAnswersFit,
  ServersServeTheirs,
};

use link_plan::Link;

/// A law: each server of a reached cluster serves domains that the description gives to its kernel, and no others (Welch and Ousterhout
/// 1986).
pub fn servers_serve_theirs<L: Link>()
    ensures { ServersServeTheirs L.faults L.asked }
{}

/// A law: each remote call of a reached cluster that asks for the server of a prefix is to be answered by the server of the prefix's
/// longest domain.
pub fn one_server_answers<L: Link>()
    ensures { OneServerAnswers L.faults L.asked }
{}

/// A law: each answer to a remote call of a reached cluster comes from the kernel that was to give it (Welch 1986).
pub fn answers_are_owners<L: Link>()
    ensures { AnswersAreOwners L.faults L.asked }
{}

/// A law: where a remote call of a reached cluster that asks for the server of a prefix is answered, the prefix is the root of a domain
/// of the description, the one that answered is that domain's server, and the answer tells that prefix (Welch and Ousterhout 1986).
pub fn answers_tell_domains<L: Link>()
    ensures { AnswersTellDomains L.faults L.asked }
{}

/// A law: each answer of a server of a reached cluster is of a sort that the request may have which it answers (Nelson, Welch and
/// Ousterhout 1988; Welch and Ousterhout 1986).
pub fn servers_answers_fit<L: Link>()
    ensures { ServersAnswersFit L.faults L.asked }
{}

/// A law: where a remote call of a reached cluster is answered with another path, which leads a name call on into another domain, that
/// path is the root of a domain of the description (Welch and Ousterhout 1986).
pub fn redirects_are_domains<L: Link>()
    ensures { RedirectsAreDomains L.faults L.asked }
{}

/// A law: where an operation of a client of a reached cluster waits in a broadcast for the server of a prefix, and that remote call
/// isn't finished, it asks for that prefix (Welch and Ousterhout 1986).
pub fn broadcasts_ask_so<L: Link>()
    ensures { BroadcastsAskSo L.faults L.asked }
{}

/// A law: each row of a client's prefix table in a reached cluster is a domain of the description, with that domain's server (Welch and
/// Ousterhout 1986).
pub fn rows_are_domains<L: Link>()
    ensures { RowsAreDomains L.faults L.asked }
{}

/// A law: each record of a reached cluster's trace that tells that a prefix was learned tells of a domain of the description, with that
/// domain's server (Welch and Ousterhout 1986).
pub fn learned_are_domains<L: Link>()
    ensures { LearnedAreDomains L.faults L.asked }
{}
