ghost use Rattle.flat_tree.specs.Examples.{TwoDomainsBegin};
ghost use Rattle.flat_tree.specs.Listings.{ListsAsOne};
ghost use Rattle.flat_tree.specs.Runs.{LongestAnswers, OpenedAsOne, RequestsAnswerAsOne, ServersAnswerAsOne};

/// A law: the text that a server's listing of a directory gives is that of the one-kernel Unix (this project).
pub fn lists_as_one()
    ensures { ListsAsOne }
{}

/// A law: where the names of a cluster's domains are those of one tree, whatever requests on names are sent to their servers, each
/// to a domain of its path, in whatever order: the answers are those of the one tree to the same requests, or send a walk on to
/// a longer domain of its path (this project).
pub fn requests_answer_as_one()
    ensures { RequestsAnswerAsOne }
{}

/// A law: as a cluster begins, the names of its domains are those of one tree, each name in its domain, with a remote link where
/// another one hangs (this project).
pub fn opened_as_one()
    ensures { OpenedAsOne }
{}

/// A law: so, from its start on, the servers of a cluster answer any list of requests on names as one tree (this project).
pub fn servers_answer_as_one()
    ensures { ServersAnswerAsOne }
{}

/// A law: the longest domain of a path never sends its walk on (this project).
pub fn longest_answers()
    ensures { LongestAnswers }
{}

/// A law: an example, two domains with a file in each: each begins with its own names, and with a remote link where the other one
/// hangs (this project).
pub fn two_domains_begin()
    ensures { TwoDomainsBegin }
{}
