ghost use Rattle.reached_causes.specs.Causes.{ServersLinkToDomains, UnreachableForCause};
ghost use Rattle.reached_causes.specs.GivenUp.{GivenUpBehindSends};

use link_plan::Link;

/// A law: of each run, a trace that tells the run's packets and timers tells, behind each record that a call was sent to the kernel that
/// was to answer it, that the call was given up, where its timer fires for the last time: eight tries were over, at least eight packets
/// between the two kernels were lost, and no answer came (Welch 1986).
pub fn given_up_behind_sends()
    ensures { GivenUpBehindSends }
{}

/// A law: the trace of each reached cluster of a lawful description calls a server unreachable only for cause: behind eight lost tries of
/// an echo, a broadcast or a request that went out for the sake of that very call (Welch 1986; this project).
pub fn unreachable_for_cause<L: Link>()
    ensures { UnreachableForCause L.faults L.asked }
{}

/// A law: in each reached cluster others hang in a server's domains at roots of the description's domains alone, so that it leads name
/// calls on to these alone (Welch and Ousterhout 1986).
pub fn servers_link_to_domains<L: Link>()
    ensures { ServersLinkToDomains L.faults L.asked }
{}
