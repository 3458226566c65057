ghost use Rattle.reached_operations.specs.Answered.{CallFactsStay, WhatComesFits, WhatIsGivenUpFits};

use link_plan::Link;

/// A law: in each reached cluster, what a copy brings a client fits what its operation on files waits for whose call it is (this project):
/// what is done at the server is answered as such, a stream's move as a move.
pub fn what_comes_fits<L: Link>()
    ensures { WhatComesFits L.faults L.asked }
{}

/// A law: and so does it that a call is given up, whose next lost try is its last one: name calls alone wait for broadcasts and signs of life.
pub fn what_is_given_up_fits<L: Link>()
    ensures { WhatIsGivenUpFits L.faults L.asked }
{}

/// A law: so in each reached cluster, each client keeps the facts of the remote calls of its operations on files (`KeepsCallFacts` of
/// `file_facts`).
pub fn call_facts_stay<L: Link>()
    ensures { CallFactsStay L.faults L.asked }
{}
