ghost use Rattle.reached_clients.specs.Clients.{ClientsKnowTheirCluster, HomesAreOwn, PlacesStayOnce, RoundsStayEnough, TurnsStayInOrder, WhatComesCanBeTaken, WhatIsTakenIsNew};

use link_plan::Link;

/// A law: each client of a reached cluster knows its own number, the kernels and programs of the description, the server that keeps
/// pages, and that it is the home of its processes (this project).
pub fn clients_know_their_cluster<L: Link>()
    ensures { ClientsKnowTheirCluster L.faults L.asked }
{}

/// A law: so the home in each is the kernel's own.
pub fn homes_are_own<L: Link>()
    ensures { HomesAreOwn L.faults L.asked }
{}

/// A law: what a client can take brings what is new there (Douglis and Ousterhout 1991; this project): a process that a request brings was
/// born, where this is its home, and the child that an answered `fork` brings is neither there nor leaves besides.
pub fn what_is_taken_is_new()
    ensures { WhatIsTakenIsNew }
{}

/// A law: what a copy brings that comes to a kernel by a change of the cluster, that the kernel could take before it (this project).
pub fn what_comes_can_be_taken<L: Link>()
    ensures { WhatComesCanBeTaken L.faults L.asked }
{}

/// A law: so in each reached cluster a process stands in at most one place of each client (this project).
pub fn places_stay_once<L: Link>()
    ensures { PlacesStayOnce L.faults L.asked }
{}

/// A law: and in each client one thing at most is on its way to each process, and the rounds of each step are enough that takes what is
/// new there: nothing is ready behind them, no reply is to be given and no report to be taken (this project).
pub fn rounds_stay_enough<L: Link>()
    ensures { RoundsStayEnough L.faults L.asked }
{}

/// A law: and in each reached cluster, what waits in a client for anything but the lock of its stream has that lock, who waits for one stands
/// in its queue, which is another's, data is read and written at open streams, who needs blocks has a turn to fill them, and all but the
/// first of those wait for theirs (this project).
pub fn turns_stay_in_order<L: Link>()
    ensures { TurnsStayInOrder L.faults L.asked }
{}
