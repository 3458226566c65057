ghost use Rattle.reached_prefixes.specs.Known.{
  BroadcastUntilLearned,
  KernelsKnowWhatTheyLearned,
  KnownAreTold,
  LearnedOnce,
  RowsAreLearned,
};

use link_plan::Link;

/// A law: what each kernel of a reached cluster knows of prefixes is exactly what its records tell was learned, in their order; and by
/// these records it asked for a prefix by a broadcast, and learned one, only where it didn't know that prefix (Welch and Ousterhout 1986).
pub fn kernels_know_what_they_learned<L: Link>()
    ensures { KernelsKnowWhatTheyLearned L.faults L.asked }
{}

/// A law: so the rows of each client's prefix table are the domains of its Learned records, in their order: each row has its record, and
/// each record its row.
pub fn rows_are_learned<L: Link>()
    ensures { RowsAreLearned L.faults L.asked }
{}

/// A law: so a client knows a prefix exactly where the trace tells that it learned it.
pub fn known_are_told<L: Link>()
    ensures { KnownAreTold L.faults L.asked }
{}

/// A law: in the trace of each reached cluster a kernel asks for a prefix only until it has learned it (Welch and Ousterhout 1986).
pub fn prefixes_are_broadcast_until_learned<L: Link>()
    ensures { BroadcastUntilLearned L.faults L.asked }
{}

/// A law: and no kernel learns a prefix twice (this project).
pub fn prefixes_are_learned_once<L: Link>()
    ensures { LearnedOnce L.faults L.asked }
{}
