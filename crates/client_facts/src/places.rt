ghost use Rattle.client_facts.specs.Places.{ArrivalsKeepPlaces, BirthsKeepPlaces, EvictionsKeepPlaces, KillsKeepPlaces, RoundKeepsPlaces, RoundsKeepPlaces};

/// A law: a round of a step, in which replies are given and reports taken, keeps each process here once or leaving once, and not
/// both, and who is ready without a call or a flag.
pub fn round_keeps_places()
    ensures { RoundKeepsPlaces }
{}

/// A law: and so do all rounds of a step, whatever was woken.
pub fn rounds_keep_places()
    ensures { RoundsKeepPlaces }
{}

/// A law: an eviction, of whichever processes, keeps it.
pub fn evictions_keep_places()
    ensures { EvictionsKeepPlaces }
{}

/// A law: a kill that a kernel hears of keeps it: who is ready dies at once.
pub fn kills_keep_places()
    ensures { KillsKeepPlaces }
{}

/// A law: the birth of a process that is neither here nor leaves keeps it, also where a kill came before it.
pub fn births_keep_places()
    ensures { BirthsKeepPlaces }
{}

/// A law: the arrival of any process keeps it, at its home or elsewhere, in its own `migrate` or not.
pub fn arrivals_keep_places()
    ensures { ArrivalsKeepPlaces }
{}
