ghost use Rattle.client_requests.specs.Owed.{OwedAreAnsweredOrKept};
ghost use Rattle.client_requests.specs.Rows.{AnsweredIsThere, KeptIsThere};

/// A law: each remote call that is owed an answer, as it was kept or comes with a request that isn't left alone, has its answer in the
/// step or is kept behind it (this project).
pub fn owed_are_answered_or_kept()
    ensures { OwedAreAnsweredOrKept }
{}

/// A law: one that a step answers stands among its answers.
pub fn answered_is_there()
    ensures { AnsweredIsThere }
{}

/// A law: and one that is kept stands among the parked `wait`s or the asks.
pub fn kept_is_there()
    ensures { KeptIsThere }
{}
