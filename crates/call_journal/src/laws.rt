ghost use Rattle.call_journal.specs.Laws.{UnitsNeverFall, JournalsGrow, PastsAreTold, LookBacksGrow};

/// A trace that grows costs no less than before.
pub fn units_never_fall()
    ensures { UnitsNeverFall }
{}

/// The journal of a trace that grows only grows, at the end.
pub fn journals_grow()
    ensures { JournalsGrow }
{}

/// A rule sees at each place exactly the records before it, the state of the one-kernel Unix after their journal, and what each of
/// them made.
pub fn pasts_are_told()
    ensures { PastsAreTold }
{}

/// What a rule looks back on is told record by record.
pub fn look_backs_grow()
    ensures { LookBacksGrow }
{}
