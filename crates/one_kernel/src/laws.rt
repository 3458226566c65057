ghost use Rattle.one_kernel.specs.Laws.{LegalIsLegal, NotLegalIsFirst, StepsAreBehindLegal};

/// A law: a history that is found legal is one that one Unix kernel gives.
pub fn legal_is_legal()
    ensures { LegalIsLegal }
{}

/// A law: of a history that isn't legal, the entries before the named one are, and those up to it aren't.
pub fn not_legal_is_first()
    ensures { NotLegalIsFirst }
{}

/// A law: where the bound of instructions is passed, the entries before the named one are legal.
pub fn steps_are_behind_legal()
    ensures { StepsAreBehindLegal }
{}
