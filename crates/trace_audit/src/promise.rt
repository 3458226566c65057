ghost use Rattle.std.specs.Prelude.{◌≡◌};
ghost use Rattle.trace_audit.specs.Audits.{name_of};

use trace_judge::Rule;

/// A promise on a run's trace; the first that a trace breaks is the one of least place here (this project).
#[derive(Clone, Copy, Debug, PartialEq, Eq)]
pub enum Promise {
    /// One Unix kernel gives the journal of the trace.
    Legal,
    /// The records are written as they should be.
    Formed,
    /// Each call is issued, entered and returned once.
    Once,
    /// A server is called unreachable only for a cause.
    Unreachable,
    /// The nine rules in their order, and that each record is worth its units; never `Rule::Formed`.
    Rule(Rule),
}

impl Promise {
    /// The name by which the promise is printed.
    pub fn name(self) -> &'static str
        ensures { result.now ≡ name_of self }
    {
        match self {
            Promise::Legal => "legal",
            Promise::Formed => "formed",
            Promise::Once => "once",
            Promise::Unreachable => "unreachable",
            Promise::Rule(rule) => rule.name(),
        }
    }
}
