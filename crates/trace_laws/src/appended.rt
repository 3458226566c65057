ghost use Rattle.trace_laws.specs.Appended.{PastsAppend, TestsAppend, RulesGoOn, BackwardRulesGoOn, ForwardRulesGoOn, LookBacksAppend, LookAheadsAppend};

/// A law: behind a trace with more records at its end stands what these lead to from where the trace led (this project).
pub fn pasts_append()
    ensures { PastsAppend }
{}

/// A law: whether each, or some, of the records of a trace with more at its end meets a test, and how many do, is told by its two
/// parts (this project).
pub fn tests_append()
    ensures { TestsAppend }
{}

/// A law: a rule holds of a trace with more records at its end exactly where it holds of the trace, and of these from what stands
/// behind them; where the rule's test sees the records behind one, as far as it says of them (this project).
pub fn rules_go_on()
    ensures { RulesGoOn }
{}

/// A law: so do those rules of traces that see no records behind one (this project).
pub fn backward_rules_go_on()
    ensures { BackwardRulesGoOn }
{}

/// A law: of the rules that see the records behind one, how records are written and how long bursts are see the next record alone,
/// and how kills are heeded stays so, whatever more stands behind (this project).
pub fn forward_rules_go_on()
    ensures { ForwardRulesGoOn }
{}

/// A law: what a rule looks back on, of a trace with more records at its end, is told from what the trace told (this project).
pub fn look_backs_append()
    ensures { LookBacksAppend }
{}

/// A law: what a rule looks for ahead, in a trace with more records at its end, is found in one of its two parts (this project).
pub fn look_aheads_append()
    ensures { LookAheadsAppend }
{}
