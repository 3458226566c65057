ghost use Rattle.client_facts.specs.ProcExamples.{BusyHasHomeFacts, BusyHasProcFacts, HomeFactsAreFacts, ProcFactsAreFacts};

/// A small state of fifteen processes has all facts of processes.
pub fn busy_has_proc_facts()
    ensures { BusyHasProcFacts }
{}

/// And all facts of the home.
pub fn busy_has_home_facts()
    ensures { BusyHasHomeFacts }
{}

/// Each fact of processes is lacked by a small state: none is met by all.
pub fn proc_facts_can_fail()
    ensures { ProcFactsAreFacts }
{}

/// And so is each fact of the home.
pub fn home_facts_can_fail()
    ensures { HomeFactsAreFacts }
{}
