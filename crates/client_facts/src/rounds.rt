ghost use Rattle.client_facts.specs.Rounds.{QuietStays};

/// A law: where nothing is ready, no reply is to be given and no report to be taken, further rounds of a step change nothing.
pub fn quiet_stays()
    ensures { QuietStays }
{}
