ghost use Rattle.client_facts.specs.FileExamples.{BusyHasFileFacts, FileFactsCanFail};

/// A small state in which four processes wait has all facts of the files' side.
pub fn busy_has_file_facts()
    ensures { BusyHasFileFacts }
{}

/// Each fact of the files' side is lacked by a small state: none is met by all.
pub fn file_facts_can_fail()
    ensures { FileFactsCanFail }
{}
