ghost use Rattle.client_facts.specs.Begins.{BootedFilesHaveFacts, FilesBeginWithFacts, HomesBeginWithFacts, ProcsBeginWithFacts};

/// A law: the files' side of a client's kernel has all facts when the cluster begins, by itself and in the whole kernel.
pub fn files_begin_with_facts()
    ensures files { FilesBeginWithFacts }
    ensures whole { BootedFilesHaveFacts }
{}

/// A law: the processes of a client's kernel have all facts when the cluster begins.
pub fn procs_begin_with_facts()
    ensures { ProcsBeginWithFacts }
{}

/// A law: the home in a client's kernel has all facts when the cluster begins.
pub fn homes_begin_with_facts()
    ensures { HomesBeginWithFacts }
{}
