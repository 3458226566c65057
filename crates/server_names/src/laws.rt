ghost use Rattle.server_names.specs.Laws.{EntriesHangInDirectories, MadeIsFound, RemovedIsGone};

/// A law: a name that was made is found as what it was made.
pub fn made_is_found()
    ensures { MadeIsFound }
{}

/// A law: a name that was taken away is found no more.
pub fn removed_is_gone()
    ensures { RemovedIsGone }
{}

/// A law: each entry hangs in a directory to which a walk goes, so a remote link hangs directly in a directory too.
pub fn entries_hang_in_directories()
    ensures { EntriesHangInDirectories }
{}
