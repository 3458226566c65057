ghost use Rattle.unix_calls.specs.Domains.{DomainIsLongest, ServerServes};
ghost use Rattle.unix_calls.specs.Laws.{PrefixIsLegal, DeathIsOfKilled, SizesStayWithin, LawfulBeginsWithin, RefusalChangesNothing, OthersStay, EndedIsSilent, TestsTell};

/// A law: the longest domain of a path is a domain, the path begins with it, and no longer domain is one that the path begins
/// with.
pub fn domain_is_longest()
    ensures { DomainIsLongest }
{}

/// A law: the server of a domain is the kernel that serves it.
pub fn server_serves()
    ensures { ServerServes }
{}

/// A law: every prefix of a legal history is legal.
pub fn prefix_is_legal()
    ensures { PrefixIsLegal }
{}

/// A law: a death is an entry only of a process that a kill is pending for.
pub fn death_is_of_killed()
    ensures { DeathIsOfKilled }
{}

/// A law: no file is ever larger than the limit, and no stream's offset past it, where the files are so at the start.
pub fn sizes_stay_within()
    ensures { SizesStayWithin }
{}

/// A law: a lawful description's files are within the limit, and it starts no more processes than a home may make.
pub fn lawful_begins_within()
    ensures { LawfulBeginsWithin }
{}

/// A law: a refused call changes nothing but its caller's image and its number of calls.
pub fn refusal_changes_nothing()
    ensures { RefusalChangesNothing }
{}

/// A law: an entry changes no other process's image and ends no other process; a fork's child is a new one.
pub fn others_stay()
    ensures { OthersStay }
{}

/// A law: behind the exit, the bad step or the death of a process stands no entry of it.
pub fn ended_is_silent()
    ensures { EndedIsSilent }
{}

/// A law: the tests of calls and of replies, by which an entry is compared with what is due, tell whether they are equal.
pub fn tests_tell()
    ensures { TestsTell }
{}
