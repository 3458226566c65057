ghost use Rattle.name_laws.specs.Boots.{ClusterBegins, ClusterOpens, LineFilesTie, ServersBegin, ServersOpen};
ghost use Rattle.name_laws.specs.GoOn.{FitsGoOn, ServersGoOn};
ghost use Rattle.name_laws.specs.Laws.{NamesGo};
ghost use Rattle.name_laws.specs.Opens.{MakesGo, OpensGo, WaitersGo};

/// A law: each request on names that fits goes at a server: what it enters is what the one-kernel Unix makes, and behind it the
/// names of all domains are one tree again; or the walk is sent on, or the request waits for a busy file (this project).
pub fn names_go()
    ensures { NamesGo }
{}

/// A law: so does a request for a device that fits (this project).
pub fn makes_go()
    ensures { MakesGo }
{}

/// A law: so does an open that fits, up to the grant of its file; a file that is made has its name in the one-kernel Unix then (this
/// project).
pub fn opens_go()
    ensures { OpensGo }
{}

/// A law: so does a request on names that waited for a busy file, when its turn comes (this project).
pub fn waiters_go()
    ensures { WaitersGo }
{}

/// A law: behind an entry whose call changes no names, a server's names are still those of the one-kernel Unix (this project).
pub fn servers_go_on()
    ensures { ServersGoOn }
{}

/// A law: a request that waits fits as before, behind each entry of another process (this project).
pub fn fits_go_on()
    ensures { FitsGoOn }
{}

/// A law: as a server of a lawful cluster begins, each of its domains has the names of its opening, and is one that the server's
/// kernel serves (this project).
pub fn servers_open()
    ensures { ServersOpen }
{}

/// A law: so the server begins with the names of the one-kernel Unix, where each domain of the cluster has those of its opening
/// (this project).
pub fn servers_begin()
    ensures { ServersBegin }
{}

/// A law: the domains of a lawful cluster have the names of their openings, where each kernel that serves one begins as a server
/// with these names (this project).
pub fn cluster_opens()
    ensures { ClusterOpens }
{}

/// A law: so each server of a lawful cluster begins with the names of the one-kernel Unix, where each kernel that serves a domain
/// begins as a server (this project).
pub fn cluster_begins()
    ensures { ClusterBegins }
{}

/// A law: in a lawful cluster each file that a line makes can be tied to one of the kernel that serves its domain, numbered by the
/// line's place, from 1 (this project).
pub fn line_files_tie()
    ensures { LineFilesTie }
{}
