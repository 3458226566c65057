ghost use Rattle.home_laws.specs.Laws.{DeathsAsOne, HomesAnswerAsOne, KillsAsOne, WaitsAreBlocked};
ghost use Rattle.home_laws.specs.Requests.{RequestsAreServed, RequestsGoOnFitting};
ghost use Rattle.home_laws.specs.Runs.{HomesRunAsOne, HomesRunFromTheStart};
ghost use Rattle.home_laws.specs.Start.{StartsAsOne, TablesGoOn};
ghost use Rattle.home_laws.specs.Tells.{TablesTell};

/// A law: what a home answers to a call of one of its processes (`print`, `exit`, a bad step, `getppid`, `host`, `tick`, `fork` or
/// `wait`) is what the one-kernel Unix answers; behind it the home's table tells the same as that, and each other home's still does
/// (this project).
pub fn homes_answer_as_one()
    ensures { HomesAnswerAsOne }
{}

/// A law: where a home doesn't answer a `wait` yet, its process is blocked in the one-kernel Unix (this project).
pub fn waits_are_blocked()
    ensures { WaitsAreBlocked }
{}

/// A law: what the home of a `kill`'s argument answers is what the one-kernel Unix answers, whosever call it is (this project).
pub fn kills_as_one()
    ensures { KillsAsOne }
{}

/// A law: where a home has a kill of one of its processes pending, and the process is in no ask, the one-kernel Unix lets it die
/// (this project).
pub fn deaths_as_one()
    ensures { DeathsAsOne }
{}

/// A law: at the start each home's table tells the same as the one-kernel Unix, where at most 200 processes start (this project).
pub fn starts_as_one()
    ensures { StartsAsOne }
{}

/// A law: behind an entry that isn't a home's, each home's table still tells the same as the one-kernel Unix (this project).
pub fn tables_go_on()
    ensures { TablesGoOn }
{}

/// A law: a home's table that tells the same as the one-kernel Unix has its processes with their parents, has them ended and waited
/// for alike, has the same kills pending, and gives the next process the same number (this project).
pub fn tables_tell()
    ensures { TablesTell }
{}

/// A law: a request that fits a home (the next call of one of its processes, a `kill` of one, or the death of one that a kill is pending
/// for) still fits behind each entry of any other process, however long it is on its way (this project).
pub fn requests_go_on_fitting()
    ensures { RequestsGoOnFitting }
{}

/// A law: a home serves a request that fits as the one-kernel Unix does: it answers it, or parks a `wait` that blocks there too (this
/// project).
pub fn requests_are_served()
    ensures { RequestsAreServed }
{}

/// A law: behind a history after which each home's table tells the same as the one-kernel Unix, whatever calls, kills and deaths the
/// homes serve, in whatever order, and whatever else enters, all of it is a history of the one-kernel Unix, and each table still tells
/// the same (this project).
pub fn homes_run_as_one()
    ensures { HomesRunAsOne }
{}

/// A law: and so it is from the start on, where at most 200 processes start (this project).
pub fn homes_run_from_the_start()
    ensures { HomesRunFromTheStart }
{}
