ghost use Rattle.home_runs.specs.Runs.{BootsWithFirst, RunsAreDeeds, StepsAreDeeds};

/// A law: a client's kernel begins with the table of its processes that start, where at most 200 processes start (this project).
pub fn boots_with_first()
    ensures { BootsWithFirst }
{}

/// A law: each step of it, whatever comes, does to its home's table what a list of acts does, each as the table says in its turn, but
/// for places; where a request for a call comes to the home where it is done.
pub fn steps_are_deeds()
    ensures { StepsAreDeeds }
{}

/// A law: and so is the table behind all that came since the beginning, whatever it was.
pub fn runs_are_deeds()
    ensures { RunsAreDeeds }
{}
