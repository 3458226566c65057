ghost use Rattle.home_acts.specs.AsOne.{DeedsRunAsOne};
ghost use Rattle.home_acts.specs.Parked.{ParkedAreWoken};
ghost use Rattle.home_acts.specs.Laws.{AnswersAreActs, CallsAreActs, DeathsAreActs, HeardAreActs, IssuedAreActs, KillsHeardAreActs, LeaveHomes, PlacesAreNoted, PlacesHeardAreNoted, ServedAreActs};

/// A law: what a client's kernel does with a call of a process of its home, or with a `kill` of one, begins with the act by which a home
/// answers it: its table is that behind the act, and the act's entry is told. A `wait` that has no reply yet leaves both (this project).
pub fn calls_are_acts()
    ensures { CallsAreActs }
{}

/// A law: and so is what it does with such a call that another kernel asks for; the news of a death elsewhere is the act of a death.
pub fn served_are_acts()
    ensures { ServedAreActs }
{}

/// A law: where a process that is here begins such a call, its home does acts alone.
pub fn issued_are_acts()
    ensures { IssuedAreActs }
{}

/// A law: and where another home has answered one.
pub fn heard_are_acts()
    ensures { HeardAreActs }
{}

/// A law: the death of a process that is here begins with the act of a death, where it is of this home, and leaves the home else.
pub fn deaths_are_acts()
    ensures { DeathsAreActs }
{}

/// A law: a kill that another home tells of leads to acts alone.
pub fn kills_heard_are_acts()
    ensures { KillsHeardAreActs }
{}

/// A law: that a process has come to a kernel changes its place in the table alone, where it is of this home.
pub fn places_are_noted()
    ensures { PlacesAreNoted }
{}

/// A law: and so it is where another kernel tells that it has come there.
pub fn places_heard_are_noted()
    ensures { PlacesHeardAreNoted }
{}

/// A law: what else a client's kernel does with processes and homes leaves its own home alone.
pub fn homes_are_left()
    ensures { LeaveHomes }
{}

/// A law: where the code of an `exit` is one that a process can end with, the table behind a call's answer is that of a home.
pub fn answers_are_acts()
    ensures { AnswersAreActs }
{}

/// A law: a parked `wait` is woken as soon as its table answers it: whatever is done at a home, the `wait`s that are parked there behind
/// it are of processes that the table has no answer for yet, and that no kill is pending for, or that have ended; where it was so before.
pub fn parked_are_woken()
    ensures { ParkedAreWoken }
{}

/// A law: whatever deeds a home does, each as its table says, behind a history after which its table tells the same as the one-kernel
/// Unix: where the calls are their processes' next ones, and nothing else of a home's enters, their entries are a history of the
/// one-kernel Unix, and the table behind them tells the same as it (this project).
pub fn deeds_run_as_one()
    ensures { DeedsRunAsOne }
{}
