ghost use Rattle.client_rounds.specs.OneThing.{BeginsWithOneThing, ImagesKeepOneThing, OneThingIsEnough, StepsAreEnough, StepsKeepOneThing};

/// A law: where one thing at most is on its way to each process, which is in a state in which it waits for one, where one stream at a
/// time moves, of a process that leaves, and where no process is here and leaves, or is so twice, the rounds of a step are enough (this
/// project).
pub fn one_thing_is_enough()
    ensures { OneThingIsEnough }
{}

/// A law: so it is when the cluster begins.
pub fn begins_with_one_thing()
    ensures { BeginsWithOneThing }
{}

/// A law: each step keeps this, whatever comes, where each process stands in one place at most, a process that is here and of this home
/// was born, and the child that an answered `fork` brings is new here (`PlacesAreOnce` and `InHand` of `client_walks`).
pub fn steps_keep_one_thing()
    ensures { StepsKeepOneThing }
{}

/// A law: and the rounds of each step are enough then: nothing is ready behind them, no reply is to be given and no report to be taken.
pub fn steps_are_enough()
    ensures { StepsAreEnough }
{}

/// A law: and what a process does between two calls keeps it.
pub fn images_keep_one_thing()
    ensures { ImagesKeepOneThing }
{}
