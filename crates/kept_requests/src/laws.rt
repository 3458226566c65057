ghost use Rattle.kept_requests.specs.Callbacks.{StepCallsBack};
ghost use Rattle.kept_requests.specs.Kept.{KeepsSuch, OthersArePassedOver, ServersAnswerOrKeep, StepAnswersOrKeeps};
ghost use Rattle.server_facts.specs.Steps.{BootHas, StepKeeps};

/// A law: every step of a server leaves it with such requests alone as may be kept, whatever comes: opens and moves until callbacks are
/// answered, and requests about files and names until their file isn't busy any more (Nelson, Welch and Ousterhout 1988).
pub fn step_keeps_such()
    ensures { StepKeeps KeepsSuch }
{}

/// A law: and so it is when the cluster begins.
pub fn boot_keeps_such()
    ensures { BootHas KeepsSuch }
{}

/// A law: a step of such a server answers each request that it kept, and the one that came, where it has an answer to that; or it keeps
/// it from then on (this project).
pub fn step_answers_or_keeps()
    ensures { StepAnswersOrKeeps }
{}

/// A law: so from when the cluster begins no request is lost at a server to which it has an answer (this project).
pub fn servers_answer_or_keep()
    ensures { ServersAnswerOrKeep }
{}

/// A law: a server passes over every other request: it says nothing, and keeps what it kept (this project).
pub fn others_are_passed_over()
    ensures { OthersArePassedOver }
{}

/// A law: behind a step of a server those callbacks are out that were, but for the one whose answer came, and those that the step sends,
/// each under its number (Nelson, Welch and Ousterhout 1988).
pub fn step_calls_back()
    ensures { StepCallsBack }
{}
