ghost use Rattle.file_facts.specs.CallSteps.{StepKeepsCallFacts};

/// A law: each step of the whole kernel keeps the facts of the remote calls of its files' side, its rounds included, where an answer is of
/// the kind that its operation takes, and none but broadcasts and signs of life are given up (this project).
pub fn step_keeps_call_facts()
    ensures { StepKeepsCallFacts }
{}
