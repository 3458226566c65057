//! Tests of `process_machine`: steps, bursts, calls, refusals and answers, with values that were worked out by hand.
#![tactic(auto)]

#[cfg(test)]
mod tests;
