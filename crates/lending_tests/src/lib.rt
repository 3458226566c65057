//! Tests of `lend_text`, and of `host_lending` through it: whole texts of events with the answers that the rules give by hand.
#![tactic(auto)]

#[cfg(test)]
mod lending;
