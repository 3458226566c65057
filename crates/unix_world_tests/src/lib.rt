//! Tests of `unix_world`: what one kernel's Unix has at its start.
#![tactic(auto)]

#[cfg(test)]
mod tests;
