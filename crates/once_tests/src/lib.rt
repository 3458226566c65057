//! Small traces, right ones and wrong ones, of which `calls_once` tells whether each call is once (this project).
#![tactic(auto)]

#[cfg(test)]
mod tests;
