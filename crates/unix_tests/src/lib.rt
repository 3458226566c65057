//! Tests of `unix_calls`: the server of a path by its longest domain, and copies of what a trace says.
#![tactic(auto)]

#[cfg(test)]
mod tests;
