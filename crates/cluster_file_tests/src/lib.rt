//! Tests of `cluster_file`: cluster files that were judged by hand, with the number and the place of their refusals.
#![tactic(auto)]

#[cfg(test)]
mod tests;
