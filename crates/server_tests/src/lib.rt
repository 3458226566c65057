//! Tests of `server_kernel`: scripts of requests and answers, each with what the server says to it.
#![tactic(auto)]

#[cfg(test)]
mod cluster;
#[cfg(test)]
mod rows;
#[cfg(test)]
mod steps;
