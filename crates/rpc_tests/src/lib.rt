//! Tests of `kernel_rpc` over links that lose, double and delay packets: that its calls succeed where there is plenty of memory,
//! and that what is seen then is what the rules give by hand.
#![tactic(auto)]

#[cfg(test)]
mod wires;
