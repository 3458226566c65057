//! Printed histories, written out: each kind of line is read with its values and printed so again, and spoiled lines are
//! told by their number (this project).
#![tactic(auto)]

#[cfg(test)]
mod tests;
