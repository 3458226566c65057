//! Printed traces, written out: a line of each event and of each choice that its fields have, printed and read, and spoiled
//! lines, told by their number (this project).
#![tactic(auto)]

#[cfg(test)]
mod tests;
