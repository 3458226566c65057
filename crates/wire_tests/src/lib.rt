//! The spellings of packets, written out: each form is read with its values and spelled so again, and spoiled bytes
//! spell no packet (this project).
#![tactic(auto)]

#[cfg(test)]
mod tests;
