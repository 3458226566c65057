//! Tests of `program_text`: lines, whole programs and counts that are worked out by hand are assembled, or refused at their
//! first bad line, as they should be.
#![tactic(auto)]

#[cfg(test)]
mod programs;
