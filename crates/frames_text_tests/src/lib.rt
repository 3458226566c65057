//! Tests of `frames_text`: whole texts, with the lines that the rules give by hand.
#![tactic(auto)]

#[cfg(test)]
mod texts;
