//! Tests of `picture_drawing`: small traces made by hand, with what stands in their pictures, and how often, by hand.
#![tactic(auto)]

#[cfg(test)]
mod pictures;
