//! Laws of what the kernels of each reached cluster know of prefixes (Welch and Ousterhout 1986), and of what its trace tells of that.
#![tactic(auto)]

mod laws;

pub use laws::{
    kernels_know_what_they_learned, known_are_told, prefixes_are_broadcast_until_learned,
    prefixes_are_learned_once, rows_are_learned,
};
