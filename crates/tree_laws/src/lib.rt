//! A server's names of one domain against the tree of the one-kernel Unix: what it answers is what one kernel answers, and it has
//! the same names afterwards, or a remote link leads elsewhere (this project).
#![tactic(auto)]

mod laws;

pub use laws::{
    counts_as_one, entries_name_well, finds_as_one, made_is_same, makes_as_one, names_go_on,
    removed_is_same, removes_as_one, renamed_is_same, renames_as_one,
};
