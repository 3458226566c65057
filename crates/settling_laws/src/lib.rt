//! That a settling of a file whose server may stop ends, over the definitions of `restart_views` (the rules are this project's).
#![tactic(auto)]

mod laws;

pub use laws::settlings_end;
