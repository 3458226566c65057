//! That a process that leaves a client has the descriptors of each of its streams until that one moves, and so who has a stream's lock an
//! operation that has it, which every step of the client's kernel keeps (Douglis and Ousterhout 1991; this project).
#![tactic(auto)]

mod move_facts;

pub use move_facts::{begins_with_move_facts, image_keeps_move_facts, step_keeps_move_facts};
