//! One file over all kernels and all unfinished calls, played step by step: its server and clients, and what is on its way
//! between them, stay coherent (Nelson, Welch and Ousterhout 1988; stamps, versions and grants are this project's).
#![tactic(auto)]

mod blocks;
mod clients;
mod contents;
mod data;
mod grants;
mod limits;
mod lists;
mod one_file;
mod possible;
mod serving;
mod steps;
mod streams;
mod views;

pub use blocks::dirty_pieces;
pub use one_file::{OneFile, new_view, play_step};
pub use possible::{has_room, is_named};
pub use serving::store_pieces;
pub use views::last_given;
