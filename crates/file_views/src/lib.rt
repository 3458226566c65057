//! One file over all kernels and all unfinished calls: what its server and its clients keep, what is on its way between
//! them, the steps that change it, and when such a view is coherent (Nelson, Welch and Ousterhout 1988; stamps, versions and
//! grants are this project's).
#![tactic(auto)]

mod body;
mod call;
mod client;
mod copies;
mod entered;
mod grant;
pub mod judged;
mod laws;
mod moves;
mod opens;
mod step;
mod view;

pub use body::{Access, FileBody};
pub use call::{Carry, FileCall};
pub use client::{Client, Held};
pub use entered::Entered;
pub use grant::FileGrant;
pub use laws::{
    asking_stays, bytes_stay, coherence_stays, contents_stay, decisions_stay, holders_stay,
    layers_stay, limits_stay, modes_stay, parts_stay, shapes_stay, sizes_stay, sound_stays,
    stamps_stay, streams_stay, write_backs_stay,
};
pub use moves::ClientMove;
pub use opens::Open;
pub use step::FileStep;
pub use view::View;
