//! A run as a picture: a printed trace drawn as one SVG, with a lane for each kernel and a row for each record (this project).
#![tactic(auto)]

mod arrows;
mod draw;
mod label;
mod layout;
mod legend;
mod marks;
mod scene;
mod style;
mod view;

pub use draw::{Wanted, picture};
