//! Where each process is, as the records of a trace tell it (this project).
#![tactic(auto)]

mod places;

pub use places::{
    Place, boot_places, child_of, home_places, is_kernel_of, is_on_its_way, keep_place, place_in,
};
