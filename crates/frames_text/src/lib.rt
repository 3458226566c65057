//! Packets that are sent in frames over a link, as a text: a line for each packet, and a line that tells of each whether it came
//! whole (this project).
#![tactic(auto)]

mod answering;
mod digits;
mod parcel;
mod reading;
mod reporting;
mod sending;

pub use answering::{FramesAnswer, send_text};
pub use parcel::Parcel;
pub use reading::read_parcels;
pub use reporting::send_parcels;
pub use sending::Sent;
