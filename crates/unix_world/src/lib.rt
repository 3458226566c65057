//! The state of the one-kernel Unix as a value in ordinary containers: how it begins, how names, files, streams, devices and
//! processes are looked up in it, and how they are changed. What each of these gives is exactly what the definition says.
#![tactic(auto)]

mod booting;
mod devices;
mod domains;
mod files;
mod lookups;
mod processes;
mod programs;
mod streams;
mod tree;
mod world;

pub use booting::boot;
pub use devices::Devices;
pub use domains::begins_domain;
pub use files::Files;
pub use lookups::{free_descriptor, holds_a_master, holds_master_of, stream_of};
pub use processes::{find, find_number, next_pid, put};
pub use programs::program_at;
pub use streams::Streams;
pub use tree::{NameTree, above};
pub use world::World;
