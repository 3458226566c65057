//! The cluster file: a TOML document by which a user describes a cluster and what runs on it.
#![tactic(auto)]

mod again;
mod cluster;
mod fault;
mod file_paths;
mod hosts;
mod keys;
mod laws;
mod names;
mod places;
mod program_lines;
mod refusal;
mod row_lists;
mod rows;
mod single_rows;
mod tables;

pub use cluster::read_description;
pub use laws::{described_is_lawful, described_or_refused, refused_once};
pub use refusal::{FileEnd, Refusal};
