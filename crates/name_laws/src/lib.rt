//! Each request on names that fits goes at a server: what it enters is what the one-kernel Unix makes, and the names of all domains
//! are one tree's again; and as a server begins, its names are those of the one-kernel Unix (this project).
#![tactic(auto)]

mod laws;

pub use laws::{
    cluster_begins, cluster_opens, fits_go_on, line_files_tie, makes_go, names_go, opens_go,
    servers_begin, servers_go_on, servers_open, waiters_go,
};
