//! The pages of moving processes, which the server of `/` keeps between the put and the take (this project; that pages
//! travel by way of a file server is Douglis and Ousterhout 1991).
#![tactic(auto)]

mod swap;

pub use swap::{PageKey, Swap};
