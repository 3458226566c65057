//! The stream table of a kernel: the descriptors of the processes there, the open streams that they lead to, and the locks of
//! streams (Welch 1986; Douglis and Ousterhout 1991; the limits are this project's).
#![tactic(auto)]

mod arrival;
mod end;
mod entries;
mod owners;
mod stream;
mod streams;

pub use end::StreamEnd;
pub use stream::{Carried, Place, Stream};
pub use streams::Streams;
