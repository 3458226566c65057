//! Shadow streams: at a file's server, the one offset of each stream that several clients share, and how many grants of
//! it each client holds (Welch 1986; Douglis and Ousterhout 1991).
#![tactic(auto)]

mod shadow;
mod shadows;

pub use shadow::Shadow;
pub use shadows::Shadows;
