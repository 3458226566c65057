//! Processes of one client kernel between their calls: their calls return, they wait for pages, they are evicted, frozen and sent
//! to another kernel (Douglis and Ousterhout 1991).
#![tactic(auto)]

mod carried;
mod evicting;
mod freezing;
mod leaving;
mod paging;
mod returning;
mod route;

pub use carried::holds_master;
pub use evicting::{count_issue, is_ready, runs_here};
pub use freezing::{freeze, nothing};
pub use leaving::{leave_on, stream_moved};
pub use paging::{answer_with_pages, page_came, page_needed};
pub use returning::{between_calls, finish};
pub use route::Route;
