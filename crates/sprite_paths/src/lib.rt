//! Paths: a path is the list of its parts, and a text is cleaned into one.
#![tactic(auto)]

mod laws;
mod path;
mod path_end;

pub use laws::{
    behind_undoes_join, cleaned_is_path, join_undoes_behind, prefix_is_by_parts, text_cleans_back,
    text_tells_path,
};
pub use path::Path;
pub use path_end::PathEnd;
