//! Drawings printed as SVG: each text is well-formed, and each byte that a drawing tells is escaped (this project).
#![tactic(auto)]

mod drawing;
mod laws;
mod printing;

pub use drawing::{Drawing, Figure, Group, Mark, Outline, Role, Subject};
pub use laws::escaped_is_text;
pub use printing::svg;
