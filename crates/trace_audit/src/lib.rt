//! Traces kept by a user, and their audit: a text holds a cluster file, a line `=====` and a printed trace, which is asked for every
//! promise of a run without running a cluster (this project).
#![tactic(auto)]

mod audited_text;
mod auditing;
mod outcome;
mod promise;
mod texts;

pub use audited_text::AuditedText;
pub use auditing::audit;
pub use outcome::Audit;
pub use promise::Promise;
pub use texts::audit_text;
