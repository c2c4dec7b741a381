//! The top call: words, files and a report.
#![tactic(auto)]

mod asked;
mod call;
mod check;
mod decide;
mod extract;
pub mod laws;
mod lines;
mod status;

pub use call::refactor;
pub use status::Status;
