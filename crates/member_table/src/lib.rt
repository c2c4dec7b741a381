//! The members of all types of a program, which of its methods override which, and the rules on them: DR13 to DR20 (JLS 3rd edition, 8.2 to 8.4 and 9.2 to 9.4).
#![tactic(auto)]

mod build;
mod members;

pub use build::tabulate;
pub use members::Members;
