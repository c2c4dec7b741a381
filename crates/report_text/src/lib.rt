//! The lines that jgen puts.
#![tactic(auto)]

mod change;
mod extract;
mod report;
mod types;

pub use change::change_report;
pub use extract::{KeptLine, extract_report};
pub use report::{
    checked_files, edit_report, missing, place_text, read_fault, refused_at, refused_place,
    rule_name, unchecked_at, usage, write_fault,
};
pub use types::types_report;
