//! The lines of a report of changes, read back from its bytes.
#![tactic(auto)]

mod line;
mod line_reading;
mod report_reader;
mod stop;
mod words;

pub use line::Line;
pub use report_reader::read_report;
