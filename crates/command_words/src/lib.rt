//! The words of a command line: the command, its own words and the names of files, by the rules U1 to U8.
#![tactic(auto)]

mod names;
mod request;
mod rules;
mod table;
mod word_set;

pub use names::{folder, is_identifier, number};
pub use request::{ExtractWords, Generalize, PlaceWords, Reading, Request, read_words};
pub use table::Command;
