//! The edits of a change of declared types, file by file, and the new files.
#![tactic(auto)]

mod file;
mod files;
mod import;
mod order;

pub use file::{add_heads, edits_of};
pub use files::{NewFiles, edited_files, new_files};
pub use import::import_edit;
pub use order::are_ordered;
