//! The text of a new interface with methods of a class.
#![tactic(auto)]

mod extraction;
mod imports;
mod lists;
mod methods;
mod names;
mod text;
mod types;

pub use extraction::Extraction;
pub use lists::is_among;
pub use names::name_text;
pub use text::interface_text;
