//! Syntax trees of Java source (JLS 3rd edition, chapter 18), the names in them, and the words that all layers share.
#![tactic(auto)]

mod boxed;
mod fault;
mod items;
mod names;
pub mod tree;

pub use boxed::Boxed;
pub use fault::{Broken, Family, Fault, NoMemory};
pub use items::Items;
pub use names::{BUILT_IN_TYPES, Names};
pub use tree::{Kind, Name, Span, Token};
