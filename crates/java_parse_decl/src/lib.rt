//! Files of Java, from the tokens of a text to numbered trees (JLS 3rd edition, chapters 7, 8, 9 and 18).
#![tactic(auto)]

mod calls;
mod decls;
mod laws;
mod members;
mod read;
mod units;
mod words;

pub use java_parse_term::SyntaxFault;
pub use laws::one_unit;
pub use read::parse_unit;
