//! Tokens as the grammar of Java sees them, and the grammar as definitions (JLS 3rd edition, chapters 3, 8, 14, 15 and 18).
#![tactic(auto)]

mod laws;
pub mod reads;
mod sorts;
pub mod token;
mod toks;

pub use laws::{as_many_tokens, one_list_of_tokens, spelled_elsewhere};
pub use reads::{from_at, name_at, sort_at, span_of, to_at};
pub use token::{Keyword, Mark, Sort, Tok};
pub use toks::toks_of;
