//! Types, expressions and initialisers of Java, from tokens to trees (JLS 3rd edition, chapters 4, 15 and 18).
#![tactic(auto)]

pub mod fault;
pub mod laws;
pub mod marks;
pub mod parsed;
pub mod signs;
pub mod terms;
pub mod types;

pub use fault::SyntaxFault;
pub use parsed::Parsed;
pub use terms::expr_at;
pub use types::{type_at, type_end};
