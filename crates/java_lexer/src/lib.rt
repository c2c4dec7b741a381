//! The tokens of Java source (JLS 3rd edition, chapter 3), and the values of literals.
#![tactic(auto)]

mod bytes;
mod encoding;
mod fault;
mod first;
mod keyword;
pub mod laws;
mod lexer;
mod literal;
mod number;
pub mod piece;
mod text;
mod values;

pub use fault::LexFault;
pub use lexer::lex;
pub use text::{bytes_of, text_of};
pub use values::{character, integer, is_decimal, text_units};
