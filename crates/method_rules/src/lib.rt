//! DR6 and DR7: two methods or two constructors of one type with one erased signature (JLS 3rd edition, 8.4.2, 8.8.2 and 4.6).
#![tactic(auto)]

mod read;
mod repeats;
mod signatures;

pub use repeats::first_repeated;
