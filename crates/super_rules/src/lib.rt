//! The rules that follow supertypes upwards: S11, DR2 at throws clauses, DR3, and DR12 on types (JLS 3rd edition, 8.1.2, 8.1.4, 8.1.5, 8.4.6 and 9.1.3).
#![tactic(auto)]

mod above;
mod entries;
mod generics;
mod rows;
mod throwing;

pub use generics::first_generic_super;
pub use throwing::first_super_breach;
