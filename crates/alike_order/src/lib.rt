//! Whether the types of two programs stand to each other in the same order (JLS 3rd edition, 4.10).
#![tactic(auto)]

mod order;
mod supers;

pub use order::order_kept;
