//! What is read and changed in the state of a run (JLS 3rd edition, chapter 15).
#![tactic(auto)]

pub mod arrays;
pub mod changes;
pub mod frames;
pub mod heap;
pub mod reads;
pub mod stop;
pub mod texts;
pub mod throws;

pub use stop::Stop;
