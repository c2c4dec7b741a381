//! Extract Interface on a checked program (Tip et al. 2011): the class and the methods that are asked for, what stands against the extraction, its edits and the created
//! file, and the proof of the result: the new files are checked and compared before anything is written.
#![tactic(auto)]

mod asked;
mod command;
mod created;
mod declared;
mod edits;
mod methods;
mod plan;
mod taken;

pub use asked::Wish;
pub use command::{Against, Answer, Extracted, extract_interface};
