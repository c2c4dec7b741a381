//! Generalize Declared Type on a checked program (Tip et al. 2011, section 4): the place and the type that are asked for, what stands against the change, its edits, and
//! the proof of the result: the new files are checked and compared before anything is written.
#![tactic(auto)]

mod allowed;
mod asked;
mod command;
mod edits;
mod names;
mod tried;

pub use allowed::{TypesAnswer, allowed_types};
pub use asked::{CheckedSource, Wish};
pub use command::{Against, Answer, generalize};
