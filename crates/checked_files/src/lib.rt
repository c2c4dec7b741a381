//! From the texts of a program's files to the checked program: its trees, what it declares, its core and its unchecked operations; or the first rule that stands against it.
#![tactic(auto)]

mod declarations;
mod texts;

pub use declarations::{Declared, judge_declarations};
pub use texts::{CheckedFiles, FilesFault, check_texts};
