//! What a run answers.

use core_meaning::End;
use java_tree::Items;

/// The class has no main method, or is none of the user's; or the run ended so, and this is its report.
#[derive(Drop)]
pub enum RunAnswer {
    NoMain,
    Ran { report: Items<u8>, end: End },
}
