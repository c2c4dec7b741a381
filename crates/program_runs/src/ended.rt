//! How a run on its way ends.

use run_frames::{Answer, Focus};

/// With an answer, with the number of a thrown object, or where no step is left.
#[derive(Drop)]
pub enum Ended {
    Gave(Answer),
    Threw(u64),
    Bound,
}

/// What comes behind a step.
#[derive(Drop)]
pub enum Next<'a> {
    Goes(Focus<'a>),
    Ends(Ended),
}
