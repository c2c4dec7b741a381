//! Where a statement may jump to.

/// Whether a `break` and a `continue` have a loop or switch around them (JLS 14.15, 14.16).
#[derive(Clone, Copy, Debug, PartialEq, Eq)]
pub struct Jumps {
    pub breaks: bool,
    pub continues: bool,
}
