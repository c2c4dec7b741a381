//! The constraints of Extract Interface (Tip et al. 2011): which declared uses of a class change together with which others, and which cannot change.
#![tactic(auto)]

mod arguments;
mod declarations;
mod exprs;
mod flows;
mod groups;
mod place;
mod program;
mod receivers;
mod stmts;

pub use program::links_of;
