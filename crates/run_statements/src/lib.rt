//! What a run does at statements (JLS 3rd edition, 14).
#![tactic(auto)]

pub mod enhanced;
pub mod loops;
pub mod pieces;
pub mod statements;
pub mod switches;
pub mod tries;

pub use enhanced::{each, has_next, iterate};
pub use loops::{
    after_body, after_do, begin_do, begin_loop, do_again, do_or_end, loop_body, turn_or_end,
    updates,
};
pub use pieces::{if_else, local, locals_from, stmts_after, test};
pub use statements::statement;
pub use switches::{groups_after, groups_from, groups_run, switch, switch_after};
pub use tries::{after_finally, catches_from, finally_ended, finally_threw, rescue};
