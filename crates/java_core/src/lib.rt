//! The core of a checked program: its trees with every use and conversion resolved (JLS 3rd edition, chapters 8, 14 and 15).
#![tactic(auto)]

pub mod expr;
pub mod program;
pub mod stmt;
pub mod written;

pub use expr::{Before, CoreExpr, CoreForm, Kind};
pub use program::{CoreClass, CoreField, CoreFile, CoreMember, CoreMethod, CoreProgram, Implied};
pub use stmt::{CoreCatch, CoreGroup, CoreParam, CoreStmt, CoreStmtForm, CoreVar};
pub use written::CoreType;
