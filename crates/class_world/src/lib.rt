//! The declared types, methods and fields of a program, by number, and the questions on them (JLS 3rd edition, 4.10 and 8.4.8).
#![tactic(auto)]

pub mod access;
mod below_two;
mod class_rows;
mod climb;
mod joins;
mod order_table;
mod paths;
mod rows;
mod seen;
mod sequence;
mod shortcuts;
mod subtypes;
mod supers;
mod table;
mod types;
pub mod world;

pub use access::{Declared, sees};
pub use below_two::first_below_two;
pub use order_table::{Ordered, with_order};
pub use sequence::supers_first;
pub use subtypes::{fits, is_sub, is_unchecked, super_as};
pub use types::{copied, erase, is_put, is_same, substituted};
pub use world::{Above, FieldInfo, JavaType, MethodInfo, TypeInfo, Walk, World};
