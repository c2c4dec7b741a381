//! A checked program with the tables that its run needs.
#![tactic(auto)]

mod below;
mod bodies;
mod entries;
mod literals;
mod looks;
mod mains;
mod names;
mod objects;
mod places;
mod running;
mod types;

pub use below::{text_is_below, thing_is_below};
pub use bodies::{CodeBody, body_of};
pub use literals::joined_literal;
pub use looks::{
    all_fields, field_owner, fields_of, found, has_initialiser, is_constant, is_instance_field,
    method_owner, superclass,
};
pub use mains::main_of;
pub use names::{name_of, text_of};
pub use objects::new_object;
pub use running::{Running, prepare};
