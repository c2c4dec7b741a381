//! Fields, methods and constructors as an expression uses them (JLS 3rd edition, 6.5, 15.9, 15.11 and 15.12).
#![tactic(auto)]

mod before_dot;
mod calls;
mod fields;
mod methods;
mod receiver;
mod supers;

pub use before_dot::dotted;
pub use calls::called;
pub use fields::{field_of, field_of_value, super_field, variable};
pub use methods::constructor;
pub use receiver::{Dotted, Receiver};
pub use supers::superclass;
