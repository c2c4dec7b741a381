//! How declared types see the methods of the types above them (JLS 3rd edition, 4.5.2 and 8.4.2).
#![tactic(auto)]

mod agree;
mod below;
mod closed;
mod kinds;
mod puts;
mod scopes;
mod seen;

pub use agree::{agree_below, have_one_signature};
pub use below::method_of;
pub use closed::are_closed;
pub use kinds::{is_class, is_interface, is_of_class, is_reference};
pub use scopes::{has_closed_params, is_scoped};
pub use seen::{seen_params, seen_result};
