//! Which type a simple name means in a file, and the rules on the names of packages and types and on imports (JLS 3rd edition, 6.3, 6.5.5 and 7.5).
#![tactic(auto)]

mod files;
mod firsts;
mod imports;
mod known;
mod name_homes;
mod packages;
mod paths;
mod rules;
mod table;

pub use known::JavaNames;
pub use rules::first_name_breach;
pub use table::TypeNames;
