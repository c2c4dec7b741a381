//! The rules on methods that override or hide others: DR13 to DR17 (JLS 3rd edition, 8.4.3.3, 8.4.5 and 8.4.8.1 to 8.4.8.3).
#![tactic(auto)]

mod bits;
mod declared;
mod first;
mod inherited;
mod lowest;
mod order;
mod over;
mod throwing;

pub use first::first_override_breach;
