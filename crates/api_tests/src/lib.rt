//! Tests of public calls that no run of the program shows.
#![tactic(auto)]

#[cfg(test)]
mod calls;
#[cfg(test)]
mod literals;
#[cfg(test)]
mod memory;
