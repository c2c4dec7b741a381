//! Broken rules and want of memory.

use std::alloc::{AllocError, AllocFailed};

/// Memory ran out.
#[derive(Clone, Copy, Debug, PartialEq, Eq)]
pub struct NoMemory;

impl From<AllocError> for NoMemory {
    fn from(_: AllocError) -> NoMemory {
        NoMemory
    }
}

impl<T: Drop> From<AllocFailed<T>> for NoMemory {
    fn from(_: AllocFailed<T>) -> NoMemory {
        NoMemory
    }
}

/// The families of rules, as docs/RULES.md of the repository lists them.
#[derive(Clone, Copy, Debug, PartialEq, Eq)]
pub enum Family {
    L,
    X,
    S,
    G,
    DR,
    T,
    F,
    V,
    E,
    P,
    I,
}

/// A rule that does not hold, as `DR3`, and the node number at which it fails, where it has one.
#[derive(Clone, Copy, Debug, PartialEq, Eq)]
pub struct Broken {
    pub family: Family,
    pub number: u8,
    pub node: Option<u32>,
}

/// Why a check did not pass.
#[derive(Clone, Copy, Debug, PartialEq, Eq)]
pub enum Fault {
    Broken(Broken),
    NoMemory,
}
