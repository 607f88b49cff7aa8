//! Definitions that all crates share: the error `Memory`, and the limits on the size of a system.
#![tactic(auto)]

mod limits;

ghost use Rattle.std.specs.Prelude.{◌≡◌};

pub use limits::{MOST_LABELS, MOST_STATES, MOST_TRANSITIONS};
use std::alloc::{AllocError, AllocFailed};

/// The error of every failed allocation: there is not enough memory to allocate or to extend a vector or a table.
#[derive(Clone, Copy, Debug, PartialEq, Eq)]
pub struct Memory;

impl From<AllocError> for Memory {
    ghost from_gives = { λ _ e. e ≡ record {} };

    fn from(_: AllocError) -> Self {
        Memory
    }
}

impl<T: Drop> From<AllocFailed<T>> for Memory {
    ghost from_gives = { λ _ e. e ≡ record {} };

    fn from(_: AllocFailed<T>) -> Self {
        Memory
    }
}
