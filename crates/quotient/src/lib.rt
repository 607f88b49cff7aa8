//! Minimises systems, and decides whether two systems are equivalent. Minimisation computes the smallest system that is
//! equivalent to a given system.
//!
//! A call that returns a `Result` fails only if an allocation fails. The error is then `Memory`.
#![tactic(auto)]

mod allowance;
mod comparison;
mod minimisation;
mod relation;

pub use allowance::visits_are_within_the_allowance;
pub use comparison::equivalent;
pub use minimisation::minimise;
pub use quotient_core::reachable;
pub use theory::Relation;
