//! Builds the quotient of a system from the classes of bisimilar states. The crate finds the reachable states, and
//! assigns a number to each class that contains a reachable state. These class numbers are the states of the quotient.
//! The class number of a state is the number of its class. Each transition t of the quotient comes from a transition u
//! of a reachable state, and has the same label as u. The source of t is the class number of the source of u, and the
//! target of t is the class number of the target of u. For branching bisimilarity, the quotient leaves out internal
//! transitions that lead from a class to itself.
//!
//! A call that returns a `Result` fails only if an allocation fails. The error is then `Memory`.
#![tactic(auto)]

mod numbering;
mod quotient;
mod search;
mod triples;

pub use quotient::quotient_of;
pub use search::reachable;
