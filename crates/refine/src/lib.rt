//! This crate is the interface for programs that use partition refinement. The function `refine`, which comes from the
//! crate `refine_core`, makes all rounds of refinement. Other functions make one round, or compute the signature of one
//! state or of all states. These functions are meant for tests, and for programs that make the rounds one by one. The
//! program `autbis` always makes all rounds, and calls the crate `refine_core` directly.
//!
//! * `one_round` makes one round of refinement: it computes the signatures of all states, and splits the blocks by
//!   these signatures.
//! * `all_signatures` computes the signature of each state, and splits the blocks by these signatures.
//! * `buffer` stores all signatures in one buffer, so that each signature can be read as a slice.
//! * `sense` computes the signature of one state, for strong or for branching bisimilarity.
//! * `search` finds the states to which inert transitions (internal transitions within a block) lead from a given
//!   state. The branching signature of the given state contains the pair (label ID, block ID of the target) of each
//!   transition that starts in a found state and is not inert.
//!
//! A call that returns a `Result` fails only if an allocation fails. The error is then `Memory`.
#![tactic(auto)]

mod all_signatures;
mod buffer;
mod one_round;
mod search;
mod sense;

pub use all_signatures::Signatures;
pub use one_round::round;
pub use partition::Partition;
pub use refine_core::{Branching, Strong, refine};
pub use sense::{Marks, Sense};
