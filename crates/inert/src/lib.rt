//! Computes the branching signatures of the active states, which are the states that a round processes. A depth-first
//! search along inert transitions reads the row of each active state (its outgoing transitions) once. A visit is a read
//! of a transition that the meter counts. Before the search begins, the caller may already have visited some of the
//! transitions in the same round. The search also reads these transitions, but the meter does not count these reads.
//!
//! A transition is inert if it is internal and its source and target are in the same block. The signature of a state
//! contains the pair (label, target block) of each of its transitions that is not inert. The signature also contains
//! all pairs in the signatures of the states to which inert transitions of the state lead. So all states of a strongly
//! connected component of inert transitions have the same signature. The search is Gabow's algorithm for strongly
//! connected components (2000). The stack of the search is divided into components, and each component collects items:
//! pairs (label, target block) and signature IDs. The current component is the component at the top of the stack. For
//! each transition that the search reads, there are four cases:
//!
//! * If the transition is not inert, its pair (label, target block) becomes an item of the current component.
//! * If the transition is inert and its target is unvisited, the target is pushed on the stack as a component of its
//!   own, and gets a frame. The frame records which outgoing transitions of the target are still to be read.
//! * If the transition is inert and its target is on the stack, the component of the target is merged with all
//!   components above it on the stack. The root of a component is its first state on the stack. Of the roots of these
//!   components, the merged component keeps only the lowest one.
//! * If the transition is inert and its target is completed, the signature ID of the target becomes an item of the
//!   current component.
//!
//! When all outgoing transitions of a state were read, the frame of this state is popped. If the state is the root of a
//! component (its first state on the stack), the component is completed: the items of the component become the
//! signature of all of its states, and this signature is interned. The ID of the signature becomes an item of the
//! component from which the search came, if there is one.
//!
//! For example, a search can be in the following state:
//!
//! * The stack contains the states 2, 5, 7, 3 and 9, in the order in which these states were pushed.
//! * The states 2, 7 and 9 have frames, because the search has not yet gone back from them. The current state is 9.
//! * The roots (the first states of the components) are 2 and 7. So there are two components: one with the states 2 and
//!   5, and one with the states 7, 3 and 9.
//! * The items of the first component are the pair (a, 1) and the signature ID 4. The items of the second component are
//!   the pairs (b, 1) and (a, 0).
//!
//! A search starts with an empty stack and without frames. It pushes its first state only when it reads an inert
//! transition to an unvisited state. As long as the search has not pushed this first state, it collects the items of
//! the state without a stack. Most searches read the transitions of only one state. For example, in ten rounds over a
//! system of nine buffers, the searches process 196,830 states and push 521 of them.
//!
//! Between rounds, all states are completed, and the search stores the ID of the cached signature of each state. At the
//! beginning of a round, the active states, which are the states that the round processes, are marked as unvisited
//! (`mark_unvisited`). Suppose that a state is not active, but shares a block with an active state. Then the caller
//! guarantees that the cached signature of this state is still correct.
//!
//! If a call of this crate returns an error, the error is `Memory`, which means that an allocation failed.
#![tactic(auto)]

mod component;
mod depth_first_search;
mod item;
mod lens;
mod search_steps;
mod signer;

pub use lens::{Lens, Step};
pub use signer::Signer;
