//! Partition refinement: rounds split blocks of states until two states are in the same block if and only if they are
//! bisimilar.
//!
//! Each round computes the signatures of states. For strong bisimilarity, the signature of a state is the set of the
//! pairs (label, target block) of its transitions. For branching bisimilarity, a transition is inert if it is internal,
//! and if its source and its target are in the same block. Let s be a state, and consider the states that s reaches by
//! inert transitions, including s itself. For each transition from one of these states, the signature of s contains the
//! pair of the transition, unless the transition is inert. A round splits each block by signatures: two states of a
//! block stay together if and only if their signatures are equal.
//!
//! If a system has long paths, refinement may need many rounds, but most of these rounds change few signatures. So a
//! round processes only the states whose signatures may have changed. These states are the active states (`active`).
//!
//! # Which states a round processes
//!
//! When a block is split, one of its parts keeps the block ID, and each other part becomes a new block with the next
//! free ID. Let `first_new` be the next free ID before the last split. A block is new if the last split has made it,
//! which means that its ID is at least `first_new`. All other blocks are old.
//!
//! A singleton block is a block with one state. In the first round, the active states are all states that have an
//! outgoing transition and are not in a singleton block. Whenever the number of singleton blocks has grown by more than
//! 1/32 of the number of active states since states were last dropped, the states in singleton blocks are dropped from
//! the active states. A round is late if the number of new blocks is less than a quarter of the number of all blocks,
//! rounded down. The place of a transition is its index in the list of all transitions. For each state, the predecessor
//! index (`lts::Incoming`) stores the places of the transitions that lead to this state. This index is built when the
//! late rounds together have done as much work as a few rounds over all states would do (`SignedBlocks::needs_index`).
//! Up to this time, the late rounds have taken at most about twice as long as building the index takes. After the index
//! has been built, states are no longer dropped. Instead, each later round begins with a search that goes backwards
//! from the states of new blocks (`predecessors`). There is one exception, which is described below. In the following
//! example, a is a label, and i is the internal label:
//!
//! ```text
//! block   0     0     0     0     0     2     1       first_new = 2: state 5 is in a new block
//! state   0 -a> 1 -i> 2 -i> 3 -a> 4 -a> 5 -a> 6
//!
//! this round         finds 4, which has a transition to a new block; the split moves 4 to block 3
//! next, strong       finds 3, which has a transition to block 3
//! next, branching    finds 3, and then, backwards along inert transitions, 2 and 1: their signatures contain 3's pairs
//! ```
//!
//! A singleton block cannot be split any further, because it contains only one state. So the search leaves out states
//! in singleton blocks. In the example, this round does not process state 5, and the next round processes neither state
//! 4 nor state 5.
//!
//! A visit is a read of a transition that the meter counts, and each lookup in the index is a visit. The round stores
//! the places of the transitions that it has visited (`lts::Visited`). When the round computes the signature of a state
//! after the search, it reads all transitions of this state. The meter does not count the read of a transition that the
//! round has already visited. In the round that builds the index, building the index visits every transition once, so
//! this round makes no further visit. After the signatures have been computed, `lts::visit_rest` makes further visits
//! whose results are ignored. With these visits, the number of visits in the round equals the number of transitions.
//!
//! *Strong bisimilarity.* Assume that two states share a block, and that no transition of the two states leads to a new
//! block. Then all transitions of the two states lead to old blocks. A state that is in an old block now was in the
//! same block before the last split, too. So each of the two states has the same signature as in the last round. In the
//! last round, the signatures of the two states were equal, because the last split has not separated the two states. So
//! the two states also have equal signatures now. They stay together, and their signatures need not be computed.
//!
//! *Branching bisimilarity.* Assume that a state is in an old block, and that its signature mentions only old blocks.
//! Consider the paths from this state whose transitions were inert before the last split. All transitions of these
//! paths are still inert. (Otherwise, a transition of such a path would lead to a new block, and the signature would
//! mention this block.) So the signature is the same as in the last round, and the cached signature (`inert::Signer`)
//! is still correct. Now assume that the signature of a state mentions a new block. Then some transition leads into
//! this new block, and the state reaches the source of this transition by inert transitions. The search finds this
//! source, and goes back along inert transitions until it finds the state. The round also processes the states of new
//! blocks. The signatures of these states may have changed, because internal transitions between a new block and the
//! rest of the old block are no longer inert.
//!
//! The result is also correct if the search finds more states than necessary. A split uses only the signatures that
//! have changed since the last round. If the signatures of two states of a block have not changed, the two states stay
//! together.
//!
//! For branching bisimilarity, each round discards the signatures of earlier rounds until the index is built. After
//! that, the signatures of earlier rounds stay stored. Let k be the number of active states when the index is built. A
//! round that processes k states makes at most k + 1 signatures: one for each active state, and the empty signature. If
//! more than 2 * (k + 1) signatures are stored after a later round, the next round does not begin with a search.
//! Instead, it begins by discarding all signatures. This round then processes every state that has an outgoing
//! transition and is not in a singleton block. From then on, k is the number of the states that this round processes.
//!
//! A state moves to a new block only if the new block contains at most half of the states of the old block
//! (`partition`). So a state moves to a new block at most log2 n times, where n is the number of states. Each time that
//! a state moves to a new block, the next search goes back once along each transition to this state. For branching
//! bisimilarity, the search also goes back along inert transitions within old blocks. Along an inert transition within
//! an old block, the searches may go back in every round: in a long line of inert transitions, every signature may
//! change in every round.
//!
//! If a function of this crate returns a `Result`, it fails only if an allocation fails. The error is then `Memory`.
#![tactic(auto)]

mod branching;
mod predecessors;
mod refinement;
mod signed_blocks;
mod signing;
mod strong;

pub use branching::Branching;
pub use partition::Partition;
pub use refinement::{refine, refine_blocks};
pub use signed_blocks::SignedBlocks;
pub use signing::{Signing, sign_all};
pub use strong::{NewBlocks, Strong, read};
