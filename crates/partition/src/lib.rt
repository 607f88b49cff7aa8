//! This crate stores the blocks of a partition of the states, and splits each block by the signatures of its states.
//!
//! When a block is split, one part keeps the ID of the block, and each other part gets the next free ID. At the end,
//! the blocks are numbered in the order of their least members (`renumber`).
//!
//! A round of refinement processes the active states, and gives each of them the ID of its signature. Every other state
//! has the empty signature, whose ID is 0. A split separates two states of a block if their signature IDs differ. The
//! following example splits two blocks, which together contain eight states:
//!
//! ```text
//! active         0           4  5  6       the active states
//! signature_ids  1  0  0  0  2  2  2  0    the signature ID of each state
//!
//! block_ids      0  0  0  0  0  1  1  1    the block ID of each state: there are two blocks
//! states         0  1  2  3  4 | 5  6  7   the states, ordered by block
//! spans          0..5 5..8                 the range of `states` that each block occupies
//!
//! block_ids      2  0  0  0  3  1  1  4    after the split: the blocks with the IDs 2, 3 and 4 are new
//!
//! states         0 | 1  2  3 | 4 | 5  6 | 7    after the split, without positions
//! spans          1..4 5..7 0..1 4..5 7..8
//!
//! states         0 | 4 | 2  3  1 | 5  6 | 7    after the split, with positions
//! spans          2..5 5..7 0..1 1..2 7..8
//! position       0  4  2  3  1  5  6  7        the position of each state in `states`
//! ```
//!
//! The span of a block is the range of `states` that the block occupies. The function `split_block` splits a block
//! within its span, in three steps. First it counts how many states have each signature (`tally`). Then it sorts the
//! states by signature, with a counting sort (`sort_front`). Finally it divides the span where one signature ends and
//! the next signature begins (`cut`).
//!
//! * Before `with_positions` is called, a split counts and sorts all states of each block with more than one state
//!   (`split_all`). This is fast enough as long as rounds process many states.
//! * After `with_positions` is called, the position of each state in `states` is stored (`position`), and rounds
//!   usually process few states. First, the states whose signature is not empty are moved to the beginning of the span
//!   of their block (`gather`). Then only the moved states are sorted (`split_affected`). All other states of the block
//!   have the empty signature. These other states form one part of the block, and are not sorted. So the time for a
//!   split depends on the number of active states, which are the states that the round processes (Valmari and Lehtinen
//!   2008).
//!
//! Between two splits, each span contains exactly the states of its block, and the spans are disjoint and cover
//! `states` (`IsLayout`). During a split, states are moved only within the span of their block, and `cut` does not move
//! any state. So the block of a state is always the block whose span contains the state.
//!
//! `AreSplitBlocks` states that the new blocks are the split of the old blocks (`splits`). It also states the following
//! two facts about the old and the new blocks.
//!
//! * A new block contains at most half of the states of the block from which it was split off (`halves`). Each part of
//!   a block consists of all states of the block with the same signature, and the largest part keeps the block ID
//!   (Hopcroft 1971). So if there are n states, each state gets a new block ID at most log2 n times, however many
//!   rounds there are. If the largest part got a new ID, the next round would have to process all states with a
//!   transition into that part.
//! * The set of active states does not change. States that are not active can also get new block IDs, like the state 7
//!   in the example. So the search for the active states of the next round begins with all states of new blocks
//!   (`new_states`).
//!
//! A call returns the error `Memory` only if there is no memory for a vector that the call has to allocate or extend.
#![tactic(auto)]

mod blocks;
mod layout;
mod partition;
mod splitter;
mod tally;

pub use blocks::Blocks;
pub use partition::{Partition, renumber};
pub use splitter::renumberings_are_few;
