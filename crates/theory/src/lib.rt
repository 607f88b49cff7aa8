//! Definitions of systems, bisimulations, signatures, refinement and the quotient, and theorems about these
//! definitions.
//!
//! The definitions are in `specs/`. The functions of this crate have empty bodies. The contract of each function states
//! theorems, which are proved for every system and every partition of its states into blocks.
#![tactic(auto)]

mod across;
mod fixpoint;
mod inert;
mod laws;
mod minimal;
mod relation;
mod unions;

pub use across::{bisimilarity_goes_across, strong_and_branching, systems_are_compared};
pub use fixpoint::{
    bisimilarity_is_an_equivalence, final_blocks_are_bisimilarity, refinement_goes_on,
    related_to_one_state_share, split_exists, turns_exist,
};
pub use inert::{inert_steps_lead_on, inert_steps_pass_signatures_back, inert_steps_stay};
pub use laws::{bisimulations_survive, one_block_is_kept, splitting_keeps, stable_is_bisimulation};
pub use minimal::{
    each_state_has_a_number, leaders_differ, no_smaller_system, numbers_are_classes,
    numbers_are_states, quotient_is_equivalent, quotient_states_differ,
    states_are_bisimilar_to_their_numbers, the_quotient_is_one,
};
pub use relation::Relation;
pub use unions::{
    the_union_decides_equivalence, the_union_is_a_system, the_union_keeps_bisimilarity,
};
