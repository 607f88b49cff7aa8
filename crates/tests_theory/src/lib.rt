//! Tests of the definitions of the crate `theory`: small systems whose bisimulations, signatures and quotients are
//! known.
//!
//! The example systems are defined in `specs/Examples`. The functions of this crate have empty bodies. The contract of
//! each function states what the definitions say about an example. The proof of the contract computes the answer.
#![tactic(auto)]

mod bisimulations;
mod quotients;
mod rounds;

pub use bisimulations::{
    a_lost_option, a_silent_choice, a_silent_cycle, a_silent_loop, a_silent_step_in_the_middle,
    an_unreachable_twin, another_first_state, committed_or_not, different_labels,
    hidden_on_both_sides, moment_of_choice, reordered_lines,
};
pub use quotients::{
    branching_quotients, hidden_step, not_the_quotient, quotient_of_first_leads,
    quotient_of_silent_cycle, quotient_of_silent_detour, quotient_of_silent_loop,
    quotient_of_unreachable_twin, strong_quotients,
};
pub use rounds::{
    old_blocks_count, rounds_of_chain_of_three, rounds_of_lone_state, rounds_of_not_committed,
    rounds_of_option_behind, rounds_of_silent_beside, rounds_of_silent_chain,
    rounds_of_silent_cycle, rounds_of_silent_detour, rounds_of_two_equal_targets,
};
