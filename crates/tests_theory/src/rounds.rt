//! Proves how the refinement of the example systems proceeds, round by round. Each round is given by the signatures of
//! all states before the round and by the blocks after the round. The comment of each function begins with the name of
//! the example.

ghost use Rattle.std.specs.Prelude.{◌≡◌, List, [], ◌∷◌, slice_index};
ghost use Rattle.theory.specs.System.{internal};
ghost use Rattle.theory.specs.declared.relation.Relation.{Relation};
ghost use Rattle.theory.specs.declared.relation.Relation.TheVariants.{Strong, Branching};
ghost use Rattle.theory.specs.Blocks.{Split};
ghost use Rattle.theory.specs.Quotient.{allowance};
ghost use Rattle.tests_theory.specs.Examples.{SplitsBy, RefinesBy};
ghost use Rattle.tests_theory.specs.Examples.{a, b, chain_of_three, silent_beside, silent_chain, silent_cycle};
ghost use Rattle.tests_theory.specs.Examples.{two_equal_targets, lone_state, silent_detour, option_behind};
ghost use Rattle.tests_theory.specs.Examples.{not_committed, loop_and_rest};

/// `chain-of-three`: refinement takes four rounds.
pub fn rounds_of_chain_of_three()
    ensures rounds { RefinesBy Strong chain_of_three (0 ∷ 0 ∷ 0 ∷ 0 ∷ [])
        ((((a, 0) ∷ []) ∷ ((a, 0) ∷ []) ∷ ((a, 0) ∷ []) ∷ [] ∷ [], 0 ∷ 0 ∷ 0 ∷ 1 ∷ [])
        ∷ (((a, 0) ∷ []) ∷ ((a, 0) ∷ []) ∷ ((a, 1) ∷ []) ∷ [] ∷ [], 0 ∷ 0 ∷ 1 ∷ 2 ∷ [])
        ∷ (((a, 0) ∷ []) ∷ ((a, 1) ∷ []) ∷ ((a, 2) ∷ []) ∷ [] ∷ [], 0 ∷ 1 ∷ 2 ∷ 3 ∷ [])
        ∷ (((a, 1) ∷ []) ∷ ((a, 2) ∷ []) ∷ ((a, 3) ∷ []) ∷ [] ∷ [], 0 ∷ 1 ∷ 2 ∷ 3 ∷ []) ∷ []) }
    ensures allowance { allowance Strong 4 3 4 ≡ 18 }
{}

/// `silent-beside-visible`: refinement takes two rounds. After the internal transition, `a` is no longer possible. In
/// the second round, the internal transition leads to another block, and so the signature of the source of this
/// transition contains a pair for this transition.
pub fn rounds_of_silent_beside()
    ensures rounds { RefinesBy Branching silent_beside (0 ∷ 0 ∷ 0 ∷ 0 ∷ [])
        ((((a, 0) ∷ (b, 0) ∷ []) ∷ ((b, 0) ∷ []) ∷ [] ∷ [] ∷ [], 0 ∷ 1 ∷ 2 ∷ 2 ∷ [])
        ∷ (((a, 2) ∷ (internal, 1) ∷ []) ∷ ((b, 2) ∷ []) ∷ [] ∷ [] ∷ [], 0 ∷ 1 ∷ 2 ∷ 2 ∷ []) ∷ []) }
    ensures allowance { allowance Branching 4 3 2 ≡ 30 }
{}

/// `silent-chain`: refinement takes two rounds. The signature of a state contains the pairs in the signatures of all
/// states that it reaches by internal transitions within its block.
pub fn rounds_of_silent_chain()
    ensures rounds { RefinesBy Branching silent_chain (0 ∷ 0 ∷ 0 ∷ 0 ∷ [])
        ((((a, 0) ∷ []) ∷ ((a, 0) ∷ []) ∷ ((a, 0) ∷ []) ∷ [] ∷ [], 0 ∷ 0 ∷ 0 ∷ 1 ∷ [])
        ∷ (((a, 1) ∷ []) ∷ ((a, 1) ∷ []) ∷ ((a, 1) ∷ []) ∷ [] ∷ [], 0 ∷ 0 ∷ 0 ∷ 1 ∷ []) ∷ []) }
    ensures allowance { allowance Branching 4 3 2 ≡ 30 }
{}

/// `cycle-signatures`: two internal transitions form a cycle. Refinement takes one round, which changes nothing.
pub fn rounds_of_silent_cycle()
    ensures { RefinesBy Branching silent_cycle (0 ∷ 0 ∷ [])
        ((((a, 0) ∷ []) ∷ ((a, 0) ∷ []) ∷ [], 0 ∷ 0 ∷ []) ∷ []) }
{}

/// `two-equal-targets`: refinement takes two rounds.
pub fn rounds_of_two_equal_targets()
    ensures { RefinesBy Strong two_equal_targets (0 ∷ 0 ∷ 0 ∷ [])
        ((((a, 0) ∷ []) ∷ [] ∷ [] ∷ [], 0 ∷ 1 ∷ 1 ∷ []) ∷ (
          ((a, 1) ∷ []) ∷ [] ∷ [] ∷ [],
          0 ∷ 1 ∷ 1 ∷ [],
        ) ∷ []) }
{}

/// `lone-state`: refinement takes one round, although there is no block to split.
pub fn rounds_of_lone_state()
    ensures rounds_strong { RefinesBy Strong lone_state (0 ∷ []) (([] ∷ [], 0 ∷ []) ∷ []) }
    ensures rounds_branching { RefinesBy Branching lone_state (0 ∷ []) (([] ∷ [], 0 ∷ []) ∷ []) }
{}

/// `silent-detour`: refinement takes two rounds for each of the two relations.
pub fn rounds_of_silent_detour()
    ensures rounds_branching { RefinesBy Branching silent_detour (0 ∷ 0 ∷ 0 ∷ 0 ∷ 0 ∷ 0 ∷ [])
        ((
          ((a, 0) ∷ []) ∷ ((a, 0) ∷ []) ∷ ((b, 0) ∷ []) ∷ ((b, 0) ∷ []) ∷ ((b, 0) ∷ []) ∷ [] ∷ [],
          0 ∷ 0 ∷ 1 ∷ 1 ∷ 1 ∷ 2 ∷ [],
        )
        ∷ (
          ((a, 1) ∷ []) ∷ ((a, 1) ∷ []) ∷ ((b, 2) ∷ []) ∷ ((b, 2) ∷ []) ∷ ((b, 2) ∷ []) ∷ [] ∷ [],
          0 ∷ 0 ∷ 1 ∷ 1 ∷ 1 ∷ 2 ∷ [],
        ) ∷ []) }
    ensures rounds_strong { RefinesBy Strong silent_detour (0 ∷ 0 ∷ 0 ∷ 0 ∷ 0 ∷ 0 ∷ [])
        ((
          ((a, 0) ∷ (internal, 0) ∷ []) ∷ ((a, 0) ∷ []) ∷ ((internal, 0) ∷ [])
              ∷ ((b, 0) ∷ []) ∷ ((b, 0) ∷ []) ∷ [] ∷ [],
          0 ∷ 1 ∷ 2 ∷ 3 ∷ 3 ∷ 4 ∷ [],
        )
        ∷ (
          ((a, 3) ∷ (internal, 1) ∷ []) ∷ ((a, 2) ∷ []) ∷ ((internal, 3) ∷ [])
              ∷ ((b, 4) ∷ []) ∷ ((b, 4) ∷ []) ∷ [] ∷ [],
          0 ∷ 1 ∷ 2 ∷ 3 ∷ 3 ∷ 4 ∷ [],
        ) ∷ []) }
    ensures allowance_branching { allowance Branching 6 6 2 ≡ 84 }
    ensures allowance_strong { allowance Strong 6 6 2 ≡ 24 }
{}

/// `stays-in-block`: an internal transition leads to another block. The signature of the source of this transition
/// contains a pair for the transition, but it does not contain the pairs in the signature of the target.
pub fn rounds_of_option_behind()
    ensures { RefinesBy Branching option_behind (0 ∷ 0 ∷ 0 ∷ [])
        ((((a, 0) ∷ (b, 0) ∷ []) ∷ ((b, 0) ∷ []) ∷ [] ∷ [], 0 ∷ 1 ∷ 2 ∷ [])
        ∷ (((a, 2) ∷ (internal, 1) ∷ []) ∷ ((b, 2) ∷ []) ∷ [] ∷ [], 0 ∷ 1 ∷ 2 ∷ []) ∷ []) }
{}

/// `stops-at-visible`: the first state has a transition with the label `a`. The signature of the first state does not
/// contain the pairs in the signature of the target of this transition, because the transition is not internal.
pub fn rounds_of_not_committed()
    ensures { RefinesBy Branching not_committed (0 ∷ 0 ∷ 0 ∷ 0 ∷ [])
        ((((a, 0) ∷ []) ∷ ((b, 0) ∷ []) ∷ [] ∷ [] ∷ [], 0 ∷ 1 ∷ 2 ∷ 2 ∷ [])
        ∷ (((a, 1) ∷ []) ∷ ((b, 2) ∷ (internal, 2) ∷ []) ∷ [] ∷ [] ∷ [], 0 ∷ 1 ∷ 2 ∷ 2 ∷ []) ∷ []) }
{}

/// `old-blocks-count`: two states in different blocks remain in different blocks, even if their signatures are equal.
pub fn old_blocks_count()
    ensures strongly { Split Strong loop_and_rest (λ _. 0) (slice_index (0 ∷ 1 ∷ [])) }
    ensures branching { SplitsBy Branching loop_and_rest (0 ∷ 1 ∷ []) ([] ∷ [] ∷ []) (0 ∷ 1 ∷ []) }
    ensures rounds { RefinesBy Branching loop_and_rest (0 ∷ 0 ∷ [])
        (([] ∷ [] ∷ [], 0 ∷ 0 ∷ []) ∷ []) }
{}
