//! Proves which states and systems of the examples are bisimilar, and which are not. The comment of each function
//! begins with the name of the example.

ghost use Rattle.std.specs.Prelude.{ℕ, List, [], ◌∷◌};
ghost use Rattle.theory.specs.System.{System, IsSystem, Internal, Hide, internal};
ghost use Rattle.theory.specs.Bisimulation.{IsBisimulation, Strong, Branching, Pairs, Bisimilar, Equivalent};
ghost use Rattle.theory.specs.declared.relation.Relation.{Relation};
ghost use Rattle.theory.specs.declared.relation.Relation.TheVariants.{Strong as strong, Branching as branching};
ghost use Rattle.tests_theory.specs.Examples.{AreApart, SplitsBy, RefinesBy};
ghost use Rattle.tests_theory.specs.Examples.{a, b, choice_after, choice_before, silent_middle, a_then_b};
ghost use Rattle.tests_theory.specs.Examples.{a_then_b_reordered, silent_choice, silent_cycle, silent_loop};
ghost use Rattle.tests_theory.specs.Examples.{lone_state, option_behind, option_before, not_committed, committed};
ghost use Rattle.tests_theory.specs.Examples.{unreachable_twin, only_a, only_a_from_1, only_b};

/// `moment-of-choice`: in one system, the choice between `b` and `c` comes after the transition with the label `a`, and
/// in the other system the choice comes before this transition. The two systems are not equivalent, although their last
/// states are bisimilar.
pub fn moment_of_choice()
    ensures apart { AreApart choice_after choice_before }
    ensures after_b { ¬ Bisimilar strong choice_after 1 choice_before 1 }
    ensures ends { Strong choice_after choice_before ((2, 3) ∷ (3, 3) ∷ (3, 4) ∷ []) }
{}

/// `silent-middle`: an internal transition between two other transitions makes a difference for strong bisimilarity,
/// but not for branching bisimilarity.
pub fn a_silent_step_in_the_middle()
    ensures systems { IsSystem silent_middle × IsSystem a_then_b }
    ensures branching { Branching silent_middle a_then_b ((0, 0) ∷ (1, 1) ∷ (2, 1) ∷ (3, 2) ∷ []) }
    ensures equivalent { Equivalent branching silent_middle a_then_b }
    ensures back { Equivalent branching a_then_b silent_middle }
    ensures strongly { ¬ Equivalent strong silent_middle a_then_b }
{}

/// `silent-choice`: an internal transition leads to a state in which `a` is no longer possible. The states before and
/// after this transition are not branching bisimilar.
pub fn a_silent_choice()
    ensures system { IsSystem silent_choice }
    ensures apart { ¬ Bisimilar branching silent_choice 0 silent_choice 1 }
    ensures rounds { RefinesBy branching silent_choice (0 ∷ 0 ∷ [])
        ((((a, 0) ∷ []) ∷ [] ∷ [], 0 ∷ 1 ∷ []) ∷ (
          ((a, 1) ∷ (internal, 1) ∷ []) ∷ [] ∷ [],
          0 ∷ 1 ∷ [],
        ) ∷ []) }
{}

/// `silent-cycle`: the states on a cycle of internal transitions are branching bisimilar, but not strongly bisimilar.
pub fn a_silent_cycle()
    ensures system { IsSystem silent_cycle }
    ensures branching { Branching silent_cycle silent_cycle
        ((0, 0) ∷ (0, 1) ∷ (1, 0) ∷ (1, 1) ∷ []) }
    ensures strongly { ¬ Bisimilar strong silent_cycle 0 silent_cycle 1 }
    ensures split { SplitsBy branching silent_cycle (0 ∷ 0 ∷ [])
        (((a, 0) ∷ []) ∷ ((a, 0) ∷ []) ∷ []) (0 ∷ 0 ∷ []) }
    ensures strong_split { SplitsBy strong silent_cycle (0 ∷ 0 ∷ [])
        (((internal, 0) ∷ []) ∷ ((internal, 0) ∷ (a, 0) ∷ []) ∷ []) (0 ∷ 1 ∷ []) }
{}

/// `lost-option`: in the first system, `b` is possible only after the internal transition. In the second system, `b` is
/// possible before the internal transition too. The two systems are not equivalent, although the targets of the
/// internal transitions are branching bisimilar.
pub fn a_lost_option()
    ensures apart { AreApart option_behind option_before }
    ensures behind { Bisimilar branching option_behind 1 option_before 1 }
{}

/// `committed-or-not`: in the first system, `b` is possible after every transition with the label `a`, until an
/// internal transition is taken. The second system has another transition with the label `a`, after which `b` is never
/// possible. The two systems are not equivalent.
pub fn committed_or_not()
    ensures apart { AreApart not_committed committed }
    ensures after_a { Bisimilar branching not_committed 1 committed 1 }
{}

/// `unreachable-twin`: the states 1 and 3 are bisimilar, and no other two different states are bisimilar.
pub fn an_unreachable_twin()
    ensures system { IsSystem unreachable_twin }
    ensures strong { Strong unreachable_twin unreachable_twin
        ((0, 0) ∷ (1, 1) ∷ (1, 3) ∷ (2, 2) ∷ (3, 1) ∷ (3, 3) ∷ []) }
    ensures twins { Bisimilar strong unreachable_twin 1 unreachable_twin 3 }
    ensures apart { ¬ Bisimilar strong unreachable_twin 0 unreachable_twin 2 }
    ensures not_first { ¬ Bisimilar strong unreachable_twin 0 unreachable_twin 1 }
    ensures split { SplitsBy strong unreachable_twin (0 ∷ 0 ∷ 0 ∷ 0 ∷ [])
        (((a, 0) ∷ []) ∷ [] ∷ ((b, 0) ∷ []) ∷ [] ∷ []) (0 ∷ 1 ∷ 2 ∷ 1 ∷ []) }
{}

/// `hidden-both-sides`: the label `a` is hidden in two systems, which turns one transition of the first system into an
/// internal transition. After this, the two systems are branching bisimilar, but not strongly bisimilar. Before this,
/// the two systems are not equivalent.
pub fn hidden_on_both_sides()
    ensures hidden { Equivalent branching (Hide (a ∷ []) a_then_b) (Hide (a ∷ []) only_b) }
    ensures strongly { ¬ Equivalent strong (Hide (a ∷ []) a_then_b) (Hide (a ∷ []) only_b) }
    ensures shown { AreApart a_then_b only_b }
{}

/// `silent-loop` and `lone-state`: an internal transition from a state to itself makes a difference for strong
/// bisimilarity, but not for branching bisimilarity.
pub fn a_silent_loop()
    ensures branching { Equivalent branching silent_loop lone_state }
    ensures strongly { ¬ Equivalent strong silent_loop lone_state }
{}

/// `different-labels`: two systems with one transition each are not equivalent if the labels of these transitions
/// differ.
pub fn different_labels()
    ensures { AreApart only_a only_b }
{}

/// `reordered-lines`: two systems that differ only in the order of their transitions are equivalent.
pub fn reordered_lines()
    ensures branching { Equivalent branching a_then_b a_then_b_reordered }
    ensures strongly { Equivalent strong a_then_b a_then_b_reordered }
{}

/// `first-differs`: two systems that differ only in the numbering of their states are equivalent, even if their first
/// states have different numbers.
pub fn another_first_state()
    ensures { Equivalent strong only_a_from_1 only_a }
{}
