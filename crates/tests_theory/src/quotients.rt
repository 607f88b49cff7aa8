//! The leader of a class of bisimilar reachable states is the state that represents this class. In the quotient, each
//! class becomes one state, and the class number of the class is the number of this quotient state. This file proves
//! which leaders, class numbers and quotients the example systems have. The comments give the name of each example.

ghost use Rattle.std.specs.Prelude.{◌≡◌, ◌↔◌, List, [], ◌∷◌};
ghost use Rattle.std.specs.List.{Contains};
ghost use Rattle.theory.specs.System.{System, Transition, Hide, Reachable};
ghost use Rattle.theory.specs.declared.relation.Relation.{Relation};
ghost use Rattle.theory.specs.declared.relation.Relation.TheVariants.{Strong, Branching};
ghost use Rattle.theory.specs.Quotient.{IsLeader, Number, Quotient};
ghost use Rattle.tests_theory.specs.Examples.{AreQuotients, LeadersAre, QuotientIs};
ghost use Rattle.tests_theory.specs.Examples.{a, only_a, a_then_b, only_b, loop_of_a, lone_state};
ghost use Rattle.tests_theory.specs.Examples.{unreachable_twin, unreachable_pair, two_equal_targets, written_twice};
ghost use Rattle.tests_theory.specs.Examples.{chain_of_three};
ghost use Rattle.tests_theory.specs.Examples.{first_leads, first_leads_quotient, first_leads_by_size, first_in_cycle};
ghost use Rattle.tests_theory.specs.Examples.{first_is_two};
ghost use Rattle.tests_theory.specs.Examples.{silent_cycle, silent_loop, silent_choice, silent_chain, silent_beside};
ghost use Rattle.tests_theory.specs.Examples.{option_behind};
ghost use Rattle.tests_theory.specs.Examples.{silent_middle, silent_detour, silent_detour_strong_quotient};
ghost use Rattle.tests_theory.specs.Examples.{hidden_middle_strong_quotient};

/// `unreachable-twin`: the state 1 is unreachable, and it is bisimilar to the reachable state 3. The leader of a class
/// is the state that represents the class. The leader of the class of these two states is the state 3, so the state 1
/// does not add a state to the quotient.
pub fn quotient_of_unreachable_twin()
    ensures quotient { Quotient Strong unreachable_twin a_then_b }
    ensures number_of_0 { Number Strong unreachable_twin 0 0 }
    ensures number_of_2 { Number Strong unreachable_twin 2 1 }
    ensures number_of_3 { Number Strong unreachable_twin 3 2 }
    ensures unreachable { ¬ Reachable unreachable_twin 1 }
    ensures no_leader { ¬ IsLeader Strong unreachable_twin 1 }
{}

/// `first-leads-numbering`: the first state 2 and the state 0 are bisimilar. The leader of a class is the state that
/// represents the class. The leader of the class of these two states is the first state, although the state 0 is
/// smaller. The class of the first state has the number 0, and the classes of the states 1 and 3 have greater numbers.
pub fn quotient_of_first_leads()
    ensures quotient { QuotientIs Strong first_leads first_leads_quotient (0 ∷ 1 ∷ 0 ∷ 2 ∷ []) }
    ensures leaders { LeadersAre Strong first_leads (2 ∷ 1 ∷ 2 ∷ 3 ∷ []) }
    ensures no_leader { ¬ IsLeader Strong first_leads 0 }
{}

/// `first-in-cycle`: one quotient state represents both states of the system. `first-is-two`: the first state of the
/// system has the greatest number of all states. The state 0 of the quotient represents this state.
/// `two-equal-targets`: two transitions with the label `a` lead to bisimilar states, and one transition of the quotient
/// represents these two transitions. `two-spellings`: an input contains the same transition on three lines, with its
/// label written as `a` or as `"a"`. So the system contains this transition three times, and the quotient contains it
/// once. `unreachable-pair`: unreachable states and their transitions are not in the quotient. `chain-of-three`: the
/// system is its own quotient.
pub fn strong_quotients()
    ensures { AreQuotients Strong
        ((first_in_cycle, loop_of_a) ∷ (first_is_two, a_then_b) ∷ (two_equal_targets, only_a)
        ∷ (written_twice, only_a) ∷ (unreachable_pair, lone_state) ∷ (
          chain_of_three,
          chain_of_three,
        ) ∷ []) }
{}

/// `silent-choice`: the internal transition leads to a state of another class, so the quotient contains this
/// transition. `silent-chain`: the internal transitions stay within a class, so the quotient does not contain them.
/// `silent-beside-visible`: the internal transition leads to a state in which `a` is no longer possible, so the
/// quotient contains this transition. `silent-middle`: the internal transition between `a` and `b` stays within a
/// class, so the quotient does not contain it.
pub fn branching_quotients()
    ensures { AreQuotients Branching ((silent_choice, silent_choice) ∷ (silent_chain, only_a)
        ∷ (silent_beside, option_behind) ∷ (silent_middle, a_then_b) ∷ []) }
{}

/// `silent-cycle`: two internal transitions form a cycle. The quotient modulo branching bisimilarity has one state. The
/// quotient modulo strong bisimilarity is the system itself.
pub fn quotient_of_silent_cycle()
    ensures branching { QuotientIs Branching silent_cycle loop_of_a (0 ∷ 0 ∷ []) }
    ensures strong { QuotientIs Strong silent_cycle silent_cycle (0 ∷ 1 ∷ []) }
{}

/// `silent-loop`: the quotient modulo strong bisimilarity contains the internal transition from the state to itself,
/// and the quotient modulo branching bisimilarity does not.
pub fn quotient_of_silent_loop()
    ensures quotient_branching { Quotient Branching silent_loop lone_state }
    ensures quotient_strong { Quotient Strong silent_loop silent_loop }
{}

/// `silent-detour`: two paths of this system differ only in internal transitions. The quotient modulo strong
/// bisimilarity contains both paths. The quotient modulo branching bisimilarity contains only one path, which has no
/// internal transitions. In both quotients, one state represents the states 3 and 4.
pub fn quotient_of_silent_detour()
    ensures branching { QuotientIs Branching silent_detour a_then_b
        (0 ∷ 0 ∷ 1 ∷ 1 ∷ 1 ∷ 2 ∷ []) }
    ensures strong { QuotientIs Strong silent_detour silent_detour_strong_quotient
        (0 ∷ 1 ∷ 2 ∷ 3 ∷ 3 ∷ 4 ∷ []) }
{}

/// `hidden-step-goes` and `hidden-step-stays`: hiding the label `a` turns a transition into an internal transition. The
/// quotient modulo branching bisimilarity does not contain this transition, and the quotient modulo strong bisimilarity
/// contains it.
pub fn hidden_step()
    ensures goes { Quotient Branching (Hide (a ∷ []) a_then_b) only_b }
    ensures stays { Quotient Strong (Hide (a ∷ []) a_then_b) hidden_middle_strong_quotient }
    ensures nothing_hidden { Hide [] a_then_b ≡ a_then_b }
{}

/// Four examples, and for each example a system that is not its quotient. The first of these four systems has one state
/// too many. The second system has an internal transition within a class. The third system contains a transition more
/// than once. In the fourth system, the classes are numbered in the ascending order of their leaders (the states that
/// represent the classes), so that the class of the first state does not get the number 0.
pub fn not_the_quotient()
    ensures a_state_too_many { ¬ Quotient Branching silent_cycle silent_cycle }
    ensures a_silent_step { ¬ Quotient Branching silent_loop silent_loop }
    ensures written_twice { ¬ Quotient Strong written_twice written_twice }
    ensures by_size { ¬ Quotient Strong first_leads first_leads_by_size }
{}
