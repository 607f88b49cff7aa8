//! The allowance is an upper bound on the number of visits (reads of transitions that the meter counts) that the
//! minimisation of a system may make. The specification defines this bound. This module proves that the bound on visits
//! in the contract of `minimise` is never more than the allowance.
ghost use Rattle.std.specs.Prelude.{ℕ, ◌+◌, ◌*◌, ◌≤◌};
ghost use Rattle.theory.specs.declared.relation.Relation.{Relation};
ghost use Rattle.theory.specs.Quotient.{allowance};

/// This function is a lemma, and does nothing when it runs. Suppose that a system has at least one state and m
/// transitions, and let r be a number of rounds. Then, by the contract of this function, (r + 2) * m visits (reads of
/// transitions that the meter counts) are never more than the allowance. This is true for strong and for branching
/// bisimilarity.
pub fn visits_are_within_the_allowance()
    ensures { (rel : Relation) (states transitions rounds visits : ℕ) → 1 ≤ states →
        visits ≤ (rounds + 2) * transitions → visits ≤ allowance rel states transitions rounds }
{}
