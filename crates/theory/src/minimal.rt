//! Theorems about quotients. All quotients of a system are equal, except for the order of their transitions. The
//! quotient is equivalent to the system, contains no two bisimilar states, and has the fewest states of all equivalent
//! systems.

ghost use Rattle.std.specs.Prelude.{◌≡◌, ◌↔◌, ℕ, ◌<◌, ◌≤◌};
ghost use Rattle.std.specs.List.{Contains};
ghost use Rattle.theory.specs.System.{System, Transition, IsSystem, Reachable};
ghost use Rattle.theory.specs.Bisimulation.{Bisimilar, Equivalent};
ghost use Rattle.theory.specs.declared.relation.Relation.{Relation};
ghost use Rattle.theory.specs.Quotient.{Leader, IsLeader, Number, Quotient};

/// The leader of a class is the state that represents this class. If two leaders are bisimilar, they are equal.
pub fn leaders_differ()
    ensures { (rel : Relation) (A : System) (l m : ℕ) → IsSystem A → IsLeader rel A l →
        IsLeader rel A m →
        Bisimilar rel A l A m → l ≡ m }
{}

/// The leader of a reachable state is the state that represents its class. Each reachable state has exactly one leader.
/// The class number of a reachable state is the number of the quotient state that the class of this state becomes. Each
/// reachable state has exactly one class number.
pub fn each_state_has_a_number()
    ensures leader { (rel : Relation) (A : System) (s : ℕ) → IsSystem A → Reachable A s →
        (l : ℕ) × Leader rel A s l }
    ensures one_leader { (rel : Relation) (A : System) (s l m : ℕ) → Leader rel A s l →
        Leader rel A s m → l ≡ m }
    ensures number { (rel : Relation) (A : System) (s : ℕ) → IsSystem A → Reachable A s →
        (n : ℕ) × Number rel A s n }
    ensures one_number { (rel : Relation) (A : System) (s m n : ℕ) → IsSystem A →
        Number rel A s m → Number rel A s n → m ≡ n }
{}

/// The class number of a reachable state is the number of the quotient state that the class of this state becomes. Two
/// reachable states have the same class number if and only if they are bisimilar.
pub fn numbers_are_classes()
    ensures { (rel : Relation) (A : System) (s t m n : ℕ) → IsSystem A →
        Reachable A s → Reachable A t →
        Number rel A s m → Number rel A t n → (m ≡ n) ↔ Bisimilar rel A s A t }
{}

/// The class number of a reachable state is defined by counting leaders, which are the states that represent their
/// classes (`Number`). The states of the quotient are exactly the class numbers of the reachable states.
pub fn numbers_are_states()
    ensures below { (rel : Relation) (A Q : System) (s n : ℕ) → IsSystem A → Quotient rel A Q →
        Number rel A s n → n < Q.states }
    ensures taken { (rel : Relation) (A Q : System) (n : ℕ) → IsSystem A →
        Quotient rel A Q → n < Q.states →
        (s : ℕ) × Reachable A s × Number rel A s n }
{}

/// All quotients of a system are equal, except that the order of their transitions may differ.
pub fn the_quotient_is_one()
    ensures states { (rel : Relation) (A Q R : System) →
        Quotient rel A Q → Quotient rel A R → Q.states ≡ R.states }
    ensures first { (rel : Relation) (A Q R : System) →
        Quotient rel A Q → Quotient rel A R → Q.first ≡ R.first }
    ensures transitions { (rel : Relation) (A Q R : System) (e : Transition) →
        Quotient rel A Q → Quotient rel A R →
        Contains Q.transitions e ↔ Contains R.transitions e }
{}

/// The quotient of a system is equivalent to the system.
pub fn quotient_is_equivalent()
    ensures { (rel : Relation) (A Q : System) → IsSystem A → Quotient rel A Q → Equivalent rel A Q }
{}

/// Each reachable state of a system is bisimilar to the quotient state that represents it.
pub fn states_are_bisimilar_to_their_numbers()
    ensures { (rel : Relation) (A Q : System) (s n : ℕ) → IsSystem A → Quotient rel A Q →
        Reachable A s → Number rel A s n → Bisimilar rel A s Q n }
{}

/// If two states of the quotient are bisimilar, they are equal.
pub fn quotient_states_differ()
    ensures { (rel : Relation) (A Q : System) (s t : ℕ) → IsSystem A → Quotient rel A Q →
        Bisimilar rel Q s Q t → s ≡ t }
{}

/// If a system is equivalent to A, then it has at least as many states as the quotient of A.
pub fn no_smaller_system()
    ensures { (rel : Relation) (A Q B : System) → IsSystem A → IsSystem B → Quotient rel A Q →
        Equivalent rel A B →
        Q.states ≤ B.states }
{}
