//! Theorems about the bisimilarity of states of different systems, and about the connection between strong and
//! branching bisimulations.

ghost use Rattle.std.specs.Prelude.{ℕ, ◌<◌, List};
ghost use Rattle.theory.specs.System.{System, IsSystem, Internal};
ghost use Rattle.theory.specs.Bisimulation.{Strong, Branching, Bisimilar, Equivalent};
ghost use Rattle.theory.specs.declared.relation.Relation.{Relation};

/// If `Bisimilar` holds for the number s in the system A and the number t in the system B, then s is a state of A, and
/// t is a state of B. Strong and branching bisimilarity are symmetric and transitive, both for states of one system and
/// for states of different systems.
pub fn bisimilarity_goes_across()
    ensures states { (rel : Relation) (A B : System) (s t : ℕ) → Bisimilar rel A s B t →
        (s < A.states) × (t < B.states) }
    ensures symmetric { (rel : Relation) (A B : System) (s t : ℕ) → Bisimilar rel A s B t →
        Bisimilar rel B t A s }
    ensures transitive { (rel : Relation) (A B C : System) (s t u : ℕ) → IsSystem A → IsSystem C →
        Bisimilar rel A s B t → Bisimilar rel B t C u → Bisimilar rel A s C u }
{}

/// Strong and branching equivalence of systems are reflexive, symmetric and transitive.
pub fn systems_are_compared()
    ensures reflexive { (rel : Relation) (A : System) → IsSystem A → Equivalent rel A A }
    ensures symmetric { (rel : Relation) (A B : System) → Equivalent rel A B → Equivalent rel B A }
    ensures transitive { (rel : Relation) (A B C : System) → IsSystem A → IsSystem C →
        Equivalent rel A B → Equivalent rel B C → Equivalent rel A C }
{}

/// Every strong bisimulation is a branching bisimulation. If neither system has internal steps, every branching
/// bisimulation is a strong bisimulation.
pub fn strong_and_branching()
    ensures strong_is_branching { (A B : System) (pairs : List (ℕ × ℕ)) →
        Strong A B pairs → Branching A B pairs }
    ensures branching_is_strong { (A B : System) (pairs : List (ℕ × ℕ)) →
        ((s t : ℕ) → ¬ Internal A s t) → ((s t : ℕ) → ¬ Internal B s t) →
        Branching A B pairs → Strong A B pairs }
{}
