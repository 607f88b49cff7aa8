//! Theorems about inert steps: paths of inert steps, and signatures along these paths.

ghost use Rattle.std.specs.Prelude.{◌≡◌, ◌⊎◌, ℕ, ◌<◌, Bool, IsTrue, List};
ghost use Rattle.theory.specs.System.{System, IsSystem, Step, Leads, internal};
ghost use Rattle.theory.specs.declared.relation.Relation.TheVariants.{Branching};
ghost use Rattle.theory.specs.Blocks.{Inert, Signature, SameSignature};

/// The empty path is a path of inert steps. Paths of inert steps can be extended at both ends, and can be joined.
pub fn inert_steps_lead_on()
    ensures here { (A : System) (blocks : ℕ → ℕ) (s : ℕ) → Leads (Inert A blocks) s s }
    ensures step { (A : System) (blocks : ℕ → ℕ) (s t : ℕ) → Inert A blocks s t →
        Leads (Inert A blocks) s t }
    ensures before { (A : System) (blocks : ℕ → ℕ) (s t u : ℕ) →
        Inert A blocks s t → Leads (Inert A blocks) t u → Leads (Inert A blocks) s u }
    ensures after { (A : System) (blocks : ℕ → ℕ) (s t u : ℕ) →
        Leads (Inert A blocks) s t → Inert A blocks t u → Leads (Inert A blocks) s u }
    ensures joined { (A : System) (blocks : ℕ → ℕ) (s t u : ℕ) →
        Leads (Inert A blocks) s t → Leads (Inert A blocks) t u → Leads (Inert A blocks) s u }
    ensures begins { (A : System) (blocks : ℕ → ℕ) (s u : ℕ) → Leads (Inert A blocks) s u →
        (s ≡ u) ⊎ ((t : ℕ) × Inert A blocks s t × Leads (Inert A blocks) t u) }
{}

/// A path of inert steps does not leave its block. If a path of inert steps begins in a state of the system, it ends in
/// a state of the system. If each inert step preserves a property of states, then each path of inert steps preserves
/// this property.
pub fn inert_steps_stay()
    ensures block { (A : System) (blocks : ℕ → ℕ) (s t : ℕ) → Leads (Inert A blocks) s t →
        blocks t ≡ blocks s }
    ensures below { (A : System) (blocks : ℕ → ℕ) (s t : ℕ) → IsSystem A →
        Leads (Inert A blocks) s t → s < A.states → t < A.states }
    ensures kept { (A : System) (blocks : ℕ → ℕ) (has : ℕ → Bool) →
        ((s t : ℕ) → Inert A blocks s t → IsTrue (has s) → IsTrue (has t)) →
        (s t : ℕ) → Leads (Inert A blocks) s t → IsTrue (has s) → IsTrue (has t) }
{}

/// The branching signature of a state contains the pair (label, target block) of each step of the state that is not
/// inert. The signature also contains all pairs in the signatures of the states to which inert steps of the state lead,
/// and no other pairs. If two states reach each other by inert steps, their signatures are equal.
pub fn inert_steps_pass_signatures_back()
    ensures own { (A : System) (blocks : ℕ → ℕ) (s : ℕ) (a : List ℕ) (t : ℕ) → Step A s a t →
        ¬ ((a ≡ internal) × (blocks t ≡ blocks s)) → Signature Branching A blocks s a (blocks t) }
    ensures step { (A : System) (blocks : ℕ → ℕ) (s t : ℕ) (a : List ℕ) (b : ℕ) →
        Inert A blocks s t →
        Signature Branching A blocks t a b → Signature Branching A blocks s a b }
    ensures path { (A : System) (blocks : ℕ → ℕ) (s t : ℕ) (a : List ℕ) (b : ℕ) →
        Leads (Inert A blocks) s t →
        Signature Branching A blocks t a b → Signature Branching A blocks s a b }
    ensures only { (A : System) (blocks : ℕ → ℕ) (s : ℕ) (a : List ℕ) (b : ℕ) →
        Signature Branching A blocks s a b →
        ((t : ℕ) × Step A s a t × (blocks t ≡ b) × ¬ ((a ≡ internal) × (b ≡ blocks s)))
        ⊎ ((t : ℕ) × Inert A blocks s t × Signature Branching A blocks t a b) }
    ensures same { (A : System) (blocks : ℕ → ℕ) (s t : ℕ) → Leads (Inert A blocks) s t →
        Leads (Inert A blocks) t s →
        SameSignature Branching A blocks s t }
{}
