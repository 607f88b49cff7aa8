//! Defines a type whose values are the two kinds of bisimilarity.

/// The relation modulo which systems are minimised or compared.
#[derive(Clone, Copy, Debug, PartialEq, Eq)]
pub enum Relation {
    /// Strong bisimilarity (Milner 1989).
    Strong,
    /// Branching bisimilarity (van Glabbeek and Weijland 1996).
    Branching,
}
