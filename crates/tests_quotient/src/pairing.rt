//! Computes results for two systems that are given in the short notation of the file `texts`.
use crate::checks::check_text;
use crate::texts::system;
use crate::{comparisons, splits, systems};
use lts::{Counter, Lts, Memory};
use quotient::Relation;
use std::alloc::Global;
use std::test::Fail;

/// Says which text about two systems is computed. A test compares this text with the expected text.
#[derive(Clone, Copy, Drop)]
pub(crate) enum Paired {
    /// Whether the systems are equivalent.
    Verdict(Relation),
    /// Whether the systems are equivalent, and the numbers of rounds and visits (reads of transitions) of the
    /// comparison.
    Counted(Relation),
    /// The blocks after two rounds for strong bisimilarity. The first round uses the first system and starts from one
    /// block. The second round uses the second system.
    Split,
    /// The union of the systems, and the number of visits (reads of transitions) that building the union takes.
    Union,
}

/// Fails if the result for the two systems differs from the expected text `wanted`. `a` and `b` are the systems in the
/// short notation of the file `texts`.
pub(crate) fn check_pair(
    alloc: Global,
    what: Paired,
    name: &str,
    a: &str,
    b: &str,
    wanted: &str,
) -> Result<(), Fail> {
    let found = of_texts(alloc, what, a, b)?;
    check_text(name, &found, wanted)
}

fn of_texts(alloc: Global, what: Paired, a: &str, b: &str) -> Result<String, Fail> {
    let a = system(alloc, a)?;
    beside(alloc, what, &a, b)
}

fn beside(alloc: Global, what: Paired, a: &Lts<Counter>, b: &str) -> Result<String, Fail> {
    let b = system(alloc, b)?;
    Ok(show(alloc, what, a, &b)?)
}

fn show(alloc: Global, what: Paired, a: &Lts<Counter>, b: &Lts<Counter>) -> Result<String, Memory> {
    match what {
        Paired::Verdict(relation) => comparisons::shown(alloc, a, b, relation),
        Paired::Counted(relation) => comparisons::counted(alloc, a, b, relation),
        Paired::Split => splits::twice(alloc, a, b),
        Paired::Union => systems::joined(alloc, a, b),
    }
}
