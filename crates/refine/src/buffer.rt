//! Stores a copy of all lists of an `Interner`, which is a type of the crate `signatures`. An `Interner` stores each
//! signature once, as a list of pairs (label ID, block ID). The copies are stored in one buffer, one list after the
//! other, so that each list can be read as a slice.
ghost use Rattle.std.specs.Prelude.{◌≡◌, ◌<◌, length, IfOk};
ghost use Rattle.signatures.specs.Lists.{list_at, AreLists};

use lts::Memory;
use signatures::Interner;
use std::alloc::Global;
use std::marker::Model;

/// A sequence of lists of pairs (label ID, block ID). No two of the lists are equal. Each list is stored as a range of
/// one buffer. The ID of a list is its index in the sequence. The first list is the empty list, and has the ID `EMPTY`.
#[derive(Drop)]
pub struct SignatureBuffer {
    pairs: Vec<(u32, u32)>,
    spans: Vec<Span>,
}

/// The range of the buffer in which a list is stored. The list consists of the pairs at the indices i of the buffer
/// with `start` <= i < `end`.
#[derive(Clone, Copy)]
struct Span {
    start: usize,
    end: usize,
}

impl Model for SignatureBuffer {
    ghost use Rattle.std.specs.Prelude.{ℕ, List};

    ghost Value = { List (List (ℕ × ℕ)) };

    ghost use Rattle.std.specs.List.{All};
    ghost use Rattle.signatures.specs.Lists.{AreLists};
    ghost use Rattle.refine.specs.Spans.{signatures_in, IsSpan};

    ghost view = { λ x. signatures_in x.pairs.items x.spans.items };

    ghost invariant = { λ x. All (IsSpan x.pairs.items) x.spans.items
        × AreLists (signatures_in x.pairs.items x.spans.items) };
}

impl SignatureBuffer {
    /// Copies all lists of `interned` into a new buffer. Each list keeps its ID.
    pub fn new(alloc: Global, interned: &Interner) -> Result<SignatureBuffer, Memory>
        ensures { IfOk result (λ x. x ≡ interned.now) }
    {
        interned.invariants();
        let mut pairs = Vec::new(alloc);
        let mut spans = Vec::new(alloc);
        for k in 0..interned.len() {
            let start = pairs.len();
            interned.append(k, &mut pairs)?;
            spans.push(Span {
                start,
                end: pairs.len(),
            })?;
        }
        Ok(SignatureBuffer { pairs, spans })
    }

    /// Returns the number of lists.
    pub fn len(&self) -> u32
        ensures count { result ≡ length self.now }
        ensures interned { AreLists self.now }
    {
        self.spans.len() as u32
    }

    /// Returns the list with the ID `k`.
    pub fn of(&self, k: u32) -> &[(u32, u32)]
        requires { k < length self.now }
        ensures { result.now ≡ list_at self.now k }
    {
        let span = self.spans[k as usize];
        &self.pairs[span.start..span.end]
    }
}
