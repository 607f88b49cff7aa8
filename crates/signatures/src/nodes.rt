//! This module is the lowest layer of the crate, and stores lists of pairs. A short list is stored as a range of pairs,
//! and a long list is stored as the IDs of its two halves. The number at which a long list is divided into its halves
//! is called the split point of the list. To compare a pair (x, y) with the split point, the pair is represented by the
//! number x * 2^32 + y. The first half contains the pairs that are less than the split point, and the second half
//! contains the other pairs.
ghost use Rattle.std.specs.Prelude.{◌≡◌, ◌++◌, ◌∷◌, ◌+◌, ◌<◌, ◌≤◌, [], length, IfOk, OnOk, OnErr};
ghost use Rattle.std.specs.List.{slice_range};
ghost use Rattle.signatures.specs.Nodes.{list_of_shape, Suits, IsShape, AreStored};
ghost use Rattle.signatures.specs.declared.nodes.TheConstants.{MOST_LISTS};

use memory::Memory;
use std::alloc::Global;
use std::marker::Model;

/// The largest number of lists. Up to this number, each list has an ID that fits into 32 bits.
pub const MOST_LISTS: usize = 0xFFFF_FFFF;

/// A list with at most this number of pairs is stored as a range of pairs. A longer list is stored as the IDs of its
/// two halves.
pub(crate) const MOST_WHOLE: usize = 64;

/// The IDs of the two halves of a list, and the number at which the list is divided into these halves (`cut`). To
/// compare a pair (x, y) with `cut`, the pair is represented by the number x * 2^32 + y. The half with the ID `below`
/// contains the pairs that are less than `cut`, and the half with the ID `above` contains the other pairs.
#[derive(Clone, Copy, PartialEq, Eq)]
pub(crate) struct Halves {
    pub below: u32,
    pub above: u32,
    pub cut: u64,
}

/// A node stores one list. The node contains either the range of the pairs of the list in a buffer (`count` pairs from
/// the index `start` on), or the IDs of the two halves of the list.
#[derive(Clone, Copy)]
enum Node {
    Whole { start: usize, count: u32 },
    Halved(Halves),
}

/// A list in the form in which it is stored: its pairs, or the IDs of its two halves.
#[derive(Clone, Copy)]
pub(crate) enum Shape<'a> {
    Whole(&'a [(u32, u32)]),
    Halved(Halves),
}

/// Lists of pairs in strictly ascending order. The ID of a list is the number that `push` returned when the list was
/// appended. The empty list has the ID `EMPTY`.
#[derive(Drop)]
pub(crate) struct Nodes {
    /// The pairs of all lists that are stored as ranges of pairs, one list after the other.
    pairs: Vec<(u32, u32)>,
    /// The node of each list. A node contains the range of the pairs of its list, or the IDs of the two halves of its
    /// list.
    nodes: Vec<Node>,
}

impl Model for Nodes {
    ghost use Rattle.std.specs.Prelude.{ℕ, List};

    ghost Value = { List (List (ℕ × ℕ)) };

    ghost use Rattle.signatures.specs.Nodes.{lists_of_nodes, AreNodes};

    ghost view = { λ x. lists_of_nodes x.pairs.items x.nodes.items };

    ghost invariant = { λ x. AreNodes x.pairs.items x.nodes.items };
}

impl Nodes {
    /// Makes a store of lists that contains only the empty list.
    pub fn new(alloc: Global) -> Result<Nodes, Memory>
        ensures { IfOk result (λ x. x ≡ [] ∷ []) }
    {
        let mut nodes = Vec::new(alloc);
        nodes.push(Node::Whole { start: 0, count: 0 })?;
        Ok(Nodes {
            pairs: Vec::new(alloc),
            nodes,
        })
    }

    /// This call is a lemma: it does nothing at run time. Its contract states properties that the lists of every store
    /// have (`AreStored`), for example that each list is in strictly ascending order.
    pub fn invariants(&self)
        ensures { AreStored self.now }
    {
        let _ = &self.pairs;
    }

    /// Returns the list with the ID `k` in the form in which it is stored: its pairs, or the IDs of its two halves.
    pub fn shape(&self, k: u32) -> Shape<'_>
        requires { k < length self.now }
        ensures { IsShape self.now k result }
    {
        match self.nodes[k as usize] {
            Node::Whole { start, count } => Shape::Whole(part(&self.pairs, start, count)),
            Node::Halved(halves) => Shape::Halved(halves),
        }
    }

    /// Appends the list that `shape` describes, and returns its ID. The argument `shape` contains either the pairs of
    /// the list, or the IDs of the two halves of the list.
    pub fn push(&mut self, shape: Shape<'_>) -> Result<u32, Memory>
        requires few { length self.old < MOST_LISTS }
        requires suits { Suits self.old shape }
        ensures pushed { OnOk result
            (self.new ≡ self.old ++ list_of_shape self.old shape.entry ∷ []) }
        ensures id { IfOk result (λ k. k ≡ length self.old) }
        ensures err { OnErr result (self.new ≡ self.old) }
    {
        self.nodes.reserve(1)?;
        let id = self.nodes.len() as u32;
        let node = match shape {
            Shape::Whole(list) => {
                let start = self.pairs.len();
                self.pairs.extend_from_slice(list)?;
                Node::Whole {
                    start,
                    count: list.len() as u32,
                }
            }
            Shape::Halved(halves) => Node::Halved(halves),
        };
        self.nodes.push_reserved(node);
        Ok(id)
    }

    /// Removes all lists except for the empty list. The memory stays allocated for later lists.
    pub fn clear(&mut self)
        ensures { self.new ≡ [] ∷ [] }
    {
        self.pairs.clear();
        self.nodes.truncate(1);
    }
}

/// Returns the `count` pairs of `pairs` from the index `start` on.
pub(crate) fn part(pairs: &[(u32, u32)], start: usize, count: u32) -> &[(u32, u32)]
    requires { start + count ≤ length pairs.now }
    ensures { result.now ≡ slice_range pairs.now start (start + count) }
{
    &pairs[start..start + count as usize]
}
