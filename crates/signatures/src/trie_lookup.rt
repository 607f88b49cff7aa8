//! Finds a list in the trie by its tag, which is a hash of 32 bits. Equal lists have equal tags. The trie interns lists
//! of pairs that other lists can share: it stores each list only once (hash-consing).
ghost use Rattle.std.specs.Prelude.{◌≡◌, ◌↔◌, ◌<◌, length, map, IsTrue, MatchOption};
ghost use Rattle.signatures.specs.Lists.{list_at};
ghost use Rattle.signatures.specs.Nodes.{list_of_shape, Suits};
ghost use Rattle.signatures.specs.Hashed.{tag_of, AreDifferent, IsNewList, IsIdOf};

use crate::hashes::are_same;
use crate::nodes::{Nodes, Shape};
use buckets::{Buckets, EMPTY};

/// Returns whether the list with the ID `k` is equal to the list that `shape` describes. The argument `shape` contains
/// either the pairs of its list, or the IDs of the two halves of its list.
fn is(nodes: &Nodes, k: u32, shape: Shape<'_>) -> bool
    requires list { k < length nodes.now }
    requires suits { Suits nodes.now shape }
    requires different { AreDifferent nodes.now }
    ensures { IsTrue result ↔ (list_at nodes.now k ≡ list_of_shape nodes.now shape.entry) }
{
    nodes.invariants();
    match (nodes.shape(k), shape) {
        (Shape::Whole(list), Shape::Whole(other)) => are_same(list, other),
        (Shape::Halved(halves), Shape::Halved(other)) => halves == other,
        _ => false,
    }
}

/// Returns the ID of the list that `shape` describes, or `None` if this list is not stored. The argument `shape`
/// contains either the pairs of the list, or the IDs of the two halves of the list. The argument `tag` is the tag (a
/// hash of 32 bits) of the list.
pub(crate) fn find(nodes: &Nodes, buckets: &Buckets, shape: Shape<'_>, tag: u32) -> Option<u32>
    requires tags { buckets.now.tags ≡ map tag_of nodes.now }
    requires different { AreDifferent nodes.now }
    requires suits { Suits nodes.now shape }
    requires tag { tag ≡ tag_of (list_of_shape nodes.now shape) }
    ensures { let list = list_of_shape nodes.now shape.entry in
        MatchOption result (IsNewList nodes.now list) (IsIdOf nodes.now list) }
{
    nodes.invariants();
    let mut r = buckets.last(tag);
    while r != EMPTY {
        if is(nodes, r, shape) {
            return Some(r);
        }
        r = buckets.before(r);
    }
    None
}
