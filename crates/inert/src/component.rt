//! Computes the signature of a strongly connected component of inert transitions. The component has collected items. An
//! item is a pair (label ID, block) or a signature ID. A signature ID represents all pairs of the signature with this
//! ID.
ghost use Rattle.std.specs.Prelude.{◌↔◌, ◌<◌, length, IfOk, IfSome, IsTrue, OnOk};
ghost use Rattle.std.specs.List.{All, Contains};
ghost use Rattle.inert.specs.Search.{AreInternedItems, Interned};
ghost use Rattle.inert.specs.SearchMoves.{IsUnionOfItems, AreCollected, IsItemOf};

use crate::item::{CompactItem, Item};
use lts::Memory;
use signatures::Interner;

/// An item is a pair (label ID, block) or a signature ID. A signature ID represents all pairs of the signature with
/// this ID. The pairs that the items in `items` represent form one signature. The function interns this signature and
/// returns its ID.
pub(crate) fn intern_items(
    items: &[CompactItem],
    signatures: &mut Interner,
    signature_ids: &mut Vec<u32>,
    pairs: &mut Vec<(u32, u32)>,
) -> Result<u32, Memory>
    requires { AreInternedItems signatures.old items.now }
    ensures { IfOk result (IsUnionOfItems items.now signatures.old signatures.new) }
{
    signatures.invariants();
    if let Some(id) = first_signature(items) {
        // Suppose that `id` is the only signature ID among the items, and that each pair among the items is in the
        // signature with this ID. Then the result is `id`, and the items need not be sorted.
        if all_in(items, id, signatures) {
            return Ok(id);
        }
    }
    collect(items, signature_ids, pairs)?;
    signature_ids.sort_unstable();
    signature_ids.dedup();
    let id = signatures.join(signature_ids, pairs)?;
    signatures.invariants();
    Ok(id)
}

fn first_signature(items: &[CompactItem]) -> Option<u32>
    ensures { IfSome result (λ k. Contains items.now (Interned k)) }
{
    for item in items {
        if let Item::Interned(id) = item.item() {
            return Some(id);
        }
    }
    None
}

/// An item is a pair (label ID, block) or a signature ID. Returns whether each item is the signature ID `id` or a pair
/// of the signature with this ID.
fn all_in(items: &[CompactItem], id: u32, signatures: &Interner) -> bool
    requires { id < length signatures.now }
    ensures { IsTrue result ↔ All (IsItemOf signatures.now id) items.now }
{
    for item in items {
        let is_in = match item.item() {
            Item::Pair(label, block) => signatures.has(id, (label, block)),
            Item::Interned(other) => other == id,
        };
        if !is_in {
            return false;
        }
    }
    true
}

/// An item is a pair (label ID, block) or a signature ID. The function clears the vectors `signature_ids` and `pairs`.
/// It then stores the signature IDs among the items in `signature_ids`, and the pairs among the items in `pairs`.
fn collect(
    items: &[CompactItem],
    signature_ids: &mut Vec<u32>,
    pairs: &mut Vec<(u32, u32)>,
) -> Result<(), Memory>
    ensures { OnOk result (AreCollected items.now signature_ids.new.items pairs.new.items) }
{
    signature_ids.clear();
    pairs.clear();
    signature_ids.reserve(items.len())?;
    pairs.reserve(items.len())?;
    for item in items {
        match item.item() {
            Item::Pair(label, block) => pairs.push_reserved((label, block)),
            Item::Interned(id) => signature_ids.push_reserved(id),
        }
    }
    Ok(())
}
