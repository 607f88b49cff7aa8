//! The search collects items for each strongly connected component of inert transitions. An item is a pair (label ID,
//! target block) or a signature ID.
ghost use Rattle.std.specs.Prelude.{◌≡◌, ℕ, ◌<◌};
ghost use Rattle.inert.specs.declared.item.Item.TheVariants.{Pair};
ghost use Rattle.inert.specs.declared.item.TheConstants.{INTERNED};

use std::marker::Model;

/// An item that the search collects for a strongly connected component of inert transitions: a pair (label ID, target
/// block), or the ID of a signature. A signature ID stands for all pairs of the signature.
#[derive(Clone, Copy)]
pub(crate) enum Item {
    Pair(u32, u32),
    Interned(u32),
}

/// A `CompactItem` stores a pair (label ID, target block) or a signature ID in 8 bytes. If it stores a signature ID,
/// its field `label` has the value `INTERNED`. No label has this value as its ID.
pub(crate) const INTERNED: u32 = 0xFFFF_FFFF;

/// An item, which is a pair (label ID, target block) or a signature ID, in 8 bytes. An `Item` takes 12 bytes. The size
/// matters because a search can store one item for each transition of a large strongly connected component.
#[derive(Drop)]
pub(crate) struct CompactItem {
    label: u32,
    value: u32,
}

impl Model for CompactItem {
    ghost use Rattle.inert.specs.declared.item.Item.{Item};
    ghost use Rattle.inert.specs.Search.{item_of};

    ghost Value = { Item };

    ghost view = { λ x. item_of x.label x.value };
}

impl CompactItem {
    /// Packs an item, which is a pair (label ID, target block) or a signature ID, into 8 bytes.
    #[inline(always)]
    pub fn new(item: Item) -> CompactItem
        requires { (a b : ℕ) → item ≡ Pair a b → a < INTERNED }
        ensures { result ≡ item }
    {
        match item {
            Item::Pair(label, value) => CompactItem { label, value },
            Item::Interned(value) => CompactItem {
                label: INTERNED,
                value,
            },
        }
    }

    /// Returns the item that was packed: a pair (label ID, target block) or a signature ID.
    #[inline(always)]
    pub fn item(&self) -> Item
        ensures { result ≡ self.now }
    {
        if self.label == INTERNED {
            return Item::Interned(self.value);
        }
        Item::Pair(self.label, self.value)
    }
}
