//! Stores each list of pairs in two parts: the ID of its base, which is a list of pairs that several lists can share,
//! and its extra pairs, which are all other pairs of the list. The bases are stored in a separate store, which is
//! called the trie. A list has at most 64 extra pairs (`MOST_WHOLE`).
ghost use Rattle.std.specs.Prelude.{◌≡◌, ◌++◌, ◌∷◌, ◌<◌, ◌≤◌, [], length, IfOk, OnOk, OnErr};
ghost use Rattle.signatures.specs.Extensions.{parts_of, extension_at};
ghost use Rattle.signatures.specs.declared.nodes.TheConstants.{MOST_WHOLE};

use crate::nodes::part;
use buckets::EMPTY;
use memory::Memory;
use std::alloc::Global;
use std::marker::Model;

/// A list of pairs, given in two parts: the ID of its base, which is a list of pairs that several lists can share, and
/// its extra pairs, which are all other pairs of the list.
#[derive(Clone, Copy)]
pub(crate) struct Extension<'a> {
    pub base: u32,
    pub extra: &'a [(u32, u32)],
}

/// A slot is an entry of the table, and stores one list. The list is stored in two parts: its base, which is a list of
/// pairs that several lists can share, and its extra pairs, which are all other pairs of the list. The slot contains
/// the ID of the base. The slot also contains the range of the extra pairs in one buffer, which stores the extra pairs
/// of all lists.
#[derive(Clone, Copy)]
struct Slot {
    base: u32,
    count: u32,
    start: usize,
}

/// The slot that stores the empty list. The base of a list is a part that several lists can share, and the extra pairs
/// are all other pairs of the list. For the empty list, the base is the empty list itself, and there are no extra
/// pairs.
const NO_SLOT: Slot = Slot {
    base: EMPTY,
    count: 0,
    start: 0,
};

/// A table of lists. Each list is stored in two parts: the ID of its base, which is a list of pairs that several lists
/// can share, and its extra pairs, which are all other pairs of the list.
#[derive(Drop)]
pub(crate) struct Extensions {
    /// The extra pairs of all lists, one list after the other. The extra pairs of a list are the pairs that are not in
    /// its base, which is the part of the list that several lists can share.
    pairs: Vec<(u32, u32)>,
    slots: Vec<Slot>,
}

impl Model for Extensions {
    ghost use Rattle.std.specs.Prelude.{ℕ, List};

    ghost Value = { List (ℕ × List (ℕ × ℕ)) };

    ghost use Rattle.signatures.specs.Extensions.{all_extensions, AreSlots};

    ghost view = { λ x. all_extensions x.pairs.items x.slots.items };

    ghost invariant = { λ x. AreSlots x.pairs.items x.slots.items };
}

impl Extensions {
    /// Makes a table that contains only the empty list, and allocates memory for `room` other lists. Without this
    /// allocation, the table would grow by doubling, and would take up to a third more memory.
    pub fn new(alloc: Global, room: u32) -> Result<Extensions, Memory>
        ensures { IfOk result (λ x. x ≡ (0, []) ∷ []) }
    {
        let mut slots = Vec::with_capacity(alloc, room as usize + 1)?;
        slots.push(NO_SLOT)?;
        Ok(Extensions {
            pairs: Vec::new(alloc),
            slots,
        })
    }

    /// Returns the list with the ID `k` in the two parts in which it is stored: the ID of its base, which is a list of
    /// pairs that several lists can share, and its extra pairs, which are all other pairs of the list.
    pub fn of(&self, k: u32) -> Extension<'_>
        requires { k < length self.now }
        ensures { parts_of result ≡ extension_at self.now k }
    {
        let slot = self.slots[k as usize];
        Extension {
            base: slot.base,
            extra: part(&self.pairs, slot.start, slot.count),
        }
    }

    /// Appends a list to the table.
    pub fn push(&mut self, list: Extension<'_>) -> Result<(), Memory>
        requires { length list.extra.now ≤ MOST_WHOLE }
        ensures pushed { OnOk result (self.new ≡ self.old ++ parts_of list.entry ∷ []) }
        ensures err { OnErr result (self.new ≡ self.old) }
    {
        let start = self.pairs.len();
        self.pairs.extend_from_slice(list.extra)?;
        self.slots.push(Slot {
            base: list.base,
            count: list.extra.len() as u32,
            start,
        })?;
        Ok(())
    }

    /// Removes all lists except for the empty list. The memory stays allocated for later lists.
    pub fn clear(&mut self)
        ensures { self.new ≡ (0, []) ∷ [] }
    {
        self.pairs.clear();
        self.slots.truncate(1);
    }
}
