//! The label table. Labels get consecutive IDs in the order in which they are added, and the bytes of each label are
//! stored once.
ghost use Rattle.std.specs.Prelude.{◌≡◌, ◌↔◌, ℕ, ◌<◌, List, [], length, IsTrue, MatchOption, IfOk, OnOk, OnErr};
ghost use Rattle.std.specs.Prelude.{Contains};
ghost use Rattle.theory.specs.System.{IsLabel, internal};
ghost use Rattle.memory.specs.declared.limits.TheConstants.{MOST_LABELS};
ghost use Rattle.lts.specs.Labels.{text_of, IsLabelId, IsTable, KeepsLabels, Interns};

use indexmap::IndexMap;
use memory::Memory;
use std::alloc::Global;
use std::marker::Model;

/// The greatest length of a label, in bytes.
pub const LONGEST_LABEL: usize = 8000;

/// Returns whether the bytes `b` are a valid label. A label consists of 1 to 8000 bytes, each from 0x20 to 0x7E.
pub fn is_label(b: &[u8]) -> bool
    ensures { IsTrue result ↔ IsLabel b.now }
{
    !b.is_empty() && b.len() <= LONGEST_LABEL && b.iter().all(|c| *c >= 0x20 && *c <= 0x7E)
}

/// A list of different labels. The ID of a label is its index in the list.
pub struct Labels {
    alloc: Global,
    /// The labels are the keys of a map without values. A set would suffice, but the crate that defines sets contains
    /// one and a half times as many statements as the crate that defines maps. The prover loads all these statements
    /// for every crate that depends on this crate.
    texts: IndexMap<Vec<u8>, ()>,
}

/// `Drop` is implemented explicitly to make proofs faster: see the row "Drops" of the table in `docs/changing.md`.
impl Drop for Labels {
    fn drop(self) {
        let Labels { alloc: _, texts: _ } = self;
    }
}

impl Model for Labels {
    ghost use Rattle.std.specs.Prelude.{ℕ, List, map};
    ghost use Rattle.indexmap.specs.IndexMap.{keys};

    ghost Value = { List (List ℕ) };

    ghost use Rattle.lts.specs.Labels.{IsTable};

    ghost view = { λ t. map (λ v. v.items) (keys t.texts) };

    ghost invariant = { λ t. IsTable (map (λ v. v.items) (keys t.texts)) };
}

impl Labels {
    /// Returns a label table without labels.
    pub fn new(alloc: Global) -> Labels
        ensures { result ≡ [] }
    {
        Labels {
            alloc,
            texts: IndexMap::new(alloc),
        }
    }

    pub(crate) fn allocator(&self) -> Global {
        self.alloc
    }

    /// This call is a lemma: it does nothing at run time. Its contract states the invariant of label tables.
    pub fn invariants(&self)
        ensures { IsTable self.now }
    {
        let _ = &self.texts;
    }

    /// Returns the ID of the label with the bytes `b`. If the table does not contain this label, the label is appended.
    pub fn intern(&mut self, b: &[u8]) -> Result<u32, Memory>
        requires label { IsLabel b.now }
        requires room { length self.old < MOST_LABELS }

        // On success
        ensures number { IfOk result (λ k. IsLabelId self.new k b.now) }
        ensures table { OnOk result (Interns self.old b.now self.new) }

        // On failure
        ensures err { OnErr result (self.new ≡ self.old) }

        // Always
        ensures keeps { KeepsLabels self.old self.new }
        ensures is_table { IsTable self.new }
    {
        if let Some(k) = self.texts.get_index_of(b) {
            return Ok(k as u32);
        }
        let k = self.len();
        let text = Vec::from_slice(self.alloc, b)?;
        self.texts.insert(text, ())?;
        Ok(k)
    }

    /// Returns the ID of the label with the bytes `b`, or `None` if the table does not contain this label.
    pub fn find(&self, b: &[u8]) -> Option<u32>
        ensures { MatchOption result (¬ Contains self.now b.now) (λ k. IsLabelId self.now k b.now) }
    {
        let k = self.texts.get_index_of(b)?;
        Some(k as u32)
    }

    /// Returns the bytes of the label with the ID `k`.
    pub fn text(&self, k: u32) -> &[u8]
        requires { k < length self.now }
        ensures text { result.now ≡ text_of self.now k }
        ensures label { IsLabel result.now }
    {
        &self.texts.keys().as_slice()[k as usize]
    }

    /// Returns whether `k` is the ID of the label with the bytes `b`.
    #[inline(always)]
    pub fn has(&self, k: u32, b: &[u8]) -> bool
        ensures number { IsTrue result ↔ IsLabelId self.now k b.now }
        ensures table { IsTable self.now }
    {
        k < self.len() && self.text(k) == b
    }

    /// Returns the number of labels in the table.
    pub fn len(&self) -> u32
        ensures value { result ≡ length self.now }
        ensures table { IsTable self.now }
    {
        self.texts.len() as u32
    }

    /// Returns the ID of the internal label `i`, or `None` if the table does not contain this label.
    pub fn internal(&self) -> Option<u32>
        ensures { MatchOption result (¬ Contains self.now internal)
            (λ k. IsLabelId self.now k internal) }
    {
        self.find(b"i")
    }
}
