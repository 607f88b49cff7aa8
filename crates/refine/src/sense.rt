//! Computes the signature of a single state. The type `Marks` owns the working memory for this computation.
ghost use Rattle.std.specs.Prelude.{◌≡◌, ℕ, ◌<◌, ◌≤◌, ◌++◌, List, length, IfOk, OnOk, OnErr};
ghost use Rattle.memory.specs.declared.limits.TheConstants.{MOST_STATES};
ghost use Rattle.lts.specs.Meter.{HasRoomFor, Visits};
ghost use Rattle.lts.specs.Lts.{row_of};
ghost use Rattle.inert.specs.Signed.{IsSignature};
ghost use Rattle.refine.specs.Signed.{most_visits};

use crate::search::Search;
use lts::{Lts, Memory, Meter};
use partition::Partition;
use refine_core::{Branching, NewBlocks, Signing, Strong, read};
use signatures::order;
use std::alloc::Global;
use std::marker::Model;

/// The working memory for computing signatures. The same memory can be used for many states and for many rounds. The
/// result of a computation does not depend on the earlier computations that used the same memory.
#[derive(Drop)]
pub struct Marks {
    states: u32,
    search: Search,
}

impl Model for Marks {
    ghost use Rattle.std.specs.Prelude.{ℕ};

    ghost Value = { ℕ };

    ghost view = { λ k. k.states };

    ghost use Rattle.refine.specs.Search.{IsClear};

    ghost invariant = { λ k. IsClear k.states k.search };
}

impl Marks {
    /// Returns working memory for a system with `states` states. This number must be from 1 to 2,000,000
    /// (`MOST_STATES`).
    pub fn new(alloc: Global, states: u32) -> Result<Marks, Memory>
        requires some { 1 ≤ states }
        requires few { states ≤ MOST_STATES }
        ensures { IfOk result (λ k. k ≡ states) }
    {
        let search = Search::new(alloc, states)?;
        Ok(Marks { states, search })
    }

    /// Returns the number of states of the system for which this working memory was made.
    pub fn states(&self) -> u32
        ensures { result ≡ self.now }
    {
        self.states
    }
}

/// A relation for which the signature of a single state can be computed. The relation is strong or branching
/// bisimilarity (`Strong` or `Branching`). The trait `Signing`, which this trait extends, contains the functions that a
/// round of refinement calls. The crate `refine` does not export `Signing`.
pub trait Sense: Signing {
    /// Appends to `out` the signature of the state `s` with respect to the blocks of `p`. The signature is a list of
    /// pairs (label ID, block ID) in ascending order, without duplicates. If the call fails, it is unspecified which
    /// pairs were appended to `out`.
    fn signature<M: Meter>(
        l: &Lts<M>,
        p: &Partition,
        s: u32,
        marks: &mut Marks,
        out: &mut Vec<(u32, u32)>,
        m: &mut M,
    ) -> Result<(), Memory>
        requires states { length p.now ≡ l.now.states }
        requires marks { marks.old ≡ l.now.states }
        requires state { s < l.now.states }
        requires room { HasRoomFor (M.counted m.old) 0 (most_visits Self.relation l.now s) }

        // On success
        ensures appends { OnOk result ((pairs : List (ℕ × ℕ))
            × IsSignature Self.relation l.now p.now s pairs
            × (out.new.items ≡ out.old.items ++ pairs)) }

        // On failure
        ensures extends { OnErr result
            ((more : List (ℕ × ℕ)) × (out.new.items ≡ out.old.items ++ more)) }

        // Always
        ensures visits { let row = length (row_of s l.now.places) in
            Visits M.counted m.old m.new result row (most_visits Self.relation l.now s) }
        ensures marks { marks.new ≡ marks.old };
}

impl Sense for Strong {
    fn signature<M: Meter>(
        l: &Lts<M>,
        p: &Partition,
        s: u32,
        marks: &mut Marks,
        out: &mut Vec<(u32, u32)>,
        m: &mut M,
    ) -> Result<(), Memory> {
        l.invariants();
        let under = NewBlocks {
            l,
            block_ids: p.blocks(),
            first_new: 0,
        };
        read(&under, s, &mut marks.search.pairs, m)?;
        order(&mut marks.search.pairs);
        out.extend_from_slice(&marks.search.pairs)?;
        Ok(())
    }
}

impl Sense for Branching {
    fn signature<M: Meter>(
        l: &Lts<M>,
        p: &Partition,
        s: u32,
        marks: &mut Marks,
        out: &mut Vec<(u32, u32)>,
        m: &mut M,
    ) -> Result<(), Memory> {
        marks.search.sign(l, p.blocks(), s, m)?;
        out.extend_from_slice(&marks.search.pairs)?;
        Ok(())
    }
}
