//! Rounds of refinement for branching bisimilarity. A transition is inert if it is internal, and if its source and its
//! target are in the same block. Let s be a state, and consider the states that s reaches by inert transitions,
//! including s itself. For each transition from one of these states, the signature of s contains the pair (label,
//! target block) of the transition, unless the transition is inert.
ghost use Rattle.theory.specs.declared.relation.Relation.TheVariants.{Branching as branching};

use crate::signed_blocks::SignedBlocks;
use crate::signing::Signing;
use lts::{Lts, Memory, Meter};
use theory::Relation;

/// Branching bisimulation (van Glabbeek and Weijland 1996).
pub struct Branching;

impl Signing for Branching {
    ghost relation = { branching };

    fn signed_relation() -> Relation {
        Relation::Branching
    }

    fn discard_cached(round: SignedBlocks) -> Result<SignedBlocks, Memory> {
        round.discard_signatures()
    }

    fn sign<M: Meter>(l: &Lts<M>, round: SignedBlocks, m: &mut M) -> Result<SignedBlocks, Memory> {
        l.invariants();
        let mut round = round;
        round.invariants();
        round.signer.sign_each(
            l,
            &round.blocks,
            &round.visited,
            &mut round.signatures,
            &mut round.signature_ids,
            m,
        )?;
        round.invariants();
        Ok(round)
    }
}
