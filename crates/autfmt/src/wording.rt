//! This module prepares the written form of a label once for all transitions with this label. The labels are sorted by
//! their bytes. The rank of a label is its position in this order.
ghost use Rattle.std.specs.Prelude.{◌≡◌, ◌<◌, length, map, IfOk, IfErr, IfSome};
ghost use Rattle.theory.specs.System.{IsLabel};
ghost use Rattle.lts.specs.Labels.{text_of};
ghost use Rattle.autfmt.specs.declared.fault.Fault.TheVariants.{Memory};
ghost use Rattle.autfmt.specs.Fronts.{AreSpelled, IsSpelled};
ghost use Rattle.autfmt.specs.Grammar.{is_plain};
ghost use Rattle.autfmt.specs.Ranks.{texts};
ghost use Rattle.autfmt.specs.LabelTexts.{AreReady, AreWords};

use crate::fault::Fault;
use crate::ordering::{by_bytes, ranks};
use crate::spelling::{Spelled, Word, is_plain, spell};
use lts::Labels;
use std::alloc::Global;

/// The largest number of labels whose written forms are stored.
const MOST_SPELLED: usize = 4096;

/// The labels of a system, prepared for writing. The field `entries` contains the labels with their IDs, sorted by the
/// bytes of the labels. For each label ID, the field `ranks` contains the index of the label in `entries`. The field
/// `plain` states for each entry whether its label may be written without quotation marks. The field `spelled` contains
/// the written forms of the labels of the first `MOST_SPELLED` entries, or of all entries if there are fewer. For a
/// label of more than 28 bytes, the field `spelled` contains an item that stores no bytes.
#[derive(Drop)]
pub(crate) struct Words<'a> {
    pub entries: Vec<(&'a [u8], u32)>,
    pub ranks: Vec<u32>,
    plain: Vec<bool>,
    spelled: Vec<Spelled>,
}

impl<'a> Words<'a> {
    /// Prepares all labels of a label table for writing.
    pub fn new(alloc: Global, labels: &'a Labels) -> Result<Words<'a>, Fault>
        ensures ok { IfOk result (λ words. AreWords labels.now words) }
        ensures err { IfErr result (λ fault. fault ≡ Memory) }
    {
        let entries = by_bytes(alloc, labels)?;
        let ranks = ranks(alloc, &entries)?;
        let plain = plain_labels(alloc, &entries)?;
        let spelled = spelled_labels(alloc, &entries)?;
        Ok(Words {
            entries,
            ranks,
            plain,
            spelled,
        })
    }

    /// Returns the label with the rank `rank`, prepared for writing. The rank of a label is its position when all
    /// labels are sorted by their bytes.
    pub fn word(&self, rank: u32) -> Word<'_>
        requires ready { AreReady self.now }
        requires rank { rank < length self.now.entries.items }
        ensures text { result.label.now ≡ text_of (texts self.now.entries.items) rank }
        ensures label { IsLabel result.label.now }
        ensures plain { result.plain ≡ is_plain result.label.now }
        ensures spelled { IfSome result.spelled (λ s. IsSpelled result.label.now s.now) }
    {
        Word {
            label: self.entries[rank as usize].0,
            plain: self.plain[rank as usize],
            spelled: self.spelled.get(rank as usize),
        }
    }
}

/// Returns for each entry whether its label may be written without quotation marks.
fn plain_labels(alloc: Global, entries: &[(&[u8], u32)]) -> Result<Vec<bool>, Fault>
    ensures ok { IfOk result (λ plain. plain.items ≡ map is_plain (texts entries.now)) }
    ensures err { IfErr result (λ fault. fault ≡ Memory) }
{
    let mut plain = Vec::with_capacity(alloc, entries.len())?;
    for (text, _) in entries {
        plain.push(is_plain(text))?;
    }
    Ok(plain)
}

/// Returns the written forms of the labels of the first `MOST_SPELLED` entries, or of all entries if there are fewer.
/// For a label of more than 28 bytes, the item of the result stores no bytes.
fn spelled_labels(alloc: Global, entries: &[(&[u8], u32)]) -> Result<Vec<Spelled>, Fault>
    ensures ok { IfOk result (λ spellings. AreSpelled (texts entries.now) spellings.items) }
    ensures err { IfErr result (λ fault. fault ≡ Memory) }
{
    let mut spellings = Vec::with_capacity(alloc, entries.len().min(MOST_SPELLED))?;
    for (text, _) in entries {
        if spellings.len() == MOST_SPELLED {
            return Ok(spellings);
        }
        spellings.push(spell(text))?;
    }
    Ok(spellings)
}
