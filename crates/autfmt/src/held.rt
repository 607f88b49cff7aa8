//! This module stores the transitions that a reader has read so far. The labels are stored in a label table. Each
//! transition is stored as a triple of its source, the ID of its label and its target.
ghost use Rattle.std.specs.Prelude.{◌≡◌, ◌+◌, ◌<◌, ◌≤◌, ◌↔◌, [], length, IsTrue, IsSome, IfSome, IfNone, IfOk, OnOk};
ghost use Rattle.std.specs.Prelude.{MatchResult};
ghost use Rattle.theory.specs.System.{IsLabel, hidden_label};
ghost use Rattle.memory.specs.declared.limits.TheConstants.{MOST_LABELS};
ghost use Rattle.lts.specs.Labels.{IsLabelId, Interns, KeepsLabels};
ghost use Rattle.autfmt.specs.Held.{AddsTriple, AreShown, CanAdd};

use crate::digits::word_in_front;
use crate::hidden::Hidden;
use lts::{Labels, Memory, Transitions, is_label};
use std::alloc::Global;

/// The number of slots (entries) in each of the two tables of the cache `Guesses`. This cache stores the IDs of labels.
const GUESSES: usize = 256;

/// The hash function `guess_slot` reads the first eight bytes of a label as one number of 64 bits, and multiplies this
/// number by the factor `FIRST_WEIGHT`. The function does so only for labels with at least eight bytes. The factor is
/// odd, and its bits have no regular pattern.
const FIRST_WEIGHT: u64 = 0x9E37_79B9_7F4A_7C15;

/// The hash function `guess_slot` reads the bytes at the indices 8 to 15 of a label as one number of 64 bits, and
/// multiplies this number by the factor `SECOND_WEIGHT`. If the label has 8 to 15 bytes, the function reads the last
/// eight bytes instead.
const SECOND_WEIGHT: u64 = 0x9FB2_1C65_1E98_DF25;

/// The hash function `guess_slot` reads eight bytes in the middle of a label as one number of 64 bits, and multiplies
/// this number by the factor `MIDDLE_WEIGHT`. The function does so only for labels with at least eight bytes.
const MIDDLE_WEIGHT: u64 = 0xA24B_AED4_963E_E407;

/// The hash function `guess_slot` reads the last eight bytes of a label as one number of 64 bits, and multiplies this
/// number by the factor `LAST_WEIGHT`. The function does so only for labels with at least eight bytes.
const LAST_WEIGHT: u64 = 0xD1B5_4A32_D192_ED03;

/// The transitions that were read so far, with their labels.
#[derive(Drop)]
pub(crate) struct Held {
    pub(crate) labels: Labels,
    pub(crate) transitions: Transitions,
    guesses: Guesses,
}

/// A cache for the IDs of labels. The cache consists of two tables with the same number of slots (entries). One table
/// is used for the hidden labels, and the other for all other labels. A hash of a label determines its slot. Each slot
/// of the table for hidden labels stores the ID of the last hidden label with this slot. Each slot of the other table
/// stores the ID of the last label with this slot that is not hidden. If the next label with the same slot is the same
/// label, the ID of this label is found without a search.
#[derive(Drop)]
struct Guesses {
    /// This table is used for labels that are not hidden. The entries of this table are IDs of labels in the label
    /// table.
    shown: [u32; GUESSES],
    /// This table is used for hidden labels. The entries of this table are IDs of labels in the hide list (the labels
    /// to hide).
    hidden: [u32; GUESSES],
}

impl Held {
    /// Makes an empty list of transitions, without allocating memory.
    pub(crate) fn new(alloc: Global) -> Held
        ensures labels { result.labels ≡ [] }
        ensures transitions { result.transitions ≡ [] }
    {
        Held {
            labels: Labels::new(alloc),
            transitions: Transitions::new(alloc),
            guesses: Guesses {
                shown: [0; GUESSES],
                hidden: [0; GUESSES],
            },
        }
    }

    /// Adds a transition. The argument `read` consists of the source, the label and the target of the transition that
    /// is to be added. The label is given as it is in the input, before hiding. The argument `promised` is the number
    /// of transitions that the header declares, and `h` contains the labels to hide.
    pub(crate) fn add(
        &mut self,
        read: (u32, &[u8], u32),
        promised: u32,
        h: &Hidden,
    ) -> Result<(), Memory>
        requires label { IsLabel read.1.now }
        requires room { CanAdd self.old promised }
        ensures added { AreShown h.now self.old.labels → OnOk result
            (AddsTriple self.old self.new read.entry.0 (hidden_label h.now read.entry.1.now)
            read.entry.2) }
        ensures len { OnOk result (length self.new.transitions ≡ length self.old.transitions + 1) }
        ensures few { OnOk result (length self.new.labels ≤ length self.new.transitions) }
    {
        self.add_if_label(read, promised, h)?;
        Ok(())
    }

    /// If the label of the transition is valid, adds the transition as `add` does and returns true. Otherwise, adds
    /// nothing and returns false.
    #[inline(always)]
    pub(crate) fn add_if_label(
        &mut self,
        read: (u32, &[u8], u32),
        promised: u32,
        h: &Hidden,
    ) -> Result<bool, Memory>
        requires { CanAdd self.old promised }
        ensures label { MatchResult result (λ added. IsTrue added ↔ IsLabel read.entry.1.now)
            (λ _. IsLabel read.entry.1.now) }
        ensures added { AreShown h.now self.old.labels → IfOk result (λ added. IsTrue added →
            AddsTriple self.old self.new read.entry.0 (hidden_label h.now read.entry.1.now)
            read.entry.2) }
        ensures none { IfOk result (λ added. ¬ IsTrue added → self.new ≡ self.old) }
        ensures len { IfOk result
            (λ added. IsTrue added →
            length self.new.transitions ≡ length self.old.transitions + 1) }
        ensures few { OnOk result (length self.new.labels ≤ length self.new.transitions) }
    {
        let (source, label, target) = read;
        let Some(number) = label_id(&mut self.labels, &mut self.guesses, label, h)? else {
            return Ok(false);
        };
        self.transitions.push(source, number, target, promised)?;
        Ok(true)
    }
}

/// Returns the ID of the label `label` in the label table. If the label is hidden, the function returns the ID of the
/// internal label `i` instead. If the table does not contain the label yet, the function appends the label to the
/// table. If `label` is not a valid label, the result is `None`.
///
/// The function first looks up an ID in the table `shown` of the cache `Guesses`. This table stores one ID for all
/// labels with the same hash. If the cached ID is the ID of the label, the label is already in the label table, and the
/// function does not search this table. In this case, the function need not check whether the label is valid or hidden,
/// because each label in the label table is valid, and is not changed by hiding.
#[inline(always)]
fn label_id(
    labels: &mut Labels,
    guesses: &mut Guesses,
    label: &[u8],
    h: &Hidden,
) -> Result<Option<u32>, Memory>
    requires room { length labels.old < MOST_LABELS }
    ensures label { MatchResult result (λ k. IsSome k ↔ IsLabel label.now)
        (λ _. IsLabel label.now) }
    ensures number { AreShown h.now labels.old → IfOk result (λ n. IfSome n
        (λ k. IsLabelId labels.new k (hidden_label h.now label.now))) }
    ensures table { AreShown h.now labels.old → IfOk result (λ n. IfSome n
        (λ _. Interns labels.old (hidden_label h.now label.now) labels.new)) }
    ensures none { IfOk result
        (λ n. IfNone n ((labels.new ≡ labels.old) × (guesses.new ≡ guesses.old))) }
    ensures keeps { KeepsLabels labels.old labels.new }
    ensures grows { length labels.new ≤ length labels.old + 1 }
{
    let slot = guess_slot(label);
    let guess = guesses.shown[slot];
    if labels.has(guess, label) {
        return Ok(Some(guess));
    }
    if let Some(hidden) = h.find(label, guesses.hidden[slot]) {
        guesses.hidden[slot] = hidden;
        let number = labels.intern(b"i")?;
        return Ok(Some(number));
    }
    if !is_label(label) {
        return Ok(None);
    }
    let number = labels.intern(label)?;
    guesses.shown[slot] = number;
    Ok(Some(number))
}

/// Returns the slot of a label, which is its index in the two tables of `Guesses`. These tables cache the IDs of
/// labels. Different labels should have different slots. The slot of a label of at least 16 bytes depends on its first
/// 16 bytes, on eight bytes in the middle and on its last eight bytes. The slot of a label of 8 to 15 bytes depends on
/// all of its bytes. The slot of a shorter label depends on its first byte and on its last two bytes. Without the first
/// byte, the labels `PUT !0` and `GET !0` would share a slot. For systems with such labels, reading would then take 3
/// to 6 % longer.
#[inline(always)]
fn guess_slot(label: &[u8]) -> usize
    ensures { result < GUESSES }
{
    let len = label.len();
    if len >= 8 {
        let first = word_in_front(label).wrapping_mul(FIRST_WEIGHT);
        let second = word_in_front(&label[(len - 8).min(8)..]).wrapping_mul(SECOND_WEIGHT);
        let middle = word_in_front(&label[(len - 8) / 2..]).wrapping_mul(MIDDLE_WEIGHT);
        let last = word_in_front(&label[len - 8..]).wrapping_mul(LAST_WEIGHT);
        let front = first.wrapping_add(second);
        return (front.wrapping_add(middle).wrapping_add(last) >> 56) as usize;
    }
    match label {
        [.., before, last] => {
            let first = 7 * usize::from(label[0]);
            (first + 31 * usize::from(*before) + usize::from(*last)) % GUESSES
        }
        [last] => usize::from(*last) % GUESSES,
        [] => 0,
    }
}
