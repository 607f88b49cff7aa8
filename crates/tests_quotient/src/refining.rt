//! Runs rounds of refinement, and writes blocks and signatures as texts.
ghost use Rattle.std.specs.Prelude.{◌≡◌, length, IfOk};
ghost use Rattle.lts.specs.Meter.{HasRoomFor};
ghost use Rattle.refine.specs.Signed.{most_visits};

use lts::{Counter, Lts, Memory, Meter};
use refine::{Marks, Partition, Sense, Signatures, refine, round};
use std::alloc::Global;

/// Says which text about the refinement of a system is computed. A test compares this text with the expected text.
#[derive(Clone, Copy, Drop)]
pub(crate) enum Made {
    /// The final blocks, and the numbers of rounds and visits (reads of transitions).
    Refined,
    /// The blocks after one round that starts from a single block.
    OneRound,
    /// The blocks after each of the given number of rounds. The first round starts from a single block. The text
    /// contains one line for each round.
    Rounds(u32),
    /// The same text as for `Rounds`, followed by the numbers of rounds and visits (reads of transitions).
    Counted(u32),
    /// The signatures of all states in each of the given number of rounds, and the blocks after each round. The first
    /// round starts from a single block. The text contains one line for each round.
    Table(u32),
    /// The signatures of all states with respect to the blocks after one round, the number of visits (reads of
    /// transitions) that computing them takes, and the signatures of all states with respect to a single block that
    /// contains all states. Both computations use the same buffers, so that the second computation finds the results of
    /// the first computation in them.
    FilledTwice,
}

/// Refines the system for the relation `S`, and returns the text that `what` asks for.
pub(crate) fn refine_as<S: Sense>(
    alloc: Global,
    l: &Lts<Counter>,
    what: Made,
) -> Result<String, Memory> {
    match what {
        Made::Refined => refined::<S>(alloc, l),
        Made::OneRound => one_round::<S>(alloc, l),
        Made::Rounds(many) => rounds::<S>(alloc, l, many, &mut Counter::new()),
        Made::Counted(many) => counted_rounds::<S>(alloc, l, many),
        Made::Table(many) => table::<S>(alloc, l, many),
        Made::FilledTwice => filled_twice::<S>(alloc, l),
    }
}

/// Returns a text with the number of blocks, and with the block ID of each state.
pub(crate) fn blocks(alloc: Global, p: &Partition) -> Result<String, Memory> {
    let mut text = format!(in alloc; "{}:", p.count())?;
    for s in 0..p.states() {
        text.push_str(&format!(in alloc; " {}", p.block(s))?)?;
    }
    Ok(text)
}

/// Appends the pairs of a signature to the text. Each pair consists of the ID of a label and the ID of a block.
fn append_pairs(alloc: Global, list: &[(u32, u32)], text: &mut String) -> Result<(), Memory> {
    for (label, block) in list {
        text.push_str(&format!(in alloc; "({label}, {block})")?)?;
    }
    Ok(())
}

/// Returns the partition with a single block, which contains all states of the system.
pub(crate) fn one_block(alloc: Global, l: &Lts<Counter>) -> Result<Partition, Memory>
    ensures { IfOk result (λ p. length p ≡ l.now.states) }
{
    l.invariants();
    Partition::one(alloc, l.states())
}

fn refined<S: Sense>(alloc: Global, l: &Lts<Counter>) -> Result<String, Memory> {
    l.invariants();
    let mut m = Counter::new();
    let p = refine::<S, Counter>(alloc, l, &mut m)?;
    counted(alloc, &p, &m)
}

/// Returns a text with the blocks, and with the numbers of rounds and visits (reads of transitions) of the meter.
fn counted(alloc: Global, p: &Partition, m: &Counter) -> Result<String, Memory> {
    let mut text = blocks(alloc, p)?;
    text.push_str("; ")?;
    append_counts(alloc, m, &mut text)?;
    Ok(text)
}

pub(crate) fn append_counts(alloc: Global, m: &Counter, text: &mut String) -> Result<(), Memory> {
    text.push_str(&format!(in alloc; "{} rounds, {} visits", m.rounds(), m.visits())?)?;
    Ok(())
}

/// Runs one round that starts from the blocks of `p`, and returns the new blocks. Returns `p` unchanged if `p` is not a
/// partition of the states of the system, or if the meter (the counter of rounds and visits) has no room for the counts
/// of this round.
pub(crate) fn next<S: Sense>(
    alloc: Global,
    l: &Lts<Counter>,
    p: Partition,
    m: &mut Counter,
) -> Result<Partition, Memory> {
    if p.states() != l.states() || !m.has_room(1, u128::from(l.edges())) {
        return Ok(p);
    }
    round::<S, Counter>(alloc, l, &p, m)
}

fn one_round<S: Sense>(alloc: Global, l: &Lts<Counter>) -> Result<String, Memory> {
    let p = one_block(alloc, l)?;
    let p = next::<S>(alloc, l, p, &mut Counter::new())?;
    blocks(alloc, &p)
}

/// Returns a text that contains, for each of `many` rounds, a line with the blocks after this round. Before the first
/// round, all states are in one block.
fn rounds<S: Sense>(
    alloc: Global,
    l: &Lts<Counter>,
    many: u32,
    m: &mut Counter,
) -> Result<String, Memory> {
    let mut text = String::new(alloc);
    let mut p = one_block(alloc, l)?;
    for _ in 0..many {
        p = next::<S>(alloc, l, p, m)?;
        append_line(alloc, &p, &mut text)?;
    }
    Ok(text)
}

/// Returns a text with the blocks after each of `many` rounds, and with the numbers of rounds and visits (reads of
/// transitions).
fn counted_rounds<S: Sense>(alloc: Global, l: &Lts<Counter>, many: u32) -> Result<String, Memory> {
    let mut m = Counter::new();
    let mut text = rounds::<S>(alloc, l, many, &mut m)?;
    append_counts(alloc, &m, &mut text)?;
    Ok(text)
}

/// Appends the blocks to the text, followed by a line feed.
pub(crate) fn append_line(alloc: Global, p: &Partition, text: &mut String) -> Result<(), Memory> {
    text.push_str(&blocks(alloc, p)?)?;
    text.push('\n')?;
    Ok(())
}

/// Computes the signatures of all states with respect to the blocks of `p`, and appends these signatures to the text.
/// The buffers `marks` and `signatures` are used for the computation, and may contain the results of an earlier
/// computation. Returns the number of visits (reads of transitions).
fn append_filled<S: Sense>(
    alloc: Global,
    l: &Lts<Counter>,
    p: &Partition,
    marks: &mut Marks,
    signatures: &mut Signatures,
    text: &mut String,
) -> Result<u128, Memory>
    requires states { length p.now ≡ l.now.states }
    requires marks { marks.old ≡ l.now.states }
    requires signatures { length signatures.old ≡ l.now.states }
    ensures marks { marks.new ≡ l.now.states }
    ensures signatures { length signatures.new ≡ l.now.states }
{
    l.invariants();
    let mut m = Counter::new();
    signatures.fill::<S, Counter>(l, p, marks, &mut m)?;
    append_signatures(alloc, signatures, text)?;
    Ok(m.visits())
}

fn append_signatures(
    alloc: Global,
    signatures: &Signatures,
    text: &mut String,
) -> Result<(), Memory> {
    for s in 0..signatures.states() {
        text.push('{')?;
        append_pairs(alloc, signatures.of(s), text)?;
        text.push('}')?;
    }
    Ok(())
}

/// Appends the signatures of all states to the text. After this, the function splits the blocks of `p` by these
/// signatures, and returns the new blocks.
pub(crate) fn split<S: Sense>(
    alloc: Global,
    l: &Lts<Counter>,
    p: &Partition,
    text: &mut String,
) -> Result<Partition, Memory>
    requires { length p.now ≡ l.now.states }
    ensures { IfOk result (λ q. length q ≡ l.now.states) }
{
    let mut marks = Marks::new(alloc, l.states())?;
    let mut signatures = Signatures::new(alloc, l.states())?;
    append_filled::<S>(alloc, l, p, &mut marks, &mut signatures, text)?;
    signatures.split(p)
}

fn filled_twice<S: Sense>(alloc: Global, l: &Lts<Counter>) -> Result<String, Memory> {
    let mut text = String::new(alloc);
    let one = one_block(alloc, l)?;
    let split = split::<S>(alloc, l, &one, &mut text)?;
    text.clear();
    append_both::<S>(alloc, l, &split, &one, &mut text)?;
    Ok(text)
}

/// Appends to `text` the signatures of all states with respect to the partition `first`, the number of visits (reads of
/// transitions) that computing these signatures took, and the signatures of all states with respect to the partition
/// `second`. Both computations use the same buffers, so that the second computation finds the results of the first
/// computation in them.
fn append_both<S: Sense>(
    alloc: Global,
    l: &Lts<Counter>,
    first: &Partition,
    second: &Partition,
    text: &mut String,
) -> Result<(), Memory>
    requires first { length first.now ≡ l.now.states }
    requires second { length second.now ≡ l.now.states }
{
    let mut marks = Marks::new(alloc, l.states())?;
    let mut signatures = Signatures::new(alloc, l.states())?;
    append_in::<S>(alloc, l, first, second, &mut marks, &mut signatures, text)
}

/// Appends three parts to `text`. The first part is the signatures of all states with respect to the partition `first`.
/// The second part is the number of visits (reads of transitions) that computing these signatures took. The third part
/// is the signatures of all states with respect to the partition `second`. Both computations use the buffers `marks`
/// and `signatures`.
fn append_in<S: Sense>(
    alloc: Global,
    l: &Lts<Counter>,
    first: &Partition,
    second: &Partition,
    marks: &mut Marks,
    signatures: &mut Signatures,
    text: &mut String,
) -> Result<(), Memory>
    requires first { length first.now ≡ l.now.states }
    requires second { length second.now ≡ l.now.states }
    requires marks { marks.old ≡ l.now.states }
    requires signatures { length signatures.old ≡ l.now.states }
{
    let visits = append_filled::<S>(alloc, l, first, marks, signatures, text)?;
    text.push_str(&format!(in alloc; " by {visits} visits, ")?)?;
    append_filled::<S>(alloc, l, second, marks, signatures, text)?;
    Ok(())
}

fn table<S: Sense>(alloc: Global, l: &Lts<Counter>, many: u32) -> Result<String, Memory> {
    let mut text = String::new(alloc);
    let mut p = one_block(alloc, l)?;
    for _ in 0..many {
        if p.states() == l.states() {
            p = split::<S>(alloc, l, &p, &mut text)?;
        }
        append_line(alloc, &p, &mut text)?;
    }
    Ok(text)
}

/// Appends to the text the pairs in `stood`, followed by the signature of state 0 with respect to the blocks of `p`.
/// The call that computes the signature appends it to a buffer that already contains the pairs in `stood`.
pub(crate) fn append_signature<S: Sense, M: Meter>(
    alloc: Global,
    l: &Lts<M>,
    p: &Partition,
    stood: &[(u32, u32)],
    m: &mut M,
    text: &mut String,
) -> Result<(), Memory>
    requires states { length p.now ≡ l.now.states }
    requires room { HasRoomFor (M.counted m.old) 0 (most_visits S.relation l.now 0) }
{
    l.invariants();
    let mut marks = Marks::new(alloc, l.states())?;
    let mut out = Vec::from_slice(alloc, stood)?;
    append_signed::<S, M>(alloc, l, p, &mut marks, &mut out, m, text)
}

/// Computes the signature of state 0 with respect to the blocks of `p`, and appends it to `out`. After this, the
/// function appends all pairs in `out` to the text.
fn append_signed<S: Sense, M: Meter>(
    alloc: Global,
    l: &Lts<M>,
    p: &Partition,
    marks: &mut Marks,
    out: &mut Vec<(u32, u32)>,
    m: &mut M,
    text: &mut String,
) -> Result<(), Memory>
    requires states { length p.now ≡ l.now.states }
    requires marks { marks.old ≡ l.now.states }
    requires room { HasRoomFor (M.counted m.old) 0 (most_visits S.relation l.now 0) }
{
    l.invariants();
    S::signature(l, p, 0, marks, out, m)?;
    append_pairs(alloc, out, text)
}
