//! Lists the transitions of the quotient as triples (source, label ID, target), which are called quotient transitions
//! below. The source and the target of a quotient transition are class numbers. The class number of a reachable state
//! is the number of the quotient state that represents this state.
ghost use Rattle.std.specs.Prelude.{◌≡◌, ◌≢◌, ◌↔◌, ◌+◌, ◌<◌, ◌≤◌, ◌==◌, ◌++◌, cond, IsTrue, length, IfOk, OnOk};
ghost use Rattle.std.specs.List.{AllPairs};
ghost use Rattle.lts.specs.Meter.{HasRoomFor, Costs};
ghost use Rattle.lts.specs.Lts.{row_of};
ghost use Rattle.quotient_core.specs.Numbers.{AreNumbered};
ghost use Rattle.quotient_core.specs.Triples.{shown_by, rows_of, is_reached, is_member, ShowEachOther, HasShown};

use crate::numbering::Numbering;
use lts::{Lts, Memory, Meter, Transitions};
use std::alloc::Global;

/// Returns the transitions of the quotient in ascending order, without repetitions. For branching bisimilarity, the
/// quotient leaves out inert transitions, which are internal transitions between bisimilar states. The quotient
/// transitions of a state are the transitions of the quotient that come from transitions of this state. The caller must
/// ensure the following condition (`ShowEachOther`). If the same quotient state represents the states s and t, and no
/// transition of s is left out, then each quotient transition of t is also a quotient transition of s.
pub(crate) fn shown_transitions<M: Meter>(
    alloc: Global,
    l: &Lts<M>,
    numbering: &Numbering,
    m: &mut M,
) -> Result<Transitions, Memory>
    requires numbered { AreNumbered l.now.states numbering.now }
    requires whole { ShowEachOther l.now numbering.now }
    requires room { HasRoomFor (M.counted m.old) 0 (length l.now.places) }
    ensures shown { IfOk result (HasShown l.now numbering.now (is_reached numbering.now)) }
    ensures once { IfOk result (AllPairs (λ x y. x ≢ y)) }
    ensures visits { Costs (M.counted m.old) (M.counted m.new) 0 0 (length l.now.places) }
{
    let mut shown = Transitions::new(alloc);
    let mut class = Vec::new(alloc);
    for number in 0..numbering.classes.len() {
        read_class(l, numbering, number, &mut class, m)?;
        class.sort_unstable();
        class.dedup();
        add_class(&mut shown, &class, l.edges())?;
    }
    Ok(shown)
}

/// Appends the transitions in `class` to `shown`. The list `class` contains the quotient transitions (transitions
/// between quotient states) of one class. The caller must ensure that `shown` contains at most `most` transitions
/// afterwards.
fn add_class(shown: &mut Transitions, class: &[(u32, u32, u32)], most: u32) -> Result<(), Memory>
    requires room { length shown.old + length class.now ≤ most }
    ensures { OnOk result (shown.new ≡ shown.old ++ class.now) }
{
    for (source, label, target) in class {
        shown.push(*source, *label, *target, most)?;
    }
    Ok(())
}

/// Replaces the content of `class` by the quotient transitions (transitions between quotient states) of the class that
/// the quotient state `number` represents. The function reads the transitions of the reachable states in the block of
/// this class, state by state. The quotient leaves out inert transitions. If no transition of a state is left out, the
/// function stops after it has read the transitions of this state. The caller must ensure that the quotient transitions
/// of such a state are all quotient transitions of the class (`ShowEachOther`).
#[tactic(auto, using(crate::proofs::Showing::next_below))]
fn read_class<M: Meter>(
    l: &Lts<M>,
    numbering: &Numbering,
    number: usize,
    class: &mut Vec<(u32, u32, u32)>,
    m: &mut M,
) -> Result<(), Memory>
    requires class { number < length numbering.now.classes.items }
    requires numbered { AreNumbered l.now.states numbering.now }
    requires whole { ShowEachOther l.now numbering.now }
    requires room { let own = rows_of (is_member numbering.now number) l.now.places in
        HasRoomFor (M.counted m.old) 0 (length own) }
    ensures class { let n = numbering.now in
        OnOk result (HasShown l.now n (is_member n number) class.new.items) }
    ensures visits { let own = rows_of (is_member numbering.now number) l.now.places in
        Costs (M.counted m.old) (M.counted m.new) 0 0 (length own) }
{
    class.clear();
    let members = numbering.blocks.states_of(numbering.classes[number]);
    for k in 0..members.len() {
        let s = members[last_first(k, members.len())];
        if !numbering.is_reached(s) {
            continue;
        }
        if read_row(l, numbering, s, class, m)? {
            return Ok(());
        }
    }
    Ok(())
}

/// Returns the index, in the list `members` of `read_class`, of the state that the loop of `read_class` takes next. The
/// list contains the states of a block. The loop takes these states one after the other, and has taken `k` states so
/// far. The loop takes the last state of the list first, and the other states follow in the order of the list. In most
/// systems, inert transitions lead either mostly to states with higher numbers, or mostly to states with lower numbers.
/// So if the list is in ascending order, its last or its first state usually has no inert transition, and the loop can
/// stop early.
fn last_first(k: usize, members: usize) -> usize
    requires { k < members }
    ensures below { result < members }
    ensures turn { cond (result + 1 == members) 0 (result + 1) ≡ k }
{
    if k == 0 { members - 1 } else { k - 1 }
}

/// Appends to `class` the quotient transitions (transitions between quotient states) of the state `s`. The quotient
/// leaves out inert transitions. Returns true if no transition of `s` is left out, and false otherwise.
fn read_row<M: Meter>(
    l: &Lts<M>,
    numbering: &Numbering,
    s: u32,
    class: &mut Vec<(u32, u32, u32)>,
    m: &mut M,
) -> Result<bool, Memory>
    requires numbers_long { length numbering.now.numbers.items ≡ l.now.states }
    requires state { s < l.now.states }
    requires room { HasRoomFor (M.counted m.old) 0 (length (row_of s l.now.places)) }
    ensures class { OnOk result
        (class.new.items ≡ class.old.items ++ shown_by l.now numbering.now s) }
    ensures whole { IfOk result (λ whole. IsTrue whole
        ↔ (length (shown_by l.now numbering.now s) ≡ length (row_of s l.now.places))) }
    ensures visits { Costs (M.counted m.old) (M.counted m.new) 0 0
        (length (row_of s l.now.places)) }
{
    lts::rows_follow();
    l.invariants();
    let (number, had) = (numbering.number(s), class.len());
    let (start, end) = l.row(s);
    for k in start..end {
        let (label, target) = l.edge(k, m);
        let triple = (number, label, numbering.number(target));
        if numbering.leaves_out(triple) {
            continue;
        }
        class.push(triple)?;
    }
    Ok(class.len() - had == (end - start) as usize)
}
