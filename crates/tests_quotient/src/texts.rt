//! A short notation for systems. The text `1 of 3; 1 a 0; 0 SEND !1 2` denotes a system with 3 states, the first state
//! 1 and two transitions.
use lts::{Counter, Labels, Lts, MOST_LABELS, Memory, Meter, in_range, is_label};
use std::alloc::Global;
use std::test::Fail;

/// Returns the system that the text denotes. The labels get IDs in the order in which they occur in the text. Fails if
/// the text denotes no system.
pub(crate) fn system(alloc: Global, text: &str) -> Result<Lts<Counter>, Fail> {
    match read(alloc, text)? {
        Some(l) => Ok(l),
        None => Err(Fail::new("the text spells no system")),
    }
}

/// Returns the system that the text denotes, or `None` if the text denotes no system.
fn read(alloc: Global, text: &str) -> Result<Option<Lts<Counter>>, Memory> {
    let mut labels = Labels::new(alloc);
    let mut steps = Vec::new(alloc);
    let mut parts = text.split("; ");
    let Some((first, states)) = parts.next().and_then(sizes) else {
        return Ok(None);
    };
    for part in parts {
        if !append_step(part, &mut labels, &mut steps)? {
            return Ok(None);
        }
    }
    built(alloc, labels, first, states, steps)
}

/// Appends the transition that the part `part` of the text denotes. Returns false if the part denotes no transition.
fn append_step(
    part: &str,
    labels: &mut Labels,
    steps: &mut Vec<(u32, u32, u32)>,
) -> Result<bool, Memory> {
    let Some((source, label, target)) = step(part) else {
        return Ok(false);
    };
    let label = label.as_bytes();
    if !is_label(label) || labels.len() >= MOST_LABELS {
        return Ok(false);
    }
    steps.push((source, labels.intern(label)?, target))?;
    Ok(true)
}

/// Returns the system with the given states and transitions, or `None` if a state or a label is out of range.
fn built(
    alloc: Global,
    labels: Labels,
    first: u32,
    states: u32,
    steps: Vec<(u32, u32, u32)>,
) -> Result<Option<Lts<Counter>>, Memory> {
    if !in_range(&labels, first, states, &steps) {
        return Ok(None);
    }
    Ok(Some(Lts::build(alloc, labels, first, states, steps)?))
}

/// Parses the first state and the number of states, which are separated by ` of `.
fn sizes(part: &str) -> Option<(u32, u32)> {
    let (first, states) = part.split_once(" of ")?;
    Some((first.parse().ok()?, states.parse().ok()?))
}

/// Parses the source, the label and the target of a transition. The label may contain blanks.
fn step(part: &str) -> Option<(u32, &str, u32)> {
    let (source, rest) = part.split_once(' ')?;
    let (label, target) = rest.rsplit_once(' ')?;
    Some((source.parse().ok()?, label, target.parse().ok()?))
}

/// Returns the text that denotes the same system, but with the states numbered in reverse order. Parts of the text that
/// denote no transition are left out.
pub(crate) fn turned(alloc: Global, text: &str) -> Result<String, Memory> {
    let mut turned = String::new(alloc);
    let mut parts = text.split("; ");
    let Some((first, states)) = parts.next().and_then(sizes) else {
        return Ok(turned);
    };
    let last = states.saturating_sub(1);
    turned.push_str(&format!(in alloc; "{} of {states}", last.saturating_sub(first))?)?;
    for (source, label, target) in parts.filter_map(step) {
        let (source, target) = (last.saturating_sub(source), last.saturating_sub(target));
        turned.push_str(&format!(in alloc; "; {source} {label} {target}")?)?;
    }
    Ok(turned)
}

/// Writes the system as text, with its transitions in the order of their sources, and appends this text to `text`.
pub(crate) fn append_spelled(
    alloc: Global,
    l: &Lts<Counter>,
    text: &mut String,
) -> Result<(), Memory> {
    text.push_str(&format!(in alloc; "{} of {}", l.first(), l.states())?)?;
    for s in 0..l.states() {
        append_row(alloc, l, s, text)?;
    }
    Ok(())
}

/// Appends the transitions of a state to the text.
fn append_row(alloc: Global, l: &Lts<Counter>, s: u32, text: &mut String) -> Result<(), Memory> {
    if s >= l.states() {
        return Ok(());
    }
    let (start, end) = l.row(s);
    for k in start..end {
        append_edge(alloc, l, s, k, text)?;
    }
    Ok(())
}

/// Appends to the text the transition with the index `k` in the list of all transitions. The source of this transition
/// is the state `s`. If there is no transition with this index, nothing is appended.
fn append_edge(
    alloc: Global,
    l: &Lts<Counter>,
    s: u32,
    k: u32,
    text: &mut String,
) -> Result<(), Memory> {
    let mut m = Counter::new();
    if k >= l.edges() || !m.has_room(0, 1) {
        return Ok(());
    }
    let (label, target) = l.edge(k, &mut m);
    text.push_str(&format!(in alloc; "; {s} ")?)?;
    append_label(l, label, text)?;
    text.push_str(&format!(in alloc; " {target}")?)?;
    Ok(())
}

fn append_label(l: &Lts<Counter>, label: u32, text: &mut String) -> Result<(), Memory> {
    if label >= l.labels().len() {
        return Ok(());
    }
    append_bytes(l.labels().text(label), text)
}

fn append_bytes(bytes: &[u8], text: &mut String) -> Result<(), Memory> {
    for b in bytes {
        text.push(*b as char)?;
    }
    Ok(())
}
