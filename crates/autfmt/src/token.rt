//! This module reads the tokens of one line. The line is a header, a transition, or a line of a hide list (the labels
//! to hide).

ghost use Rattle.std.specs.Prelude.{◌≡◌, ◌≢◌, ℕ, ◌<◌, ◌≤◌, ◌^◌, List, length, slice_index, IfSome, IfNone};
ghost use Rattle.theory.specs.System.{IsLabel};
ghost use Rattle.autfmt.specs.Grammar.{Header, TransitionLine, HideLine, is_letter};
ghost use Rattle.autfmt.specs.Reading.{IsSeenAs, is_blank, is_word, after_blanks, past, number_at, word_len};
ghost use Rattle.autfmt.specs.Reading.{more_digits, plain_at, last_quote, quoted_at, label_at, are_blanks, past_des};
ghost use Rattle.autfmt.specs.Reading.{number_then, header_at, ending_at, transition_at, hide_line_at};

use lts::{LONGEST_LABEL, is_label};

/// Returns the first state, the number of transitions and the number of states that a header declares. If the line is
/// not a header, the result is `None`.
pub(crate) fn header_of(line: &[u8]) -> Option<(u64, u64, u64)>
    ensures found { IfSome result (λ x. Header line.now x.0 x.1 x.2) }
    ensures none { IfNone result ((f m n : ℕ) → ¬ Header line.now f m n) }
{
    header_in(line)
}

/// Returns the source, the label and the target of the transition on a line. If the line is not a transition, the
/// result is `None`.
pub(crate) fn transition_of(line: &[u8]) -> Option<(u64, &[u8], u64)>
    ensures found { IfSome result (λ x. TransitionLine line.now x.0 x.1.now x.2) }
    ensures label { IfSome result (λ x. IsLabel x.1.now) }
    ensures numbers { IfSome result (λ x. (x.0 < 10 ^ 10) × (x.2 < 10 ^ 10)) }
    ensures none { IfNone result ((s t : ℕ) (a : List ℕ) → ¬ TransitionLine line.now s a t) }
{
    transition_in(line)
}

/// Returns the label on a line of a hide list (the labels to hide). If the line is not a label, the result is `None`.
pub(crate) fn hide_line_of(line: &[u8]) -> Option<&[u8]>
    ensures found { IfSome result (λ a. HideLine line.now a.now) }
    ensures label { IfSome result (λ a. IsLabel a.now) }
    ensures none { IfNone result ((a : List ℕ) → ¬ HideLine line.now a) }
{
    hide_line_in(line)
}

/// Reads the three numbers of a header from left to right.
#[tactic(auto, unfolding(crate::specs::Reading::header_at))]
fn header_in(line: &[u8]) -> Option<(u64, u64, u64)>
    ensures { IsSeenAs (λ x. (x.0, x.1, x.2)) result (header_at line.now) }
{
    let rest = past_des(after_blanks(line))?;
    let rest = past(b'(', after_blanks(rest))?;
    let (first, rest) = number_then(b',', rest)?;
    let (transitions, rest) = number_then(b',', rest)?;
    let (states, rest) = number_then(b')', rest)?;
    if are_blanks(rest) {
        Some((first, transitions, states))
    } else {
        None
    }
}

/// Reads a transition from left to right: its source, its label and its target.
#[tactic(auto, unfolding(crate::specs::Reading::transition_at))]
fn transition_in(line: &[u8]) -> Option<(u64, &[u8], u64)>
    ensures { IsSeenAs (λ x. (x.0, x.1.now, x.2)) result (transition_at line.now) }
{
    let rest = past(b'(', after_blanks(line))?;
    let (source, rest) = number_then(b',', rest)?;
    let (label, target) = ending_in(after_blanks(rest))?;
    Some((source, label, target))
}

/// Reads the label and the target at the end of a transition.
#[tactic(auto, unfolding(crate::specs::Reading::ending_at))]
fn ending_in(line: &[u8]) -> Option<(&[u8], u64)>
    ensures { IsSeenAs (λ x. (x.0.now, x.1)) result (ending_at line.now) }
{
    let (label, rest) = label_at(line)?;
    let rest = past(b',', after_blanks(rest))?;
    let (target, rest) = number_then(b')', rest)?;
    if are_blanks(rest) {
        Some((label, target))
    } else {
        None
    }
}

/// Reads the label on a line of a hide list (the labels to hide).
#[tactic(auto, unfolding(crate::specs::Reading::hide_line_at))]
fn hide_line_in(line: &[u8]) -> Option<&[u8]>
    ensures { IsSeenAs (λ a. a.now) result (hide_line_at line.now) }
{
    let (label, rest) = label_at(after_blanks(line))?;
    if are_blanks(rest) { Some(label) } else { None }
}

/// Reads a number and then the byte `mark`, with any number of blanks before each of them. Returns the number and the
/// bytes after `mark`.
#[inline(always)]
#[tactic(auto, unfolding(crate::specs::Reading::number_then))]
fn number_then(mark: u8, line: &[u8]) -> Option<(u64, &[u8])>
    ensures { IsSeenAs (λ x. (x.0, x.1.now)) result (number_then mark line.now) }
{
    let (number, rest) = number_at(after_blanks(line))?;
    let rest = past(mark, after_blanks(rest))?;
    Some((number, rest))
}

/// Skips `des` at the beginning of the line, and returns the bytes after it. If the line does not begin with `des`, the
/// result is `None`.
#[tactic(auto, unfolding(crate::specs::Reading::past_des))]
fn past_des(line: &[u8]) -> Option<&[u8]>
    ensures { IsSeenAs (λ r. r.now) result (past_des line.now) }
{
    let rest = past(b'd', line)?;
    let rest = past(b'e', rest)?;
    past(b's', rest)
}

/// Skips the byte `mark` at the beginning of the line, and returns the bytes after it. If the line does not begin with
/// `mark`, the result is `None`.
#[tactic(auto, unfolding(crate::specs::Reading::past))]
pub(crate) fn past(mark: u8, line: &[u8]) -> Option<&[u8]>
    ensures { IsSeenAs (λ r. r.now) result (past mark line.now) }
{
    match line {
        [first, rest @ ..] if *first == mark => Some(rest),
        _ => None,
    }
}

/// Skips the blanks at the beginning of the line. In most calls, the line begins with no blank or with only one space.
/// The first two cases of the `match` handle such lines quickly.
#[inline(always)]
#[tactic(auto, unfolding(crate::specs::Reading::after_blanks))]
fn after_blanks(line: &[u8]) -> &[u8]
    ensures { result.now ≡ after_blanks line.now }
{
    match line {
        [first, ..] if !is_blank(*first) => line,
        [b' ', next, ..] if !is_blank(*next) => &line[1..],
        _ => skip_blanks(line),
    }
}

/// Skips any number of blanks at the beginning of the line.
#[inline(never)]
#[tactic(auto, unfolding(crate::specs::Reading::after_blanks))]
fn skip_blanks(line: &[u8]) -> &[u8]
    ensures { result.now ≡ after_blanks line.now }
{
    let mut rest = line;
    while let [first, after @ ..] = rest {
        if !is_blank(*first) {
            return rest;
        }
        rest = after;
    }
    rest
}

/// Returns whether all bytes are blanks (spaces, tabs or carriage returns).
fn are_blanks(line: &[u8]) -> bool
    ensures { result ≡ are_blanks line.now }
{
    line.iter().all(|b| is_blank(*b))
}

/// Returns whether the byte is a space, a tab or a carriage return.
fn is_blank(b: u8) -> bool
    ensures { result ≡ is_blank b }
{
    b == b' ' || b == b'\t' || b == b'\r'
}

/// Reads the number at the beginning of the line. Returns the number and the bytes after it.
#[inline(always)]
#[tactic(auto, unfolding(crate::specs::Reading::number_at))]
fn number_at(line: &[u8]) -> Option<(u64, &[u8])>
    ensures { IsSeenAs (λ x. (x.0, x.1.now)) result (number_at line.now) }
{
    let [first @ b'0'..=b'9', rest @ ..] = line else {
        return None;
    };
    more_digits(u64::from(*first - b'0'), rest)
}

/// Completes the reading of a number. The first digits of this number have already been read, and denote the number
/// `value`. The line begins with the remaining digits of the number. Returns the complete number, and the bytes after
/// its last digit. The result is `None` if a digit follows a leading zero, or if the number has more than ten digits.
#[inline(always)]
#[tactic(auto, unfolding(crate::specs::Reading::more_digits))]
fn more_digits(value: u64, line: &[u8]) -> Option<(u64, &[u8])>
    requires { value < 10 ^ 10 }
    ensures { IsSeenAs (λ x. (x.0, x.1.now)) result (more_digits value line.now) }
{
    let mut value = value;
    let mut rest = line;
    while let [digit @ b'0'..=b'9', after @ ..] = rest {
        if value == 0 || value >= 1_000_000_000 {
            return None;
        }
        value = 10 * value + u64::from(*digit - b'0');
        rest = after;
    }
    Some((value, rest))
}

/// Reads the label at the beginning of the line, with or without quotation marks. Returns the label and the bytes after
/// it.
#[tactic(auto, unfolding(crate::specs::Reading::label_at))]
fn label_at(line: &[u8]) -> Option<(&[u8], &[u8])>
    ensures { IsSeenAs (λ x. (x.0.now, x.1.now)) result (label_at line.now) }
{
    match line {
        [] => None,
        [b'"', rest @ ..] => quoted_at(rest),
        [_, ..] => plain_at(line),
    }
}

/// Reads a label between quotation marks, whose opening quotation mark has already been skipped. The parts of a line
/// after the label contain no quotation mark. Therefore the last quotation mark on the line ends the label. Returns the
/// label and the bytes after this quotation mark.
fn quoted_at(line: &[u8]) -> Option<(&[u8], &[u8])>
    ensures { IsSeenAs (λ x. (x.0.now, x.1.now)) result (quoted_at line.now) }
{
    let end = last_quote(line)?;
    let label = &line[..end];
    if is_label(label) {
        Some((label, &line[end + 1..]))
    } else {
        None
    }
}

/// Returns the index of the last quotation mark in the line.
fn last_quote(line: &[u8]) -> Option<usize>
    ensures within { IfSome result (λ i. i < length line.now) }
    ensures quote { IfSome result (λ i. slice_index line.now i ≡ 34) }
    ensures last { IfSome result (λ i. (k : ℕ) → i < k → k < length line.now
        → slice_index line.now k ≢ 34) }
    ensures none { IfNone result ((k : ℕ) → k < length line.now → slice_index line.now k ≢ 34) }
{
    line.iter().rposition(|b| *b == b'"')
}

/// Reads the plain label (a label without quotation marks) at the beginning of the line. Returns the label and the
/// bytes after it.
#[inline(always)]
#[tactic(auto, unfolding(crate::specs::Reading::plain_at))]
pub(crate) fn plain_at(line: &[u8]) -> Option<(&[u8], &[u8])>
    ensures { IsSeenAs (λ x. (x.0.now, x.1.now)) result (plain_at line.now) }
{
    let [first, ..] = line else {
        return None;
    };
    let end = word_len(line);
    if is_letter(*first) && end <= LONGEST_LABEL {
        Some(line.split_at(end))
    } else {
        None
    }
}

/// Returns the number of letters, underscores and digits before the first other byte of the line.
#[inline(always)]
fn word_len(line: &[u8]) -> usize
    ensures value { result ≡ word_len line.now }
    ensures within { result ≤ length line.now }
{
    for (i, b) in line.iter().enumerate() {
        if !is_word(*b) {
            return i;
        }
    }
    line.len()
}

/// Returns whether the byte is a letter from A to Z or a to z, or an underscore.
pub(crate) fn is_letter(b: u8) -> bool
    ensures { result ≡ is_letter b }
{
    b.is_ascii_alphabetic() || b == b'_'
}

/// Returns whether the byte is a letter, an underscore or a digit.
fn is_word(b: u8) -> bool
    ensures { result ≡ is_word b }
{
    is_letter(b) || b.is_ascii_digit()
}
