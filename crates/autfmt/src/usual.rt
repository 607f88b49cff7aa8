//! This module reads a transition in one of its most common written forms, which are `(12, "label", 34)` and
//! `(12,"label",34)`. The label may also be written without quotation marks. The bytes of the transition are read in
//! one pass and are not copied.
ghost use Rattle.std.specs.Prelude.{◌≤◌, length, IfSome};
ghost use Rattle.theory.specs.System.{IsLabel};
ghost use Rattle.autfmt.specs.Usual.{BeginsWithNumber, FollowsComma, FollowsEnd, HasMark, BeginsWithLabel};
ghost use Rattle.autfmt.specs.Usual.{BeginsWithTransition};

use crate::digits::digits_in_front;
use crate::token::{past, plain_at};
use std::simd::prelude::*;

/// Reads the transition on the first line of `bytes`. Returns its source, the bytes of its label, its target, and the
/// bytes after the line feed of the line. The result is `None` if the line is not a transition in a common written
/// form, or if `bytes` does not contain the end of the line. The caller has to check whether the label is valid. With
/// this function, reading is twice as fast as without it.
#[inline(always)]
pub(crate) fn transition_in_front(bytes: &[u8]) -> Option<(u64, &[u8], u64, &[u8])>
    ensures { IfSome result (λ x. IsLabel x.1.now →
        BeginsWithTransition bytes.now x.0 x.1.now x.2 x.3.now) }
{
    let (source, rest) = short_number(past(b'(', bytes)?)?;
    let (label, rest) = label_in_front(past_comma(rest)?)?;
    let (target, rest) = short_number(past_comma(rest)?)?;
    Some((source, label, target, past_end(rest)?))
}

/// Skips a closing parenthesis and the end of the line, and returns the bytes after them. The end of the line is a line
/// feed, or a carriage return and a line feed.
#[inline(always)]
fn past_end(bytes: &[u8]) -> Option<&[u8]>
    requires { 2 ≤ length bytes.now }
    ensures { IfSome result (λ rest. FollowsEnd bytes.now rest.now) }
{
    if bytes[0] != b')' {
        return None;
    }
    if bytes[1] == b'\n' {
        return Some(&bytes[2..]);
    }
    match bytes {
        [_, b'\r', b'\n', rest @ ..] => Some(rest),
        _ => None,
    }
}

/// Reads the number at the beginning of `bytes`. Returns the number and the bytes after it. The result is `None` in
/// four cases: `bytes` does not begin with a digit, `bytes` begins with eight or more digits, a digit follows a leading
/// zero, or `bytes` contains fewer than nine bytes. If the function returns a number, there are at least two bytes
/// after this number. Therefore the caller can read the two bytes after the number without checking the length, which
/// saves 5 % of the reading time.
#[inline(always)]
fn short_number(bytes: &[u8]) -> Option<(u64, &[u8])>
    ensures number { IfSome result (λ x. BeginsWithNumber bytes.now x.0 x.1.now) }
    ensures room { IfSome result (λ x. 2 ≤ length x.1.now) }
{
    if bytes.len() < 9 {
        return None;
    }
    let (count, value) = digits_in_front(bytes)?;
    if count > 1 && bytes[0] == b'0' {
        return None;
    }
    Some((value, &bytes[count..]))
}

/// Skips a comma and at most one space after it, and returns the bytes after them.
#[inline(always)]
fn past_comma(bytes: &[u8]) -> Option<&[u8]>
    requires { 2 ≤ length bytes.now }
    ensures { IfSome result (λ rest. FollowsComma bytes.now rest.now) }
{
    match (bytes[0], bytes[1]) {
        (b',', b' ') => Some(&bytes[2..]),
        (b',', _) => Some(&bytes[1..]),
        _ => None,
    }
}

/// Reads the label at the beginning of `bytes`, with or without quotation marks. Returns the bytes of the label and the
/// bytes after the label. If fewer than two bytes follow the label, the result is `None`. The function does not check
/// whether the bytes between quotation marks are a valid label.
#[inline(always)]
fn label_in_front(bytes: &[u8]) -> Option<(&[u8], &[u8])>
    ensures label { IfSome result
        (λ x. IsLabel x.0.now → BeginsWithLabel bytes.now x.0.now x.1.now) }
    ensures room { IfSome result (λ x. 2 ≤ length x.1.now) }
{
    let (label, rest) = spelling_in_front(bytes)?;
    if rest.len() < 2 {
        return None;
    }
    Some((label, rest))
}

/// Reads a label as `label_in_front` does, but allows any number of bytes after the label.
#[inline(always)]
fn spelling_in_front(bytes: &[u8]) -> Option<(&[u8], &[u8])>
    ensures { IfSome result (λ x. IsLabel x.0.now → BeginsWithLabel bytes.now x.0.now x.1.now) }
{
    let [b'"', inside @ ..] = bytes else {
        return plain_at(bytes);
    };
    let end = mark_in(inside)?;
    Some((&inside[..end], &inside[end + 1..]))
}

/// Returns the index of the first quotation mark. If there is no quotation mark, the result is `None`. The result may
/// also be `None` if the first quotation mark is among the last 15 bytes. The function compares 16 bytes at a time with
/// a quotation mark. The function does not check whether these bytes may occur in a label. Comparing 16 bytes at a time
/// saves a fifth to a third of the time for reading labels between quotation marks.
#[inline(always)]
fn mark_in(bytes: &[u8]) -> Option<usize>
    ensures { IfSome result (λ i. HasMark bytes.now i) }
{
    let mut i = 0;
    while bytes.len() - i >= 16 {
        let marks = u8x16::from_slice(&bytes[i..])
            .simd_eq(u8x16::splat(b'"'))
            .to_bitmask();
        if marks != 0 {
            return Some(i + marks.trailing_zeros() as usize);
        }
        i += 16;
    }
    None
}
