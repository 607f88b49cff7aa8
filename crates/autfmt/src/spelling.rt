//! This module writes lines to a buffer. A line is a header or a transition.
ghost use Rattle.std.specs.Prelude.{◌≡◌, ◌+◌, ◌≤◌, length, take, codes, decimal, ◌++◌, ◌||◌, ◌⊎◌, IfSome};
ghost use Rattle.std.specs.Char.{is_ascii_digit};
ghost use Rattle.std.specs.List.{list_all};
ghost use Rattle.theory.specs.System.{IsLabel};
ghost use Rattle.autfmt.specs.Grammar.{is_letter, is_plain};
ghost use Rattle.autfmt.specs.Written.{written_label, header_of, written_transition};
ghost use Rattle.autfmt.specs.Fronts.{written_front, written_word, IsSpelled};

use crate::token::is_letter;
use itoa::{Buffer, write_digits};
use lts::LONGEST_LABEL;
use std::marker::Model;

/// The size of an array for the front of a line. The front consists of all bytes before the label: a parenthesis, a
/// number of at most ten digits, a comma and a space.
const FRONT: usize = 13;

/// The size of an array for the written form of a short label (at most 28 bytes), followed by a comma and a space. The
/// written form may contain two quotation marks in addition.
const SHORT: usize = 32;

/// The largest number of digits that a target can have.
const DIGITS: usize = 10;

/// The largest size of the end of a line: a number of ten digits, a closing parenthesis and a line feed.
const TARGET: usize = 12;

/// The length of the longest possible line: a label of 8000 bytes, two quotation marks, two numbers of ten digits, six
/// further bytes and a line feed.
pub(crate) const LONGEST: usize = 8_029;

/// Writes the header to the beginning of the buffer. Returns the index after the line feed of the header.
pub(crate) fn append_header(buffer: &mut [u8], first: u32, transitions: usize, states: u32) -> usize
    requires { LONGEST ≤ length buffer.old }
    ensures text { take result buffer.new ≡ header_of first transitions states }
    ensures end { result ≤ LONGEST }
{
    let mut digits = Buffer::new();
    let end = append(buffer, 0, b"des (");
    let end = append(buffer, end, digits.format(first).as_bytes());
    let end = append(buffer, end, b", ");
    let end = append(buffer, end, digits.format(transitions).as_bytes());
    let end = append(buffer, end, b", ");
    let end = append(buffer, end, digits.format(states).as_bytes());
    append(buffer, end, b")\n")
}

/// The front of a line consists of all bytes before the label. The front is made once for all transitions with the same
/// source.
#[derive(Drop)]
pub(crate) struct Front {
    source: u32,
    bytes: [u8; FRONT],
    len: usize,
}

impl Model for Front {
    ghost use Rattle.std.specs.Prelude.{ℕ};
    ghost use Rattle.autfmt.specs.Fronts.{IsFront};

    ghost Value = { ℕ };

    ghost view = { λ f. f.source };

    ghost invariant = { λ f. IsFront f.source f.len f.bytes };
}

impl Front {
    /// Makes the front of the lines of all transitions with the source `source`. The front of a line consists of all
    /// bytes before the label.
    pub fn new(source: u32) -> Front
        ensures { result ≡ source }
    {
        let mut bytes = [0; FRONT];
        let mut digits = Buffer::new();
        let end = append(&mut bytes, 0, b"(");
        let end = append(&mut bytes, end, digits.format(source).as_bytes());
        let len = append(&mut bytes, end, b", ");
        Front { source, bytes, len }
    }

    /// Writes the front of a line (all bytes before the label) at the index `end` of the buffer. Returns the index
    /// after the last byte of the front. The function copies the whole array of the front, because copying an array of
    /// fixed length needs no function call.
    fn put(&self, buffer: &mut [u8], end: usize) -> usize
        requires { end + FRONT ≤ length buffer.old }
        ensures text { take result buffer.new ≡ take end buffer.old ++ written_front self.now }
        ensures end { result ≤ end + FRONT }
    {
        append(buffer, end, &self.bytes);
        end + self.len
    }
}

/// The written form of a label of at most 28 bytes, followed by a comma and a space. These bytes are the first `len`
/// bytes of the array `bytes`. If a label is longer, no bytes are stored for it, and `len` is 0.
#[derive(Clone, Copy)]
pub(crate) struct Spelled {
    bytes: [u8; SHORT],
    len: u8,
}

/// Returns the written form of a label of at most 28 bytes, followed by a comma and a space. If the label is longer,
/// the result stores no bytes, and its field `len` is 0.
pub(crate) fn spell(label: &[u8]) -> Spelled
    ensures { IsSpelled label.now result }
{
    let mut bytes = [0; SHORT];
    if label.len() + 4 > SHORT {
        return Spelled { bytes, len: 0 };
    }
    let end = append_label(&mut bytes, 0, label, is_plain(label));
    let end = append(&mut bytes, end, b", ");
    Spelled {
        bytes,
        len: end as u8,
    }
}

/// A label that is to be written. The field `plain` is true if the label may be written without quotation marks. If the
/// written form of the label was prepared before, it is in the field `spelled`.
#[derive(Clone, Copy)]
pub(crate) struct Word<'a> {
    pub label: &'a [u8],
    pub plain: bool,
    pub spelled: Option<&'a Spelled>,
}

/// Writes the line of a transition at the index `end` of the buffer. The arguments `front`, `word` and `target` are the
/// front of the line (all bytes before the label), the label and the target. Returns the index after the line feed of
/// this line.
pub(crate) fn append_transition(
    buffer: &mut [u8],
    end: usize,
    front: &Front,
    word: Word<'_>,
    target: u32,
) -> usize
    requires room { end + LONGEST ≤ length buffer.old }
    requires label { IsLabel word.label.now }
    requires plain { word.plain ≡ is_plain word.label.now }
    requires spelled { IfSome word.spelled (λ s. IsSpelled word.label.now s.now) }
    ensures text { take result buffer.new ≡ take end buffer.old
        ++ written_transition (record {
          source = front.now;
          label = word.entry.label.now;
          target = target;
        }) }
    ensures end { result ≤ end + LONGEST }
{
    let end = front.put(buffer, end);
    let end = append_word(buffer, end, word);
    append_target(buffer, end, target)
}

/// Writes a label, a comma and a space at the index `end` of the buffer. Returns the index after the space. If the
/// label with the comma and the space was prepared before, the function copies the whole array that stores these bytes,
/// because copying an array of fixed length needs no function call.
fn append_word(buffer: &mut [u8], end: usize, word: Word<'_>) -> usize
    requires room { (end + SHORT ≤ length buffer.old)
        × (end + 4 + length word.label.now ≤ length buffer.old) }
    requires plain { word.plain ≡ is_plain word.label.now }
    requires spelled { IfSome word.spelled (λ s. IsSpelled word.label.now s.now) }
    ensures text { take result buffer.new
        ≡ take end buffer.old ++ written_word word.entry.label.now }
    ensures end { (result ≤ end + SHORT) ⊎ (result ≤ end + 4 + length word.entry.label.now) }
{
    if let Some(spelled) = word.spelled {
        if spelled.len > 0 {
            append(buffer, end, &spelled.bytes);
            return end + spelled.len as usize;
        }
    }
    let end = append_label(buffer, end, word.label, word.plain);
    append(buffer, end, b", ")
}

/// Writes a target and the end of its line at the index `end` of the buffer. Returns the index after the line feed of
/// this line. The function copies `TARGET` bytes even if the target has fewer digits, because copying an array of fixed
/// length needs no function call.
fn append_target(buffer: &mut [u8], end: usize, target: u32) -> usize
    requires { end + TARGET ≤ length buffer.old }
    ensures text { take result buffer.new ≡ take end buffer.old ++ decimal target ++ codes ")\n" }
    ensures end { result ≤ end + TARGET }
{
    let mut bytes = *b"..........)\n..........";
    let start = write_digits(u64::from(target), &mut bytes, DIGITS);
    append(buffer, end, &bytes[start..start + TARGET]);
    end + TARGET - start
}

/// Writes the written form of a label at the index `end` of the buffer. The argument `plain` is true if the label may
/// be written without quotation marks. Returns the index after the last byte of the written form.
fn append_label(buffer: &mut [u8], end: usize, label: &[u8], plain: bool) -> usize
    requires room { end + 2 + length label.now ≤ length buffer.old }
    requires plain { plain ≡ is_plain label.now }
    ensures text { take result buffer.new ≡ take end buffer.old ++ written_label label.now }
    ensures end { result ≤ end + 2 + length label.now }
{
    if plain {
        return append(buffer, end, label);
    }
    let end = append(buffer, end, b"\"");
    let end = append(buffer, end, label);
    append(buffer, end, b"\"")
}

/// Returns whether a label may be written without quotation marks.
pub(crate) fn is_plain(label: &[u8]) -> bool
    ensures { result ≡ is_plain label.now }
{
    let [first, rest @ ..] = label else {
        return false;
    };
    is_letter(*first) && are_letters_or_digits(rest) && label.len() <= LONGEST_LABEL
}

/// Returns whether each byte is a letter, an underscore or a digit.
fn are_letters_or_digits(bytes: &[u8]) -> bool
    ensures { result ≡ list_all (λ c. is_letter c || is_ascii_digit c) bytes.now }
{
    bytes.iter().all(|b| is_letter(*b) || b.is_ascii_digit())
}

/// Copies `bytes` to the buffer, beginning at the index `end`. Returns the index after the copied bytes, which is `end`
/// plus the number of these bytes. Callers use this function to build an output in a buffer, part after part.
pub fn append(buffer: &mut [u8], end: usize, bytes: &[u8]) -> usize
    requires { end + length bytes.now ≤ length buffer.old }
    ensures text { take result buffer.new ≡ take end buffer.old ++ bytes.now }
    ensures end { result ≡ end + length bytes.now }
{
    let new_end = end + bytes.len();
    buffer[end..new_end].copy_from_slice(bytes);
    new_end
}
