//! Writes the line that `--stats` asks for, which contains the size of the system, and the numbers of rounds and visits
//! (reads of transitions) of the minimisation.
ghost use Rattle.std.specs.Prelude.{◌≡◌, ◌≤◌, ◌+◌, ◌++◌, length, take, decimal};
ghost use Rattle.lts.specs.Meter as meter;
ghost use Rattle.autfmt.specs.Stream.{AppendsPrefix};
ghost use Rattle.autbis.specs.Reports.{stats_line};
ghost use Rattle.theory.specs.Quotient.{allowance};

use crate::reports::say;
use crate::run::Counts;
use autfmt::append;
use itoa::Buffer;
use lts::Meter;
use quotient::Relation;
use std::io::Write;

/// The number of bytes that are reserved for each value in the line: at most 16 bytes for the name before the value,
/// and at most 40 digits for the value itself.
const COUNT: usize = 56;

/// The number of bytes that are reserved for the line, which contains five values with their names, and a line feed.
const LINE: usize = 281;

/// Writes to `e` (the stream for error messages) the line that `--stats` asks for. Failed writes are ignored.
pub fn show_stats<M: Meter, E: Write>(counts: Counts, rel: Relation, m: &M, e: &mut E)
    requires { (M.counted m.now).rounds ≤ counts.states }
    ensures line { AppendsPrefix (E.contents e.old) (E.contents e.new)
        (stats_line rel counts (M.counted m.now)) }
{
    let mut line = [0; LINE];
    let end = spell_stats(&mut line, counts, rel, m.rounds(), m.visits());
    say(&line[..end], e);
}

/// Writes to the beginning of the buffer the line that `--stats` asks for. Returns the index after the last byte of the
/// line.
fn spell_stats(
    buffer: &mut [u8],
    counts: Counts,
    rel: Relation,
    rounds: u128,
    visits: u128,
) -> usize
    requires room { LINE ≤ length buffer.old }
    requires rounds { rounds ≤ counts.states }
    ensures text { take result buffer.new
        ≡ stats_line rel counts (record { rounds = rounds; visits = visits }) }
    ensures end { result ≤ LINE }
{
    let allowance = allowed_visits(counts, rel, rounds);
    let end = append_count(buffer, 0, b"stats: states ", u128::from(counts.states));
    let end = append_count(
        buffer,
        end,
        b" transitions ",
        u128::from(counts.transitions),
    );
    let end = append_count(buffer, end, b" rounds ", rounds);
    let end = append_count(buffer, end, b" visits ", visits);
    let end = append_count(buffer, end, b" allowance ", allowance);
    append(buffer, end, b"\n")
}

/// Writes the bytes `word` and then the digits of the number `count` into the buffer, from the index `end` on. Returns
/// the index after the last digit.
fn append_count(buffer: &mut [u8], end: usize, word: &[u8], count: u128) -> usize
    requires word { length word.now ≤ 16 }
    requires room { end + COUNT ≤ length buffer.old }
    ensures text { take result buffer.new ≡ take end buffer.old ++ word.now ++ decimal count }
    ensures end { result ≤ end + COUNT }
{
    let mut digits = Buffer::new();
    let end = append(buffer, end, word);
    append(buffer, end, digits.format(count).as_bytes())
}

/// Returns the allowance, which is an upper bound on the number of visits (reads of transitions) of a minimisation with
/// `rounds` rounds. The argument `counts` is the size of the system.
fn allowed_visits(counts: Counts, rel: Relation, rounds: u128) -> u128
    requires { rounds ≤ counts.states }
    ensures { result ≡ allowance rel counts.states counts.transitions rounds }
{
    match rel {
        Relation::Strong => (rounds + 2) * u128::from(counts.transitions),
        Relation::Branching => {
            (rounds * u128::from(counts.states) + 2) * u128::from(counts.transitions)
        }
    }
}
