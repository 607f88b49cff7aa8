//! This module reports errors. For each error, the module writes an error message and returns the exit status.
ghost use Rattle.std.specs.Prelude.{◌≡◌, ◌≤◌, IsTrue, OnOk, OnErr};
ghost use Rattle.std.specs.Io.KnownBytes.{Appends};
ghost use Rattle.autfmt.specs.Stream.{AppendsPrefix, CountsFailure};
ghost use Rattle.autbis.specs.Programs.{EndsWords};
ghost use Rattle.autbis.specs.Reports.{IsWordStatus, status_of};
ghost use Rattle.autbis.specs.Runs.{used};

use arguments::WordFault;
use autfmt::{Broken, Fault, Sink, put_all};
use std::io::Write;

/// Writes a message about the error `f` to `e`, and returns the exit status of this error: 5 for `Device`, 4 for
/// `Memory`, and 2 otherwise. If the contents of a file or of standard input are incorrect, the message contains the
/// name `name`.
pub fn report<E: Write>(f: &Fault, name: &str, e: &mut E) -> u8
    ensures status { result ≡ status_of f.now }
{
    let _ = match f {
        Fault::Device | Fault::Memory => writeln!(e, "autbis: {f}"),
        _ => writeln!(e, "autbis: {name}: {f}"),
    };
    exit_status(f)
}

/// Returns the exit status of a minimisation or a comparison that ended with the error `f`.
fn exit_status(f: &Fault) -> u8
    ensures { result ≡ status_of f.now }
{
    match f {
        Fault::Device => 5,
        Fault::Memory => 4,
        _ => 2,
    }
}

/// Writes to `e` the message that the file `name` cannot be opened, and returns the exit status 5.
pub fn cannot_open<E: Write>(name: &str, e: &mut E) -> u8
    ensures status { result ≡ 5 }
{
    let _ = writeln!(e, "autbis: {name}: cannot open");
    5
}

/// Writes to `e` a message about the reason `f` why the command line does not lead to a job, and returns the exit
/// status. The status is 3 if an argument is incorrect or the relation is unknown, and 4 if memory ran out. If the
/// command line asks for help or for the version, the function writes the requested text to `o` and flushes `o`. In
/// this case, the status is 0 if the text was written, and nothing is written to `e`. If the text cannot be written,
/// the status is 5, and an error message is written to `e`.
pub fn report_words<O: Write, E: Write>(f: &WordFault, o: &mut O, e: &mut E) -> u8
    ensures status { IsWordStatus (O.contents o.old) (O.contents o.new) f.now result }
    ensures silent { result ≤ 1 → e.new ≡ e.old }
{
    match f {
        WordFault::Help(text) => {
            if say(text.as_bytes(), o) && o.flush().is_ok() {
                0
            } else {
                report(&Fault::Device, "", e)
            }
        }
        WordFault::Usage(text) => report_usage(text, e),
        WordFault::Relation(word) => report_unknown(word, e),
        WordFault::Memory => report(&Fault::Memory, "", e),
    }
}

/// Does the same as `report_words`, except that the text for help or for the version is written to the sink `w` (the
/// object to which the output is written). After the text has been written, the function calls `w.finish` once.
pub fn answer_words<W: Sink, E: Write>(f: &WordFault, w: &mut W, e: &mut E) -> u8
    requires { W.failures w.old ≡ 0 }
    ensures ends { EndsWords (used W.written W.failures w.old w.new) f.now result }
    ensures silent { result ≤ 1 → e.new ≡ e.old }
{
    match f {
        WordFault::Help(text) => match put_whole(text.as_bytes(), w) {
            Ok(()) => 0,
            Err(_) => report(&Fault::Device, "", e),
        },
        WordFault::Usage(text) => report_usage(text, e),
        WordFault::Relation(word) => report_unknown(word, e),
        WordFault::Memory => report(&Fault::Memory, "", e),
    }
}

/// Writes to `e` the error message `text` about an incorrect command line, and returns the exit status 3.
fn report_usage<E: Write>(text: &str, e: &mut E) -> u8
    ensures { result ≡ 3 }
{
    let _ = e.write_all(text.as_bytes());
    3
}

/// Writes to `e` the message that no relation has the name `word`, and returns the exit status 3.
fn report_unknown<E: Write>(word: &str, e: &mut E) -> u8
    ensures { result ≡ 3 }
{
    let _ = writeln!(e, "autbis: unknown relation: {word}");
    3
}

/// Writes the bytes `b` to `e`. Stops when all bytes are written, when a write fails, or when a write writes no byte.
/// Returns whether all bytes were written.
pub fn say<E: Write>(b: &[u8], e: &mut E) -> bool
    ensures whole { IsTrue result → Appends (E.contents e.old) (E.contents e.new) b.now }
    ensures part { AppendsPrefix (E.contents e.old) (E.contents e.new) b.now }
{
    let mut rest = b;
    while !rest.is_empty() {
        let Ok(n) = e.write(rest) else {
            return false;
        };
        if n == 0 {
            return false;
        }
        rest = &rest[n..];
    }
    true
}

/// Writes all bytes of `b` to the sink `w` (the object to which the output is written), and then calls `w.finish` once.
///
/// # Errors
///
/// `Broken` if the sink failed. In this case, a prefix of `b` was written.
pub fn put_whole<W: Sink>(b: &[u8], w: &mut W) -> Result<(), Broken>
    requires { W.failures w.old ≡ 0 }
    ensures ok { OnOk result (Appends (W.written w.old) (W.written w.new) b.now) }
    ensures err { OnErr result (AppendsPrefix (W.written w.old) (W.written w.new) b.now) }
    ensures failures { CountsFailure result (W.failures w.new) }
{
    put_all(w, b)?;
    w.finish()
}
