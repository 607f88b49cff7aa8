//! Tests of the whole program. Some tests use files in memory, and the other tests use files of the file system.
ghost use Rattle.std.specs.Prelude.{◌≡◌, None};

use super::commands::words_of;
use autbis::{Disk, Opener, main_program};
use autfmt::{Broken, SliceSource, Source, VecSink};
use std::alloc::{AllocError, Global};
use std::marker::Model;
use std::test::Fail;
use test_support::{LONE_STATE_TEXT, STEP, TWO_EQUAL_TARGETS_TEXT, check};

/// Files in memory. Each entry consists of the name of a file, the contents of this file, and the number of bytes after
/// which reading the file fails. This number is `None` if reading the file never fails.
const FILES: [(&str, &[u8], Option<usize>); 8] = [
    ("two.aut", TWO_EQUAL_TARGETS_TEXT, None),
    ("lone.aut", LONE_STATE_TEXT, None),
    ("ab.aut", b"des (0,2,3)\n(0,a,1)\n(1,b,2)\n", None),
    ("b.aut", b"des (0,1,2)\n(0,b,1)\n", None),
    ("a.hide", b"a\n", None),
    ("two.hide", b"a b\n", None),
    ("broken.aut", b"des (0,1,2)\n(0,b,1)\n", Some(15)),
    ("broken.hide", b"a\n", Some(1)),
];

/// An opener for the files in memory. The program opens and closes its files through an opener.
#[derive(Drop)]
struct Shelf {
    failed: bool,
    lost: bool,
}

impl Model for Shelf {
    ghost use Rattle.std.specs.Prelude.{ℕ, if◌then◌else◌};

    ghost Value = { ℕ × ℕ };

    ghost view = { λ shelf. (if shelf.failed then 1 else 0, if shelf.lost then 1 else 0) };
}

impl Opener for Shelf {
    type File = SliceSource<'static>;

    ghost opened = { λ _. None };

    ghost failures = { λ shelf. shelf.0 };

    ghost lost = { λ shelf. shelf.1 };

    ghost unclosed = { λ _. 0 };

    ghost holds = { λ _ _. None };

    fn open(&mut self, name: &str) -> Result<SliceSource<'static>, Broken> {
        for (known, text, place) in &FILES {
            if *known == name {
                return Ok(SliceSource::new(*text, *place));
            }
        }
        self.failed = true;
        Err(Broken)
    }

    fn close(&mut self, file: SliceSource<'static>) {
        self.lost = self.lost || file.failures() > 0;
    }
}

/// Runs the program with a command line. Returns its exit status, its output, and its message. The program opens files
/// with `files`, which is an object that opens files by their names. The program reads the example `two-equal-targets`
/// as its standard input. If `room` is a number, writing the output fails after this number of bytes.
fn ended<F: Opener>(
    files: &mut F,
    alloc: Global,
    line: &str,
    room: Option<usize>,
) -> Result<(u8, VecSink, Vec<u8>), AllocError>
    requires { F.failures files.old ≡ 0 }
{
    let words = words_of(alloc, line, '/')?;
    let mut output = VecSink::new(alloc, room);
    let mut said = Vec::new(alloc);
    let status = main_program(
        alloc,
        Ok(words),
        files,
        &mut SliceSource::new(TWO_EQUAL_TARGETS_TEXT, None),
        &mut output,
        &mut said,
    );
    Ok((status, output, said))
}

/// An example: a command line, the exit status, the output, and the message.
type Ends = (&'static str, u8, &'static [u8], &'static [u8]);

/// The message of the program if a read from a file has failed.
const UNREAD: &[u8] = b"autbis: read or write failed\n";

const ENDS: [Ends; 17] = [
    ("autbis/--version", 0, b"autbis 0.1.0\n", b""),
    ("autbis/min", 0, STEP, b""),
    ("autbis/min/two.aut", 0, STEP, b""),
    (
        "autbis/min/--relation/branching/--hide/a.hide/ab.aut",
        0,
        b"des (0, 1, 2)\n(0, b, 1)\n",
        b"",
    ),
    (
        "autbis/min/--hide/a.hide/ab.aut",
        0,
        b"des (0, 2, 3)\n(0, i, 1)\n(1, b, 2)\n",
        b"",
    ),
    (
        "autbis/min/--hide/two.hide/two.aut",
        2,
        b"",
        b"autbis: two.hide: line 1: not a label\n",
    ),
    (
        "autbis/min/no such file.aut",
        5,
        b"",
        b"autbis: no such file.aut: cannot open\n",
    ),
    ("autbis/cmp/two.aut/two.aut", 0, b"TRUE\n", b""),
    ("autbis/cmp/ab.aut/b.aut", 1, b"FALSE\n", b""),
    (
        "autbis/cmp/--relation/branching/--hide/a.hide/b.aut/ab.aut",
        0,
        b"TRUE\n",
        b"",
    ),
    (
        "autbis/cmp/lone.aut/a.hide",
        2,
        b"",
        b"autbis: a.hide: bad header\n",
    ),
    (
        "autbis/cmp/b.aut/no such file.aut",
        5,
        b"",
        b"autbis: no such file.aut: cannot open\n",
    ),
    (
        "autbis/min/--hide/two.hide/a.hide",
        2,
        b"",
        b"autbis: two.hide: line 1: not a label\n",
    ),
    (
        "autbis/cmp/a.hide/broken.aut",
        2,
        b"",
        b"autbis: a.hide: bad header\n",
    ),
    ("autbis/min/broken.aut", 5, b"", UNREAD),
    ("autbis/min/--hide/broken.hide/two.aut", 5, b"", UNREAD),
    ("autbis/cmp/b.aut/broken.aut", 5, b"", UNREAD),
];

/// Returns true if the program ends with the exit status, the output and the message in the row. In addition, the
/// opener (the object that opens and closes the files) must have recorded a failed read if and only if a read from a
/// file has failed.
fn ends(alloc: Global, row: &Ends) -> Result<bool, AllocError> {
    let (line, status, out, message) = *row;
    let mut shelf = Shelf {
        failed: false,
        lost: false,
    };
    let (found, output, said) = ended(&mut shelf, alloc, line, None)?;
    let is_lost = shelf.lost == (message == UNREAD);
    Ok(found == status && output.bytes() == out && said.as_slice() == message && is_lost)
}

#[test]
fn files_in_memory(rt: HostRuntime) -> Result<(), Fail> {
    for row in &ENDS {
        check(row.0, ends(rt.alloc(), row)?)?;
    }
    Ok(())
}

/// Command lines for which the program writes output, each with the first three bytes of this output. In the test,
/// writing fails after three bytes.
const FULL: [(&str, &[u8]); 4] = [
    ("autbis/--help", b"Min"),
    ("autbis/--version", b"aut"),
    ("autbis/min/two.aut", b"des"),
    ("autbis/cmp/two.aut/two.aut", b"TRU"),
];

#[test]
fn full_output(rt: HostRuntime) -> Result<(), Fail> {
    for (line, written) in &FULL {
        let mut shelf = Shelf {
            failed: false,
            lost: false,
        };
        let (status, output, said) = ended(&mut shelf, rt.alloc(), line, Some(3))?;
        let is_said = said.as_slice() == b"autbis: read or write failed\n".as_slice();
        check(line, output.bytes() == *written && status == 5 && is_said)?;
    }
    Ok(())
}

/// Command lines with the name of a file that does not exist, and the message that the program must write for each of
/// them.
const NO_FILE: [(&str, &str); 3] = [
    (
        "autbis/min/no such file.aut",
        "autbis: no such file.aut: cannot open\n",
    ),
    (
        "autbis/min/--hide/no such list",
        "autbis: no such list: cannot open\n",
    ),
    (
        "autbis/cmp/no such file.aut/b.aut",
        "autbis: no such file.aut: cannot open\n",
    ),
];

#[test]
fn no_file(rt: HostRuntime) -> Result<(), Fail> {
    for (line, message) in &NO_FILE {
        let (status, output, said) = ended(&mut Disk::new(&rt), rt.alloc(), line, None)?;
        let is_said = said.as_slice() == message.as_bytes();
        check(line, output.bytes().is_empty() && status == 5 && is_said)?;
    }
    Ok(())
}

/// The command line gives the name of a folder instead of a file. The program must report that the folder cannot be
/// opened, or that a read failed. It depends on the operating system which of the two messages is written.
#[test]
fn folder(rt: HostRuntime) -> Result<(), Fail> {
    let (status, output, said) = ended(&mut Disk::new(&rt), rt.alloc(), "autbis/min/.", None)?;
    let said = said.as_slice();
    let unread = said == b"autbis: read or write failed\n".as_slice();
    let unopened = said == b"autbis: .: cannot open\n".as_slice();
    let is_empty = output.bytes().is_empty();
    check("a folder", is_empty && status == 5 && (unread || unopened))
}
