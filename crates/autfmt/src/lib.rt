//! Reads and writes systems in the Aldebaran (`.aut`) format, and reads hide lists.
//!
//! The following table shows an input of three lines on its way from bytes to a system in memory, and back to bytes.
//! Each row begins with the name of a module:
//!
//! ```text
//! source     des (0, 2, 2)↵(1,"a b"    , 0)↵(0, go, 1)↵      two chunks; ↵ is a line feed
//! cutter     des (0, 2, 2)    (1,"a b", 0)    (0, go, 1)      lines; `line` joins a line that two chunks share
//! token      0 2 2            1 `a b` 0       0 `go` 1        tokens, from the left; mostly in one pass, by `usual`
//! judge      good             good            good            checks ranges, or returns the first `fault`
//! held       labels `a b`, `go`; transitions (1, 0, 0), (0, 1, 1)     labels in the hide list (`hidden`) become `i`
//!
//! ordering   (0, 1, 1), (1, 0, 0)                             by source, bytes of the label, target
//! wording    "a b", go                                        each label as it is written
//! spelling   des (0, 2, 2)↵(0, go, 1)↵(1, "a b", 0)↵          many lines in a buffer
//! sink                                                        takes the bytes, as many at once as it can
//! ```
//!
//! The module `reader` makes a system from the bytes of a source (the object from which the input is read). The module
//! `hide_reader` makes a list of labels from the bytes of a source. The module `writer` writes a system to a sink (the
//! object to which the output is written).
//!
//! The contracts of the readers are about all bytes that the source has returned. The contracts do not depend on how
//! many bytes the source has returned in each call (`specs/Outcomes`). A reader reports an error as soon as no further
//! bytes could change this error (`specs/Faults`).
//!
//! The modules whose names end in `laws` contain functions with empty bodies. The contract of each of these functions
//! states theorems. The main theorems are the following. Each line can be read in at most one way, and so can each
//! input. For each system, there is at most one text that may be written for it. If a reader successfully reads the
//! text that was written for a system, the reader returns this system again, up to the order of its transitions.
//!
//! If a function of this crate returns the error `Memory`, there was no memory for a vector or a table that had to
//! grow.
#![tactic(auto)]

mod cutter;
mod digits;
mod fault;
mod held;
mod hidden;
mod hide_reader;
mod judge;
mod limits;
mod line;
mod line_laws;
mod ordering;
mod reader;
mod sink;
mod source;
mod spelling;
mod stream;
mod text_laws;
mod token;
mod usual;
mod wording;
mod write_laws;
mod writer;

pub use fault::Fault;
pub use hidden::Hidden;
pub use hide_reader::read_hidden;
pub use limits::Limits;
pub use line::LineBuffer;
pub use line_laws::a_line_has_one_reading;
pub use reader::{read, read_hiding};
pub use sink::{Sink, ToWrite, VecSink, put_all};
pub use source::{FromRead, SliceSource, Source};
pub use spelling::append;
pub use stream::Broken;
pub use text_laws::{
    a_hide_list_has_one_reading, a_hide_list_reads_or_has_a_fault, a_judged_fault_is_the_first,
    a_judged_hide_fault_is_the_first, a_text_has_its_lines, a_text_has_one_reading,
    a_text_reads_or_has_a_fault, hiding_depends_on_the_labels,
};
pub use write_laws::{text_is_one, text_is_read_again};
pub use writer::write;
