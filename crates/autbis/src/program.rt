//! This module contains one function for each of the two subcommands of the program. Each function minimises or
//! compares the inputs, writes error messages, and returns the exit status.
ghost use Rattle.std.specs.Prelude.{◌≡◌, ◌⊎◌, ◌≤◌, IfSome, IsTrue, false};
ghost use Rattle.autbis.specs.declared.compare.Side.TheVariants.{First, Second};
ghost use Rattle.autbis.specs.Ends.{EndsRun};
ghost use Rattle.autbis.specs.Ends.Contents.{one, two};
ghost use Rattle.autbis.specs.Reports.{ShowsCounts};
ghost use Rattle.autbis.specs.Runs.{IsReadable, asks, used};

use crate::compare::{CmpFault, Side, run_cmp};
use crate::reports::report;
use crate::run::run_min;
use crate::stats::show_stats;
use autfmt::{Hidden, Limits, Sink, Source};
use lts::Counter;
use quotient::Relation;
use std::alloc::Global;
use std::io::Write;

/// Minimises the system in the source `r`, writes the result to the sink `w`, and returns the exit status. The source
/// is the object from which the input is read, and the sink is the object to which the output is written. The status is
/// 0 after a success, 2 if the input is incorrect, 4 if memory ran out, and 5 if the source or the sink failed. If the
/// status is 2 or 4, neither the source nor the sink has failed, and nothing was written to the sink. An error message
/// is written to `e`, and may contain the name `name` of the source. After a success, nothing is written to `e` except
/// for the line that `--stats` asks for. This line is written only if `stats` is true.
pub fn min_program<R: Source, W: Sink, E: Write>(
    alloc: Global,
    r: &mut R,
    name: &str,
    w: &mut W,
    e: &mut E,
    rel: Relation,
    stats: bool,
    lim: &Limits,
    h: &Hidden,
) -> u8
    requires source { R.failures r.old ≡ 0 }
    requires sink { W.failures w.old ≡ 0 }
    ensures ends { EndsRun (asks rel lim.now h.now) (one (R.rest r.old)) (R.failures r.new ≡ 0)
        (R.failures r.new ≡ 1)
        (used W.written W.failures w.old w.new) result }
    ensures shown { result ≤ 1 → IsTrue stats → ShowsCounts (asks rel lim.now h.now) (R.rest r.old)
        (E.contents e.old) (E.contents e.new) }
    ensures silent { result ≤ 1 → stats ≡ false → e.new ≡ e.old }
{
    let mut meter = Counter::new();
    match run_min(alloc, r, w, rel, lim, h, &mut meter) {
        Ok(counts) => {
            if stats {
                show_stats(counts, rel, &meter, e);
            }
            0
        }
        Err(fault) => report(&fault, name, e),
    }
}

/// Compares the systems in the sources `a` and `b`, writes the line of the verdict (`TRUE` or `FALSE`) to the sink `w`,
/// and returns the exit status. A source is an object from which an input is read, and the sink is the object to which
/// the output is written. The status is 0 if the two systems are equivalent, 1 if they are not, 2 if an input is
/// incorrect, 4 if memory ran out, and 5 if a source or the sink failed. If the status is 2 or 4, neither a source nor
/// the sink has failed, and nothing was written to the sink. An error message is written to `e`, and may contain the
/// name of the input in which the error occurred. After a verdict, nothing is written to `e`. If the first input is
/// incorrect or its source fails, the second source is unchanged.
pub fn cmp_program<R1: Source, R2: Source, W: Sink, E: Write>(
    alloc: Global,
    a: &mut R1,
    a_name: &str,
    b: &mut R2,
    b_name: &str,
    w: &mut W,
    e: &mut E,
    rel: Relation,
    lim: &Limits,
    h: &Hidden,
) -> u8
    requires first { R1.failures a.old ≡ 0 }
    requires second { R2.failures b.old ≡ 0 }
    requires sink { W.failures w.old ≡ 0 }
    ensures ends { EndsRun (asks rel lim.now h.now) (two (R1.rest a.old) (R2.rest b.old))
        ((R1.failures a.new ≡ 0) × (R2.failures b.new ≡ 0))
        (((R1.failures a.new ≡ 1) × (b.new ≡ b.old))
        ⊎ ((R1.failures a.new ≡ 0) × (R2.failures b.new ≡ 1)))
        (used W.written W.failures w.old w.new) result }
    ensures unread { result ≡ 2 → (b.new ≡ b.old) ⊎ IfSome (R1.rest a.old) (IsReadable lim.now) }
    ensures silent { result ≤ 1 → e.new ≡ e.old }
{
    match run_cmp(alloc, a, b, w, rel, lim, h, &mut Counter::new()) {
        Ok(true) => 0,
        Ok(false) => 1,
        Err(CmpFault { side, fault }) => report(&fault, named(side, a_name, b_name), e),
    }
}

/// Returns the name of the input in which an error occurred. If `side` is `Side::Run`, the error occurred after both
/// inputs had been read. In this case, the contract does not say which name is returned, because the error message
/// contains no name.
fn named<'a>(side: Side, a_name: &'a str, b_name: &'a str) -> &'a str
    ensures first { side ≡ First → result.now ≡ a_name.now }
    ensures second { side ≡ Second → result.now ≡ b_name.now }
{
    match side {
        Side::First | Side::Run => a_name,
        Side::Second => b_name,
    }
}
