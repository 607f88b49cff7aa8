//! Compares two systems. The function `run_cmp` reads two inputs, and writes whether the systems that the inputs
//! describe are equivalent.
ghost use Rattle.std.specs.Prelude.{◌≡◌, IfErr, OnOk, OnErr};
ghost use Rattle.std.specs.Io.KnownBytes.{Appends};
ghost use Rattle.lts.specs.Meter.{IsFresh};
ghost use Rattle.autfmt.specs.Outcomes.{ReadsTo, Refuses, Takes};
ghost use Rattle.autfmt.specs.Stream.{AppendsPrefix, CountsFailure};
ghost use Rattle.autfmt.specs.declared.fault.Fault.TheVariants.{Device, Memory};
ghost use Rattle.autbis.specs.Comparisons.{ComparisonFails, ComparesTo, line_of};
ghost use Rattle.autbis.specs.Runs.{asks, used};
ghost use Rattle.autbis.specs.declared.compare.Side.TheVariants.{First, Run};

use crate::reports::put_whole;
use autfmt::{Fault, Hidden, Limits, Sink, Source, read_hiding};
use lts::{Lts, Memory, Meter};
use quotient::{Relation, equivalent};
use std::alloc::Global;

/// The part of a comparison in which an error occurred: the reading of one of the two inputs, or the rest of the
/// comparison.
#[derive(Clone, Copy, Debug, PartialEq, Eq)]
pub enum Side {
    /// The error occurred while the first input was read.
    First,
    /// The error occurred while the second input was read.
    Second,
    /// The error occurred after both inputs had been read.
    Run,
}

/// The reason why a comparison failed.
#[derive(Clone, Copy, Debug, PartialEq, Eq)]
pub struct CmpFault {
    /// The part of the comparison in which the error occurred.
    pub side: Side,
    pub fault: Fault,
}

impl From<Memory> for CmpFault {
    ghost from_gives = { λ _ fault. fault ≡ record { side = Run; fault = Memory } };

    fn from(_refused: Memory) -> CmpFault {
        CmpFault {
            side: Side::Run,
            fault: Fault::Memory,
        }
    }
}

/// Reads the first input to its end, and then the second input. In both systems, `run_cmp` replaces each label in the
/// list `h` by the internal action `i`. Then it compares the two systems modulo `rel`, and writes the line `TRUE` or
/// `FALSE` to the sink `w` (the object to which the output is written). Finally it calls `w.finish` once. The result of
/// `run_cmp` is the verdict, which is true if the systems are equivalent. The meter `m` counts rounds and visits (reads
/// of transitions), and must not have counted anything before. If the comparison succeeds, the number of rounds is at
/// most the number of states of both systems together. The number of visits is then exactly (rounds + 1) times the
/// number of transitions of both systems together.
///
/// # Errors
///
/// - `Side::First` or `Side::Second`: no system could be read from the first or from the second input. The field
///   `fault` of the error states the reason, which is one of the errors that `run_min` may return. In this case,
///   `run_cmp` has written nothing to `w`, and the meter has not counted any rounds or visits. If the first input has
///   an error or cannot be read, the source `b` (the object from which the second input is read) is unchanged.
/// - `Side::Run` with `Memory`: an allocation failed, and nothing was written.
/// - `Side::Run` with `Device`: the sink `w` failed, and a prefix of the line `TRUE` or `FALSE` was written.
pub fn run_cmp<M: Meter, R1: Source, R2: Source, W: Sink>(
    alloc: Global,
    a: &mut R1,
    b: &mut R2,
    w: &mut W,
    rel: Relation,
    lim: &Limits,
    h: &Hidden,
    m: &mut M,
) -> Result<bool, CmpFault>
    requires first { R1.failures a.old ≡ 0 }
    requires second { R2.failures b.old ≡ 0 }
    requires sink { W.failures w.old ≡ 0 }
    requires fresh { IsFresh (M.counted m.old) }

    // These clauses state what a verdict (`TRUE` or `FALSE`) means, and when each error is returned.
    ensures outcome { let asked = asks rel lim.now h.now in
        let one = used R1.rest R1.failures a.old a.new in
        let other = used R2.rest R2.failures b.old b.new in
        let sink = used W.written W.failures w.old w.new in
        Takes one.before one.after
        (λ first. ComparesTo asked first (one, other) sink (M.counted m.new))
        (λ first. ComparisonFails asked first (one, other) sink (M.counted m.new)) result }

    // These clauses state what `run_cmp` leaves unchanged if it fails.
    ensures unread { IfErr result (λ f. f.side ≡ First → b.new ≡ b.old) }
    ensures untouched { IfErr result (λ _. W.failures w.new ≡ 0 → w.new ≡ w.old) }
{
    lim.invariants();
    let first: Lts<M> = read_side(alloc, a, lim, h, Side::First)?;
    let second: Lts<M> = read_side(alloc, b, lim, h, Side::Second)?;
    let same = equivalent(alloc, &first, &second, rel, m)?;
    write_verdict(same, w)?;
    Ok(same)
}

/// Reads a system from one of the two inputs. The argument `side` says which input this is.
fn read_side<M: Meter, R: Source>(
    alloc: Global,
    r: &mut R,
    lim: &Limits,
    h: &Hidden,
    side: Side,
) -> Result<Lts<M>, CmpFault>
    requires { R.failures r.old ≡ 0 }
    ensures outcome { Takes (R.rest r.old) (R.rest r.new)
        (λ given. ReadsTo lim.now h.now given (R.rest r.new) (R.failures r.new))
        (λ given f. (f.side ≡ side)
        × Refuses lim.now given (R.rest r.new) (R.failures r.new) f.fault) result }
{
    match read_hiding(alloc, r, lim, h) {
        Ok(system) => Ok(system),
        Err(fault) => Err(CmpFault { side, fault }),
    }
}

/// Writes the line of the verdict (`TRUE` or `FALSE`) to the sink `w` (the object to which the output is written), and
/// then calls `w.finish` once.
fn write_verdict<W: Sink>(same: bool, w: &mut W) -> Result<(), CmpFault>
    requires { W.failures w.old ≡ 0 }
    ensures ok { OnOk result (Appends (W.written w.old) (W.written w.new) (line_of same)) }
    ensures err { OnErr result
        (AppendsPrefix (W.written w.old) (W.written w.new) (line_of same)) }
    ensures fault { IfErr result (λ f. (f.side ≡ Run) × (f.fault ≡ Device)) }
    ensures failures { CountsFailure result (W.failures w.new) }
{
    let line = if same { "TRUE\n" } else { "FALSE\n" };
    match put_whole(line.as_bytes(), w) {
        Ok(()) => Ok(()),
        Err(_) => Err(CmpFault {
            side: Side::Run,
            fault: Fault::Device,
        }),
    }
}
