//! This module contains definitions that both sources and sinks use. A source is the object from which the input is
//! read, and a sink is the object to which the output is written. The definitions are the error of a source or a sink
//! that has failed, and a limit on the number of bytes that one call moves.
ghost use Rattle.std.specs.Prelude.{◌≡◌};
ghost use Rattle.autfmt.specs.Pieces.{capped};

/// The error of a source (the object from which the input is read) or a sink (the object to which the output is
/// written) that has failed. After this error, the source or the sink must not be used again.
#[derive(Clone, Copy, Debug, PartialEq, Eq)]
pub struct Broken;

/// Returns the smaller of the two numbers `n` and `most`. If `most` is `None`, returns `n`.
pub(crate) fn at_most(most: Option<usize>, n: usize) -> usize
    ensures { result ≡ capped most n }
{
    match most {
        Some(k) => k.min(n),
        None => n,
    }
}
