//! The errors of readers and writers.
ghost use Rattle.std.specs.Prelude.{◌≡◌};
ghost use Rattle.autfmt.specs.declared.fault.Fault.TheVariants.{Device, Memory};

use crate::stream::Broken;
use lts::Memory;
use std::alloc::{AllocError, AllocFailed};
use thiserror::Error;

/// The reason why an input or a hide list (the labels to hide) is incorrect, or why reading or writing stopped. Lines
/// are counted from 1.
#[derive(Clone, Copy, Debug, PartialEq, Eq, Error)]
pub enum Fault {
    /// Line 1 is not a header, or the input has no line.
    #[error("bad header")]
    BadHeader,
    /// The first state is not less than the number of states, although the number of states is at least 1.
    #[error("first state out of range")]
    FirstState,
    /// The header declares no states.
    #[error("no states")]
    NoStates,
    /// The header declares more states than the limit allows.
    #[error("too many states")]
    TooManyStates,
    /// The header declares more transitions than the limit allows.
    #[error("too many transitions")]
    TooManyTransitions,
    /// The line with this number has more than 8192 bytes without its line feed.
    #[error("line {0}: too long")]
    LineTooLong(u32),
    /// The line with this number is not a transition.
    #[error("line {0}: not a transition")]
    BadEdge(u32),
    /// The source of the transition on the line with this number is not less than the number of states.
    #[error("line {0}: source out of range")]
    SourceRange(u32),
    /// The target of the transition on the line with this number is not less than the number of states.
    #[error("line {0}: target out of range")]
    TargetRange(u32),
    /// The line with this number follows the last transition that the header declares.
    #[error("line {0}: text after the last transition")]
    ExtraText(u32),
    /// The input ends after this number of transitions, although the header declares more transitions.
    #[error("only {0} transitions found")]
    MissingEdges(u32),
    /// A source (the object from which the input is read) or a sink (the object to which the output is written) has
    /// failed.
    #[error("read or write failed")]
    Device,
    /// An allocation failed.
    #[error("out of memory")]
    Memory,
    /// The line with this number in a hide list (the labels to hide) is not a label.
    #[error("line {0}: not a label")]
    BadHide(u32),
    /// The hide list (the labels to hide) has more than 100,000 lines.
    #[error("too many hidden labels")]
    TooManyHidden,
}

impl From<Broken> for Fault {
    ghost from_gives = { λ _ fault. fault ≡ Device };

    fn from(_broken: Broken) -> Fault {
        Fault::Device
    }
}

impl From<Memory> for Fault {
    ghost from_gives = { λ _ fault. fault ≡ Memory };

    fn from(_refused: Memory) -> Fault {
        Fault::Memory
    }
}

impl From<AllocError> for Fault {
    ghost from_gives = { λ _ fault. fault ≡ Memory };

    fn from(_refused: AllocError) -> Fault {
        Fault::Memory
    }
}

impl<T: Drop> From<AllocFailed<T>> for Fault {
    ghost from_gives = { λ _ fault. fault ≡ Memory };

    fn from(_refused: AllocFailed<T>) -> Fault {
        Fault::Memory
    }
}
