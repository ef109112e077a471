ghost use Rattle.std.specs.Prelude.{◌≡◌, Some, codes};
ghost use Rattle.html_render_dom_values.specs.declared.errors.Error.TheVariants.{OutOfMemory};
ghost use Rattle.html_render_dom_values.specs.Outcome.{message_of, number_of};

use std::alloc::{AllocError, AllocFailed};
use std::fmt;

/// Reason why a document couldn't be built, converted or rendered.
#[derive(Clone, Copy, Debug, PartialEq, Eq)]
pub enum Error {
    /// The output width is too small for the document. Either it is 0 or, with overflow off, one of these holds:
    ///
    /// - A character is wider than a line of its block.
    /// - A prefix leaves a sub-block fewer columns than its minimum width.
    /// - A line of a sub-block, with its prefix, passes the width of the outer block.
    TooNarrow = 1,
    /// The document can't be converted, or a table has no grid:
    ///
    /// - The render tree would have a row, a cell, a body or a foot of a table outside of its place in a table.
    /// - A cell, placeholder or gap of a table would end past position `u128::MAX` of its row.
    Fail = 2,
    /// An allocation was refused.
    OutOfMemory = 3,
}

impl Error {
    /// Returns the number of the error, its discriminant: 1, 2 or 3.
    fn number(self) -> u8
        ensures { result ≡ number_of self }
    {
        self as u8
    }
}

impl fmt::Display for Error {
    ghost output = { λ e. Some (message_of e) };

    fn fmt<W: fmt::Write>(&self, f: &mut fmt::Formatter<W>) -> fmt::Result {
        match self {
            Error::TooNarrow => write!(f, "Output width not wide enough."),
            Error::Fail => write!(f, "Unknown failure"),
            Error::OutOfMemory => write!(f, "Out of memory"),
        }
    }
}

impl From<AllocError> for Error {
    ghost from_gives = { λ _ e. e ≡ OutOfMemory };

    fn from(_refusal: AllocError) -> Error {
        Error::OutOfMemory
    }
}

impl<T: Drop> From<AllocFailed<T>> for Error {
    ghost from_gives = { λ _ e. e ≡ OutOfMemory };

    fn from(_refusal: AllocFailed<T>) -> Error {
        Error::OutOfMemory
    }
}
