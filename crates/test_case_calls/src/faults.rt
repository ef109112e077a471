//! Faults of lines of cases.

use html_render_dom::Error;
use std::alloc::AllocError;
use std::num::ParseIntError;
use std::str::ParseBoolError;
use thiserror::Error;

/// The reason why a line of a case can't be played.
#[derive(Debug, Drop, Error)]
pub enum Fault {
    /// The library's call returns an error.
    #[error("{0}")]
    Refused(#[from] Error),
    /// An allocation of the player is refused.
    #[error(transparent)]
    Memory(#[from(alloc)] AllocError),
    /// A word isn't a number.
    #[error(transparent)]
    Number(#[from] ParseIntError),
    /// A word is neither `true` nor `false`.
    #[error(transparent)]
    Truth(#[from] ParseBoolError),
    /// The line isn't in the form of its call or breaks the call's condition, or a call did something that a test forbids.
    #[error("{0}")]
    Malformed(&'static str),
    /// The line of this number of a script is faulty.
    #[error("line {0} of the script is faulty")]
    FaultyLine(usize),
}
