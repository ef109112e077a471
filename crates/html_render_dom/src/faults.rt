//! Faults of single calls on a document.

ghost use Rattle.std.specs.Prelude.{◌≡◌};

use html_render_dom_values::Error;
use std::alloc::{AllocError, AllocFailed};

/// A reason for a call on a document that isn't made.
#[derive(Clone, Copy, Debug)]
pub enum Fault {
    /// Memory is out.
    Refused(Error),
    /// The call is unknown, or can't be made on this document.
    Faulty,
}

impl From<Error> for Fault {
    ghost use Rattle.html_render_dom.specs.declared.faults.Fault.TheVariants.{Refused};

    ghost from_gives = { λ error fault. fault ≡ Refused error };

    /// Returns the fault of a refused call on the document.
    fn from(error: Error) -> Fault {
        Fault::Refused(error)
    }
}

impl From<AllocError> for Fault {
    ghost use Rattle.html_render_dom.specs.declared.faults.Fault.TheVariants.{Refused};
    ghost use Rattle.html_render_dom_values.specs.declared.errors.Error.TheVariants.{OutOfMemory};

    ghost from_gives = { λ _ fault. fault ≡ Refused OutOfMemory };

    /// Returns the fault of a refused allocation.
    fn from(refusal: AllocError) -> Fault {
        Fault::Refused(Error::from(refusal))
    }
}

impl<T: Drop> From<AllocFailed<T>> for Fault {
    ghost use Rattle.html_render_dom.specs.declared.faults.Fault.TheVariants.{Refused};
    ghost use Rattle.html_render_dom_values.specs.declared.errors.Error.TheVariants.{OutOfMemory};

    ghost from_gives = { λ _ fault. fault ≡ Refused OutOfMemory };

    /// Returns the fault of a refused allocation, and drops the value that wasn't stored.
    fn from(refusal: AllocFailed<T>) -> Fault {
        Fault::Refused(Error::from(refusal))
    }
}
