//! Faults: reasons for a call without a result.

ghost use Rattle.std.specs.Prelude.{◌≡◌, ◌≤◌};
ghost use Rattle.html_render_tree_records.specs.Faults.{code_of, record_of};

use html_render_dom::steps::building::StepError;
use html_render_tree::Error;
use std::alloc::{AllocError, AllocFailed};

/// A reason for a call without a result.
#[derive(Clone, Copy, Debug)]
pub enum Fault {
    /// The document can't be converted or rendered, or memory is out.
    Refused(Error),
    /// The step of this number, from 0, is faulty.
    Step(usize),
    /// The setting of this number, from 0, is faulty.
    Setting(usize),
    /// There is no decorator of the given number.
    Decorator,
}

impl From<Error> for Fault {
    ghost use Rattle.html_render_tree_records.specs.declared.faults.Fault.TheVariants.{Refused};

    ghost from_gives = { λ error fault. fault ≡ Refused error };

    /// Returns the fault of a refused call.
    fn from(error: Error) -> Fault {
        Fault::Refused(error)
    }
}

impl From<AllocError> for Fault {
    ghost use Rattle.html_render_tree_records.specs.declared.faults.Fault.TheVariants.{Refused};
    ghost use Rattle.html_render_dom_values.specs.declared.errors.Error.TheVariants.{OutOfMemory};

    ghost from_gives = { λ _ fault. fault ≡ Refused OutOfMemory };

    /// Returns the fault of a refused allocation.
    fn from(refusal: AllocError) -> Fault {
        Fault::Refused(Error::from(refusal))
    }
}

impl<T: Drop> From<AllocFailed<T>> for Fault {
    ghost use Rattle.html_render_tree_records.specs.declared.faults.Fault.TheVariants.{Refused};
    ghost use Rattle.html_render_dom_values.specs.declared.errors.Error.TheVariants.{OutOfMemory};

    ghost from_gives = { λ _ fault. fault ≡ Refused OutOfMemory };

    /// Returns the fault of a refused allocation, and drops the value that wasn't stored.
    fn from(refusal: AllocFailed<T>) -> Fault {
        Fault::Refused(Error::from(refusal))
    }
}

impl From<StepError> for Fault {
    ghost use Rattle.html_render_tree_records.specs.Faults.{fault_of};

    ghost from_gives = { λ error fault. fault ≡ fault_of error };

    /// Returns the fault of steps that build no document.
    fn from(error: StepError) -> Fault {
        match error {
            StepError::Refused(error) => Fault::Refused(error),
            StepError::Faulty(number) => Fault::Step(number),
        }
    }
}

impl Fault {
    /// Returns the status of the fault, from 1 to 6.
    pub fn code(self) -> u32
        ensures code { result ≡ code_of self }
        ensures range { (1 ≤ result) × (result ≤ 6) }
    {
        match self {
            Fault::Refused(Error::TooNarrow) => 1,
            Fault::Refused(Error::Fail) => 2,
            Fault::Refused(Error::OutOfMemory) => 3,
            Fault::Step(_) => 4,
            Fault::Setting(_) => 5,
            Fault::Decorator => 6,
        }
    }

    /// Returns the number of the faulty record, or 0 if the fault has none.
    pub fn record(self) -> usize
        ensures { result ≡ record_of self }
    {
        match self {
            Fault::Step(number) | Fault::Setting(number) => number,
            Fault::Refused(_) | Fault::Decorator => 0,
        }
    }
}
