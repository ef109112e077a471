//! Faults: reasons for a run of the program without a text.

ghost use Rattle.std.specs.Prelude.{◌≡◌, Some};
ghost use Rattle.std.specs.IoError.{error_kind};
ghost use Rattle.html_render_tree.specs.Faults.{fault_message, read_fault, exit_status, words_fault};

use html_render_dom::Error;
use html_render_dom::script::ScriptError;
use std::io::ErrorKind;
use std::{fmt, io};

/// A reason for a run without a text.
#[derive(Clone, Copy)]
pub enum Fault {
    /// The document can't be converted or rendered, or memory is out.
    Refused(Error),
    /// The words are not `WIDTH [plain|rich|bare] [overflow]`.
    Arguments,
    /// The line of this number, from 1, is faulty.
    Line(usize),
    /// The input can't be read or isn't UTF-8.
    Input,
    /// The output can't be written or flushed.
    Output,
}

impl Fault {
    /// Returns the program's exit status.
    pub fn status(self) -> u8
        ensures { result ≡ exit_status self }
    {
        match self {
            Fault::Refused(_) => 1,
            _ => 2,
        }
    }

    /// Returns the fault of an input that can't be read because of this error.
    pub fn of_read(error: &io::Error) -> Fault
        ensures { result ≡ read_fault (error_kind error.now) }
    {
        match error.kind() {
            ErrorKind::OutOfMemory => Fault::Refused(Error::OutOfMemory),
            _ => Fault::Input,
        }
    }

    /// Returns the fault of a program whose words can't be read because of this error.
    pub fn of_words(error: &io::Error) -> Fault
        ensures { result ≡ words_fault (error_kind error.now) }
    {
        match error.kind() {
            ErrorKind::OutOfMemory => Fault::Refused(Error::OutOfMemory),
            _ => Fault::Arguments,
        }
    }
}

impl fmt::Display for Fault {
    ghost output = { λ fault. Some (fault_message fault) };

    fn fmt<W: fmt::Write>(&self, f: &mut fmt::Formatter<W>) -> fmt::Result {
        match self {
            Fault::Refused(error) => write!(f, "{error}"),
            Fault::Arguments => write!(f, "htree: arguments"),
            Fault::Line(number) => write!(f, "htree: line {number}"),
            Fault::Input => write!(f, "htree: input"),
            Fault::Output => write!(f, "htree: output"),
        }
    }
}

impl From<Error> for Fault {
    ghost use Rattle.html_render_tree.specs.declared.htree.faults.Fault.TheVariants.{Refused};

    ghost from_gives = { λ error fault. fault ≡ Refused error };

    /// Returns the fault of a document that can't be converted or rendered, or of a refused allocation.
    fn from(error: Error) -> Fault {
        Fault::Refused(error)
    }
}

impl From<ScriptError> for Fault {
    ghost use Rattle.html_render_tree.specs.Faults.{script_fault};

    ghost from_gives = { λ error fault. fault ≡ script_fault error };

    /// Returns the fault of a faulty line, or of a refused allocation.
    fn from(error: ScriptError) -> Fault {
        match error {
            ScriptError::Refused(error) => Fault::Refused(error),
            ScriptError::FaultyLine(number) => Fault::Line(number),
        }
    }
}
