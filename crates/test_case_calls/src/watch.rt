//! Reports of the library's calls, from which a test knows when to refuse allocations.

ghost use Rattle.std.specs.Prelude.{◌≡◌, IfOk, Ok};

use crate::faults::Fault;
use html_render_dom::Error;
use std::alloc::Global;
use std::fmt::Debug;
use std::io::{Stdout, Write};

/// Maximum number of times that a watched call is made, if it is out of memory each time.
pub const TRIES: usize = 1_000_000;

/// Reports calls on standard output, if they are watched; `None` reports nothing.
///
/// A line `call NAME` precedes a call, and a line `came RESULT` follows it. `RESULT` is `answer` for success, or else
/// `error` or `OutOfMemory`. All allocations between the two lines are the call's:
/// `watch.begin("new").end(RcDom::new(alloc))?` makes a call between them.
#[derive(Clone, Copy)]
pub struct Watch(pub Option<Stdout>);

impl Watch {
    /// Writes a part of a line, if calls are watched. Ignores a failure.
    fn write(self, text: &str) {
        if let Some(mut output) = self.0 {
            let _ = output.write_all(text.as_bytes());
        }
    }

    /// Reports the beginning of a call, and returns the watch, for the call's end.
    pub fn begin(self, call: &str) -> Watch {
        self.write("call ");
        self.write(call);
        self.write("\n");
        self
    }

    /// Begins a call if it is the one that is asked for, and otherwise returns a watch that reports nothing.
    pub fn begin_asked(self, asked: &str, call: &str) -> Watch {
        if asked == call {
            self.begin(call)
        } else {
            Watch(None)
        }
    }

    /// Reports the result of the call, in one write, and returns it.
    pub fn end<T: Drop, E: Drop>(self, came: Result<T, E>) -> Result<T, Fault>
    where
        Error: From<E>,
        ensures { IfOk result (λ value. came ≡ Ok value) }
    {
        match came {
            Ok(value) => {
                self.write("came answer\n");
                Ok(value)
            }
            Err(error) => {
                let error = Error::from(error);
                self.write(match error {
                    Error::OutOfMemory => "came OutOfMemory\n",
                    _ => "came error\n",
                });
                Err(Fault::Refused(error))
            }
        }
    }

    /// Reports that the call, which can't fail, is at its end, and returns its result.
    pub fn done<T: Drop>(self, value: T) -> Result<T, Fault> {
        self.end(Ok::<T, Error>(value))
    }

    /// Ends a call, and returns the line of its result.
    pub fn shown<T: Debug + Drop>(
        self,
        alloc: Global,
        came: Result<T, Error>,
    ) -> Result<String, Fault> {
        let value = self.end(came)?;
        Ok(format!(in alloc; "|{value:?}\n")?)
    }

    /// Reports whether an attempt is to be repeated: whether calls are watched, and it is out of memory.
    pub fn repeats(self, came: &Result<String, Fault>) -> bool {
        self.0.is_some() && matches!(came, Err(Fault::Refused(Error::OutOfMemory)))
    }
}
