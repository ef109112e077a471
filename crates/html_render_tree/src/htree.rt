//! The program `htree` as a function: a script of DOM calls becomes text.
//!
//! `run(alloc, words, &mut input, &mut output, &mut faults)` with the words `11`, `plain`, `overflow` and the
//! input `<p` and `"Hello wide world` writes `Hello wide` and `world` to `output` and returns 0.

ghost use Rattle.std.specs.Prelude.{◌≡◌, ◌≤◌, None, IfErr, IfOk, IsSome, OnOk, map, string_bytes};
ghost use Rattle.std.specs.IoError.{error_kind};
ghost use Rattle.html_render_tree.specs.declared.htree.faults.Fault.{Fault};
ghost use Rattle.html_render_tree.specs.Faults.{line_of, exit_status, words_fault};
ghost use Rattle.html_render_tree.specs.Program.{document_in, run_outcome, EndsWith, IsReadFault, ReadSuch, Succeeds};
ghost use Rattle.html_render_tree.specs.Streams.{AppendsFront, Writes};
ghost use Rattle.html_render_tree.specs.Words.{settings_of};

use faults::Fault;
use html_render_dom::dom::RcDom;
use html_render_dom::script::built;
use std::alloc::Global;
use std::io;
use std::io::{Read, Write};
use words::Settings;

mod faults;
mod rendering;
mod streams;
mod words;

/// Builds the DOM of the script in `input`. The script is dropped.
fn read_document<R: Read>(alloc: Global, input: &mut R) -> Result<RcDom, Fault>
    ensures ok { IfOk result (λ dom. ReadSuch (R.remaining input.old) (R.remaining input.new) (λ bytes. document_in bytes ≡ Ok dom)) }
    ensures err { IfErr result (λ fault. IsReadFault (R.remaining input.old) (R.remaining input.new) document_in fault) }
{
    let bytes = match streams::read_bytes(alloc, input) {
        Ok(bytes) => bytes,
        Err(error) => return Err(Fault::of_read(&error)),
    };
    let script = streams::script_from(bytes)?;
    Ok(built(alloc, script.as_str())?)
}

/// Returns the text of the script in `input`, as the words ask for it. Refuses words of another form before anything is
/// read.
fn text_of_input<R: Read>(alloc: Global, words: &[String], input: &mut R) -> Result<String, Fault>
    ensures words { settings_of (map string_bytes words.now) ≡ None → (result ≡ Err Fault.Arguments) × (input.new ≡ input.old) }
    ensures ok { IfOk result (λ text.
        ReadSuch (R.remaining input.old) (R.remaining input.new) (λ bytes. run_outcome (map string_bytes words.now) bytes ≡ Ok (string_bytes text))) }
    ensures err { IsSome (settings_of (map string_bytes words.now)) → IfErr result (λ fault.
        IsReadFault (R.remaining input.old) (R.remaining input.new) (run_outcome (map string_bytes words.now)) fault) }
{
    let settings = Settings::read(words)?;
    let dom = read_document(alloc, input)?;
    rendering::rendered(alloc, &settings, dom)
}

/// Writes the text of the script in `input` to `output`.
fn write_text<R: Read, O: Write>(
    alloc: Global,
    words: &[String],
    input: &mut R,
    output: &mut O,
) -> Result<(), Fault>
    ensures words { settings_of (map string_bytes words.now) ≡ None →
        (result ≡ Err Fault.Arguments) × (input.new ≡ input.old) × (output.new ≡ output.old) }
    ensures ok { OnOk result
        (Succeeds (map string_bytes words.now) (R.remaining input.old) (R.remaining input.new) (O.contents output.old) (O.contents output.new)) }
    ensures err { IsSome (settings_of (map string_bytes words.now)) → IfErr result (λ fault.
        EndsWith (map string_bytes words.now) (R.remaining input.old) (R.remaining input.new) (O.contents output.old) (O.contents output.new) fault) }
{
    let text = text_of_input(alloc, words, input)?;
    match streams::write_text(text.as_str(), output) {
        Ok(()) => Ok(()),
        Err(_) => Err(Fault::Output),
    }
}

/// End of a run.
#[derive(Drop)]
struct Ending {
    /// Exit status.
    status: u8,
    /// Whether the line of a fault could be written, if there is one.
    reported: io::Result<()>,
}

impl Ending {
    /// Writes the line of a fault, and returns the end of a run with that fault.
    fn with_fault<F: Write>(fault: Fault, faults: &mut F) -> Ending
        ensures status { result.status ≡ exit_status fault }
        ensures line { Writes (F.contents faults.old) (F.contents faults.new) result.reported (line_of fault) }
    {
        Ending {
            reported: streams::write_fault(fault, faults),
            status: fault.status(),
        }
    }
}

/// Does what [`run`] does, and also returns whether the line of a fault could be written.
fn ended<R: Read, O: Write, F: Write>(
    alloc: Global,
    words: &[String],
    input: &mut R,
    output: &mut O,
    faults: &mut F,
) -> Ending
    ensures words { settings_of (map string_bytes words.now) ≡ None →
        (result.status ≡ 2) × (input.new ≡ input.old) × (output.new ≡ output.old)
        × Writes (F.contents faults.old) (F.contents faults.new) result.reported (line_of Fault.Arguments) }
    ensures text { result.status ≡ 0 → (faults.new ≡ faults.old)
        × Succeeds (map string_bytes words.now) (R.remaining input.old) (R.remaining input.new) (O.contents output.old) (O.contents output.new) }
    ensures fault { 1 ≤ result.status → IsSome (settings_of (map string_bytes words.now)) →
        (fault : Fault) × (result.status ≡ exit_status fault)
        × Writes (F.contents faults.old) (F.contents faults.new) result.reported (line_of fault)
        × EndsWith (map string_bytes words.now) (R.remaining input.old) (R.remaining input.new) (O.contents output.old) (O.contents output.new) fault }
    ensures status { result.status ≤ 2 }
{
    match write_text(alloc, words, input, output) {
        Ok(()) => Ending {
            status: 0,
            reported: Ok(()),
        },
        Err(fault) => Ending::with_fault(fault, faults),
    }
}

/// Writes the text of the script in `input` to `output`, or one line about a fault to `faults`. Returns the program's exit
/// status.
///
/// - 0: The text is written.
/// - 1: The text of an [`Error`](crate::Error), if the document can't be rendered or memory is out.
/// - 2: `htree: arguments` for words that are not `WIDTH [plain|rich|bare] [overflow]`, `htree: input` if `input` can't be
///   read or isn't UTF-8, `htree: line N` (from 1) for a faulty line, `htree: output` if `output` can't be written or
///   flushed.
///
/// A failed write to `faults` changes no status.
///
/// The words are those after the program's name, and are checked first; then the whole input is read. The width is a number
/// of columns. `plain`, which is also the preset of words that name none, is text as [`plain`](crate::config::plain) renders
/// it, `rich` as [`rich`](crate::config::rich) and `bare` as [`plain_no_decorate`](crate::config::plain_no_decorate).
/// `overflow` is [`Config::allow_width_overflow`](crate::config::Config::allow_width_overflow).
pub fn run<R: Read, O: Write, F: Write>(
    alloc: Global,
    words: &[String],
    input: &mut R,
    output: &mut O,
    faults: &mut F,
) -> u8
    // words of another form are refused, and nothing is read
    ensures words { settings_of (map string_bytes words.now) ≡ None →
        (result ≡ 2) × (input.new ≡ input.old) × (output.new ≡ output.old)
        × AppendsFront (F.contents faults.old) (F.contents faults.new) (line_of Fault.Arguments) }

    // with 0, the text of all of the input, as the words ask for it, is written to the output, and no fault to the faults
    ensures text { result ≡ 0 → (faults.new ≡ faults.old)
        × Succeeds (map string_bytes words.now) (R.remaining input.old) (R.remaining input.new) (O.contents output.old) (O.contents output.new) }

    // otherwise there is a fault with this status, and its line is written, or a front of it if the write fails
    ensures fault { 1 ≤ result → IsSome (settings_of (map string_bytes words.now)) →
        (fault : Fault) × (result ≡ exit_status fault)
        × AppendsFront (F.contents faults.old) (F.contents faults.new) (line_of fault)
        × EndsWith (map string_bytes words.now) (R.remaining input.old) (R.remaining input.new) (O.contents output.old) (O.contents output.new) fault }
    ensures status { result ≤ 2 }
{
    let Ending {
        status,
        reported: _,
    } = ended(alloc, words, input, output, faults);
    status
}

/// Ends a program whose words can't be read because of this error, as [`run`] ends: with status 1 and `Out of memory` if
/// memory is out, and otherwise with 2 and `htree: arguments`.
pub fn run_without_words<F: Write>(error: &io::Error, faults: &mut F) -> u8
    ensures status { result ≡ exit_status (words_fault (error_kind error.now)) }
    ensures line { AppendsFront (F.contents faults.old) (F.contents faults.new) (line_of (words_fault (error_kind error.now))) }
{
    let Ending {
        status,
        reported: _,
    } = Ending::with_fault(Fault::of_words(error), faults);
    status
}
