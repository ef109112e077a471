//! Reading the program's input, and writing its output and its faults.

ghost use Rattle.std.specs.Prelude.{◌≡◌, IfErr, IfOk, string_bytes};
ghost use Rattle.html_render_tree.specs.Faults.{line_of};
ghost use Rattle.html_render_tree.specs.Program.{script_of};
ghost use Rattle.html_render_tree.specs.Streams.{ReadsAll, Writes};

use super::faults::Fault;
use arrayvec::ArrayString;
use std::alloc::Global;
use std::fmt::Write as _;
use std::io::{ErrorKind, Read, Write};
use std::{fmt, io};

/// Reads all of the input.
pub fn read_bytes<R: Read>(alloc: Global, input: &mut R) -> io::Result<Vec<u8>>
    ensures { IfOk result (λ bytes. ReadsAll (R.remaining input.old) (R.remaining input.new) bytes.items) }
{
    let mut bytes = Vec::new(alloc);
    input.read_to_end(&mut bytes)?;
    Ok(bytes)
}

/// Returns the script of the input's bytes, or `Input` if they aren't UTF-8. Allocates nothing.
pub fn script_from(bytes: Vec<u8>) -> Result<String, Fault>
    ensures ok { IfOk result (λ script. script_of bytes.items ≡ Ok (string_bytes script)) }
    ensures err { IfErr result (λ fault. script_of bytes.items ≡ Err fault) }
{
    match String::from_utf8(bytes) {
        Ok(script) => Ok(script),
        Err(_) => Err(Fault::Input),
    }
}

/// Writes all of the bytes. Repeats interrupted writes, and fails with `WriteZero` if a write takes none.
fn write_bytes<W: Write>(bytes: &[u8], writer: &mut W) -> io::Result<()>
    ensures { Writes (W.contents writer.old) (W.contents writer.new) result bytes.now }
{
    let mut rest = bytes;
    for _ in 0..u64::MAX {
        if rest.is_empty() {
            return Ok(());
        }
        match writer.write(rest) {
            Ok(0) => return Err(io::Error::from(ErrorKind::WriteZero)),
            Ok(count) => rest = &rest[count..],
            Err(error) => {
                if error.kind() != ErrorKind::Interrupted {
                    return Err(error);
                }
            }
        }
    }
    Err(io::Error::from(ErrorKind::TimedOut))
}

/// Writes all of a text, and flushes it.
pub fn write_text<W: Write>(text: &str, output: &mut W) -> io::Result<()>
    ensures { Writes (W.contents output.old) (W.contents output.new) result text.now }
{
    write_bytes(text.as_bytes(), output)?;
    output.flush()
}

/// Returns the line of a fault: its text and a newline. Allocates nothing.
fn fault_line(fault: Fault) -> Result<ArrayString<64>, fmt::Error>
    ensures { IfOk result (λ line. line.bytes ≡ line_of fault) }
{
    let mut line = ArrayString::<64>::new();
    writeln!(line, "{fault}")?;
    Ok(line)
}

/// Writes the line of a fault.
pub fn write_fault<W: Write>(fault: Fault, faults: &mut W) -> io::Result<()>
    ensures { Writes (W.contents faults.old) (W.contents faults.new) result (line_of fault) }
{
    match fault_line(fault) {
        Ok(line) => write_bytes(line.as_bytes(), faults),
        Err(_) => Err(io::Error::from(ErrorKind::WriteZero)),
    }
}
