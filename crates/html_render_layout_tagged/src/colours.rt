//! Lines as text under a colour map.
//!
//! With a map that writes `<` and `>` around each text, a line of the strings `a` and `b` becomes `<a><b>` and a newline.

ghost use Rattle.std.specs.Prelude.{◌≡◌, ◌++◌, List, Err, OnOk, IfOk, string_bytes};
ghost use Rattle.html_render_dom_values.specs.Outcome.{OnlyOutOfMemory};
ghost use Rattle.html_render_layout_tagged.specs.Grouping.{pieces_of, lines_of};
ghost use Rattle.html_render_layout_tagged.specs.Colouring.{IsColouredLine, IsColoured};

use crate::line::{TaggedLine, TaggedLineElement};
use html_render_dom_values::Error;
use std::alloc::Global;

/// Appends the text of a line: the map's results for its strings, and a newline.
fn push_line<A: Drop, F: FnMut(&[A], &str) -> Result<String, Error>>(
    text: &mut String,
    line: &TaggedLine<Vec<A>>,
    colour_map: &mut F,
) -> Result<(), Error>
    requires callable { F.IsAlwaysCallable colour_map.old }
    requires memory { (map : F) (tag : _) (string : _) (e : Error) → F.post map tag string (Err e) → e ≡ Error.OutOfMemory }
    ensures ok { OnOk result ((written : List _) × IsColouredLine F.step colour_map.old (pieces_of line.now) written colour_map.new
        × (string_bytes text.new ≡ string_bytes text.old ++ written)) }
    ensures callable { OnOk result (F.IsAlwaysCallable colour_map.new) }
    ensures err { OnlyOutOfMemory result }
{
    let mut left = line.elements();
    while let Some((element, others)) = left.split_first() {
        if let TaggedLineElement::Str(string) = element {
            let answer = colour_map(string.tag.as_slice(), string.s.as_str())?;
            text.push_str(answer.as_str())?;
        }
        left = others;
    }
    text.push('\n')?;
    Ok(())
}

/// Returns the text of lines: for each line, the results of `colour_map` for its strings, in order, and a newline (U+000A).
///
/// The map takes the annotations of a string, the outermost first, and its text. It is called once for each string, in order,
/// and never for a mark. The caller ensures that it can be called with any annotations and any text, and that its only error
/// is `OutOfMemory`.
///
/// # Errors
///
/// `OutOfMemory`, also if the map returns it.
pub fn coloured<A: Drop, F: FnMut(&[A], &str) -> Result<String, Error>>(
    alloc: Global,
    lines: &[TaggedLine<Vec<A>>],
    colour_map: F,
) -> Result<String, Error>
    requires callable { F.IsAlwaysCallable colour_map }
    requires memory { (map : F) (tag : _) (string : _) (e : Error) → F.post map tag string (Err e) → e ≡ Error.OutOfMemory }
    ensures ok { IfOk result (λ text. (last : F) × IsColoured F.step colour_map (lines_of lines.now) (string_bytes text) last) }
    ensures err { OnlyOutOfMemory result }
{
    let mut map = colour_map;
    let mut text = String::new(alloc);
    let mut left = lines;
    while let Some((line, others)) = left.split_first() {
        push_line(&mut text, line, &mut map)?;
        left = others;
    }
    Ok(text)
}
