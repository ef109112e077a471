//! Escapes in the texts of a script.

ghost use Rattle.std.specs.Prelude.{◌≡◌, ◌<◌, ◌∷◌, [], length, MatchOption, None, string_bytes};
ghost use Rattle.std.specs.Str.{IsUtf8};
ghost use Rattle.html_render_dom.specs.Faults.{Takes};
ghost use Rattle.html_render_dom.specs.script.Commands.{unescaped};
ghost use Rattle.html_render_dom.specs.script.Plain.{text_followed_by};

use super::splits::{after_byte, split_at_byte};
use crate::faults::Fault;

/// Returns the character of an escape, by the text after its backslash, and the text after the escape: `n` is a line feed,
/// and a backslash is itself. Returns `None` for any other escape.
fn escape_of(after: &str) -> Option<(char, &str)>
    ensures { MatchOption result (unescaped (92 ∷ after.now) ≡ None) (λ x. (x.0 < 128) × (length x.1.now < length after.now) × IsUtf8 x.1.now
        × (unescaped (92 ∷ after.now) ≡ text_followed_by (x.0 ∷ []) (unescaped x.1.now))) }
{
    if let Some(more) = after_byte(b'n', after) {
        return Some(('\n', more));
    }
    match after_byte(b'\\', after) {
        Some(more) => Some(('\\', more)),
        None => None,
    }
}

/// Writes a text with its escapes resolved in place of `plain`. An unknown escape is faulty.
pub fn resolve(text: &str, plain: &mut String) -> Result<(), Fault>
    ensures { Takes result (unescaped text.now) (string_bytes plain.new) }
{
    plain.clear();
    let mut rest = text;
    while let Some((before, after)) = split_at_byte(b'\\', rest) {
        let Some((character, more)) = escape_of(after) else {
            return Err(Fault::Faulty);
        };
        plain.push_str(before)?;
        plain.push(character)?;
        rest = more;
    }
    plain.push_str(rest)?;
    Ok(())
}
