//! Pieces of a text.

ghost use Rattle.std.specs.Prelude.{◌≡◌, IfNone, IfSome};
ghost use Rattle.std.specs.Option.{ForSome};
ghost use Rattle.html_render_dom.specs.Steps.{IsPiece, piece};

/// Returns a piece of a text, by its start and its size in bytes; `None` if it isn't within the text, or isn't UTF-8.
pub fn piece_of(text: &[u8], start: usize, size: usize) -> Option<&str>
    ensures some { IfSome result (λ s. (s.now ≡ piece text.now start size) × IsPiece text.now start size) }
    ensures none { IfNone result (¬ IsPiece text.now start size) }
{
    let end = start.checked_add(size)?;
    let bytes = text.get(start..end)?;
    str::from_utf8(bytes).ok()
}

/// Returns a piece of a string, by its start and its size in bytes; `None` if it isn't within the string, or begins or ends
/// inside a character.
fn piece_of_string(string: &str, start: usize, size: usize) -> Option<&str>
    ensures { IfSome result (λ s. (s.now ≡ piece string.now start size) × IsPiece string.now start size) }
{
    string.get(start..start.checked_add(size)?)
}

/// Returns a piece of a text, as [`piece_of`] does. `string` is the whole text, if all of it is UTF-8: its pieces aren't tested
/// again.
pub fn piece_in<'a>(
    text: &'a [u8],
    string: Option<&'a str>,
    start: usize,
    size: usize,
) -> Option<&'a str>
    requires { ForSome string (λ s. s.now ≡ text.now) }
    ensures some { IfSome result (λ s. (s.now ≡ piece text.now start size) × IsPiece text.now start size) }
    ensures none { IfNone result (¬ IsPiece text.now start size) }
{
    if let Some(string) = string {
        if let Some(piece) = piece_of_string(string, start, size) {
            return Some(piece);
        }
    }
    piece_of(text, start, size)
}
