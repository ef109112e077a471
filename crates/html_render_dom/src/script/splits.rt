//! Parts of a script: its lines, and the texts around a byte.

ghost use Rattle.std.specs.Prelude.{◌≡◌, ◌≢◌, ◌==◌, ◌<◌, ◌∷◌, ℕ, List, length, MatchOption};
ghost use Rattle.std.specs.List.{after_first, before_first, position_or_len};
ghost use Rattle.std.specs.Str.Lines.{lines, strip_carriage_return};

use memchr::memchr;

/// Returns the text before the first byte with this value, which is an ASCII character, and the text after that byte; `None`
/// if there is no such byte.
pub fn split_at_byte(byte: u8, text: &str) -> Option<(&str, &str)>
    requires { byte < 128 }
    ensures { MatchOption result (position_or_len (λ b. b == byte) text.now ≡ length text.now)
        (λ x. (position_or_len (λ b. b == byte) text.now < length text.now) × (x.0.now ≡ before_first (λ b. b == byte) text.now)
        × (x.1.now ≡ after_first (λ b. b == byte) text.now)) }
{
    match memchr(byte, text.as_bytes()) {
        Some(at) => {
            let before = &text[..at];
            let after = &text[at + 1..];
            Some((before, after))
        }
        None => None,
    }
}

/// Returns the text after its first byte, if that has this value, which is an ASCII character.
#[inline(always)]
pub fn after_byte(byte: u8, text: &str) -> Option<&str>
    requires { byte < 128 }
    ensures { MatchOption result ((rest : List ℕ) → text.now ≢ byte ∷ rest) (λ rest. text.now ≡ byte ∷ rest.now) }
{
    match text.as_bytes().first() {
        Some(first) if *first == byte => Some(&text[1..]),
        _ => None,
    }
}

/// Returns a line without the carriage return at its end, if it has one.
fn without_carriage_return(line: &str) -> &str
    ensures { result.now ≡ strip_carriage_return line.now }
{
    match line.as_bytes().last() {
        Some(last) if *last == b'\r' => &line[..line.len() - 1],
        _ => line,
    }
}

/// Returns the first line of a script, without its line feed and a carriage return before that, and the lines after it.
pub fn split_line(script: &str) -> (&str, &str)
    requires { 0 < length script.now }
    ensures lines { lines script.now ≡ result.0.now ∷ lines result.1.now }
    ensures shorter { length result.1.now < length script.now }
{
    match split_at_byte(b'\n', script) {
        Some((line, after)) => (without_carriage_return(line), after),
        None => (script, ""),
    }
}
