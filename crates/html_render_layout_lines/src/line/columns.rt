//! The columns of texts, counted where a machine word holds them.

ghost use Rattle.std.specs.Prelude.{◌≡◌, ◌+◌, ℕ};
ghost use Rattle.std.specs.Str.{chars};
ghost use Rattle.html_render_layout_lines.specs.TaggedText.{counted, text_columns};

use crate::character::width_of;

/// Returns a count plus `more`; `None` past a machine word.
#[inline]
pub fn counted_on(count: Option<usize>, more: usize) -> Option<usize>
    ensures { (n : ℕ) → count ≡ counted n → result ≡ counted (n + more) }
{
    count?.checked_add(more)
}

/// Returns the columns of a text; `None` past a machine word.
pub fn text_columns(text: &str) -> Option<usize>
    ensures { result ≡ counted (text_columns (chars text.now)) }
{
    let mut count = Some(0);
    for c in text.chars() {
        count = counted_on(count, width_of(c));
    }
    count
}
