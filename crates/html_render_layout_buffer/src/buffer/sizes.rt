//! Sizes of a buffer's ended lines, in bytes and in columns.

ghost use Rattle.std.specs.Prelude.{◌≡◌, ℕ, ◌+◌, ◌-◌, ◌≤◌, ◌<◌, drop, length, nat_le, IfSome, IfNone};
ghost use Rattle.std.specs.List.{list_all};
ghost use Rattle.html_render_layout_lines.specs.Line.{columns};
ghost use Rattle.html_render_layout_lines.specs.TaggedText.{counted};
ghost use Rattle.html_render_layout_buffer.specs.Pieces.{AllAtLeast, fits_after};

use super::{LineBuffer, counted_sum};
use crate::ends::place_of;
use html_render_layout_lines::tag::Tag;

impl<T: Tag, M: Copy> LineBuffer<T, M> {
    /// Returns the number of bytes of the text.
    #[inline]
    pub(crate) fn byte_count(&self) -> usize {
        self.text.as_str().len()
    }

    /// Returns the number of bytes of ended line `n`, with its newline.
    pub(crate) fn line_bytes(&self, n: usize) -> usize
        requires { n < length self.now.lines }
    {
        let place = place_of(self.ends.as_slice(), n);
        place.text_end.saturating_sub(place.text)
    }

    /// Reports whether an ended line, from line `from` on, has more than `bytes` bytes with its newline.
    pub(crate) fn has_longer_line(&self, from: usize, bytes: usize) -> bool {
        for n in from..self.line_count() {
            if self.line_bytes(n) > bytes {
                return true;
            }
        }
        false
    }

    /// Returns a number of columns that each ended line has at least.
    pub(crate) fn least_columns(&self) -> usize
        ensures { AllAtLeast result self.now.lines }
    {
        let mut least = usize::MAX;
        for n in 0..self.line_count() {
            least = lesser(least, self.line_columns(n));
        }
        least
    }

    /// Reports whether the ended lines from line `from` on fit in `width` columns, each after `before` columns. `before` is
    /// `None` if it passes a machine word.
    pub(crate) fn lines_fit_after(&self, from: usize, before: Option<usize>, width: usize) -> bool
        requires { from ≤ length self.now.lines }
        ensures { (k : ℕ) → before ≡ counted k → result ≡ list_all (λ l. nat_le (k + columns l) width) (drop from self.now.lines) }
    {
        let Some(room) = room_after(before, width) else {
            return self.line_count() <= from;
        };
        for n in from..self.line_count() {
            if !is_within(self.line_columns(n), room) {
                return false;
            }
        }
        true
    }

    /// Reports whether the ended lines fit in `width` columns, the first after `first` columns and the others after `later`
    /// columns. Each is `None` if it passes a machine word.
    pub(crate) fn fits_after(
        &self,
        first: Option<usize>,
        later: Option<usize>,
        width: usize,
    ) -> bool
        ensures { (a b : ℕ) → first ≡ counted a → later ≡ counted b → result ≡ fits_after a b width self.now.lines }
    {
        if self.line_count() == 0 {
            return true;
        }
        is_within(counted_sum(first, self.line_columns(0)), width)
            && self.lines_fit_after(1, later, width)
    }
}

/// Returns the lesser of a number of columns and that of a line. A line's is `None` if it passes a machine word.
fn lesser(least: usize, columns: Option<usize>) -> usize
    ensures own { result ≤ least }
    ensures line { (n : ℕ) → columns ≡ counted n → result ≤ n }
{
    match columns {
        Some(columns) => least.min(columns),
        None => least,
    }
}

/// Reports whether a line has at most `width` columns. Its number is `None` if it passes a machine word.
#[inline]
pub(crate) fn is_within(columns: Option<usize>, width: usize) -> bool
    ensures { (n : ℕ) → columns ≡ counted n → result ≡ nat_le n width }
{
    match columns {
        Some(columns) => columns <= width,
        None => false,
    }
}

/// Returns how many of `width` columns are left after others. `None` if these are more; they are `None` if they pass a machine word.
#[inline]
fn room_after(before: Option<usize>, width: usize) -> Option<usize>
    ensures some { (k : ℕ) → before ≡ counted k → IfSome result (λ room. k + room ≡ width) }
    ensures none { (k : ℕ) → before ≡ counted k → IfNone result (width < k) }
{
    width.checked_sub(before?)
}

/// Returns how many columns a line has less than `width`. Its number is `None` if it passes a machine word.
#[inline]
pub fn columns_missing(columns: Option<usize>, width: usize) -> usize
    ensures { (n : ℕ) → columns ≡ counted n → result ≡ width - n }
{
    match columns {
        Some(columns) => width.saturating_sub(columns),
        None => 0,
    }
}
