//! Tests whether columns fit a width.

ghost use Rattle.std.specs.Prelude.{◌≡◌, ◌+◌, ◌||◌, nat_le};

/// Reports whether `more` columns fit a line of `width` columns after `columns` columns and a gap of `gap` columns.
///
/// The sum of these may pass `usize::MAX`: it isn't computed.
#[inline]
pub fn fits_after_gap(columns: usize, gap: usize, more: usize, width: usize) -> bool
    ensures { result ≡ nat_le (columns + gap + more) width }
{
    columns <= width && gap <= width - columns && more <= width - columns - gap
}

/// Reports whether `columns` columns are allowed on a line of `width` columns: if they fit, or if `overflow` is on.
#[inline]
pub fn is_allowed_on_line(columns: usize, width: usize, overflow: bool) -> bool
    ensures { result ≡ (overflow || nat_le columns width) }
{
    overflow || columns <= width
}
