//! How wide the lines of a block are.

ghost use Rattle.std.specs.Prelude.{◌≡◌, ℕ};
ghost use Rattle.html_render_layout_buffer.specs.Widths as widths;

use crate::buffer::LineBuffer;
use html_render_layout_lines::tag::Tag;

/// Columns of a block's first line, and the greatest columns of its other lines. `None` if they pass a machine word.
#[derive(Clone, Copy)]
pub enum Widths {
    /// No lines.
    NoLines,
    /// One line.
    One(Option<usize>),
    /// Several lines.
    Several(Option<usize>, Option<usize>),
}

impl Widths {
    /// Returns the widths with one line more.
    #[inline]
    pub(super) fn with_line(self, columns: Option<usize>) -> Widths
        ensures { result ≡ widths.with_line self columns }
    {
        match self {
            Widths::NoLines => Widths::One(columns),
            Widths::One(first) => Widths::Several(first, columns),
            Widths::Several(first, later) => Widths::Several(first, columns_max(later, columns)),
        }
    }

    /// Returns the widths with a buffer's ended lines after the others.
    pub(super) fn with_each<T: Tag, M: Copy>(self, lines: &LineBuffer<T, M>) -> Widths
        ensures { result ≡ widths.with_each self lines.now.lines }
    {
        let mut all = self;
        for n in 0..lines.line_count() {
            all = all.with_line(lines.line_columns(n));
        }
        all
    }

    /// Returns the widths with the lines of an inner block after the others: the first one after a prefix of `first` columns, and its
    /// other lines after `later` columns.
    pub(super) fn with_block(
        self,
        first: Option<usize>,
        later: Option<usize>,
        inner: Widths,
    ) -> Widths
        ensures { result ≡ widths.with_block self first later inner }
    {
        match inner {
            Widths::NoLines => self,
            Widths::One(columns) => self.with_line(columns_sum(first, columns)),
            Widths::Several(columns, others) => self
                .with_line(columns_sum(first, columns))
                .with_line(columns_sum(later, others)),
        }
    }

    /// Reports whether the lines fit in `width` columns, the first after `first` columns and the others after `later` columns.
    pub(super) fn fit(self, first: Option<usize>, later: Option<usize>, width: usize) -> bool
        ensures { result ≡ widths.fit self first later width }
    {
        match self {
            Widths::NoLines => true,
            Widths::One(columns) => is_within(columns_sum(first, columns), width),
            Widths::Several(columns, others) => {
                is_within(columns_sum(first, columns), width)
                    && is_within(columns_sum(later, others), width)
            }
        }
    }
}

/// Returns the sum of two numbers of columns. `None` if it passes a machine word.
#[inline]
fn columns_sum(count: Option<usize>, more: Option<usize>) -> Option<usize>
    ensures { result ≡ widths.columns_sum count more }
{
    match (count, more) {
        (Some(count), Some(more)) => count.checked_add(more),
        (Some(_), None) => None,
        (None, _) => None,
    }
}

/// Returns the greater of two numbers of columns.
#[inline]
fn columns_max(count: Option<usize>, other: Option<usize>) -> Option<usize>
    ensures { result ≡ widths.columns_max count other }
{
    match (count, other) {
        (Some(count), Some(other)) => Some(count.max(other)),
        (Some(_), None) => None,
        (None, _) => None,
    }
}

/// Reports whether a number of columns is at most `width`.
#[inline]
fn is_within(columns: Option<usize>, width: usize) -> bool
    ensures { result ≡ widths.is_within columns width }
{
    match columns {
        Some(columns) => columns <= width,
        None => false,
    }
}
