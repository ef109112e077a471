//! Where lines end in the text and in the slots of a buffer.

ghost use Rattle.std.specs.Prelude.{◌≡◌, ◌+◌, ◌++◌, ◌<◌, ◌^◌, map, length, OnOk};
ghost use Rattle.std.specs.List.{All, slice_index_or};
ghost use Rattle.html_render_layout_buffer.specs.Fields.{place_of, no_end};
ghost use Rattle.html_render_layout_buffer.specs.Moved.{moved};

use std::alloc::AllocError;

/// Where a line ends.
#[derive(Clone, Copy)]
pub struct LineEnd {
    // end of its text, in bytes, after the newline
    text: usize,
    // end of its slots
    slots: usize,
    // its columns; `None` if they pass a machine word
    columns: Option<usize>,
}

impl LineEnd {
    /// Returns an end.
    #[inline]
    pub fn new(text: usize, slots: usize, columns: Option<usize>) -> LineEnd
        ensures { result ≡ record { text = text; slots = slots; columns = columns } }
    {
        LineEnd {
            text,
            slots,
            columns,
        }
    }
}

/// Where a line begins and ends.
#[derive(Clone, Copy)]
pub struct LinePlace {
    /// Beginning of its text, in bytes.
    pub text: usize,
    /// Its first slot.
    pub slots: usize,
    /// End of its text, in bytes, after the newline.
    pub text_end: usize,
    /// End of its slots.
    pub slots_end: usize,
}

/// Returns the columns of line `n`.
#[inline]
pub fn columns_at(ends: &[LineEnd], n: usize) -> Option<usize>
    requires { n < length ends.now }
    ensures { result ≡ (slice_index_or ends.now n no_end).columns }
{
    ends[n].columns
}

/// Returns the place of line `n`.
#[inline]
pub fn place_of(ends: &[LineEnd], n: usize) -> LinePlace
    requires { n < length ends.now }
    ensures { result ≡ place_of ends.now n }
{
    let end = ends[n];
    if n == 0 {
        return LinePlace {
            text: 0,
            slots: 0,
            text_end: end.text,
            slots_end: end.slots,
        };
    }
    let before = ends[n - 1];
    LinePlace {
        text: before.text,
        slots: before.slots,
        text_end: end.text,
        slots_end: end.slots,
    }
}

/// Appends ends, each moved by a number of bytes and of slots.
pub fn push_moved(
    ends: &mut Vec<LineEnd>,
    more: &[LineEnd],
    text: usize,
    slots: usize,
) -> Result<(), AllocError>
    requires text { All (λ (e : LineEnd). text + e.text < 2 ^ 64) more.now }
    requires slots { All (λ (e : LineEnd). slots + e.slots < 2 ^ 64) more.now }
    ensures { OnOk result (ends.new.items ≡ ends.old.items ++ map (moved text slots) more.now) }
{
    ends.reserve(more.len())?;
    for end in more {
        ends.push(LineEnd {
            text: text + end.text,
            slots: slots + end.slots,
            columns: end.columns,
        })?;
    }
    Ok(())
}
