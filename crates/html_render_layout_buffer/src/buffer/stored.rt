//! One ended line of a buffer, as it is stored.

ghost use Rattle.std.specs.Prelude.{◌≡◌, ◌-◌, ◌≤◌, ◌<◌, [], ◌∷◌, ◌++◌, length, take, drop, OnOk};
ghost use Rattle.std.specs.List.{slice_index_or};
ghost use Rattle.std.specs.Str.{IsUtf8};
ghost use Rattle.std.specs.String.{string_bytes};
ghost use Rattle.html_render_layout_lines.specs.Line.{columns, text_bytes};
ghost use Rattle.html_render_layout_lines.specs.TaggedText.{counted};
ghost use Rattle.html_render_layout_buffer.specs.Fields.{line_slots, IsTextPlace};

use super::LineBuffer;
use crate::ends::{LinePlace, columns_at, place_of};
use crate::runs::TagRuns;
use crate::slot::Slot;
use html_render_layout_lines::tag::Tag;
use std::alloc::AllocError;

/// An ended line: its text, and a range of slots.
#[derive(Drop)]
pub(super) struct StoredLine<'a, T, M> {
    /// Its text, without the newline.
    pub text: &'a str,
    /// Its text with the newline.
    pub ended: &'a str,
    /// The slots of all lines.
    pub slots: &'a TagRuns<Slot<T, M>>,
    /// Its first slot.
    pub from: usize,
    /// End of its slots.
    pub to: usize,
    /// Its columns; `None` if they pass a machine word.
    pub columns: Option<usize>,
}

impl<T: Tag, M: Copy> LineBuffer<T, M> {
    /// Returns ended line `n`.
    #[inline]
    pub(super) fn stored_line(&self, n: usize) -> StoredLine<'_, T, M>
        requires { n < length self.now.lines }
        ensures text { result.text.now ≡ text_bytes (slice_index_or self.now.lines n []) }
        ensures ended { result.ended.now ≡ text_bytes (slice_index_or self.now.lines n []) ++ 10 ∷ [] }
        ensures slots { drop result.from (take result.to result.slots.now) ≡ line_slots (slice_index_or self.now.lines n []) }
        ensures range { result.from ≤ result.to }
        ensures within { result.to ≤ length result.slots.now }
        ensures columns { result.columns ≡ counted (columns (slice_index_or self.now.lines n [])) }
        ensures utf8 { IsUtf8 (text_bytes (slice_index_or self.now.lines n [])) }
    {
        let ends = self.ends.as_slice();
        let text = self.text.as_str();
        let place = place_of(ends, n);
        StoredLine {
            text: text_at(text, place),
            ended: ended_at(text, place),
            slots: &self.slots,
            from: place.slots,
            to: place.slots_end,
            columns: columns_at(ends, n),
        }
    }

    /// Returns the text of ended line `n`.
    #[inline(always)]
    pub fn line_text(&self, n: usize) -> &str
        requires { n < length self.now.lines }
        ensures { result.now ≡ text_bytes (slice_index_or self.now.lines n []) }
    {
        self.stored_line(n).text
    }

    /// Returns the columns of ended line `n`. `None` if they pass a machine word.
    #[inline]
    pub fn line_columns(&self, n: usize) -> Option<usize>
        requires { n < length self.now.lines }
        ensures { result ≡ counted (columns (slice_index_or self.now.lines n [])) }
    {
        columns_at(self.ends.as_slice(), n)
    }
}

/// Returns the text of a line, without its newline.
#[inline]
fn text_at(text: &str, place: LinePlace) -> &str
    requires { IsTextPlace text.now place }
    ensures { result.now ≡ drop place.text (take (place.text_end - 1) text.now) }
{
    let end = place.text_end - 1;
    &text[place.text..end]
}

/// Returns the text of a line with its newline.
#[inline]
fn ended_at(text: &str, place: LinePlace) -> &str
    requires { IsTextPlace text.now place }
    ensures { result.now ≡ drop place.text (take place.text_end text.now) }
{
    &text[place.text..place.text_end]
}

/// Appends a line's text, or its text with the newline, and its slots.
#[inline]
pub(super) fn put_line<T: Tag, M: Copy>(
    text: &mut String,
    slots: &mut TagRuns<Slot<T, M>>,
    more: &str,
    line: &StoredLine<'_, T, M>,
) -> Result<(), AllocError>
    requires range { line.now.from ≤ line.now.to }
    requires within { line.now.to ≤ length line.now.slots.now }
    ensures text { OnOk result (string_bytes text.new ≡ string_bytes text.old ++ more.now) }
    ensures slots { OnOk result (slots.new ≡ slots.old ++ drop line.now.from (take line.now.to line.now.slots.now)) }
{
    text.push_str(more)?;
    slots.append_range(line.slots, line.from, line.to)
}
