//! The runs of an ended line.

ghost use Rattle.std.specs.Prelude.{◌≡◌, ◌<◌, ◌≤◌, [], ◌++◌, take, drop, length, IfSome, IfNone, OnSome};
ghost use Rattle.std.specs.List.{slice_index_or};
ghost use Rattle.std.specs.Str.{chars, IsUtf8};
ghost use Rattle.html_render_layout_lines.specs.TaggedText.{under};
ghost use Rattle.html_render_layout_buffer.specs.Parts.{part_elements, IsTagged, reach};

use super::LineBuffer;
use crate::runs::TagRuns;
use crate::slot::Slot;
use html_render_layout_lines::character::split_first_character;
use html_render_layout_lines::tag::Tag;
use std::marker::Model;

/// The next part of a line.
#[derive(Drop)]
pub enum LinePart<'a, T, M> {
    /// Characters under one tag, at least one.
    Text(&'a str, T),
    /// A mark.
    Mark(M),
}

/// An ended line of a buffer, from a place on.
#[derive(Drop)]
pub struct LineParts<'a, T, M> {
    // the characters that are left
    text: &'a str,
    // the slots of all lines
    slots: &'a TagRuns<Slot<T, M>>,
    // the next slot, and the end of the line's slots
    from: usize,
    to: usize,
}

impl<'a, T, M> Model for LineParts<'a, T, M> {
    ghost use Rattle.html_render_layout_lines.specs.Line.{Line};
    ghost use Rattle.html_render_layout_buffer.specs.Parts.{elements_left, IsLeft};

    ghost Value = { Line T M };

    ghost view = { λ p. elements_left p.text.now p.slots.now p.from p.to };

    ghost invariant = { λ p. IsLeft p.text.now p.slots.now p.from p.to };
}

impl<T: Tag, M: Copy> LineBuffer<T, M> {
    /// Returns ended line `n` as runs.
    pub fn line_parts(&self, n: usize) -> LineParts<'_, T, M>
        requires { n < length self.now.lines }
        ensures { result ≡ slice_index_or self.now.lines n [] }
    {
        let line = self.stored_line(n);
        LineParts {
            text: line.text,
            slots: line.slots,
            from: line.from,
            to: line.to,
        }
    }
}

impl<'a, T: Tag, M: Copy> LineParts<'a, T, M> {
    /// Removes and returns the next run of characters under one tag, or the next mark. `None` at the end of the line.
    pub fn next(&mut self) -> Option<LinePart<'a, T, M>>
        ensures some { IfSome result (λ part. self.old ≡ part_elements part ++ self.new) }
        ensures none { IfNone result (self.old ≡ []) }
        ensures shorter { OnSome result (length self.new < length self.old) }
    {
        if self.from >= self.to {
            return None;
        }
        let span = self.slots.span_at(self.from);
        let limit = span.end.min(self.to) - self.from;
        match span.tag {
            Slot::Mark(mark) => {
                self.from += 1;
                Some(LinePart::Mark(mark))
            }
            Slot::Byte(tag) => Some(LinePart::Text(self.take_characters(limit, tag), tag)),
        }
    }

    /// Removes and returns the characters that begin before byte `limit`. They are under the tag `tag`.
    fn take_characters(&mut self, limit: usize, tag: T) -> &'a str
        requires some { 0 < limit }
        requires tagged { IsTagged self.old tag limit }
        ensures characters { self.old ≡ under tag (chars result.now) ++ self.new }
        ensures shorter { length self.new < length self.old }
    {
        let count = reach(self.text, limit);
        let own = &self.text[..count];
        self.text = &self.text[count..];
        self.from += count;
        own
    }
}

/// Returns the number of bytes of the characters that begin before byte `limit`.
fn reach(text: &str, limit: usize) -> usize
    ensures count { result ≡ reach limit (chars text.now) }
    ensures within { result ≤ length text.now }
    ensures front { IsUtf8 (take result text.now) }
    ensures rest { IsUtf8 (drop result text.now) }
{
    let mut rest = text;
    let mut count = 0;
    while count < limit && !rest.is_empty() {
        let (c, behind) = split_first_character(rest);
        count += c.len_utf8();
        rest = behind;
    }
    count
}
