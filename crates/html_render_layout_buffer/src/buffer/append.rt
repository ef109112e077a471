//! Lines of one buffer at the end of another.

ghost use Rattle.std.specs.Prelude.{◌≡◌, ◌+◌, ◌≤◌, ◌<◌, [], ◌∷◌, ◌++◌, length, map, take, drop, replicate, OnOk, OnErr};
ghost use Rattle.std.specs.List.{All, slice_index_or};
ghost use Rattle.std.specs.Str.{chars, IsUtf8};
ghost use Rattle.std.specs.String.{string_bytes};
ghost use Rattle.html_render_layout_lines.specs.TaggedText.{under};
ghost use Rattle.html_render_layout_buffer.specs.Lines.{no_lines};
ghost use Rattle.html_render_layout_buffer.specs.Prefixed.{prefixed};
ghost use Rattle.html_render_layout_buffer.specs.Moved.{moved};

use super::behind::put_each_behind;
use super::stored::{StoredLine, put_line};
use super::{LineBuffer, clear_all, counted_sum, put_text};
use crate::ends::{LineEnd, push_moved};
use crate::prefix::Prefix;
use crate::runs::TagRuns;
use crate::slot::Slot;
use html_render_layout_lines::tag::Tag;
use std::alloc::AllocError;
use std::mem;

/// Maximum length, in bytes, of a text that is copied to a buffer without lines. The memory of a longer text is taken instead.
const FEW: usize = 1024;

/// Maximum memory, in bytes, that a buffer without lines gives away for the text of a few bytes. A larger one is kept, since lines of
/// this buffer needed it.
const MUCH: usize = 16_384;

impl<T: Tag, M: Copy> LineBuffer<T, M> {
    /// Appends copies of another buffer's lines. Its open line becomes the open line.
    ///
    /// # Errors
    ///
    /// `AllocError`. The buffer then has no lines.
    pub(crate) fn append_all(&mut self, other: &LineBuffer<T, M>) -> Result<(), AllocError>
        requires { self.old.line ≡ [] }
        ensures ok { OnOk result (self.new ≡ record { lines = self.old.lines ++ other.now.lines; line = other.now.line }) }
        ensures err { OnErr result (self.new ≡ no_lines) }
    {
        let text = other.text.as_str();
        let put = put_all(
            &mut self.text,
            &mut self.slots,
            &mut self.ends,
            text,
            &other.slots,
            other.ends.as_slice(),
        );
        match put {
            Ok(()) => {
                self.start = self.text.as_str().len() - (text.len() - other.start);
                self.slot_start = self.slots.len() - (other.slots.len() - other.slot_start);
                self.columns = other.columns;
            }
            // Memory ran out.
            Err(_) => {
                clear_all(&mut self.text, &mut self.slots, &mut self.ends);
                self.start = 0;
                self.slot_start = 0;
                self.columns = Some(0);
            }
        }
        put
    }

    /// Appends a copy of another buffer's ended line `n` to the open line.
    ///
    /// # Errors
    ///
    /// `AllocError`. The buffer then has no lines.
    #[inline(always)]
    pub fn append_line(&mut self, other: &LineBuffer<T, M>, n: usize) -> Result<(), AllocError>
        requires { n < length other.now.lines }
        ensures ok { OnOk result (self.new ≡ record { lines = self.old.lines; line = self.old.line ++ slice_index_or other.now.lines n [] }) }
        ensures err { OnErr result (self.new ≡ no_lines) }
    {
        let line = other.stored_line(n);
        let columns = counted_sum(self.columns, line.columns);
        let put = put_line(&mut self.text, &mut self.slots, line.text, &line);
        match put {
            Ok(()) => self.columns = columns,
            // Memory ran out.
            Err(_) => {
                clear_all(&mut self.text, &mut self.slots, &mut self.ends);
                self.start = 0;
                self.slot_start = 0;
                self.columns = Some(0);
            }
        }
        put
    }

    /// Appends a copy of another buffer's ended line `n` to the open line, and ends that.
    ///
    /// # Errors
    ///
    /// `AllocError`. The buffer then has no lines.
    pub(crate) fn append_ended(
        &mut self,
        other: &LineBuffer<T, M>,
        n: usize,
    ) -> Result<(), AllocError>
        requires { n < length other.now.lines }
        ensures ok { OnOk result (self.new ≡ record {
          lines = self.old.lines ++ (self.old.line ++ slice_index_or other.now.lines n []) ∷ [];
          line = [];
        }) }
        ensures err { OnErr result (self.new ≡ no_lines) }
    {
        self.append_line(other, n)?;
        self.end_line()
    }

    /// Appends a prefix and a copy of another buffer's ended line `n` to the open line, and ends that.
    ///
    /// # Errors
    ///
    /// `AllocError`. The buffer then has no lines.
    #[inline(always)]
    fn append_line_after(
        &mut self,
        prefix: &Prefix<'_, T>,
        other: &LineBuffer<T, M>,
        n: usize,
    ) -> Result<(), AllocError>
        requires { n < length other.now.lines }
        ensures ok { OnOk result (self.new ≡ record {
          lines = self.old.lines ++ (self.old.line ++ (under prefix.now.tag (chars prefix.now.text.now) ++ slice_index_or other.now.lines n [])) ∷ [];
          line = [];
        }) }
        ensures err { OnErr result (self.new ≡ no_lines) }
    {
        let line = other.stored_line(n);
        let prefixed = counted_sum(self.columns, prefix.columns);
        let columns = counted_sum(prefixed, line.columns);
        let put = put_after(
            &mut self.text,
            &mut self.slots,
            &mut self.ends,
            prefix,
            &line,
            columns,
        );
        self.columns = Some(0);
        match put {
            Ok(()) => {
                self.start = self.text.as_str().len();
                self.slot_start = self.slots.len();
            }
            // Memory ran out.
            Err(_) => {
                clear_all(&mut self.text, &mut self.slots, &mut self.ends);
                self.start = 0;
                self.slot_start = 0;
            }
        }
        put
    }

    /// Reserves memory for `bytes` more bytes of text and `lines` more lines.
    ///
    /// # Errors
    ///
    /// `AllocError`. The buffer then has no lines.
    fn reserve_or_clear(&mut self, bytes: usize, lines: usize) -> Result<(), AllocError>
        ensures ok { OnOk result (self.new ≡ self.old) }
        ensures err { OnErr result (self.new ≡ no_lines) }
    {
        let reserved = self.reserve(bytes, lines);
        if reserved.is_err() {
            self.clear();
        }
        reserved
    }

    /// Appends copies of another buffer's ended lines from line `from` on, each after a prefix.
    ///
    /// # Errors
    ///
    /// `AllocError`. The buffer then has no lines.
    pub(crate) fn append_each_behind(
        &mut self,
        other: &LineBuffer<T, M>,
        from: usize,
        prefix: &Prefix<'_, T>,
    ) -> Result<(), AllocError>
        requires within { from ≤ length other.now.lines }
        requires open { self.old.line ≡ [] }
        ensures ok { OnOk result (self.new ≡ record {
          lines = self.old.lines ++ map (λ l. under prefix.now.tag (chars prefix.now.text.now) ++ l) (drop from other.now.lines);
          line = [];
        }) }
        ensures err { OnErr result (self.new ≡ no_lines) }
    {
        let _ = &other.text;
        let put = put_each_behind(
            &mut self.text,
            &mut self.slots,
            &mut self.ends,
            other,
            from,
            prefix,
        );
        self.columns = Some(0);
        match put {
            Ok(()) => {
                self.start = self.text.as_str().len();
                self.slot_start = self.slots.len();
            }
            // Memory ran out.
            Err(_) => {
                clear_all(&mut self.text, &mut self.slots, &mut self.ends);
                self.start = 0;
                self.slot_start = 0;
            }
        }
        put
    }

    /// Reports whether another buffer's text is too long to be copied, or the memory of this buffer is large enough for it and
    /// not so large that this buffer keeps it.
    fn exchanges_memory(&self, other: &LineBuffer<T, M>) -> bool {
        let bytes = other.byte_count();
        let memory = self.text.capacity();
        bytes > FEW || (bytes <= memory && memory <= MUCH)
    }

    /// Exchanges the lines and the memory of two buffers. Field by field this takes no call.
    #[inline]
    fn exchange(&mut self, other: &mut LineBuffer<T, M>)
        ensures own { self.new ≡ other.old }
        ensures other { other.new ≡ self.old }
    {
        mem::swap(&mut self.text, &mut other.text);
        mem::swap(&mut self.slots, &mut other.slots);
        mem::swap(&mut self.ends, &mut other.ends);
        mem::swap(&mut self.start, &mut other.start);
        mem::swap(&mut self.slot_start, &mut other.slot_start);
        mem::swap(&mut self.columns, &mut other.columns);
    }

    /// Moves another buffer's lines to the end of this one. Its open line becomes the open line.
    ///
    /// If this buffer has no lines and the other text has more than [`FEW`] bytes, the two exchange their memory. For a shorter
    /// text they do so if this buffer's memory is large enough for it and has at most [`MUCH`] bytes. In all other cases the lines
    /// are copied.
    ///
    /// # Errors
    ///
    /// `AllocError`. This buffer then has no lines, and the other one is unchanged.
    pub fn append(&mut self, other: &mut LineBuffer<T, M>) -> Result<(), AllocError>
        requires { self.old.line ≡ [] }
        ensures ok { OnOk result (self.new ≡ record { lines = self.old.lines ++ other.old.lines; line = other.old.line }) }
        ensures moved { OnOk result (other.new ≡ no_lines) }
        ensures err { OnErr result (self.new ≡ no_lines) }
        ensures kept { OnErr result (other.new ≡ other.old) }
    {
        if self.line_count() == 0 && self.exchanges_memory(other) {
            self.exchange(other);
            return Ok(());
        }
        self.append_all(other)?;
        other.clear();
        Ok(())
    }

    /// Appends copies of another buffer's ended lines: the first to the open line, after the prefix `first`, and each other
    /// one after the prefix `later`.
    ///
    /// # Errors
    ///
    /// `AllocError`. The buffer then has no lines.
    pub fn append_behind(
        &mut self,
        other: &LineBuffer<T, M>,
        first: &Prefix<'_, T>,
        later: &Prefix<'_, T>,
    ) -> Result<(), AllocError>
        requires { 0 < length other.now.lines }
        ensures ok { OnOk result (self.new ≡ record {
          lines = self.old.lines ++ prefixed (self.old.line ++ under first.now.tag (chars first.now.text.now))
              (under later.now.tag (chars later.now.text.now)) other.now.lines;
          line = [];
        }) }
        ensures err { OnErr result (self.new ≡ no_lines) }
    {
        let lines = other.line_count();
        let prefixes = later.text.len().saturating_mul(lines);
        let bytes = other.text.as_str().len().saturating_add(prefixes);
        self.reserve_or_clear(bytes.saturating_add(first.text.len()), lines)?;
        self.append_line_after(first, other, 0)?;
        self.append_each_behind(other, 1, later)
    }
}

/// Appends a text, slots and ends to others.
fn put_all<T: Tag, M: Copy>(
    text: &mut String,
    slots: &mut TagRuns<Slot<T, M>>,
    ends: &mut Vec<LineEnd>,
    more_text: &str,
    more_slots: &TagRuns<Slot<T, M>>,
    more_ends: &[LineEnd],
) -> Result<(), AllocError>
    requires text { All (λ (e : LineEnd). e.text ≤ length more_text.now) more_ends.now }
    requires slots { All (λ (e : LineEnd). e.slots ≤ length more_slots.now) more_ends.now }
    ensures text { OnOk result (string_bytes text.new ≡ string_bytes text.old ++ more_text.now) }
    ensures slots { OnOk result (slots.new ≡ slots.old ++ more_slots.now) }
    ensures ends { OnOk result (ends.new.items ≡ ends.old.items ++ map (moved (length (string_bytes text.old)) (length slots.old)) more_ends.now) }
{
    let (text_len, slots_len) = (text.as_str().len(), slots.len());
    text.push_str(more_text)?;
    slots.append_range(more_slots, 0, more_slots.len())?;
    let (_text, _slots) = (text.as_str().len(), slots.len());
    push_moved(ends, more_ends, text_len, slots_len)
}

/// Appends a prefix, a line with its newline, and the line's end.
#[inline(always)]
fn put_after<T: Tag, M: Copy>(
    text: &mut String,
    slots: &mut TagRuns<Slot<T, M>>,
    ends: &mut Vec<LineEnd>,
    prefix: &Prefix<'_, T>,
    line: &StoredLine<'_, T, M>,
    columns: Option<usize>,
) -> Result<(), AllocError>
    requires range { line.now.from ≤ line.now.to }
    requires within { line.now.to ≤ length line.now.slots.now }
    ensures text { OnOk result (string_bytes text.new ≡ string_bytes text.old ++ (prefix.now.text.now ++ line.now.ended.now)) }
    ensures slots { OnOk result (slots.new ≡ slots.old ++ (replicate (length prefix.now.text.now) (Slot.Byte prefix.now.tag)
        ++ drop line.now.from (take line.now.to line.now.slots.now))) }
    ensures ends { OnOk result (ends.new.items ≡ ends.old.items
        ++ record { text = length (string_bytes text.new); slots = length slots.new; columns = columns } ∷ []) }
    ensures utf8 { IsUtf8 prefix.now.text.now }
{
    put_text(text, slots, prefix.text, prefix.tag)?;
    put_line(text, slots, line.ended, line)?;
    ends.push(LineEnd::new(text.as_str().len(), slots.len(), columns))?;
    Ok(())
}
