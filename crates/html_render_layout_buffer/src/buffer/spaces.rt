//! Spaces that fill lines, and how far a line is past a tab stop.

ghost use Rattle.std.specs.Prelude.{◌≡◌, ◌+◌, ◌-◌, ◌%◌, ◌≤◌, ◌<◌, [], ◌∷◌, ◌++◌, Some, length, replicate, OnOk, OnErr};
ghost use Rattle.std.specs.List.{slice_index_or};
ghost use Rattle.std.specs.Str.{chars};
ghost use Rattle.html_render_layout_lines.specs.Line.{columns};
ghost use Rattle.html_render_layout_lines.specs.TaggedText.{text_columns};
ghost use Rattle.html_render_layout_buffer.specs.Lines.{no_lines, with_spaces};
ghost use Rattle.html_render_layout_buffer.specs.Padding.{filled_line, filled};

use super::{LineBuffer, columns_missing};
use html_render_layout_lines::character::width_of;
use html_render_layout_lines::tag::Tag;
use std::alloc::AllocError;
use std::mem;

/// Maximum number of spaces that are written at once.
const CHUNK: usize = 64;

/// `CHUNK` spaces.
const SPACES: &str = "                                                                ";

impl<T: Tag, M: Copy> LineBuffer<T, M> {
    /// Appends `count` spaces to the open line, under a tag: as many as are written at once, or fewer.
    #[inline]
    #[tactic(auto, using(crate::proofs::Growing::few_put))]
    fn push_few(&mut self, count: usize, tag: T) -> Result<(), AllocError>
        requires { count ≤ CHUNK }
        ensures ok { OnOk result (self.new ≡ with_spaces self.old tag count) }
        ensures err { OnErr result (self.new ≡ no_lines) }
    {
        self.push_str(few_spaces(SPACES, count), count, tag)
    }

    /// Appends `count` spaces to the open line, under a tag.
    ///
    /// # Errors
    ///
    /// `AllocError`. The buffer then has no lines.
    #[tactic(auto, using(crate::proofs::Growing::spaces_left))]
    pub fn push_spaces(&mut self, count: usize, tag: T) -> Result<(), AllocError>
        ensures ok { OnOk result (self.new ≡ with_spaces self.old tag count) }
        ensures err { OnErr result (self.new ≡ no_lines) }
    {
        let mut left = count;
        while left > 0 {
            let next = left.min(CHUNK);
            self.push_few(next, tag)?;
            left -= next;
        }
        Ok(())
    }

    /// Returns how many columns the open line is past a multiple of 8.
    pub fn past_tab_stop(&self) -> usize
        ensures { result ≡ columns self.now.line % 8 }
    {
        match self.columns {
            Some(columns) => columns % 8,
            None => past_stop(self.open_text()),
        }
    }

    /// Appends a copy of another buffer's ended line `n`, filled with spaces up to `width` columns, to the open line, and ends
    /// that.
    fn append_line_filled(
        &mut self,
        other: &LineBuffer<T, M>,
        n: usize,
        width: usize,
        tag: T,
    ) -> Result<(), AllocError>
        requires { n < length other.now.lines }
        ensures ok { OnOk result (self.new ≡ record {
          lines = self.old.lines ++ (self.old.line ++ filled_line tag width (slice_index_or other.now.lines n [])) ∷ [];
          line = [];
        }) }
        ensures err { OnErr result (self.new ≡ no_lines) }
    {
        let missing = columns_missing(other.line_columns(n), width);
        self.append_line(other, n)?;
        self.push_spaces(missing, tag)?;
        self.end_line()
    }

    /// Appends copies of another buffer's ended lines, each filled with spaces up to `width` columns, under a tag.
    ///
    /// # Errors
    ///
    /// `AllocError`. The buffer then has no lines.
    fn append_each_filled(
        &mut self,
        other: &LineBuffer<T, M>,
        width: usize,
        tag: T,
    ) -> Result<(), AllocError>
        requires { self.old.line ≡ [] }
        ensures ok { OnOk result (self.new ≡ record { lines = self.old.lines ++ filled (Some tag) width other.now.lines; line = [] }) }
        ensures err { OnErr result (self.new ≡ no_lines) }
    {
        for n in 0..other.line_count() {
            self.append_line_filled(other, n, width, tag)?;
        }
        Ok(())
    }

    /// Appends copies of another buffer's ended lines, each filled with spaces up to `width` columns, under a tag. Neither buffer
    /// has an open line.
    ///
    /// # Errors
    ///
    /// `AllocError`. The buffer then has no lines.
    pub fn append_filled(
        &mut self,
        other: &LineBuffer<T, M>,
        width: usize,
        tag: T,
    ) -> Result<(), AllocError>
        requires open { self.old.line ≡ [] }
        requires other_open { other.now.line ≡ [] }
        ensures ok { OnOk result (self.new ≡ record { lines = self.old.lines ++ filled (Some tag) width other.now.lines; line = [] }) }
        ensures err { OnErr result (self.new ≡ no_lines) }
    {
        if other.least_columns() >= width {
            return self.append_all(other);
        }
        self.append_each_filled(other, width, tag)
    }

    /// Fills each ended line with spaces up to `width` columns, under a tag. Does nothing where each has as many.
    ///
    /// # Errors
    ///
    /// `AllocError`. The lines are then unchanged.
    pub fn fill(&mut self, width: usize, tag: T) -> Result<(), AllocError>
        requires { self.old.line ≡ [] }
        ensures ok { OnOk result (self.new ≡ record { lines = filled (Some tag) width self.old.lines; line = [] }) }
        ensures err { OnErr result (self.new ≡ self.old) }
    {
        if self.least_columns() >= width {
            return Ok(());
        }
        let mut filled = LineBuffer::new(self.alloc());
        let (bytes, lines) = (self.byte_count(), self.line_count());
        let spaces = width.saturating_mul(lines).min(bytes);
        filled.reserve(bytes.saturating_add(spaces), lines)?;
        filled.append_each_filled(self, width, tag)?;
        mem::swap(self, &mut filled);
        Ok(())
    }
}

/// Returns the first `count` of `CHUNK` spaces.
fn few_spaces(text: &'static str, count: usize) -> &'static str
    requires text { text.now ≡ replicate CHUNK 32 }
    requires few { count ≤ CHUNK }
    ensures { chars result.now ≡ replicate count 32 }
{
    &text[..count]
}

/// Returns how many columns a text ends past a multiple of 8.
fn past_stop(text: &str) -> usize
    ensures { result ≡ text_columns (chars text.now) % 8 }
{
    let mut at = 0;
    for c in text.chars() {
        at = (at + width_of(c) % 8) % 8;
    }
    at
}
