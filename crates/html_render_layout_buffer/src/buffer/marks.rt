//! Marks at the ends of a buffer's lines.

ghost use Rattle.std.specs.Prelude.{◌≡◌, ◌+◌, ◌-◌, ◌<◌, [], ◌∷◌, ◌++◌, drop, take, length, OnOk, OnErr};
ghost use Rattle.std.specs.String.{string_bytes};
ghost use Rattle.html_render_layout_buffer.specs.Fields.{IsTextPlace};
ghost use Rattle.html_render_layout_buffer.specs.Lines.{no_lines};
ghost use Rattle.html_render_layout_buffer.specs.Marked.{marked_before, marked_behind};

use super::LineBuffer;
use crate::ends::{LineEnd, LinePlace, columns_at, place_of};
use html_render_layout_lines::tag::Tag;
use std::alloc::AllocError;
use std::mem;

impl<T: Tag, M: Copy> LineBuffer<T, M> {
    /// Makes the last ended line the open line again.
    pub(crate) fn reopen(&mut self)
        requires open { self.old.line ≡ [] }
        requires some { 0 < length self.old.lines }
        ensures { self.old ≡ record { lines = self.new.lines ++ self.new.line ∷ []; line = [] } }
    {
        let n = self.line_count() - 1;
        let ends = self.ends.as_slice();
        let place = place_of(ends, n);
        let columns = columns_at(ends, n);
        cut_last(&mut self.text, &mut self.ends, n, place);
        self.start = place.text;
        self.slot_start = place.slots;
        self.columns = columns;
    }

    /// Appends marks to the last ended line. Does nothing without lines.
    ///
    /// # Errors
    ///
    /// `AllocError`. The buffer then has no lines.
    #[tactic(auto, using(crate::proofs::Growing::no_marks))]
    pub fn mark_last(&mut self, marks: &[M]) -> Result<(), AllocError>
        requires { self.old.line ≡ [] }
        ensures ok { OnOk result (self.new ≡ record { lines = marked_behind marks.now self.old.lines; line = [] }) }
        ensures err { OnErr result (self.new ≡ no_lines) }
    {
        if self.line_count() == 0 {
            return Ok(());
        }
        self.reopen();
        self.push_marks(marks)?;
        self.end_line()
    }

    /// Appends copies of another buffer's ended lines from line 1 on.
    pub(crate) fn append_rest(&mut self, other: &LineBuffer<T, M>) -> Result<(), AllocError>
        requires some { 0 < length other.now.lines }
        requires open { self.old.line ≡ [] }
        ensures { OnOk result (self.new ≡ record { lines = self.old.lines ++ drop 1 other.now.lines; line = [] }) }
    {
        for n in 1..other.line_count() {
            self.append_ended(other, n)?;
        }
        Ok(())
    }

    /// Appends marks, and copies of another buffer's ended lines.
    fn append_marked(&mut self, marks: &[M], other: &LineBuffer<T, M>) -> Result<(), AllocError>
        requires some { 0 < length other.now.lines }
        requires open { self.old ≡ no_lines }
        ensures { OnOk result (self.new ≡ record { lines = marked_before marks.now other.now.lines; line = [] }) }
    {
        self.push_marks(marks)?;
        self.append_ended(other, 0)?;
        self.append_rest(other)
    }

    /// Inserts marks at the front of the first ended line. Does nothing without lines.
    ///
    /// Copies the buffer.
    ///
    /// # Errors
    ///
    /// `AllocError`. The lines are then unchanged.
    #[tactic(auto, using(crate::proofs::Growing::no_marks))]
    pub fn mark_first(&mut self, marks: &[M]) -> Result<(), AllocError>
        requires { self.old.line ≡ [] }
        ensures ok { OnOk result (self.new ≡ record { lines = marked_before marks.now self.old.lines; line = [] }) }
        ensures err { OnErr result (self.new ≡ self.old) }
    {
        if self.line_count() == 0 {
            return Ok(());
        }
        let mut marked = LineBuffer::new(*self.ends.allocator());
        marked.append_marked(marks, self)?;
        mem::swap(self, &mut marked);
        Ok(())
    }
}

/// Removes the newline of the last line, which is line `n`, and the line's end.
fn cut_last(text: &mut String, ends: &mut Vec<LineEnd>, n: usize, place: LinePlace)
    requires { IsTextPlace (string_bytes text.old) place }
    ensures text { string_bytes text.new ≡ take (place.text_end - 1) (string_bytes text.old) }
    ensures ends { ends.new.items ≡ take n ends.old.items }
{
    let end = place.text_end - 1;
    text.truncate(end);
    ends.truncate(n);
}
