//! Finished lines: ended lines that are appended to others, filled, and put behind prefixes.
//!
//! Lines are copied from one value to another only where they are few. A large value is moved whole, so that the lines of
//! blocks in blocks aren't copied at each of them.

ghost use Rattle.std.specs.Prelude.{◌≡◌, ℕ, ◌==◌, ◌<◌, nat_lt, ◌++◌, [], ◌∷◌, Some, length, OnOk, IfOk, IfSome};
ghost use Rattle.std.specs.Str.{chars};
ghost use Rattle.html_render_layout_lines.specs.Line.{marks_line};
ghost use Rattle.html_render_layout_lines.specs.TaggedText.{counted, text_columns, under};
ghost use Rattle.html_render_layout_buffer.specs.Lines.{no_lines};
ghost use Rattle.html_render_layout_buffer.specs.Marked.{marked_before, marked_behind};
ghost use Rattle.html_render_layout_buffer.specs.Padding.{filled};
ghost use Rattle.html_render_layout_buffer.specs.Pieces.{lines_of, fits_after};

use crate::buffer::LineBuffer;
use crate::runs::longer;
use html_render_layout_lines::tag::Tag;
use piece::Piece;
use pieces::Pieces;
use std::alloc::{AllocError, Global};
use std::marker::Model;
use std::mem;

mod behind;
mod piece;
mod pieces;

/// Lines of at most so many bytes are copied to the end of others. More are moved whole.
const SMALL: usize = 4096;

/// Ended lines, in order.
#[derive(Drop)]
pub struct FinishedLines<T, M> {
    // the first lines
    pieces: Pieces<T, M>,
    /// The lines after them.
    pub(crate) last: LineBuffer<T, M>,
}

impl<T, M> Model for FinishedLines<T, M> {
    ghost use Rattle.std.specs.Prelude.{◌≡◌, List, [], ◌++◌};
    ghost use Rattle.html_render_layout_lines.specs.Line.{Line};
    ghost use Rattle.html_render_layout_buffer.specs.Pieces.{lines_of};

    ghost Value = { List (Line T M) };

    ghost view = { λ f. lines_of f.pieces ++ f.last.lines };

    ghost invariant = { λ f. f.last.line ≡ [] };
}

impl<T: Tag, M: Copy> FinishedLines<T, M> {
    /// Returns a value without lines.
    pub fn new(alloc: Global) -> FinishedLines<T, M>
        ensures { result ≡ [] }
    {
        FinishedLines::from_buffer(LineBuffer::new(alloc))
    }

    /// Returns the lines of a buffer, whose open line must be empty.
    pub fn from_buffer(lines: LineBuffer<T, M>) -> FinishedLines<T, M>
        requires { lines.line ≡ [] }
        ensures { result ≡ lines.lines }
    {
        FinishedLines {
            pieces: Pieces::new(lines.alloc()),
            last: lines,
        }
    }

    /// Reserves memory for `bytes` more bytes of text and `lines` more lines, after the last lines.
    ///
    /// # Errors
    ///
    /// `AllocError`.
    pub fn reserve(&mut self, bytes: usize, lines: usize) -> Result<(), AllocError>
        ensures { self.new ≡ self.old }
    {
        self.last.reserve(bytes, lines)
    }

    /// Removes all lines, and keeps the memory of the last ones.
    pub fn clear(&mut self)
        ensures { self.new ≡ [] }
    {
        if !self.pieces.is_empty() {
            self.pieces.take();
        }
        self.last.clear();
    }

    /// Reports whether there are no lines.
    #[inline]
    pub fn is_empty(&self) -> bool
        ensures { result ≡ (length self.now == 0) }
    {
        self.last.line_count() == 0 && self.pieces.is_empty()
    }

    /// Returns the number of lines.
    ///
    /// # Errors
    ///
    /// `AllocError`, if a machine word doesn't hold it.
    #[inline]
    pub fn line_count(&self) -> Result<usize, AllocError>
        ensures { IfOk result (λ n. n ≡ length self.now) }
    {
        if self.pieces.is_empty() {
            return Ok(self.last.line_count());
        }
        longer(self.pieces.line_count(), self.last.line_count())
    }

    /// Reports whether there are more than `count` lines.
    #[inline]
    pub(crate) fn has_more_than(&self, count: usize) -> bool
        ensures { result ≡ nat_lt count (length self.now) }
    {
        match self.pieces.line_count().checked_add(self.last.line_count()) {
            Some(lines) => count < lines,
            // A machine word doesn't hold their number.
            None => true,
        }
    }

    /// Borrows the lines as a buffer. `None` if they aren't few, so that they are best moved whole.
    pub fn few(&self) -> Option<&LineBuffer<T, M>>
        ensures { IfSome result (λ lines. lines.now ≡ record { lines = self.now; line = [] }) }
    {
        if !self.pieces.is_empty() {
            return None;
        }
        if self.last.byte_count() > SMALL {
            return None;
        }
        Some(&self.last)
    }

    /// Appends a line of marks alone.
    ///
    /// # Errors
    ///
    /// `AllocError`. Lines may be lost.
    pub fn push_marks_line(&mut self, marks: &[M]) -> Result<(), AllocError>
        ensures { OnOk result (self.new ≡ self.old ++ marks_line marks.now ∷ []) }
    {
        self.last.push_marks(marks)?;
        self.last.end_line()
    }

    /// Appends a line with a text under a tag. Its columns are counted before; `None` if they pass a machine word.
    ///
    /// # Errors
    ///
    /// `AllocError`. Lines may be lost.
    pub fn push_text_line(
        &mut self,
        text: &str,
        columns: Option<usize>,
        tag: T,
    ) -> Result<(), AllocError>
        requires { columns ≡ counted (text_columns (chars text.now)) }
        ensures { OnOk result (self.new ≡ self.old ++ under tag (chars text.now) ∷ []) }
    {
        self.last.push_counted(text, columns, tag)?;
        self.last.end_line()
    }

    /// Moves the last lines out. They have the memory that further lines are best written to.
    #[inline]
    pub fn take_last(&mut self) -> LineBuffer<T, M>
        ensures lines { self.old ≡ self.new ++ result.lines }
        ensures open { result.line ≡ [] }
    {
        let none = LineBuffer::new(self.last.alloc());
        mem::replace(&mut self.last, none)
    }

    /// Moves lines to the end with their memory. They are those that [`FinishedLines::take_last`] moved out, and more.
    ///
    /// # Errors
    ///
    /// `AllocError`. Lines may be lost.
    pub fn put_last(&mut self, lines: LineBuffer<T, M>) -> Result<(), AllocError>
        requires { lines.line ≡ [] }
        ensures { OnOk result (self.new ≡ self.old ++ lines.lines) }
    {
        settle(&mut self.pieces, &mut self.last)?;
        self.last = lines;
        Ok(())
    }

    /// Moves the lines of a buffer, whose open line must be empty, to the end.
    ///
    /// # Errors
    ///
    /// `AllocError`. Lines may be lost.
    #[inline]
    pub fn append_buffer(&mut self, lines: &mut LineBuffer<T, M>) -> Result<(), AllocError>
        requires { lines.old.line ≡ [] }
        ensures ok { OnOk result (self.new ≡ self.old ++ lines.old.lines) }
        ensures moved { OnOk result (lines.new ≡ no_lines) }
        ensures open { lines.new.line ≡ [] }
    {
        if lines.byte_count() > SMALL {
            settle(&mut self.pieces, &mut self.last)?;
        }
        self.last.append(lines)
    }

    /// Moves other lines to the end.
    ///
    /// # Errors
    ///
    /// `AllocError`. Lines may be lost.
    pub fn append(&mut self, other: &mut FinishedLines<T, M>) -> Result<(), AllocError>
        ensures { OnOk result (self.new ≡ self.old ++ other.old) }
    {
        if other.pieces.is_empty() {
            self.append_buffer(&mut other.last)?;
            return Ok(());
        }
        settle(&mut self.pieces, &mut self.last)?;
        self.pieces.append(&mut other.pieces)?;
        mem::swap(&mut self.last, &mut other.last);
        Ok(())
    }

    /// Fills each line with spaces up to `width` columns, under a tag.
    ///
    /// # Errors
    ///
    /// `AllocError`. Lines may be lost.
    pub fn fill(&mut self, width: usize, tag: T) -> Result<(), AllocError>
        ensures { OnOk result (self.new ≡ filled (Some tag) width self.old) }
    {
        if self.pieces.is_empty() && self.last.byte_count() <= SMALL {
            return self.last.fill(width, tag);
        }
        self.separate()?;
        settle(&mut self.pieces, &mut self.last)?;
        self.pieces = self.pieces.take().filled(width, tag)?;
        Ok(())
    }

    /// Puts marks in front of the first line. Does nothing without lines.
    ///
    /// # Errors
    ///
    /// `AllocError`. Lines may be lost.
    pub fn mark_first(&mut self, marks: &[M]) -> Result<(), AllocError>
        ensures { OnOk result (self.new ≡ marked_before marks.now self.old) }
    {
        if marks.is_empty() {
            return Ok(());
        }
        if self.pieces.is_empty() && self.last.byte_count() <= SMALL {
            return self.last.mark_first(marks);
        }
        settle(&mut self.pieces, &mut self.last)?;
        self.pieces.mark_first(marks)
    }

    /// Appends marks to the last line. Does nothing without lines.
    ///
    /// # Errors
    ///
    /// `AllocError`. Lines may be lost.
    pub fn mark_last(&mut self, marks: &[M]) -> Result<(), AllocError>
        ensures { OnOk result (self.new ≡ marked_behind marks.now self.old) }
    {
        if marks.is_empty() {
            return Ok(());
        }
        if self.last.line_count() > 0 {
            return self.last.mark_last(marks);
        }
        self.pieces.mark_last(marks)
    }

    /// Reports whether the lines fit in `width` columns, the first after `first` columns and the others after `later` columns.
    /// Each is `None` if it passes a machine word.
    pub fn fits_after(&self, first: Option<usize>, later: Option<usize>, width: usize) -> bool
        ensures { (a b : ℕ) → first ≡ counted a → later ≡ counted b → result ≡ fits_after a b width self.now }
    {
        if self.pieces.is_empty() {
            return self.last.fits_after(first, later, width);
        }
        self.pieces.fits_after(first, later, width) && self.last.lines_fit_after(0, later, width)
    }

    /// Returns the lines as a buffer.
    ///
    /// # Errors
    ///
    /// `AllocError`.
    pub fn into_buffer(self) -> Result<LineBuffer<T, M>, AllocError>
        ensures { IfOk result (λ b. b ≡ record { lines = self; line = [] }) }
    {
        let FinishedLines { mut pieces, last } = self;
        let Some(first) = pieces.pop_first() else {
            return Ok(last);
        };
        let bytes = pieces.byte_count().saturating_add(last.byte_count());
        let count = pieces.line_count().saturating_add(last.line_count());
        let mut lines = first.into_buffer()?;
        lines.reserve(bytes, count)?;
        while let Some(piece) = pieces.pop_first() {
            piece.write_to(&mut lines)?;
        }
        lines.append_all(&last)?;
        Ok(lines)
    }
}

/// Makes the last lines a piece.
fn settle<T: Tag, M: Copy>(
    pieces: &mut Pieces<T, M>,
    last: &mut LineBuffer<T, M>,
) -> Result<(), AllocError>
    requires { last.old.line ≡ [] }
    ensures pieces { OnOk result (lines_of pieces.new ≡ lines_of pieces.old ++ last.old.lines) }
    ensures last { OnOk result (last.new ≡ no_lines) }
    ensures open { last.new.line ≡ [] }
{
    if last.line_count() == 0 {
        return Ok(());
    }
    let none = LineBuffer::new(last.alloc());
    let lines = mem::replace(last, none);
    let piece = Piece::new(lines);
    pieces.push(piece)
}
