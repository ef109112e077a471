//! Lines of a buffer, with what was put in front of the first one.

ghost use Rattle.std.specs.Prelude.{◌≡◌, ℕ, ◌+◌, ◌<◌, ◌++◌, ◌==◌, [], Some, length, map, reverse, OnOk, IfOk};
ghost use Rattle.std.specs.Bool.{OnTrue};
ghost use Rattle.std.specs.Str.{chars};
ghost use Rattle.html_render_layout_lines.specs.Line.{columns, marks_line};
ghost use Rattle.html_render_layout_lines.specs.TaggedText.{counted, under};
ghost use Rattle.html_render_layout_buffer.specs.Marked.{marked_before, marked_behind};
ghost use Rattle.html_render_layout_buffer.specs.Padding.{filled};
ghost use Rattle.html_render_layout_buffer.specs.Pieces.{with_front, fits_after};

use crate::buffer::{LineBuffer, columns_missing, counted_sum, is_within};
use crate::prefix::Prefix;
use html_render_layout_lines::line::Element;
use html_render_layout_lines::tag::Tag;
use std::alloc::AllocError;
use std::marker::Model;

/// A line of more bytes is a piece of its own: what is put in front of it moves none of them.
pub(super) const LONG: usize = 256;

/// Elements that may be in front of any text.
const FRONT_FEW: usize = 16;

/// Bytes of text for each further element in front of it. An element takes 16 bytes, so those in front take at most a quarter of
/// the text's memory, and their vector at most half.
const FRONT_SHARE: usize = 64;

/// Lines, at least one.
#[derive(Drop)]
pub(super) struct Piece<T, M> {
    // what was put in front of the first line, the first element last
    front: Vec<Element<T, M>>,
    // columns of these elements; `None` if they pass a machine word
    front_columns: Option<usize>,
    lines: LineBuffer<T, M>,
}

impl<T, M> Model for Piece<T, M> {
    ghost use Rattle.std.specs.Prelude.{List, reverse};
    ghost use Rattle.html_render_layout_lines.specs.Line.{Line};
    ghost use Rattle.html_render_layout_buffer.specs.Pieces.{with_front, IsPiece};

    ghost Value = { List (Line T M) };

    ghost view = { λ p. with_front (reverse p.front.items) p.lines.lines };

    ghost invariant = { λ p. IsPiece p.front_columns (reverse p.front.items) p.lines };
}

impl<T: Tag, M: Copy> Piece<T, M> {
    /// Returns the lines of a buffer as a piece.
    pub(super) fn new(lines: LineBuffer<T, M>) -> Piece<T, M>
        requires some { 0 < length lines.lines }
        requires open { lines.line ≡ [] }
        ensures { result ≡ lines.lines }
    {
        Piece {
            front: Vec::new(lines.alloc()),
            front_columns: Some(0),
            lines,
        }
    }

    /// Reports whether the piece is one long line.
    pub(super) fn is_long(&self) -> bool
        ensures { OnTrue result (length self.now ≡ 1) }
    {
        self.line_count() == 1 && self.lines.byte_count() > LONG
    }

    /// States that there is a line.
    #[inline(always)]
    pub(super) fn has_line(&self)
        ensures { 0 < length self.now }
    {
        let _ = &self.front;
    }

    /// Returns the number of lines.
    pub(super) fn line_count(&self) -> usize
        ensures count { result ≡ length self.now }
        ensures some { 0 < result }
    {
        self.lines.line_count()
    }

    /// Reports whether the lines fit in `width` columns, the first after `first` columns and the others after `later` columns.
    /// Each is `None` if it passes a machine word.
    pub(super) fn fits_after(
        &self,
        first: Option<usize>,
        later: Option<usize>,
        width: usize,
    ) -> bool
        ensures { (a b : ℕ) → first ≡ counted a → later ≡ counted b → result ≡ fits_after a b width self.now }
    {
        let before = counted_sum(first, self.front_columns);
        let columns = counted_sum(before, self.lines.line_columns(0));
        is_within(columns, width) && self.lines.lines_fit_after(1, later, width)
    }

    /// Puts a prefix in front of the first line.
    pub(super) fn with_prefix(self, prefix: &Prefix<'_, T>) -> Result<Piece<T, M>, AllocError>
        ensures { IfOk result (λ p. p ≡ with_front (under prefix.now.tag (chars prefix.now.text.now)) self) }
    {
        let Piece {
            mut front,
            front_columns,
            lines,
        } = self;
        push_reversed(&mut front, prefix.text, prefix.tag)?;
        let piece = Piece {
            front,
            front_columns: counted_sum(prefix.columns, front_columns),
            lines,
        };
        let compact = piece.compact()?;
        Ok(compact)
    }

    /// Copies what is in front into the buffer once it is long for the buffer's text. So a line's memory grows with its bytes, and
    /// each byte is copied a bounded number of times.
    fn compact(self) -> Result<Piece<T, M>, AllocError>
        ensures { IfOk result (λ p. p ≡ self) }
    {
        if self.front.len() <= FRONT_FEW + self.lines.byte_count() / FRONT_SHARE {
            return Ok(self);
        }
        self.has_line();
        Ok(Piece::new(self.into_buffer()?))
    }

    /// Puts a prefix in front of each line.
    pub(super) fn behind(self, prefix: &Prefix<'_, T>) -> Result<Piece<T, M>, AllocError>
        ensures { IfOk result (λ p. p ≡ map (λ l. under prefix.now.tag (chars prefix.now.text.now) ++ l) self) }
    {
        self.has_line();
        if self.is_long() {
            let piece = self.with_prefix(prefix)?;
            return Ok(piece);
        }
        let lines = self.into_buffer()?;
        let mut to = LineBuffer::new(lines.alloc());
        to.append_each_behind(&lines, 0, prefix)?;
        Ok(Piece::new(to))
    }

    /// Puts marks in front of the first line.
    pub(super) fn marked_first(self, marks: &[M]) -> Result<Piece<T, M>, AllocError>
        ensures { IfOk result (λ p. p ≡ marked_before marks.now self) }
    {
        let Piece {
            mut front,
            front_columns,
            lines,
        } = self;
        push_marks_reversed(&mut front, marks)?;
        Ok(Piece {
            front,
            front_columns,
            lines,
        })
    }

    /// Appends marks to the last line.
    pub(super) fn marked_last(self, marks: &[M]) -> Result<Piece<T, M>, AllocError>
        ensures { IfOk result (λ p. p ≡ marked_behind marks.now self) }
    {
        let Piece {
            front,
            front_columns,
            mut lines,
        } = self;
        lines.mark_last(marks)?;
        Ok(Piece {
            front,
            front_columns,
            lines,
        })
    }

    /// Fills each line with spaces up to `width` columns, under a tag.
    pub(super) fn filled(self, width: usize, tag: T) -> Result<Piece<T, M>, AllocError>
        ensures { IfOk result (λ p. p ≡ filled (Some tag) width self) }
    {
        if self.is_long() {
            return self.filled_in_place(width, tag);
        }
        let mut lines = self.into_buffer()?;
        lines.fill(width, tag)?;
        Ok(Piece::new(lines))
    }

    /// Fills an only line with spaces up to `width` columns, under a tag.
    fn filled_in_place(self, width: usize, tag: T) -> Result<Piece<T, M>, AllocError>
        requires { length self ≡ 1 }
        ensures { IfOk result (λ p. p ≡ filled (Some tag) width self) }
    {
        let Piece {
            front,
            front_columns,
            mut lines,
        } = self;
        let columns = counted_sum(front_columns, lines.line_columns(0));
        lines.reopen();
        lines.push_spaces(columns_missing(columns, width), tag)?;
        lines.end_line()?;
        Ok(Piece {
            front,
            front_columns,
            lines,
        })
    }

    /// Returns the number of bytes of the lines' text, without what is kept in front of it.
    pub(super) fn byte_count(&self) -> usize {
        self.lines.byte_count()
    }

    /// Appends copies of the lines to a buffer.
    pub(super) fn write_to(&self, to: &mut LineBuffer<T, M>) -> Result<(), AllocError>
        requires { to.old.line ≡ [] }
        ensures { OnOk result (to.new ≡ record { lines = to.old.lines ++ self.now; line = [] }) }
    {
        if self.front.is_empty() {
            return to.append_all(&self.lines);
        }
        to.push_reversed(self.front.as_slice())?;
        to.append_ended(&self.lines, 0)?;
        to.append_rest(&self.lines)
    }

    /// Returns the lines as a buffer.
    pub(super) fn into_buffer(self) -> Result<LineBuffer<T, M>, AllocError>
        ensures { IfOk result (λ b. b ≡ record { lines = self; line = [] }) }
    {
        if self.front.is_empty() {
            return Ok(self.lines);
        }
        let mut lines = LineBuffer::new(self.lines.alloc());
        self.write_to(&mut lines)?;
        Ok(lines)
    }
}

/// Appends the characters of a text to elements, the last one first.
fn push_reversed<T: Copy, M: Copy>(
    elements: &mut Vec<Element<T, M>>,
    text: &str,
    tag: T,
) -> Result<(), AllocError>
    ensures { OnOk result (elements.new.items ≡ elements.old.items ++ reverse (under tag (chars text.now))) }
{
    elements.reserve(text.len())?;
    for c in text.chars().rev() {
        elements.push(Element::Character(c, tag))?;
    }
    Ok(())
}

/// Appends marks to elements, the last one first.
fn push_marks_reversed<T: Copy, M: Copy>(
    elements: &mut Vec<Element<T, M>>,
    marks: &[M],
) -> Result<(), AllocError>
    ensures { OnOk result (elements.new.items ≡ elements.old.items ++ marks_line (reverse marks.now)) }
{
    for mark in marks.iter().rev() {
        elements.push(Element::Mark(*mark))?;
    }
    Ok(())
}
