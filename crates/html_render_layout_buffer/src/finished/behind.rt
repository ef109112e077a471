//! Finished lines after prefixes.

ghost use Rattle.std.specs.Prelude.{◌≡◌, ◌<◌, ◌++◌, [], ◌∷◌, length, OnOk};
ghost use Rattle.std.specs.List.{slice_index_or};
ghost use Rattle.std.specs.Str.{chars};
ghost use Rattle.html_render_layout_lines.specs.Line.{marks_line};
ghost use Rattle.html_render_layout_lines.specs.TaggedText.{under};
ghost use Rattle.html_render_layout_buffer.specs.Pieces.{lines_of};
ghost use Rattle.html_render_layout_buffer.specs.Prefixed.{prefixed};

use super::piece::{LONG, Piece};
use super::pieces::Pieces;
use super::{FinishedLines, settle};
use crate::buffer::LineBuffer;
use crate::prefix::Prefix;
use html_render_layout_lines::tag::Tag;
use std::alloc::AllocError;

impl<T: Tag, M: Copy> FinishedLines<T, M> {
    /// Appends a copy of a buffer's ended line `n`.
    fn push_copy(&mut self, lines: &LineBuffer<T, M>, n: usize) -> Result<(), AllocError>
        requires { n < length lines.now.lines }
        ensures { OnOk result (self.new ≡ self.old ++ slice_index_or lines.now.lines n [] ∷ []) }
    {
        if lines.line_bytes(n) <= LONG {
            return self.last.append_ended(lines, n);
        }
        let mut line = LineBuffer::new(lines.alloc());
        line.append_ended(lines, n)?;
        self.push_piece(Piece::new(line))
    }

    /// Appends a piece.
    fn push_piece(&mut self, piece: Piece<T, M>) -> Result<(), AllocError>
        ensures { OnOk result (self.new ≡ self.old ++ piece) }
    {
        settle(&mut self.pieces, &mut self.last)?;
        self.pieces.push(piece)
    }

    /// Makes each long line of the last lines a piece of its own.
    pub(super) fn separate(&mut self) -> Result<(), AllocError>
        ensures { OnOk result (self.new ≡ self.old) }
    {
        if self.last.byte_count() <= LONG || !self.last.has_longer_line(0, LONG) {
            return Ok(());
        }
        let lines = self.take_last();
        self.push_copies(&lines)
    }

    /// Appends copies of a buffer's ended lines.
    fn push_copies(&mut self, lines: &LineBuffer<T, M>) -> Result<(), AllocError>
        ensures { OnOk result (self.new ≡ self.old ++ lines.now.lines) }
    {
        for n in 0..lines.line_count() {
            self.push_copy(lines, n)?;
        }
        Ok(())
    }

    /// Appends the lines of a piece: the first after marks and the prefix `first`, and each other one after the prefix `later`.
    fn push_behind(
        &mut self,
        piece: Piece<T, M>,
        marks: &[M],
        first: &Prefix<'_, T>,
        later: &Prefix<'_, T>,
    ) -> Result<(), AllocError>
        ensures { OnOk result (self.new ≡ self.old ++ prefixed (marks_line marks.now ++ under first.now.tag (chars first.now.text.now))
            (under later.now.tag (chars later.now.text.now)) piece) }
    {
        if piece.is_long() {
            return self.push_piece(piece.with_prefix(first)?.marked_first(marks)?);
        }
        piece.has_line();
        let before = self.last.line_count();
        self.push_lines_behind(&piece.into_buffer()?, marks, first, later)?;
        // so that later prefixes don't copy the lines that are long with this one
        if self.last.has_longer_line(before, LONG) {
            self.separate()?;
        }
        Ok(())
    }

    /// Appends copies of a buffer's ended lines: the first after marks and the prefix `first`, and each other one after the
    /// prefix `later`.
    fn push_lines_behind(
        &mut self,
        lines: &LineBuffer<T, M>,
        marks: &[M],
        first: &Prefix<'_, T>,
        later: &Prefix<'_, T>,
    ) -> Result<(), AllocError>
        requires { 0 < length lines.now.lines }
        ensures { OnOk result (self.new ≡ self.old ++ prefixed (marks_line marks.now ++ under first.now.tag (chars first.now.text.now))
            (under later.now.tag (chars later.now.text.now)) lines.now.lines) }
    {
        self.last.push_marks(marks)?;
        self.last.append_behind(lines, first, later)
    }

    /// Appends the lines of pieces, each after a prefix.
    fn push_each_behind(
        &mut self,
        pieces: Pieces<T, M>,
        prefix: &Prefix<'_, T>,
    ) -> Result<(), AllocError>
        ensures { OnOk result (self.new ≡ self.old ++ prefixed (under prefix.now.tag (chars prefix.now.text.now))
            (under prefix.now.tag (chars prefix.now.text.now)) (lines_of pieces)) }
    {
        let same = Prefix {
            text: prefix.text,
            columns: prefix.columns,
            tag: prefix.tag,
        };
        let mut pieces = pieces;
        while let Some(piece) = pieces.pop_first() {
            piece.has_line();
            self.push_behind(piece, &[], prefix, &same)?;
        }
        Ok(())
    }

    /// Moves the lines of pieces to the end.
    fn push_pieces(&mut self, pieces: &mut Pieces<T, M>) -> Result<(), AllocError>
        ensures { OnOk result (self.new ≡ self.old ++ lines_of pieces.old) }
    {
        settle(&mut self.pieces, &mut self.last)?;
        self.pieces.append(pieces)
    }

    /// Appends the lines of pieces, each after a prefix. If all are long, they are moved together, so that lists in lists allocate
    /// nothing for them.
    fn push_all_behind(
        &mut self,
        mut pieces: Pieces<T, M>,
        prefix: &Prefix<'_, T>,
    ) -> Result<(), AllocError>
        ensures { OnOk result (self.new ≡ self.old ++ prefixed (under prefix.now.tag (chars prefix.now.text.now))
            (under prefix.now.tag (chars prefix.now.text.now)) (lines_of pieces)) }
    {
        if !pieces.are_long() {
            return self.push_each_behind(pieces, prefix);
        }
        pieces.put_behind(prefix)?;
        self.push_pieces(&mut pieces)
    }

    /// Moves other lines to the end: the first after marks and the prefix `first`, and each other one after the prefix `later`.
    ///
    /// # Errors
    ///
    /// `AllocError`. Lines may be lost.
    pub fn append_behind(
        &mut self,
        other: &mut FinishedLines<T, M>,
        marks: &[M],
        first: &Prefix<'_, T>,
        later: &Prefix<'_, T>,
    ) -> Result<(), AllocError>
        requires { 0 < length other.old }
        ensures { OnOk result (self.new ≡ self.old ++ prefixed (marks_line marks.now ++ under first.now.tag (chars first.now.text.now))
            (under later.now.tag (chars later.now.text.now)) other.old) }
    {
        other.separate()?;
        let Some(piece) = other.pieces.pop_first() else {
            return self.push_lines_behind(&other.last, marks, first, later);
        };
        piece.has_line();
        settle(&mut other.pieces, &mut other.last)?;
        self.push_behind(piece, marks, first, later)?;
        self.push_all_behind(other.pieces.take(), later)
    }
}
