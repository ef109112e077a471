//! A deque of pieces.

ghost use Rattle.std.specs.Prelude.{◌≡◌, ℕ, List, ◌==◌, ◌≤◌, ◌+◌, ◌++◌, [], ◌∷◌, Some, drop, take, map, length, nat_le, OnOk, IfOk, IfSome, IfNone};
ghost use Rattle.std.specs.List.{list_all};
ghost use Rattle.std.specs.Str.{chars};
ghost use Rattle.html_render_layout_lines.specs.Line.{Line, columns};
ghost use Rattle.html_render_layout_lines.specs.TaggedText.{counted, under};
ghost use Rattle.html_render_layout_buffer.specs.Marked.{marked_before, marked_behind};
ghost use Rattle.html_render_layout_buffer.specs.Padding.{filled};
ghost use Rattle.html_render_layout_buffer.specs.Pieces.{fits_after, lines_of, ArePieces};

use crate::finished::piece::Piece;
use crate::prefix::Prefix;
use crate::runs::longer;
use html_render_layout_lines::tag::Tag;
use std::alloc::{AllocError, Global};
use std::collections::VecDeque;
use std::marker::Model;
use std::mem;

/// Pieces, in order.
#[derive(Drop)]
pub(super) struct Pieces<T, M> {
    pieces: VecDeque<Piece<T, M>>,
    // numbers of first and of last pieces whose widths aren't known
    front: usize,
    back: usize,
    // columns that each line of the pieces between them has at least
    least: usize,
    // number of lines
    count: usize,
}

impl<T, M> Model for Pieces<T, M> {
    ghost use Rattle.std.specs.Prelude.{List};
    ghost use Rattle.html_render_layout_lines.specs.Line.{Line};
    ghost use Rattle.html_render_layout_buffer.specs.Pieces.{ArePieces};

    ghost Value = { List (List (Line T M)) };

    ghost view = { λ p. p.pieces.items };

    ghost invariant = { λ p. ArePieces p.front p.back p.least p.count p.pieces.items };
}

impl<T: Tag, M: Copy> Pieces<T, M> {
    /// Returns a value without pieces.
    pub(super) fn new(alloc: Global) -> Pieces<T, M>
        ensures { result ≡ [] }
    {
        Pieces {
            pieces: VecDeque::new(alloc),
            front: 0,
            back: 0,
            least: usize::MAX,
            count: 0,
        }
    }

    /// Moves the pieces out.
    pub(super) fn take(&mut self) -> Pieces<T, M>
        ensures taken { result ≡ self.old }
        ensures left { self.new ≡ [] }
    {
        let none = Pieces::new(*self.pieces.allocator());
        mem::replace(self, none)
    }

    /// Reports whether there are no lines.
    #[inline]
    pub(super) fn is_empty(&self) -> bool
        ensures { result ≡ (length (lines_of self.now) == 0) }
    {
        self.count == 0
    }

    /// Returns the number of lines.
    #[inline]
    pub(super) fn line_count(&self) -> usize
        ensures { result ≡ length (lines_of self.now) }
    {
        self.count
    }

    /// Returns the number of bytes of the pieces' texts, without what is kept in front of their lines; at most `usize::MAX`.
    pub(super) fn byte_count(&self) -> usize {
        let mut bytes: usize = 0;
        for index in 0..self.pieces.len() {
            bytes = bytes.saturating_add(self.pieces[index].byte_count());
        }
        bytes
    }

    /// Appends a piece.
    pub(super) fn push(&mut self, piece: Piece<T, M>) -> Result<(), AllocError>
        ensures { OnOk result (self.new ≡ self.old ++ piece ∷ []) }
    {
        let back = longer(self.back, 1)?;
        let count = longer(self.count, piece.line_count())?;
        self.pieces.push_back(piece)?;
        self.back = back;
        self.count = count;
        Ok(())
    }

    /// Puts a piece in front of the others.
    pub(super) fn push_first(&mut self, piece: Piece<T, M>) -> Result<(), AllocError>
        ensures { OnOk result (self.new ≡ piece ∷ self.old) }
    {
        let front = longer(self.front, 1)?;
        let count = longer(self.count, piece.line_count())?;
        self.pieces.push_front(piece)?;
        self.front = front;
        self.count = count;
        Ok(())
    }

    /// Removes and returns the first piece.
    pub(super) fn pop_first(&mut self) -> Option<Piece<T, M>>
        ensures some { IfSome result (λ p. self.old ≡ p ∷ self.new) }
        ensures none { IfNone result (self.old ≡ []) }
        ensures left { IfNone result (self.new ≡ []) }
    {
        let Some(piece) = self.pieces.pop_front() else {
            return None;
        };
        self.front = self.front.saturating_sub(1);
        self.count -= piece.line_count();
        Some(piece)
    }

    /// Removes and returns the last piece.
    pub(super) fn pop_last(&mut self) -> Option<Piece<T, M>>
        ensures some { IfSome result (λ p. self.old ≡ self.new ++ p ∷ []) }
        ensures none { IfNone result (self.old ≡ []) }
        ensures left { IfNone result (self.new ≡ []) }
    {
        let Some(piece) = self.pieces.pop_back() else {
            return None;
        };
        self.back = self.back.saturating_sub(1);
        self.count -= piece.line_count();
        Some(piece)
    }

    /// Returns the pieces followed by others. Those of the shorter value are moved, and their widths aren't known then.
    pub(super) fn joined(self, others: Pieces<T, M>) -> Result<Pieces<T, M>, AllocError>
        ensures { IfOk result (λ p. p ≡ self ++ others) }
    {
        let count = longer(self.count, others.count)?;
        if self.pieces.len() < others.pieces.len() {
            let front = longer(self.pieces.len(), others.front)?;
            let pieces = joined(self.pieces, others.pieces)?;
            return Ok(Pieces {
                pieces,
                front,
                back: others.back,
                least: others.least,
                count,
            });
        }
        let back = longer(self.back, others.pieces.len())?;
        let pieces = joined(self.pieces, others.pieces)?;
        Ok(Pieces {
            pieces,
            front: self.front,
            back,
            least: self.least,
            count,
        })
    }

    /// Moves other pieces to the end.
    #[inline(never)]
    pub(super) fn append(&mut self, others: &mut Pieces<T, M>) -> Result<(), AllocError>
        ensures { OnOk result (self.new ≡ self.old ++ others.old) }
    {
        *self = self.take().joined(others.take())?;
        Ok(())
    }

    /// Reports whether each piece is one long line.
    pub(super) fn are_long(&self) -> bool {
        for index in 0..self.pieces.len() {
            if !self.pieces[index].is_long() {
                return false;
            }
        }
        true
    }

    /// Puts a prefix in front of each line. The pieces stay in their deque, so that none is allocated.
    #[inline(never)]
    pub(super) fn put_behind(&mut self, prefix: &Prefix<'_, T>) -> Result<(), AllocError>
        ensures { OnOk result (self.new ≡ map (map (λ l. under prefix.now.tag (chars prefix.now.text.now) ++ l)) self.old) }
    {
        for _ in 0..self.pieces.len() {
            let Some(piece) = self.pop_first() else {
                return Ok(());
            };
            self.push(piece.behind(prefix)?)?;
        }
        Ok(())
    }

    /// Puts marks in front of the first line. Does nothing without pieces.
    #[inline(never)]
    pub(super) fn mark_first(&mut self, marks: &[M]) -> Result<(), AllocError>
        ensures { OnOk result (lines_of self.new ≡ marked_before marks.now (lines_of self.old)) }
    {
        let Some(piece) = self.pop_first() else {
            return Ok(());
        };
        piece.has_line();
        self.push_first(piece.marked_first(marks)?)
    }

    /// Appends marks to the last line. Does nothing without pieces.
    #[inline(never)]
    pub(super) fn mark_last(&mut self, marks: &[M]) -> Result<(), AllocError>
        ensures { OnOk result (lines_of self.new ≡ marked_behind marks.now (lines_of self.old)) }
    {
        let Some(piece) = self.pop_last() else {
            return Ok(());
        };
        piece.has_line();
        self.push(piece.marked_last(marks)?)
    }

    /// Fills each line with spaces up to `width` columns, under a tag. Reads no piece that is known to be as wide.
    pub(super) fn filled(self, width: usize, tag: T) -> Result<Pieces<T, M>, AllocError>
        ensures { IfOk result (λ p. lines_of p ≡ filled (Some tag) width (lines_of self)) }
    {
        let Pieces {
            mut pieces,
            front,
            back,
            least,
            count,
        } = self;
        fill_narrow(&mut pieces, front, back, least, width, tag)?;
        Ok(Pieces {
            pieces,
            front: 0,
            back: 0,
            least: width,
            count,
        })
    }

    /// Reports whether the lines fit in `width` columns, the first after `first` columns and the others after `later` columns.
    /// Each is `None` if it passes a machine word.
    pub(super) fn fits_after(
        &self,
        first: Option<usize>,
        later: Option<usize>,
        width: usize,
    ) -> bool
        ensures { (a b : ℕ) → first ≡ counted a → later ≡ counted b → result ≡ fits_after a b width (lines_of self.now) }
    {
        if self.pieces.is_empty() {
            return true;
        }
        let piece = &self.pieces[0];
        piece.has_line();
        piece.fits_after(first, later, width) && others_fit(&self.pieces, later, width)
    }
}

/// Reports whether the lines of all pieces but the first fit in `width` columns, each after `later` columns. `later` is `None`
/// if it passes a machine word.
fn others_fit<T: Tag, M: Copy>(
    pieces: &VecDeque<Piece<T, M>>,
    later: Option<usize>,
    width: usize,
) -> bool
    ensures { (k : ℕ) → later ≡ counted k → result ≡ list_all (λ l. nat_le (k + columns l) width) (lines_of (drop 1 pieces.now.items)) }
{
    for index in 1..pieces.len() {
        if !pieces[index].fits_after(later, later, width) {
            return false;
        }
    }
    true
}

/// Returns pieces followed by others. Those of the shorter value are moved.
fn joined<T: Tag, M: Copy>(
    pieces: VecDeque<Piece<T, M>>,
    others: VecDeque<Piece<T, M>>,
) -> Result<VecDeque<Piece<T, M>>, AllocError>
    ensures { IfOk result (λ q. q.items ≡ pieces.items ++ others.items) }
{
    let (mut pieces, mut others) = (pieces, others);
    if pieces.len() < others.len() {
        let moved = pieces.len();
        others.append(&mut pieces)?;
        others.rotate_right(moved);
        return Ok(others);
    }
    pieces.append(&mut others)?;
    Ok(pieces)
}

/// Fills each line with spaces up to `width` columns, under a tag. Reads no piece but the first and last ones if each line of the
/// others has at least `width` columns.
fn fill_narrow<T: Tag, M: Copy>(
    pieces: &mut VecDeque<Piece<T, M>>,
    front: usize,
    back: usize,
    least: usize,
    width: usize,
    tag: T,
) -> Result<(), AllocError>
    ensures { (n : ℕ) → ArePieces front back least n pieces.old.items →
        OnOk result (lines_of pieces.new.items ≡ filled (Some tag) width (lines_of pieces.old.items)) }
{
    let len = pieces.len();
    let outer = longer(front, back)?;
    if width <= least && outer <= len {
        return fill_outer(pieces, front, back, width, tag);
    }
    fill_in_turn(pieces, len, width, tag)
}

/// Fills the lines of the first and of the last pieces with spaces up to `width` columns, under a tag.
fn fill_outer<T: Tag, M: Copy>(
    pieces: &mut VecDeque<Piece<T, M>>,
    first: usize,
    last: usize,
    width: usize,
    tag: T,
) -> Result<(), AllocError>
    requires { first + last ≤ length pieces.old.items }
    ensures { (xs ys zs : List (List (Line T M))) → pieces.old.items ≡ xs ++ (ys ++ zs) → first ≡ length xs → last ≡ length zs →
        OnOk result (pieces.new.items ≡ map (filled (Some tag) width) xs ++ (ys ++ map (filled (Some tag) width) zs)) }
{
    pieces.rotate_right(last);
    fill_in_turn(pieces, first + last, width, tag)?;
    pieces.rotate_right(first);
    Ok(())
}

/// Moves the first `count` pieces to the end, in turn, each with its lines filled with spaces up to `width` columns, under a
/// tag.
fn fill_in_turn<T: Tag, M: Copy>(
    pieces: &mut VecDeque<Piece<T, M>>,
    count: usize,
    width: usize,
    tag: T,
) -> Result<(), AllocError>
    requires { count ≤ length pieces.old.items }
    ensures { OnOk result (pieces.new.items ≡ drop count pieces.old.items ++ map (filled (Some tag) width) (take count pieces.old.items)) }
{
    for _ in 0..count {
        let Some(piece) = pieces.pop_front() else {
            return Ok(());
        };
        pieces.push_back(piece.filled(width, tag)?)?;
    }
    Ok(())
}
