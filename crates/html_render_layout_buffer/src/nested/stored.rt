//! How blocks in blocks are stored: the steps on the fields, without what they mean.

ghost use Rattle.std.specs.Prelude.{◌≡◌, List, ◌-◌, ◌≤◌, [], ◌∷◌, ◌++◌, length, take, OnOk, IfOk, IfSome, IfNone, if◌then◌else◌};
ghost use Rattle.std.specs.Str.{chars};
ghost use Rattle.html_render_layout_lines.specs.Line.{is_empty, marks_line};
ghost use Rattle.html_render_layout_lines.specs.TaggedText.{counted, text_columns, under};
ghost use Rattle.html_render_layout_buffer.specs.Lines.{no_lines};
ghost use Rattle.html_render_layout_buffer.specs.Widths.{with_line, with_each, with_block, fit};
ghost use Rattle.html_render_layout_buffer.specs.Levels.{nothing_stored, lines_after, lines_added, has_lines, end_marked, level_opened, block_around, later_characters, level_closed, last_marks, waiting_left};

use super::prefixes::{Later, Level, LinePrefix, has_prefix, put_lines, put_prefixes};
use super::widths::Widths;
use crate::buffer::LineBuffer;
use crate::finished::FinishedLines;
use crate::prefix::Prefix;
use html_render_layout_lines::tag::Tag;
use std::alloc::{AllocError, Global};
use std::marker::Model;
use std::mem;

/// Lines of blocks in blocks, as they are stored.
#[derive(Drop)]
pub(super) struct StoredBlocks<T, M> {
    /// The lines of all blocks.
    pub lines: FinishedLines<T, M>,
    // the prefixes of the open blocks that have some, outermost block first
    prefixes: Vec<LinePrefix<T, M>>,
    // the blocks that are open in others, outermost first
    levels: Vec<Level<T>>,
    // number of lines of the outer blocks: that of the innermost block's first line
    start: usize,
    // widths of the innermost block's lines, if it is in another one
    widths: Widths,
}

impl<T, M> Model for StoredBlocks<T, M> {
    ghost use Rattle.html_render_layout_buffer.specs.Levels.{NestedFields};

    ghost Value = { NestedFields T M };

    ghost view = { λ s. record {
      lines = s.lines;
      prefixes = s.prefixes.items;
      levels = s.levels.items;
      start = s.start;
      widths = s.widths;
    } };
}

impl<T: Tag, M: Copy> StoredBlocks<T, M> {
    /// Returns an outermost block without lines.
    pub(super) fn new(alloc: Global) -> StoredBlocks<T, M>
        ensures { result ≡ nothing_stored }
    {
        StoredBlocks {
            lines: FinishedLines::new(alloc),
            prefixes: Vec::new(alloc),
            levels: Vec::new(alloc),
            start: 0,
            widths: Widths::NoLines,
        }
    }

    /// Removes all blocks but the outermost, and all lines, and keeps the memory.
    pub(super) fn clear(&mut self)
        ensures { self.new ≡ nothing_stored }
    {
        self.lines.clear();
        self.prefixes.clear();
        self.levels.clear();
        self.start = 0;
        self.widths = Widths::NoLines;
    }

    /// Returns the allocator.
    pub(super) fn alloc(&self) -> Global {
        *self.levels.allocator()
    }

    /// Reports whether the innermost block has lines.
    #[inline]
    pub(super) fn has_lines(&self) -> bool
        ensures { result ≡ has_lines self.now }
    {
        self.lines.has_more_than(self.start)
    }

    /// Notes the columns of a line that is added to the innermost block, if that is in another one.
    fn note(&mut self, columns: Option<usize>)
        ensures { self.new ≡ record self.old { widths = if is_empty self.old.levels then self.old.widths else with_line self.old.widths columns } }
    {
        if self.levels.is_empty() {
            return;
        }
        self.widths = self.widths.with_line(columns);
    }

    /// Notes the columns of lines that are added to the innermost block, if that is in another one.
    fn note_each(&mut self, lines: &LineBuffer<T, M>)
        ensures { self.new ≡ record self.old { widths = if is_empty self.old.levels then self.old.widths else with_each self.old.widths lines.now.lines } }
    {
        if self.levels.is_empty() {
            return;
        }
        self.widths = self.widths.with_each(lines);
    }

    /// Appends a line of marks alone.
    pub(super) fn push_marks_line(&mut self, marks: &[M]) -> Result<(), AllocError>
        ensures { OnOk result (self.new ≡ lines_added self.old (marks_line marks.now ∷ [])) }
    {
        let number = self.lines.line_count()?;
        put_prefixes(&mut self.lines.last, number, self.prefixes.as_slice())?;
        self.lines.last.push_marks(marks)?;
        self.lines.last.end_line()?;
        self.note(Some(0));
        Ok(())
    }

    /// Appends a line with a text under a tag. Its columns are counted before; `None` if they pass a machine word.
    pub(super) fn push_text_line(
        &mut self,
        text: &str,
        columns: Option<usize>,
        tag: T,
    ) -> Result<(), AllocError>
        requires { columns ≡ counted (text_columns (chars text.now)) }
        ensures { OnOk result (self.new ≡ lines_added self.old (under tag (chars text.now) ∷ [])) }
    {
        let number = self.lines.line_count()?;
        put_prefixes(&mut self.lines.last, number, self.prefixes.as_slice())?;
        self.lines.last.push_counted(text, columns, tag)?;
        self.lines.last.end_line()?;
        self.note(columns);
        Ok(())
    }

    /// Appends copies of a buffer's ended lines.
    fn put_copies(&mut self, lines: &LineBuffer<T, M>) -> Result<(), AllocError>
        ensures { OnOk result (self.new ≡ record self.old {
          lines = self.old.lines ++ lines_after (length self.old.lines) self.old.prefixes lines.now.lines;
        }) }
    {
        let number = self.lines.line_count()?;
        let prefixes = self.prefixes.as_slice();
        put_lines(&mut self.lines.last, lines, number, prefixes)
    }

    /// Moves the lines of a buffer to the end. They are copied if an open block has a prefix.
    pub(super) fn append_buffer(&mut self, lines: &mut LineBuffer<T, M>) -> Result<(), AllocError>
        requires { lines.old.line ≡ [] }
        ensures ok { OnOk result (self.new ≡ lines_added self.old lines.old.lines) }
        ensures moved { OnOk result (lines.new ≡ no_lines) }
        ensures open { lines.new.line ≡ [] }
    {
        self.note_each(lines);
        if self.prefixes.is_empty() {
            self.lines.append_buffer(lines)?;
            return Ok(());
        }
        self.put_copies(lines)?;
        lines.clear();
        Ok(())
    }

    /// Moves other lines to the end.
    pub(super) fn append(&mut self, other: &mut FinishedLines<T, M>) -> Result<(), AllocError>
        requires { length self.old.prefixes ≤ length self.old.levels }
        ensures { OnOk result (self.new ≡ lines_added self.old other.old) }
    {
        if self.levels.is_empty() {
            self.lines.append(other)?;
            return Ok(());
        }
        let none = FinishedLines::new(self.alloc());
        let mut lines = mem::replace(other, none).into_buffer()?;
        self.append_buffer(&mut lines)
    }

    /// Appends marks to the innermost block's last line. Does nothing without lines.
    pub(super) fn mark_last(&mut self, marks: &[M]) -> Result<(), AllocError>
        ensures { OnOk result (self.new ≡ end_marked self.old marks.now) }
    {
        if !self.has_lines() {
            return Ok(());
        }
        self.lines.mark_last(marks)
    }

    /// Reports whether the lines of the innermost block fit in `width` columns after its prefixes.
    pub(super) fn fits(&self, width: usize) -> bool
        ensures { (vs : List (Level T)) (v : Level T) → self.now.levels ≡ vs ++ v ∷ [] → result ≡ fit self.now.widths v.first v.later width }
    {
        let count = self.levels.len();
        if count == 0 {
            return true;
        }
        let level = self.levels[count - 1];
        self.widths.fit(level.first, level.later, width)
    }

    /// Adds the level of a block, and its prefixes if it has some.
    pub(super) fn open_level(
        &mut self,
        waiting: &[M],
        prefix: &Prefix<'_, T>,
        later: Later,
    ) -> Result<(), AllocError>
        ensures { OnOk result (self.new ≡ level_opened self.old
            (block_around waiting.now prefix.now.tag (chars prefix.now.text.now) (later_characters later (chars prefix.now.text.now)))) }
    {
        let start = self.lines.line_count()?;
        let has_prefix = has_prefix(waiting, prefix.text, later);
        if has_prefix {
            let own = LinePrefix::new(self.alloc(), waiting, prefix, later, start)?;
            self.prefixes.push(own)?;
        }
        self.levels.push(Level {
            lines: start.saturating_sub(self.start),
            tag: prefix.tag,
            has_prefix,
            first: prefix.columns,
            later: later.columns(prefix.columns),
            widths: self.widths,
        })?;
        self.start = start;
        self.widths = Widths::NoLines;
        Ok(())
    }

    /// Removes and returns the innermost block's level. `None` for the outermost block.
    pub(super) fn pop_level(&mut self) -> Option<Level<T>>
        ensures some { IfSome result (λ v. self.old ≡ record self.new { levels = self.new.levels ++ v ∷ [] }) }
        ensures none { IfNone result (self.old.levels ≡ []) }
        ensures kept { IfNone result (self.new ≡ self.old) }
    {
        self.levels.pop()
    }

    /// Removes the innermost block's prefixes, if it has some. Returns the marks that precede them.
    fn pop_prefix(&mut self, has_prefix: bool) -> Vec<M>
        ensures left { self.new ≡ record self.old {
          prefixes = if has_prefix then take (length self.old.prefixes - 1) self.old.prefixes else self.old.prefixes;
        } }
        ensures marks { result.items ≡ (if has_prefix then last_marks self.old.prefixes else []) }
    {
        if !has_prefix {
            return Vec::new(self.alloc());
        }
        match self.prefixes.pop() {
            Some(prefix) => prefix.into_marks(),
            None => Vec::new(self.alloc()),
        }
    }

    /// Returns the marks that wait in the block around the innermost one after its end: `own` and `marks`, if it has no lines.
    fn waiting_left(&self, own: Vec<M>, marks: &[M]) -> Result<Vec<M>, AllocError>
        ensures { IfOk result (λ ms. ms.items ≡ (if has_lines self.now then [] else own.items ++ marks.now)) }
    {
        if self.has_lines() {
            return Ok(Vec::new(self.alloc()));
        }
        let mut all = own;
        all.extend_from_slice(marks)?;
        Ok(all)
    }

    /// Returns the widths of the lines of the block around the innermost one after its end, if it is in another one.
    fn widths_left(&self, level: &Level<T>) -> Widths
        ensures { result ≡ (if is_empty self.now.levels then Widths.NoLines else with_block level.now.widths level.now.first level.now.later self.now.widths) }
    {
        if self.levels.is_empty() {
            return Widths::NoLines;
        }
        level
            .widths
            .with_block(level.first, level.later, self.widths)
    }

    /// Closes the innermost block, whose level is taken off the list, and puts `marks` at the end of its last line. Returns the marks that
    /// wait in the block around after that.
    pub(super) fn close_level(
        &mut self,
        level: &Level<T>,
        marks: &[M],
    ) -> Result<Vec<M>, AllocError>
        ensures closed { OnOk result (self.new ≡ level_closed (end_marked self.old marks.now) level.now) }
        ensures waiting { IfOk result (λ ms. ms.items ≡ waiting_left self.old level.now marks.now) }
    {
        let own = self.pop_prefix(level.has_prefix);
        let waiting = self.waiting_left(own, marks)?;
        self.mark_last(marks)?;
        self.start = self.start.saturating_sub(level.lines);
        self.widths = self.widths_left(level);
        Ok(waiting)
    }
}
