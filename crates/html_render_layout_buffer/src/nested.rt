//! Lines of blocks in blocks. Each line is written once, after the prefixes of all open blocks, so that ending a block moves no line.

ghost use Rattle.std.specs.Prelude.{◌≡◌, ◌==◌, List, [], ◌∷◌, ◌++◌, length, OnOk, IfOk};
ghost use Rattle.std.specs.Str.{chars};
ghost use Rattle.html_render_layout_lines.specs.Line.{marks_line};
ghost use Rattle.html_render_layout_lines.specs.TaggedText.{counted, text_columns, under};
ghost use Rattle.html_render_layout_buffer.specs.Lines.{no_lines};
ghost use Rattle.html_render_layout_buffer.specs.Pieces.{fits_after};
ghost use Rattle.html_render_layout_buffer.specs.Levels.{later_characters};
ghost use Rattle.html_render_layout_buffer.specs.Nested.{Outer, no_blocks, with_lines, with_last_marked, with_block_begun, with_block_ended, waiting_after};

use crate::buffer::LineBuffer;
use crate::finished::FinishedLines;
use crate::prefix::Prefix;
use html_render_layout_lines::tag::Tag;
use std::alloc::{AllocError, Global};
use std::marker::Model;
use std::mem;
use stored::StoredBlocks;

mod prefixes;
mod stored;
mod widths;

pub use prefixes::Later;

/// Lines of blocks in blocks. Lines are appended to the innermost open block, and have the prefixes of all open blocks.
///
/// A block's first line follows the marks that wait around the block and the first prefix, and its other lines the later prefix.
#[derive(Drop)]
pub struct NestedLines<T, M> {
    blocks: StoredBlocks<T, M>,
}

impl<T, M> Model for NestedLines<T, M> {
    ghost use Rattle.html_render_layout_buffer.specs.Nested.{Nested};
    ghost use Rattle.html_render_layout_buffer.specs.Levels.{nested_of, HoldsNested};

    ghost Value = { Nested T M };

    ghost view = { λ n. nested_of n.blocks };

    ghost invariant = { λ n. HoldsNested n.blocks };
}

impl<T: Tag, M: Copy> NestedLines<T, M> {
    /// Returns an outermost block without lines.
    pub fn new(alloc: Global) -> NestedLines<T, M>
        ensures { result ≡ no_blocks }
    {
        NestedLines {
            blocks: StoredBlocks::new(alloc),
        }
    }

    /// Removes all blocks but the outermost, and all lines, and keeps the memory.
    pub fn clear(&mut self)
        ensures { self.new ≡ no_blocks }
    {
        self.blocks.clear();
    }

    /// Reserves memory for `bytes` more bytes of text and `lines` more lines.
    ///
    /// # Errors
    ///
    /// `AllocError`. The lines stay unchanged.
    pub fn reserve(&mut self, bytes: usize, lines: usize) -> Result<(), AllocError>
        ensures { self.new ≡ self.old }
    {
        self.blocks.lines.reserve(bytes, lines)
    }

    /// Reports whether the innermost block has no lines.
    #[inline]
    pub fn is_empty(&self) -> bool
        ensures { result ≡ (length self.now.lines == 0) }
    {
        !self.blocks.has_lines()
    }

    /// Appends a line of marks alone to the innermost block.
    ///
    /// # Errors
    ///
    /// `AllocError`. There are no blocks and no lines then.
    pub fn push_marks_line(&mut self, marks: &[M]) -> Result<(), AllocError>
        ensures { OnOk result (self.new ≡ with_lines self.old (marks_line marks.now ∷ [])) }
    {
        let put = self.blocks.push_marks_line(marks);
        match put {
            Ok(()) => {}
            // Memory ran out.
            Err(_) => self.blocks.clear(),
        }
        put
    }

    /// Appends a line with a text under a tag to the innermost block. Its columns are counted before; `None` if they pass a machine word.
    ///
    /// # Errors
    ///
    /// `AllocError`. There are no blocks and no lines then.
    pub fn push_text_line(
        &mut self,
        text: &str,
        columns: Option<usize>,
        tag: T,
    ) -> Result<(), AllocError>
        requires { columns ≡ counted (text_columns (chars text.now)) }
        ensures { OnOk result (self.new ≡ with_lines self.old (under tag (chars text.now) ∷ [])) }
    {
        let put = self.blocks.push_text_line(text, columns, tag);
        match put {
            Ok(()) => {}
            // Memory ran out.
            Err(_) => self.blocks.clear(),
        }
        put
    }

    /// Moves the lines of a buffer, whose open line must be empty, to the end of the innermost block.
    ///
    /// # Errors
    ///
    /// `AllocError`. There are no blocks and no lines then.
    #[inline]
    pub fn append_buffer(&mut self, lines: &mut LineBuffer<T, M>) -> Result<(), AllocError>
        requires { lines.old.line ≡ [] }
        ensures ok { OnOk result (self.new ≡ with_lines self.old lines.old.lines) }
        ensures moved { OnOk result (lines.new ≡ no_lines) }
        ensures open { lines.new.line ≡ [] }
    {
        let put = self.blocks.append_buffer(lines);
        match put {
            Ok(()) => {}
            // Memory ran out.
            Err(_) => self.blocks.clear(),
        }
        put
    }

    /// Moves other lines to the end of the innermost block.
    ///
    /// # Errors
    ///
    /// `AllocError`. There are no blocks and no lines then.
    pub fn append(&mut self, other: &mut FinishedLines<T, M>) -> Result<(), AllocError>
        ensures { OnOk result (self.new ≡ with_lines self.old other.old) }
    {
        let put = self.blocks.append(other);
        match put {
            Ok(()) => {}
            // Memory ran out.
            Err(_) => self.blocks.clear(),
        }
        put
    }

    /// Appends marks to the innermost block's last line. Does nothing without lines.
    ///
    /// # Errors
    ///
    /// `AllocError`. There are no blocks and no lines then.
    pub fn mark_last(&mut self, marks: &[M]) -> Result<(), AllocError>
        ensures { OnOk result (self.new ≡ with_last_marked self.old marks.now) }
    {
        let put = self.blocks.mark_last(marks);
        match put {
            Ok(()) => {}
            // Memory ran out.
            Err(_) => self.blocks.clear(),
        }
        put
    }

    /// Reports whether each line of the innermost block, which is in another one, fits in `width` columns after its prefix. Reads no line.
    pub fn fits(&self, width: usize) -> bool
        ensures { (os : List (Outer T M)) (o : Outer T M) → self.now.outer ≡ os ++ o ∷ [] →
            result ≡ fits_after (text_columns o.first) (text_columns o.later) width self.now.lines }
    {
        self.blocks.fits(width)
    }

    /// Begins a block in the innermost one. Its first line follows the marks that wait around it and the prefix, and other lines follow the
    /// later prefix.
    ///
    /// # Errors
    ///
    /// `AllocError`. There are no blocks and no lines then.
    pub fn begin_block(
        &mut self,
        waiting: &[M],
        prefix: &Prefix<'_, T>,
        later: Later,
    ) -> Result<(), AllocError>
        ensures { OnOk result (self.new ≡ with_block_begun self.old waiting.now prefix.now.tag (chars prefix.now.text.now)
            (later_characters later (chars prefix.now.text.now))) }
    {
        let put = self.blocks.open_level(waiting, prefix, later);
        match put {
            Ok(()) => {}
            // Memory ran out.
            Err(_) => self.blocks.clear(),
        }
        put
    }

    /// Ends the innermost block, in which `marks` still wait. Its lines become lines of the block around, with these marks at the end of the
    /// last one. Returns the marks that wait in the block around after that: without lines, those that waited there before and `marks`.
    /// Does nothing to the outermost block.
    ///
    /// # Errors
    ///
    /// `AllocError`. There are no blocks and no lines then.
    pub fn end_block(&mut self, marks: &[M]) -> Result<Vec<M>, AllocError>
        ensures block { OnOk result ((os : List (Outer T M)) (o : Outer T M) → self.old.outer ≡ os ++ o ∷ [] →
            self.new ≡ with_block_ended os o self.old marks.now) }
        ensures waiting { IfOk result (λ ms. (os : List (Outer T M)) (o : Outer T M) → self.old.outer ≡ os ++ o ∷ [] →
            ms.items ≡ waiting_after o self.old marks.now) }
    {
        let Some(level) = self.blocks.pop_level() else {
            return Ok(Vec::new(self.blocks.alloc()));
        };
        let left = self.blocks.close_level(&level, marks);
        match left {
            Ok(waiting) => Ok(waiting),
            // Memory ran out.
            Err(error) => {
                self.blocks.clear();
                Err(error)
            }
        }
    }

    /// Moves the lines of the outermost block out, in which no block is open.
    pub fn take_lines(&mut self) -> FinishedLines<T, M>
        requires { self.old.outer ≡ [] }
        ensures lines { result ≡ self.old.lines }
        ensures left { self.new ≡ no_blocks }
    {
        let none = FinishedLines::new(self.blocks.alloc());
        mem::replace(&mut self.blocks.lines, none)
    }
}
