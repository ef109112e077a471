//! Boxed blocks, so that moving one is cheap, and the current block with a pool of finished ones.
//!
//! `current.suspend(sub, prefix, columns, tag)` suspends the current block for a sub-block, and
//! `current.resume(suspended)` returns to it. The box of a block has room for the prefix of its sub-block's lines, so
//! neither needs an allocation.

ghost use Rattle.std.specs.Prelude.{◌≡◌, ℕ, List, Some, OnOk, IfOk, IfErr, map, option_and_then, string_bytes};
ghost use Rattle.std.specs.Borrow.{sem};
ghost use Rattle.std.specs.Str.{chars};
ghost use Rattle.html_render_dom_values.specs.Outcome.{Gives, OnlyOutOfMemory, Refuses};
ghost use Rattle.html_render_layout_blocks.specs.Block as block;
ghost use Rattle.html_render_layout_blocks.specs.Lending.{lends_block};
ghost use Rattle.html_render_layout_blocks.specs.Machine as machine;
ghost use Rattle.html_render_layout_blocks.specs.Machine.{machine};

use crate::block::Block;
use html_render_dom_values::Error;
use html_render_dom_values::small_text::SmallText;
use html_render_layout_buffer::finished::FinishedLines;
use html_render_layout_buffer::prefix::Prefix;
use html_render_layout_lines::character::TextStyle;
use html_render_layout_lines::tag::Tag;
use std::alloc::{AllocError, Global};
use std::marker::Model;
use std::mem;

/// Text of a prefix. Up to 30 bytes need no allocation.
pub type PrefixText = SmallText<30>;

/// A block, and how the lines of its sub-block are appended to it.
#[derive(Drop)]
pub struct Prefixing<B, T> {
    /// The block.
    pub block: B,
    /// Prefix of every line of the sub-block, or of its first line alone if it is indented.
    pub prefix: PrefixText,
    /// Columns reserved for the prefix. If the sub-block is indented, also the number of spaces before each later line.
    pub columns: usize,
    /// Tag of the prefix and of these spaces.
    pub tag: T,
}

/// A boxed block. Moving it moves one pointer. The prefix in the box has no meaning.
#[derive(Drop)]
pub struct BoxedBlock<T, M> {
    held: Box<Prefixing<Block<T, M>, T>>,
}

impl<T, M> Model for BoxedBlock<T, M> {
    ghost use Rattle.html_render_layout_blocks.specs.Machine.{MachineBlock};

    ghost Value = { MachineBlock T M };

    ghost view = { λ h. h.held.value.block };
}

/// A boxed block that waits for its sub-block, whose lines are then appended to it.
#[derive(Drop)]
pub struct SuspendedBlock<T, M> {
    held: Box<Prefixing<Block<T, M>, T>>,
}

impl<T, M> Model for SuspendedBlock<T, M> {
    ghost use Rattle.html_render_layout_blocks.specs.Machine.{MachineBlock};
    ghost use Rattle.html_render_layout_blocks.specs.declared.held.Prefixing.{Prefixing};

    ghost Value = { Prefixing (MachineBlock T M) T };

    ghost view = { λ h. h.held.value };
}

/// Boxes a block under the prefix of no sub-block.
fn boxed<T: Tag, M: Copy>(
    alloc: Global,
    block: Block<T, M>,
    tag: T,
) -> Result<Box<Prefixing<Block<T, M>, T>>, Error>
    ensures ok { IfOk result (λ held. held.value.block ≡ block) }
    ensures err { OnlyOutOfMemory result }
{
    Ok(Box::new(
        alloc,
        Prefixing {
            block,
            prefix: PrefixText::new(),
            columns: 0,
            tag,
        },
    )?)
}

/// Maximum number of finished blocks pooled for reuse.
const POOL_MAX: usize = 16;

/// The current block, which receives contents, and a pool of finished blocks.
#[derive(Drop)]
pub struct CurrentBlock<T, M> {
    /// Current block. The prefix in the box has no meaning.
    held: Box<Prefixing<Block<T, M>, T>>,
    /// Finished blocks, pooled for reuse.
    spare: Vec<Box<Prefixing<Block<T, M>, T>>>,
}

impl<T, M> Model for CurrentBlock<T, M> {
    ghost use Rattle.html_render_layout_blocks.specs.Machine.{MachineBlock};

    ghost Value = { MachineBlock T M };

    ghost view = { λ h. h.held.value.block };
}

impl<T: Tag, M: Copy> CurrentBlock<T, M> {
    /// Makes a block the current one, with an empty pool. Any tag will do for `tag`: it fills the room for that of a prefix.
    ///
    /// # Errors
    ///
    /// `OutOfMemory`.
    pub fn new(alloc: Global, block: Block<T, M>, tag: T) -> Result<CurrentBlock<T, M>, Error>
        ensures ok { IfOk result (λ b. b ≡ block) }
        ensures err { OnlyOutOfMemory result }
    {
        let held = boxed(alloc, block, tag)?;
        Ok(CurrentBlock {
            held,
            spare: Vec::new(alloc),
        })
    }

    /// Returns the current block, to be changed.
    #[inline]
    pub fn as_mut(&mut self) -> &mut Block<T, M>
        ensures* writes_back { sem 𝓛 (lends_block T.row M.row self.entry result) }
        ensures value { result.now ≡ self.old }
    {
        let held = self.held.as_mut();
        &mut held.block
    }

    /// Makes `block` the current one. Returns the previous one.
    pub fn replace(&mut self, block: BoxedBlock<T, M>) -> BoxedBlock<T, M>
        ensures before { result ≡ self.old }
        ensures after { self.new ≡ block }
    {
        BoxedBlock {
            held: mem::replace(&mut self.held, block.held),
        }
    }

    /// Makes the sub-block `sub` the current one. Returns the previous one, to which the lines of the sub-block are to be
    /// appended after `prefix`, for which `columns` columns are reserved, under `tag`.
    pub fn suspend(
        &mut self,
        sub: BoxedBlock<T, M>,
        prefix: PrefixText,
        columns: usize,
        tag: T,
    ) -> SuspendedBlock<T, M>
        ensures before { result ≡ record { block = self.old; prefix = prefix; columns = columns; tag = tag } }
        ensures after { self.new ≡ sub }
    {
        let mut held = mem::replace(&mut self.held, sub.held);
        held.prefix = prefix;
        held.columns = columns;
        held.tag = tag;
        SuspendedBlock { held }
    }

    /// Makes a suspended block the current one. Returns its sub-block, which was the current one, with the prefix for its
    /// lines.
    pub fn resume(&mut self, outer: SuspendedBlock<T, M>) -> Prefixing<BoxedBlock<T, M>, T>
        ensures before { result ≡ record outer { block = self.old } }
        ensures after { self.new ≡ outer.block }
    {
        let mut held = outer.held;
        let prefix = mem::replace(&mut held.prefix, PrefixText::new());
        let columns = held.columns;
        let tag = held.tag;
        let sub = mem::replace(&mut self.held, held);
        Prefixing {
            block: BoxedBlock { held: sub },
            prefix,
            columns,
            tag,
        }
    }

    /// Takes a block from the pool, if there is one.
    fn take_spare(&mut self) -> Option<Box<Prefixing<Block<T, M>, T>>>
        ensures { self.new ≡ self.old }
    {
        self.spare.pop()
    }

    /// Returns a finished block to the pool, or drops it if the pool is full.
    #[inline(always)]
    fn keep(&mut self, over: Box<Prefixing<Block<T, M>, T>>) -> Result<(), AllocError>
        ensures { OnOk result (self.new ≡ self.old) }
    {
        if self.spare.len() < POOL_MAX {
            self.spare.push(over)?;
        }
        Ok(())
    }

    /// Resets a pooled block to an empty block of `width` columns in the current one.
    fn renewed(&self, spare: Box<Prefixing<Block<T, M>, T>>, width: usize) -> BoxedBlock<T, M>
        ensures { result ≡ block.inner_block machine self.now width }
    {
        let mut held = spare;
        held.block.become_inner(&self.held.block, width);
        BoxedBlock { held }
    }

    /// Returns an empty block of `width` columns in the current one, from the pool if possible.
    #[inline(always)]
    fn inner_block(&mut self, width: usize) -> Result<BoxedBlock<T, M>, Error>
        ensures same { OnOk result (self.new ≡ self.old) }
        ensures ok { IfOk result (λ inner. inner ≡ block.inner_block machine self.old width) }
        ensures err { OnlyOutOfMemory result }
    {
        if let Some(spare) = self.take_spare() {
            return Ok(self.renewed(spare, width));
        }
        let block = self.held.block.inner_block(width);
        let held = boxed(self.held.block.alloc(), block, self.held.tag)?;
        Ok(BoxedBlock { held })
    }

    /// Returns an empty sub-block for the columns after a prefix of `prefix` columns. It has at least `inner` columns.
    ///
    /// # Errors
    ///
    /// - `OutOfMemory`.
    /// - `TooNarrow`, with overflow off, if fewer than `inner` columns are free.
    #[tactic(auto, using(html_render_dom_values::specs::laws::Outcome::refusals), unfolding(crate::specs::Machine::operations))]
    pub fn sub_block(&mut self, prefix: usize, inner: usize) -> Result<BoxedBlock<T, M>, Error>
        ensures same { OnOk result (self.new ≡ self.old) }
        ensures ok { (tag : T) (first later : List ℕ) → IfOk result (λ sub. machine.operations.sub_block self.old tag first later prefix inner ≡ Some sub) }
        ensures err { (tag : T) (first later : List ℕ) → IfErr result (λ e. Refuses e (machine.operations.sub_block self.old tag first later prefix inner)) }
    {
        match self.held.block.width_behind(prefix, inner) {
            Some(width) => self.inner_block(width),
            None => Err(Error::TooNarrow),
        }
    }

    /// Begins a new line, as [`Block::new_line`] does, in place of a sub-block of white space alone.
    ///
    /// # Errors
    ///
    /// - `OutOfMemory`.
    /// - `TooNarrow`, as in [`sub_block`](CurrentBlock::sub_block) and [`Block::flush`].
    #[tactic(auto, using(html_render_dom_values::specs::laws::Outcome::refusals), unfolding(crate::specs::Machine::operations))]
    pub fn skip_sub_block(&mut self, prefix: usize, inner: usize) -> Result<(), Error>
        ensures { (tag : T) (first later : List ℕ) → Gives result (option_and_then (λ b. option_and_then (λ _. machine.operations.new_line b)
            (machine.operations.sub_block b tag first later prefix inner)) (machine.operations.new_line self.old)) self.new }
    {
        self.held.block.new_line()?;
        match self.held.block.width_behind(prefix, inner) {
            Some(_) => self.held.block.new_line(),
            None => Err(Error::TooNarrow),
        }
    }

    /// Returns an empty block for the next cell of the open row, as wide as the cell. `None` if the cell is skipped,
    /// since its columns have no width. In a stacked table, and where no row is open, the block is as wide as the
    /// current one.
    ///
    /// # Errors
    ///
    /// `OutOfMemory`.
    #[tactic(auto, unfolding(crate::specs::Machine::operations))]
    #[inline(always)]
    pub fn cell_block(&mut self) -> Result<Option<BoxedBlock<T, M>>, Error>
        ensures same { OnOk result (self.new ≡ self.old) }
        ensures ok { IfOk result (λ cell. cell ≡ machine.operations.cell_block self.old) }
        ensures err { OnlyOutOfMemory result }
    {
        match self.held.block.next_cell_width() {
            Some(width) => Ok(Some(self.inner_block(width)?)),
            None => Ok(None),
        }
    }

    /// Adds a block as the next cell, as [`Block::add_cell`] does, and returns it to the pool.
    ///
    /// # Errors
    ///
    /// As for [`Block::add_cell`].
    #[tactic(auto, using(html_render_dom_values::specs::laws::Outcome::refusals))]
    pub fn add_cell(&mut self, cell: BoxedBlock<T, M>) -> Result<(), Error>
        ensures { Gives result (machine.operations.add_cell self.old cell) self.new }
    {
        let mut inner = cell.held;
        self.held.block.add_cell(&mut inner.block)?;
        self.keep(inner)?;
        Ok(())
    }

    /// Adds a block as the next cell after a text is added to it, and returns it to the pool.
    ///
    /// # Errors
    ///
    /// As for [`Block::add_inline_text`] and [`Block::add_cell`].
    #[tactic(auto, using(html_render_dom_values::specs::laws::Outcome::refusals))]
    pub fn add_text_cell(
        &mut self,
        cell: BoxedBlock<T, M>,
        text: &str,
        style: TextStyle<T>,
    ) -> Result<(), Error>
        ensures { Gives result (option_and_then (λ c. machine.operations.add_cell self.old c) (machine.operations.add_inline_text cell style (chars text.now))) self.new }
    {
        let mut inner = cell.held;
        inner.block.add_inline_text(text, style)?;
        self.held.block.add_cell(&mut inner.block)?;
        self.keep(inner)?;
        Ok(())
    }

    /// Appends the lines of a sub-block, as [`Block::append`] does, and returns it to the pool.
    ///
    /// # Errors
    ///
    /// As for [`Block::append`].
    #[tactic(auto, using(html_render_dom_values::specs::laws::Outcome::refusals))]
    pub fn append(
        &mut self,
        sub: BoxedBlock<T, M>,
        first: &str,
        later: &Prefix<'_, T>,
    ) -> Result<(), Error>
        ensures { Gives result (machine.operations.append self.old sub later.now.tag (chars first.now) (chars later.now.text.now)) self.new }
    {
        let mut inner = sub.held;
        self.held.block.append(&mut inner.block, first, later)?;
        self.keep(inner)?;
        Ok(())
    }

    /// Finishes the current block, as [`Block::finish`] does.
    ///
    /// # Errors
    ///
    /// As for [`Block::finish`].
    pub fn finish(&mut self) -> Result<(), Error>
        ensures { Gives result (machine.ending.finish self.old) self.new }
    {
        self.held.block.finish()
    }

    /// Appends closing lines to the current block, as [`Block::add_closing_lines`] does.
    ///
    /// # Errors
    ///
    /// As for [`Block::add_closing_lines`].
    pub fn add_closing_lines(&mut self, texts: &[String], tag: T, cut: bool) -> Result<(), Error>
        ensures { Gives result (machine.ending.add_closing_lines self.old cut tag (map (λ t. chars (string_bytes t)) texts.now)) self.new }
    {
        self.held.block.add_closing_lines(texts, tag, cut)
    }

    /// Removes and returns the finished lines of the current block.
    pub fn take_lines(&mut self) -> FinishedLines<T, M>
        ensures { result ≡ self.old.lines }
    {
        self.held.block.take_lines()
    }
}
