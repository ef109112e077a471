//! The beginning of a table in a block: whether its cells are side by side, and the borders of a stacked table.

ghost use Rattle.std.specs.Prelude.{◌≡◌, ◌==◌, ◌&&◌, not, cond, Some, None, OnOk, IfOk};
ghost use Rattle.html_render_dom_values.specs.Outcome.{Gives, OnlyOutOfMemory};
ghost use Rattle.html_render_parts_widths.specs.Shares.{widths_across};
ghost use Rattle.html_render_parts.specs.TableCells.{rows_on};
ghost use Rattle.html_render_layout_blocks.specs.declared.block.tables.OpenTable.TheVariants.{Stacked};
ghost use Rattle.html_render_layout_blocks.specs.Tables.{frame_of};
ghost use Rattle.html_render_layout_blocks.specs.Block as block;
ghost use Rattle.html_render_layout_blocks.specs.Machine as machine;
ghost use Rattle.html_render_layout_blocks.specs.Machine.{machine};
ghost use Rattle.html_render_layout_pictures.specs.Fillers.{character_of};

use super::Block;
use super::rows::Widths;
use html_render_dom_values::Error;
use html_render_layout_lines::tag::Tag;
use html_render_layout_pictures::gaps::{CHUNK, Filler, push_filler_line, push_fillers};
use html_render_layout_pictures::picture::Frame;
use html_render_parts::table::cells::{RowsAhead, TableCells};
use html_render_parts_widths::ColumnNeed;
use std::alloc::{AllocError, Global};

/// Returns the widths of a table's columns side by side in `width` columns, in the memory of others. `None` if they don't fit
/// or the table is to be stacked.
fn column_widths(
    memory: Widths,
    width: usize,
    stacked: bool,
    needs: &[ColumnNeed],
) -> Result<Option<Widths>, Error>
    ensures ok { IfOk result (λ widths. widths ≡ cond stacked None (widths_across width needs.now)) }
    ensures err { OnlyOutOfMemory result }
{
    if stacked {
        return Ok(None);
    }
    memory.across(needs, width)
}

/// Returns an iterator over the rows of a table, with their cells, placeholders and gaps.
fn rows_of(alloc: Global, grid: &TableCells) -> Result<RowsAhead, Error>
    ensures ok { IfOk result (λ rows. rows ≡ rows_on grid.now) }
    ensures err { OnlyOutOfMemory result }
{
    let cells = grid.try_clone()?;
    cells.into_rows(alloc)
}

/// Returns the frame of a table: its borders, its width, and their tag.
fn frame_of<T: Tag>(tag: T, borders: bool, widths: &Widths) -> Frame<T>
    ensures { result ≡ frame_of tag borders widths.now }
{
    Frame {
        borders,
        width: widths.frame_width(),
        tag,
    }
}

/// Returns the tag of a stacked table's borders. `None` without borders, or in a block of width 0.
fn stacked_border<T: Tag>(tag: T, borders: bool, width: usize) -> Option<T>
    ensures { result ≡ cond (borders && not (width == 0)) (Some tag) None }
{
    if borders && width != 0 {
        Some(tag)
    } else {
        None
    }
}

impl<T: Tag, M: Copy> Block<T, M> {
    /// Appends a border of one character, as wide as the block and with the waiting marks at its front. Does nothing
    /// without borders.
    pub(super) fn add_border(&mut self, border: Option<T>, filler: Filler) -> Result<(), AllocError>
        ensures { OnOk result (self.new ≡ block.add_border machine self.old border (character_of filler)) }
    {
        let Some(tag) = border else {
            return Ok(());
        };
        let marks = self.take_waiting();
        let width = self.setting.width;
        if marks.is_empty() && width <= CHUNK {
            return push_filler_line(&mut self.lines, filler, width, tag);
        }
        let mut last = self.lines.take_last();
        last.push_marks(marks.as_slice())?;
        push_fillers(&mut last, filler, width, tag)?;
        last.end_line()?;
        self.lines.put_last(last)?;
        Ok(())
    }

    /// Makes a stacked table the open one.
    pub(super) fn set_stacked(
        &mut self,
        border: Option<T>,
        has_lines: bool,
    ) -> Result<(), AllocError>
        ensures { OnOk result (self.new ≡ record self.old { table = Some (Stacked border has_lines) }) }
    {
        if self.table.change_stacked(border, has_lines) {
            return Ok(());
        }
        self.table.open_stacked(self.alloc, border, has_lines)
    }

    /// Begins a stacked table, or another row of it, below a border if borders are drawn.
    pub(super) fn begin_stacked(&mut self, border: Option<T>) -> Result<(), AllocError>
        ensures { OnOk result (self.new ≡ block.stacked_begun machine self.old border) }
    {
        self.add_border(border, Filler::Dash)?;
        self.set_stacked(border, false)
    }

    /// Begins a table whose cells are side by side. The block is flushed, and its waiting marks wait in the table.
    fn begin_across(
        &mut self,
        tag: T,
        borders: bool,
        grid: &TableCells,
        widths: Widths,
    ) -> Result<(), Error>
        ensures ok { OnOk result (self.new ≡ block.with_table_begun machine self.old tag borders (rows_on grid.now) (Some widths)) }
        ensures err { OnlyOutOfMemory result }
    {
        let ahead = rows_of(self.alloc, grid)?;
        let frame = frame_of(tag, borders, &widths);
        let waiting = self.take_waiting();
        self.table
            .open_across(self.alloc, frame, waiting, widths, ahead)
    }

    /// Begins a table in a flushed block: side by side in columns of these widths, or stacked if there are none.
    fn open_table(
        &mut self,
        tag: T,
        borders: bool,
        grid: &TableCells,
        widths: Option<Widths>,
    ) -> Result<(), Error>
        ensures ok { OnOk result (self.new ≡ block.with_table_begun machine self.old tag borders (rows_on grid.now) widths) }
        ensures err { OnlyOutOfMemory result }
    {
        match widths {
            Some(widths) => self.begin_across(tag, borders, grid, widths),
            None => {
                self.begin_stacked(stacked_border(tag, borders, self.setting.width))?;
                Ok(())
            }
        }
    }

    /// Begins a table. A table that is open is ended, and the block is flushed.
    ///
    /// - `tag` is that of the table's borders and of other characters drawn around cells.
    /// - `borders` says whether borders are drawn.
    /// - `stacked` says whether the cells are stacked even if they fit side by side.
    /// - `needs` are the minimum and preferred widths of the columns. If the columns don't fit the width of the block,
    ///   the cells are stacked too.
    ///
    /// # Errors
    ///
    /// - `OutOfMemory`.
    /// - `TooNarrow`, as in [`flush`](Block::flush).
    #[tactic(auto, using(html_render_dom_values::specs::laws::Outcome::refusals), unfolding(crate::specs::Machine::operations))]
    pub fn begin_table(
        &mut self,
        tag: T,
        borders: bool,
        stacked: bool,
        grid: &TableCells,
        needs: &[ColumnNeed],
    ) -> Result<(), Error>
        ensures { Gives result (machine.operations.begin_table self.old tag borders stacked grid.now needs.now) self.new }
    {
        self.flush_whole()?;
        let memory = self.table.take_widths(self.alloc);
        let widths = column_widths(memory, self.setting.width, stacked, needs)?;
        self.open_table(tag, borders, grid, widths)
    }
}
