//! Rows and cells of a block's open table.

ghost use Rattle.std.specs.Prelude.{◌≡◌, [], Some, OnOk, IfOk, drop, not, option_map, slice_index_or};
ghost use Rattle.html_render_dom_values.specs.Outcome.{Gives, OnlyOutOfMemory};
ghost use Rattle.html_render_layout_lines.specs.Line.{is_empty};
ghost use Rattle.html_render_layout_blocks.specs.OpenRows.{open_row};
ghost use Rattle.html_render_layout_blocks.specs.Tables.{with_row_open, next_cell_width, skipped, with_next, with_row_over, cell_place};
ghost use Rattle.html_render_layout_blocks.specs.Block as block;
ghost use Rattle.html_render_layout_blocks.specs.Machine as machine;
ghost use Rattle.html_render_layout_blocks.specs.Machine.{machine};

use super::Block;
use super::rows::{OpenRow, Widths};
use super::tables::{BlockTable, OpenTable, add_open};
use html_render_dom_values::Error;
use html_render_layout_buffer::finished::FinishedLines;
use html_render_layout_lines::tag::Tag;
use html_render_layout_pictures::gaps::Filler;
use html_render_layout_pictures::picture::Picture;
use html_render_parts::table::cells::RowsAhead;
use std::alloc::{AllocError, Global};
use std::mem;

/// Place of the next cell.
#[derive(Clone, Copy)]
pub enum CellPlace<T> {
    /// In the open row of a table whose cells are side by side.
    InRow,
    /// Below the lines of the block, since no row is open.
    Below,
    /// Below the other cells of a stacked table.
    InStack {
        /// Tag of the table's borders; `None` without borders.
        border: Option<T>,
        /// Whether a cell of the row has lines.
        has_lines: bool,
    },
}

/// Opens the next of the rows ahead, or an empty row if there is none. Its kept cells have the memory of a row that `picture`
/// has drawn.
#[inline(always)]
fn next_row<T: Tag, M: Copy>(
    alloc: Global,
    picture: &mut Picture<T, M>,
    widths: &mut Widths,
    ahead: &mut RowsAhead,
) -> Result<OpenRow<T, M>, Error>
    ensures picture { OnOk result (picture.new ≡ picture.old) }
    ensures widths { widths.new ≡ widths.old }
    ensures row { IfOk result (λ row. row ≡ open_row widths.old (slice_index_or ahead.old 0 [])) }
    ensures ahead { OnOk result (ahead.new ≡ drop 1 ahead.old) }
    ensures err { OnlyOutOfMemory result }
{
    let mut cells = mem::replace(&mut widths.cells, Vec::new(alloc));
    if !ahead.next(&mut cells)? {
        return Ok(OpenRow::new(alloc, widths, &[], picture.take_row()?)?);
    }
    let row = OpenRow::new(alloc, widths, cells.as_slice(), picture.take_row()?)?;
    widths.keep_cells(cells);
    Ok(row)
}

impl<T: Tag, M: Copy> OpenTable<Picture<T, M>, T, M> {
    /// Begins the next row. Side by side, a row that is open already stays open.
    fn begin_row(&mut self, alloc: Global) -> Result<(), Error>
        ensures ok { OnOk result (self.new ≡ with_row_open self.old) }
        ensures err { OnlyOutOfMemory result }
    {
        match self {
            OpenTable::Across {
                picture,
                widths,
                ahead,
                row,
            } => {
                if row.is_none() {
                    *row = Some(next_row(alloc, picture, widths, ahead)?);
                }
            }
            OpenTable::Stacked { has_lines, .. } => *has_lines = false,
        }
        Ok(())
    }

    /// Returns the columns of the next cell's block; `None` if the cell is skipped. Where no row is open, and in a
    /// stacked table, they are `width`, those of the table's block.
    fn next_cell_width(&self, width: usize) -> Option<usize>
        ensures { result ≡ next_cell_width width (Some self.now) }
    {
        match self {
            OpenTable::Across { row: Some(row), .. } => row.next_width(),
            OpenTable::Across { row: None, .. } | OpenTable::Stacked { .. } => Some(width),
        }
    }

    /// Returns the place of the next cell.
    fn cell_place(&self) -> CellPlace<T>
        ensures { result ≡ cell_place (Some self.now) }
    {
        match self {
            OpenTable::Across { row: Some(_), .. } => CellPlace::InRow,
            OpenTable::Across { row: None, .. } => CellPlace::Below,
            OpenTable::Stacked { border, has_lines } => CellPlace::InStack {
                border: *border,
                has_lines: *has_lines,
            },
        }
    }

    /// Skips the next cell of the open row, if there is one.
    fn skip_cell(&mut self, alloc: Global) -> Result<(), AllocError>
        ensures { OnOk result (self.new ≡ skipped self.old) }
    {
        match self {
            OpenTable::Across { row: Some(row), .. } => row.skip_cell(alloc),
            OpenTable::Across { row: None, .. } | OpenTable::Stacked { .. } => Ok(()),
        }
    }

    /// Adds a cell to the open row, if there is one. Its lines are moved out of `lines`.
    fn add_cell(
        &mut self,
        alloc: Global,
        width: usize,
        lines: &mut FinishedLines<T, M>,
        marks: Vec<M>,
    ) -> Result<(), AllocError>
        ensures { OnOk result (self.new ≡ with_next (record { width = width; lines = lines.old; marks = marks.items }) self.old) }
    {
        match self {
            OpenTable::Across { row: Some(row), .. } => row.add_cell(alloc, width, lines, marks),
            OpenTable::Across { row: None, .. } | OpenTable::Stacked { .. } => Ok(()),
        }
    }

    /// Draws the open row, if there is one, and closes it.
    fn end_row(&mut self, alloc: Global) -> Result<(), Error>
        ensures ok { OnOk result (self.new ≡ with_row_over machine self.old) }
        ensures err { OnlyOutOfMemory result }
    {
        match self {
            OpenTable::Across {
                picture,
                widths,
                row,
                ..
            } => add_open(alloc, picture, widths, row.take()),
            OpenTable::Stacked { .. } => Ok(()),
        }
    }
}

impl<T: Tag, M: Copy> BlockTable<T, M> {
    /// Begins the next row of the open table, if there is one. Side by side, a row that is open already stays open.
    fn begin_row(&mut self, alloc: Global) -> Result<(), Error>
        ensures ok { OnOk result (self.new ≡ option_map with_row_open self.old) }
        ensures err { OnlyOutOfMemory result }
    {
        if !self.is_open {
            return Ok(());
        }
        match &mut self.table {
            Some(table) => table.begin_row(alloc),
            None => Ok(()),
        }
    }

    /// Returns the columns of the next cell's block; `None` if the cell is skipped. Where no row is open, and in a
    /// stacked table, they are `width`, those of the table's block.
    fn next_cell_width(&self, width: usize) -> Option<usize>
        ensures { result ≡ next_cell_width width self.now }
    {
        if !self.is_open {
            return Some(width);
        }
        match &self.table {
            Some(table) => table.next_cell_width(width),
            None => Some(width),
        }
    }

    /// Returns the place of the next cell.
    fn cell_place(&self) -> CellPlace<T>
        ensures { result ≡ cell_place self.now }
    {
        if !self.is_open {
            return CellPlace::Below;
        }
        match &self.table {
            Some(table) => table.cell_place(),
            None => CellPlace::Below,
        }
    }

    /// Skips the next cell of the open row, if there is one.
    fn skip_cell(&mut self, alloc: Global) -> Result<(), AllocError>
        ensures { OnOk result (self.new ≡ option_map skipped self.old) }
    {
        if !self.is_open {
            return Ok(());
        }
        match &mut self.table {
            Some(table) => table.skip_cell(alloc),
            None => Ok(()),
        }
    }

    /// Adds a cell to the open row, if there is one. Its lines are moved out of `lines`.
    fn add_cell(
        &mut self,
        alloc: Global,
        width: usize,
        lines: &mut FinishedLines<T, M>,
        marks: Vec<M>,
    ) -> Result<(), AllocError>
        ensures { OnOk result (self.new ≡ option_map (with_next (record { width = width; lines = lines.old; marks = marks.items })) self.old) }
    {
        if !self.is_open {
            return Ok(());
        }
        match &mut self.table {
            Some(table) => table.add_cell(alloc, width, lines, marks),
            None => Ok(()),
        }
    }

    /// Draws the open row, if there is one, and closes it.
    fn end_row(&mut self, alloc: Global) -> Result<(), Error>
        ensures ok { OnOk result (self.new ≡ option_map (with_row_over machine) self.old) }
        ensures err { OnlyOutOfMemory result }
    {
        if !self.is_open {
            return Ok(());
        }
        match &mut self.table {
            Some(table) => table.end_row(alloc),
            None => Ok(()),
        }
    }
}

impl<T: Tag, M: Copy> Block<T, M> {
    /// Begins the next row of the open table. Side by side, a row that is open already stays open. Without a table,
    /// does nothing.
    ///
    /// # Errors
    ///
    /// `OutOfMemory`.
    #[tactic(auto, unfolding(crate::specs::Machine::operations))]
    pub fn begin_row(&mut self) -> Result<(), Error>
        ensures ok { OnOk result (self.new ≡ machine.operations.begin_row self.old) }
        ensures err { OnlyOutOfMemory result }
    {
        self.table.begin_row(self.alloc)
    }

    /// Returns the columns of the next cell's block; `None` if the cell is skipped.
    pub(crate) fn next_cell_width(&self) -> Option<usize>
        ensures { result ≡ next_cell_width self.now.setting.width self.now.table }
    {
        self.table.next_cell_width(self.setting.width)
    }

    /// Skips the next cell of the open row, if there is one.
    ///
    /// # Errors
    ///
    /// `OutOfMemory`.
    #[tactic(auto, unfolding(crate::specs::Machine::operations))]
    pub fn skip_cell(&mut self) -> Result<(), Error>
        ensures ok { OnOk result (self.new ≡ machine.operations.skip_cell self.old) }
        ensures err { OnlyOutOfMemory result }
    {
        self.table.skip_cell(self.alloc)?;
        Ok(())
    }

    /// Adds a flushed block as a cell to the open row, if there is one.
    #[inline(always)]
    fn add_to_row(&mut self, cell: &mut Block<T, M>) -> Result<(), AllocError>
        ensures { OnOk result (self.new ≡ record self.old {
          table = option_map (with_next (record {
            width = cell.old.setting.width;
            lines = cell.old.lines;
            marks = machine.waiting cell.old.paragraph;
          })) self.old.table;
        }) }
    {
        let alloc = self.alloc;
        let marks = cell.take_waiting();
        self.table
            .add_cell(alloc, cell.setting.width, &mut cell.lines, marks)
    }

    /// Appends lines, with the waiting marks at the front of the first one and `marks` at the end of the last one.
    /// Without lines, `marks` wait too.
    fn put_lines(&mut self, lines: &mut FinishedLines<T, M>, marks: &[M]) -> Result<(), Error>
        ensures ok { OnOk result (self.new ≡ block.put_lines machine self.old lines.old marks.now) }
        ensures err { OnlyOutOfMemory result }
    {
        if lines.is_empty() {
            return self.add_marks(marks);
        }
        lines.mark_last(marks)?;
        self.add_lines(lines)?;
        Ok(())
    }

    /// Appends the lines of a flushed block to this flushed block.
    fn put_below(&mut self, cell: &mut Block<T, M>) -> Result<(), Error>
        ensures ok { OnOk result (self.new ≡ block.put_lines machine self.old cell.old.lines (machine.waiting cell.old.paragraph)) }
        ensures err { OnlyOutOfMemory result }
    {
        let marks = cell.take_waiting();
        self.put_lines(&mut cell.lines, marks.as_slice())
    }

    /// Appends a flushed cell of a stacked table to this flushed block. A line of `/` separates the cell from the
    /// earlier cells of its row, if both have lines and borders are drawn.
    fn put_stacked(
        &mut self,
        border: Option<T>,
        has_lines: bool,
        cell: &mut Block<T, M>,
    ) -> Result<(), Error>
        ensures ok { OnOk result (self.new ≡ block.put_stacked machine self.old border has_lines (not (is_empty cell.old.lines)) cell.old) }
        ensures err { OnlyOutOfMemory result }
    {
        let more = !cell.lines.is_empty();
        if has_lines && more {
            self.add_border(border, Filler::Slash)?;
        }
        self.put_below(cell)?;
        self.set_stacked(border, has_lines || more)?;
        Ok(())
    }

    /// Flushes this block, and appends the lines of a flushed cell.
    #[tactic(auto, using(html_render_dom_values::specs::laws::Outcome::refusals))]
    fn flush_and_put_below(&mut self, cell: &mut Block<T, M>) -> Result<(), Error>
        ensures { Gives result (option_map (λ e. block.put_lines machine e cell.old.lines (machine.waiting cell.old.paragraph)) (block.flush machine self.old)) self.new }
    {
        self.flush()?;
        self.put_below(cell)
    }

    /// Flushes this block, and appends a flushed cell of a stacked table. A line of `/` separates the cell from the
    /// earlier cells of its row, if both have lines and borders are drawn.
    #[tactic(auto, using(html_render_dom_values::specs::laws::Outcome::refusals))]
    fn flush_and_put_stacked(
        &mut self,
        border: Option<T>,
        has_lines: bool,
        cell: &mut Block<T, M>,
    ) -> Result<(), Error>
        ensures { Gives result (option_map (λ e. block.put_stacked machine e border has_lines (not (is_empty cell.old.lines)) cell.old) (block.flush machine self.old)) self.new }
    {
        self.flush()?;
        self.put_stacked(border, has_lines, cell)
    }

    /// Adds a flushed cell at its place.
    #[inline(always)]
    #[tactic(auto, using(html_render_dom_values::specs::laws::Outcome::refusals, crate::proofs::Cells::cells_added))]
    fn add_flushed(&mut self, cell: &mut Block<T, M>) -> Result<(), Error>
        ensures { Gives result (block.cell_added machine self.old self.old.table cell.old) self.new }
    {
        match self.table.cell_place() {
            CellPlace::InRow => {
                self.add_to_row(cell)?;
                Ok(())
            }
            CellPlace::Below => self.flush_and_put_below(cell),
            CellPlace::InStack { border, has_lines } => {
                self.flush_and_put_stacked(border, has_lines, cell)
            }
        }
    }

    /// Adds a block as the next cell of the open row. The cell is flushed, and a table that is open in it is ended.
    ///
    /// - Side by side, the cell is kept until the row ends.
    /// - In a stacked table, and where no row is open, this block is flushed and the lines of the cell are appended.
    /// - In a stacked table with borders, a line of `/` separates two cells of a row that have lines.
    ///
    /// # Errors
    ///
    /// - `OutOfMemory`.
    /// - `TooNarrow`, as in [`flush`](Block::flush) of either block.
    #[inline(always)]
    #[tactic(auto, using(html_render_dom_values::specs::laws::Outcome::refusals), unfolding(crate::specs::Machine::operations))]
    pub fn add_cell(&mut self, cell: &mut Block<T, M>) -> Result<(), Error>
        ensures { Gives result (machine.operations.add_cell self.old cell.old) self.new }
    {
        cell.flush_whole()?;
        self.add_flushed(cell)
    }

    /// Flushes, and begins another row of a stacked table, below a border if borders are drawn.
    #[tactic(auto, using(html_render_dom_values::specs::laws::Outcome::refusals))]
    fn end_stacked_row(&mut self, border: Option<T>) -> Result<(), Error>
        ensures { Gives result (option_map (λ e. block.stacked_begun machine e border) (block.flush machine self.old)) self.new }
    {
        self.flush()?;
        self.begin_stacked(border)?;
        Ok(())
    }

    /// Ends the open row.
    ///
    /// - Side by side, it is drawn.
    /// - In a stacked table, if a cell of the row has lines, the block is flushed, and a border is drawn below the row
    ///   if borders are drawn.
    ///
    /// # Errors
    ///
    /// - `OutOfMemory`.
    /// - `TooNarrow`, as in [`flush`](Block::flush).
    #[tactic(auto, using(html_render_dom_values::specs::laws::Outcome::refusals, crate::proofs::Cells::rows_ended), unfolding(crate::specs::Machine::operations))]
    pub fn end_row(&mut self) -> Result<(), Error>
        ensures { Gives result (machine.operations.end_row self.old) self.new }
    {
        match self.table.cell_place() {
            CellPlace::InRow => self.table.end_row(self.alloc),
            CellPlace::InStack {
                border,
                has_lines: true,
            } => self.end_stacked_row(border),
            CellPlace::Below | CellPlace::InStack { .. } => Ok(()),
        }
    }
}
