//! The open table of a block.

ghost use Rattle.std.specs.Prelude.{◌≡◌, Some, None, OnOk, IfOk, MatchBool, option_map};
ghost use Rattle.html_render_dom_values.specs.Outcome.{Gives, OnlyOutOfMemory};
ghost use Rattle.html_render_layout_pictures.specs.Drawing as drawing;
ghost use Rattle.html_render_layout_blocks.specs.declared.block.tables.OpenTable.TheVariants.{Across, Stacked};
ghost use Rattle.html_render_layout_blocks.specs.Tables.{with_open, with_ahead, with_table};
ghost use Rattle.html_render_layout_blocks.specs.Block as block;
ghost use Rattle.html_render_layout_blocks.specs.Machine as machine;
ghost use Rattle.html_render_layout_blocks.specs.Machine.{machine};

use super::Block;
use super::rows::{OpenRow, Widths};
use html_render_dom_values::Error;
use html_render_layout_buffer::finished::FinishedLines;
use html_render_layout_lines::tag::Tag;
use html_render_layout_pictures::picture::{Frame, Picture};
use html_render_parts::table::cells::RowsAhead;
use std::alloc::{AllocError, Global};
use std::marker::Model;
use std::mem;

/// An open table.
#[derive(Drop)]
pub enum OpenTable<P, T, M> {
    /// A table whose cells are side by side.
    Across {
        /// Rows so far.
        picture: P,
        /// Widths of the columns.
        widths: Widths,
        /// Rows ahead: the table's own, and those below its last row that spans reach.
        ahead: RowsAhead,
        /// Open row; `None` if no row is open.
        row: Option<OpenRow<T, M>>,
    },
    /// A stacked table.
    Stacked {
        /// Tag of the borders; `None` without borders.
        border: Option<T>,
        /// Whether a cell of the row has lines.
        has_lines: bool,
    },
}

impl<T: Tag, M: Copy> OpenTable<Picture<T, M>, T, M> {
    /// Takes the widths of the columns, or those of no columns.
    fn take_widths(&mut self, alloc: Global) -> Widths {
        match self {
            OpenTable::Across { widths, .. } => mem::replace(widths, Widths::new(alloc)),
            OpenTable::Stacked { .. } => Widths::new(alloc),
        }
    }

    /// Becomes a table whose cells are side by side, without rows, after marks that wait. Keeps the memory.
    fn renew(
        &mut self,
        alloc: Global,
        frame: Frame<T>,
        waiting: Vec<M>,
        widths: Widths,
        ahead: RowsAhead,
    ) -> Result<(), Error>
        ensures ok { OnOk result (self.new ≡ Across (drawing.begun frame waiting.items) widths ahead None) }
        ensures err { OnlyOutOfMemory result }
    {
        match self {
            OpenTable::Across {
                picture,
                widths: own,
                ahead: rows,
                row,
            } => {
                picture.renew(frame, waiting)?;
                *own = widths;
                *rows = ahead;
                *row = None;
            }
            OpenTable::Stacked { .. } => {
                *self = OpenTable::Across {
                    picture: Picture::new(alloc, frame, waiting)?,
                    widths,
                    ahead,
                    row: None,
                };
            }
        }
        Ok(())
    }

    /// Returns a table whose cells are side by side, without rows, after marks that wait; in the memory of `spare`, if there
    /// is one.
    fn across(
        alloc: Global,
        spare: Option<Box<OpenTable<Picture<T, M>, T, M>>>,
        frame: Frame<T>,
        waiting: Vec<M>,
        widths: Widths,
        ahead: RowsAhead,
    ) -> Result<Box<OpenTable<Picture<T, M>, T, M>>, Error>
        ensures ok { IfOk result (λ table. table.value ≡ Across (drawing.begun frame waiting.items) widths ahead None) }
        ensures err { OnlyOutOfMemory result }
    {
        if let Some(spare) = spare {
            let mut table = spare;
            table.renew(alloc, frame, waiting, widths, ahead)?;
            return Ok(table);
        }
        let picture = Picture::new(alloc, frame, waiting)?;
        let table = OpenTable::Across {
            picture,
            widths,
            ahead,
            row: None,
        };
        Ok(Box::new(alloc, table)?)
    }

    /// Draws the remaining rows, and appends the lines of the table. Returns the marks that wait after them. Those of a
    /// stacked table are in the block already.
    fn end(&mut self, alloc: Global, lines: &mut FinishedLines<T, M>) -> Result<Vec<M>, Error>
        ensures ok { IfOk result (λ marks. (lines.new, marks.items) ≡ with_table machine lines.old self.old) }
        ensures err { OnlyOutOfMemory result }
    {
        match self {
            OpenTable::Across {
                picture,
                widths,
                ahead,
                row,
            } => {
                add_rest(alloc, picture, widths, ahead, row.take())?;
                picture.finish(lines)
            }
            OpenTable::Stacked { .. } => Ok(Vec::new(alloc)),
        }
    }

    /// Changes a stacked table. Reports whether the table is stacked.
    fn change_stacked(&mut self, new_border: Option<T>, new_has_lines: bool) -> bool
        ensures { MatchBool result (self.new ≡ Stacked new_border new_has_lines) (self.new ≡ self.old) }
    {
        let OpenTable::Stacked { border, has_lines } = self else {
            return false;
        };
        *border = new_border;
        *has_lines = new_has_lines;
        true
    }
}

/// The table of a block: the open one, or one that ended, whose memory the next one takes.
#[derive(Drop)]
pub struct BlockTable<T, M> {
    /// The open table, or the one that ended last; `None` before the first.
    pub(super) table: Option<Box<OpenTable<Picture<T, M>, T, M>>>,
    /// Whether the table is open.
    pub(super) is_open: bool,
}

impl<T, M> Model for BlockTable<T, M> {
    ghost use Rattle.std.specs.Prelude.{Option, None, cond, option_map};
    ghost use Rattle.html_render_layout_pictures.specs.Drawing.{Drawing};
    ghost use Rattle.html_render_layout_blocks.specs.declared.block.tables.OpenTable.{OpenTable};

    ghost Value = { Option (OpenTable (Drawing T M) T M) };

    ghost view = { λ b. cond b.is_open (option_map (λ t. t.value) b.table) None };
}

impl<T: Tag, M: Copy> BlockTable<T, M> {
    /// Returns no table, without an allocation.
    pub(super) fn none() -> BlockTable<T, M>
        ensures { result ≡ None }
    {
        BlockTable {
            table: None,
            is_open: false,
        }
    }

    /// Closes the open table, and keeps its memory.
    pub(super) fn close(&mut self)
        ensures { self.new ≡ None }
    {
        self.is_open = false;
    }

    /// Takes the open table out, if there is one.
    fn take(&mut self) -> Option<Box<OpenTable<Picture<T, M>, T, M>>>
        ensures table { option_map (λ t. t.value) result ≡ self.old }
        ensures none { self.new ≡ None }
    {
        if !self.is_open {
            return None;
        }
        self.is_open = false;
        self.table.take()
    }

    /// Keeps the memory of an ended table.
    fn keep(&mut self, table: Box<OpenTable<Picture<T, M>, T, M>>)
        ensures { self.new ≡ None }
    {
        self.table = Some(table);
        self.is_open = false;
    }

    /// Takes the widths of the table that ended last, for their memory. Without one they are those of no columns.
    pub(super) fn take_widths(&mut self, alloc: Global) -> Widths
        ensures { self.new ≡ self.old }
    {
        if self.is_open {
            return Widths::new(alloc);
        }
        match &mut self.table {
            Some(table) => table.take_widths(alloc),
            None => Widths::new(alloc),
        }
    }

    /// Opens a table whose cells are side by side, without rows, after marks that wait.
    pub(super) fn open_across(
        &mut self,
        alloc: Global,
        frame: Frame<T>,
        waiting: Vec<M>,
        widths: Widths,
        ahead: RowsAhead,
    ) -> Result<(), Error>
        ensures ok { OnOk result (self.new ≡ Some (Across (drawing.begun frame waiting.items) widths ahead None)) }
        ensures err { OnlyOutOfMemory result }
    {
        let table = OpenTable::across(alloc, self.table.take(), frame, waiting, widths, ahead)?;
        self.table = Some(table);
        self.is_open = true;
        Ok(())
    }

    /// Opens a stacked table.
    pub(super) fn open_stacked(
        &mut self,
        alloc: Global,
        border: Option<T>,
        has_lines: bool,
    ) -> Result<(), AllocError>
        ensures { OnOk result (self.new ≡ Some (Stacked border has_lines)) }
    {
        let stacked = OpenTable::Stacked { border, has_lines };
        self.table = Some(Box::new(alloc, stacked)?);
        self.is_open = true;
        Ok(())
    }

    /// Changes the open table if it is stacked. Reports whether it is.
    pub(super) fn change_stacked(&mut self, border: Option<T>, has_lines: bool) -> bool
        ensures { MatchBool result (self.new ≡ Some (Stacked border has_lines)) (self.new ≡ self.old) }
    {
        if !self.is_open {
            return false;
        }
        match &mut self.table {
            Some(table) => table.change_stacked(border, has_lines),
            None => false,
        }
    }
}

/// Adds the open row to a picture, if there is one.
pub(super) fn add_open<T: Tag, M: Copy>(
    alloc: Global,
    picture: &mut Picture<T, M>,
    widths: &mut Widths,
    row: Option<OpenRow<T, M>>,
) -> Result<(), Error>
    ensures ok { OnOk result (picture.new ≡ with_open machine picture.old row) }
    ensures widths { widths.new ≡ widths.old }
    ensures err { OnlyOutOfMemory result }
{
    match row {
        Some(row) => picture.add_row(row.finish(alloc, widths)?),
        None => Ok(()),
    }
}

/// Adds the remaining rows to a picture: the open one, if there is one, and those ahead, with empty cells. After all of the
/// table's own rows, the latter are the rows below them, in which no cell begins.
fn add_rest<T: Tag, M: Copy>(
    alloc: Global,
    picture: &mut Picture<T, M>,
    widths: &mut Widths,
    ahead: &mut RowsAhead,
    row: Option<OpenRow<T, M>>,
) -> Result<(), Error>
    ensures ok { OnOk result (picture.new ≡ with_ahead machine widths.old ahead.old (with_open machine picture.old row)) }
    ensures err { OnlyOutOfMemory result }
{
    add_open(alloc, picture, widths, row)?;
    let mut cells = Vec::new(alloc);
    while ahead.next(&mut cells)? {
        let row = OpenRow::new(alloc, widths, cells.as_slice(), picture.take_row()?)?;
        add_open(alloc, picture, widths, Some(row))?;
    }
    Ok(())
}

impl<T: Tag, M: Copy> Block<T, M> {
    /// Ends the open table, if there is one: draws its remaining rows and appends its lines. Those of a stacked table
    /// are in the block already.
    ///
    /// # Errors
    ///
    /// `OutOfMemory`.
    #[tactic(auto, unfolding(crate::specs::Machine::operations))]
    pub fn end_table(&mut self) -> Result<(), Error>
        ensures ok { OnOk result (self.new ≡ machine.operations.end_table self.old) }
        ensures err { OnlyOutOfMemory result }
    {
        let Some(table) = self.table.take() else {
            return Ok(());
        };
        let mut table = table;
        let marks = table.end(self.alloc, &mut self.lines)?;
        self.table.keep(table);
        self.add_marks(marks.as_slice())
    }

    /// Ends the open table, if there is one, and flushes.
    ///
    /// # Errors
    ///
    /// - `OutOfMemory`.
    /// - `TooNarrow`, as in [`flush`](Block::flush).
    #[tactic(auto, using(html_render_dom_values::specs::laws::Outcome::refusals), unfolding(crate::specs::Machine::operations))]
    pub fn flush_whole(&mut self) -> Result<(), Error>
        ensures { Gives result (block.flush machine (block.end_table machine self.old)) self.new }
    {
        self.end_table()?;
        self.flush()
    }
}
