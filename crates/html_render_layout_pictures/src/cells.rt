//! The kept cells of a row, whose lines are in one value.

ghost use Rattle.std.specs.Prelude.{◌≡◌, ◌==◌, ◌++◌, ◌∷◌, [], length, not, OnOk, IfOk, if◌then◌else◌};
ghost use Rattle.std.specs.List.{list_any};
ghost use Rattle.html_render_layout_lines.specs.Line.{is_empty};
ghost use Rattle.html_render_layout_pictures.specs.Picture as definition;
ghost use Rattle.html_render_layout_pictures.specs.RowCells.{cells_of, line_total};
ghost use Rattle.html_render_layout_pictures.specs.Separators.{separators_between};

use html_render_layout_buffer::buffer::LineBuffer;
use html_render_layout_buffer::finished::FinishedLines;
use html_render_layout_lines::tag::Tag;
use std::alloc::{AllocError, Global};
use std::marker::Model;

/// A kept cell.
#[derive(Drop)]
pub(crate) struct RowCell<M> {
    /// Columns of the cell.
    pub width: usize,
    /// Number of its lines.
    pub count: usize,
    /// Marks that wait after its lines.
    pub marks: Vec<M>,
}

/// Kept cells, with their lines one after another.
#[derive(Drop)]
pub(crate) struct RowContents<T, M> {
    pub cells: Vec<RowCell<M>>,
    pub lines: FinishedLines<T, M>,
}

/// The kept cells of a row, with their lines. They are boxed, so that moving a row is cheap.
#[derive(Drop)]
pub struct RowCells<T, M> {
    pub(crate) held: Box<RowContents<T, M>>,
}

impl<T, M> Model for RowCells<T, M> {
    ghost use Rattle.std.specs.Prelude.{◌≡◌, List, length};
    ghost use Rattle.html_render_layout_pictures.specs.Picture.{KeptCell};
    ghost use Rattle.html_render_layout_pictures.specs.RowCells.{cells_of, line_total};

    ghost Value = { List (KeptCell T M) };

    ghost view = { λ r. cells_of r.held.value.cells.items r.held.value.lines };

    ghost invariant = { λ r. line_total r.held.value.cells.items ≡ length r.held.value.lines };
}

impl<T: Tag, M: Copy> RowCells<T, M> {
    /// Returns a row without cells.
    ///
    /// # Errors
    ///
    /// `AllocError`.
    pub fn new(alloc: Global) -> Result<RowCells<T, M>, AllocError>
        ensures { IfOk result (λ row. row ≡ []) }
    {
        let none = RowContents {
            cells: Vec::new(alloc),
            lines: FinishedLines::new(alloc),
        };
        Ok(RowCells {
            held: Box::new(alloc, none)?,
        })
    }

    /// Returns a row without cells, in the memory of another one's cells and lines.
    pub(crate) fn in_memory_of(
        alloc: Global,
        mut cells: Vec<RowCell<M>>,
        mut lines: LineBuffer<T, M>,
    ) -> Result<RowCells<T, M>, AllocError>
        ensures { IfOk result (λ row. row ≡ []) }
    {
        cells.clear();
        lines.clear();
        let none = RowContents {
            cells,
            lines: FinishedLines::from_buffer(lines),
        };
        Ok(RowCells {
            held: Box::new(alloc, none)?,
        })
    }

    /// Returns the cells and their lines.
    pub(crate) fn into_contents(self) -> RowContents<T, M>
        ensures cells { cells_of result.cells.items result.lines ≡ self }
        ensures lines { line_total result.cells.items ≡ length result.lines }
    {
        Box::into_inner(self.held)
    }

    /// Removes all cells, and keeps the memory.
    pub(crate) fn clear(&mut self)
        ensures { self.new ≡ [] }
    {
        self.held.cells.clear();
        self.held.lines.clear();
    }

    /// Returns the number of cells.
    pub(crate) fn len(&self) -> usize
        ensures { result ≡ length self.now }
    {
        self.held.cells.as_slice().len()
    }

    /// Appends a cell, whose lines are moved out of `lines`.
    ///
    /// # Errors
    ///
    /// `AllocError`. The row then has no cells.
    pub fn push(
        &mut self,
        width: usize,
        lines: &mut FinishedLines<T, M>,
        marks: Vec<M>,
    ) -> Result<(), AllocError>
        ensures { OnOk result (self.new ≡ self.old ++ record { width = width; lines = lines.old; marks = marks.items } ∷ []) }
    {
        let count = lines.line_count()?;
        self.held.cells.reserve(1)?;
        let appended = self.held.lines.append(lines);
        match appended {
            Ok(()) => self.held.cells.push_reserved(RowCell {
                width,
                count,
                marks,
            }),
            // Memory ran out.
            Err(_) => {
                self.held.cells.clear();
                self.held.lines.clear();
            }
        }
        appended
    }

    /// Appends an empty cell.
    ///
    /// # Errors
    ///
    /// `AllocError`. The row is then unchanged.
    pub fn push_empty(&mut self, alloc: Global, width: usize) -> Result<(), AllocError>
        ensures { OnOk result (self.new ≡ self.old ++ record { width = width; lines = []; marks = [] } ∷ []) }
    {
        self.held.cells.push(RowCell {
            width,
            count: 0,
            marks: Vec::new(alloc),
        })?;
        Ok(())
    }

    /// Reports whether a cell has lines.
    pub(crate) fn has_lines(&self) -> bool
        ensures { result ≡ list_any (λ c. not (is_empty c.lines)) self.now }
    {
        !self.held.lines.is_empty()
    }

    /// Appends the marks of cells without lines to those that wait, from left to right.
    pub(crate) fn wait_for_lines(&self, waiting: &mut Vec<M>) -> Result<(), AllocError>
        ensures { OnOk result (waiting.new.items ≡ waiting.old.items ++ definition.waiting_in self.now) }
    {
        let cells = self.held.cells.as_slice();
        for cell in cells {
            wait_for_line(waiting, cell)?;
        }
        Ok(())
    }

    /// Replaces `widths` by the columns of the cells.
    pub(crate) fn put_widths(&self, widths: &mut Vec<usize>) -> Result<(), AllocError>
        ensures { OnOk result (separators_between widths.new.items ≡ definition.separators_of self.now) }
    {
        widths.clear();
        let cells = self.held.cells.as_slice();
        for cell in cells {
            widths.push(cell.width)?;
        }
        Ok(())
    }
}

/// Appends the marks of a cell to those that wait, if it has no lines.
fn wait_for_line<M: Copy>(waiting: &mut Vec<M>, cell: &RowCell<M>) -> Result<(), AllocError>
    ensures { OnOk result (waiting.new.items ≡ waiting.old.items ++ (if cell.now.count == 0 then cell.now.marks.items else [])) }
{
    if cell.count == 0 {
        waiting.extend_from_slice(cell.marks.as_slice())?;
    }
    Ok(())
}
