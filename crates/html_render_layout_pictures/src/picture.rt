//! The picture of a table: its rows' lines, with borders above, between and below them.

ghost use Rattle.std.specs.Prelude.{◌≡◌, ◌<◌, List, [], ◌++◌, length, OnOk, IfOk, MatchBool};
ghost use Rattle.html_render_dom_values.specs.Outcome.{OnlyOutOfMemory};
ghost use Rattle.html_render_layout_pictures.specs.Picture as definition;
ghost use Rattle.html_render_layout_pictures.specs.Picture.{TableRow};
ghost use Rattle.html_render_layout_pictures.specs.Drawing as drawing;
ghost use Rattle.html_render_layout_pictures.specs.Drawing.{appended};
ghost use Rattle.html_render_layout_buffer.specs.Marked.{marked_before};
ghost use Rattle.html_render_layout_pictures.specs.Separators.{separators_between};

use crate::cells::{RowCells, RowContents};
use html_render_dom_values::Error;
use html_render_layout_buffer::buffer::LineBuffer;
use html_render_layout_buffer::finished::FinishedLines;
use html_render_layout_lines::tag::Tag;
use std::alloc::{AllocError, Global};
use std::marker::Model;
use std::mem;

/// How a table is framed.
#[derive(Clone, Copy)]
pub struct Frame<T> {
    /// Whether borders are drawn.
    pub borders: bool,
    /// The table's width, which the top border has at least.
    pub width: usize,
    /// The tag of all that is drawn round the cells' lines.
    pub tag: T,
}

/// A row of a table.
#[derive(Drop)]
pub struct Row<T, M> {
    /// Its kept cells.
    pub cells: RowCells<T, M>,
    /// Whether a placeholder is among all of its cells.
    pub has_placeholder: bool,
}

impl<T, M> Model for Row<T, M> {
    ghost use Rattle.html_render_layout_pictures.specs.Picture.{TableRow};

    ghost Value = { TableRow T M };

    ghost view = { λ r. record { cells = r.cells; has_placeholder = r.has_placeholder } };
}

/// Reports whether a row is drawn.
fn is_drawn<T: Tag, M: Copy>(row: &Row<T, M>) -> bool
    ensures { result ≡ definition.is_drawn row.now }
{
    row.cells.has_lines() || (row.has_placeholder && row.cells.len() > 0)
}

/// A border that is due: the marks before it, and the columns of the cells above it.
#[derive(Drop)]
struct Border<M> {
    marks: Vec<M>,
    above: Vec<usize>,
}

impl<M> Model for Border<M> {
    ghost use Rattle.html_render_layout_pictures.specs.Drawing.{DueBorder};
    ghost use Rattle.html_render_layout_pictures.specs.Separators.{separators_between};

    ghost Value = { DueBorder M };

    ghost view = { λ b. record { marks = b.marks.items; above = separators_between b.above.items } };
}

impl<T: Tag> Frame<T> {
    /// Returns the lines of a row of one cell: those of the cell, filled.
    fn only_cell_lines<M: Copy>(
        &self,
        row: RowCells<T, M>,
    ) -> Result<FinishedLines<T, M>, AllocError>
        requires { length row ≡ 1 }
        ensures { IfOk result (λ lines. lines ≡ definition.row_lines self.now row) }
    {
        let RowContents { cells, mut lines } = row.into_contents();
        let [cell, ..] = cells.as_slice() else {
            return Ok(lines);
        };
        if cell.count == 0 {
            lines.push_marks_line(&[])?;
        } else {
            lines.mark_last(cell.marks.as_slice())?;
        }
        lines.fill(cell.width, self.tag)?;
        Ok(lines)
    }

    /// Appends copies of the lines of a row of one cell, filled, if they are few and no marks wait after them. Reports whether it
    /// does.
    fn put_few_lines<M: Copy>(
        &self,
        to: &mut LineBuffer<T, M>,
        row: &RowCells<T, M>,
    ) -> Result<bool, AllocError>
        requires only { length row.now ≡ 1 }
        requires open { to.old.line ≡ [] }
        ensures { IfOk result (λ put. MatchBool put
            (to.new ≡ record { lines = to.old.lines ++ definition.row_lines self.now row.now; line = [] })
            (to.new ≡ to.old)) }
    {
        let [cell, ..] = row.held.cells.as_slice() else {
            return Ok(false);
        };
        let marks = cell.marks.as_slice();
        if cell.count == 0 || !marks.is_empty() {
            return Ok(false);
        }
        let Some(lines) = row.held.lines.few() else {
            return Ok(false);
        };
        to.append_filled(lines, cell.width, self.tag)?;
        Ok(true)
    }

    /// Appends the border that is due, above a row whose cells have these columns. Returns the memory of the columns above
    /// it.
    fn put_due<M: Copy>(
        &self,
        alloc: Global,
        to: &mut LineBuffer<T, M>,
        due: Option<Border<M>>,
        below: &[usize],
    ) -> Result<Vec<usize>, AllocError>
        requires { to.old.line ≡ [] }
        ensures { OnOk result (to.new ≡ record {
          lines = to.old.lines ++ drawing.due_lines self.now due (separators_between below.now);
          line = [];
        }) }
    {
        let Some(Border { marks, above }) = due else {
            return Ok(Vec::new(alloc));
        };
        to.push_marks(marks.as_slice())?;
        self.put_border(to, above.as_slice(), below)?;
        to.end_line()?;
        Ok(above)
    }

    /// Returns the border below a row whose cells have these columns.
    fn due_below<M: Copy>(&self, alloc: Global, above: Vec<usize>) -> Option<Border<M>>
        ensures { result ≡ drawing.due_below self.now (separators_between above.items) }
    {
        if self.borders {
            Some(Border {
                marks: Vec::new(alloc),
                above,
            })
        } else {
            None
        }
    }
}

/// The picture of a table as its rows come: the lines so far, the marks that wait after them, and the border that is due.
#[derive(Drop)]
pub struct Picture<T, M> {
    alloc: Global,
    frame: Frame<T>,
    /// The first lines.
    before: FinishedLines<T, M>,
    /// The lines after them.
    last: LineBuffer<T, M>,
    waiting: Vec<M>,
    due: Option<Border<M>>,
    /// Buffer for the columns of a row's cells.
    widths: Vec<usize>,
    /// A row without cells, in the memory of one that is drawn.
    spare: Option<RowCells<T, M>>,
}

impl<T, M> Model for Picture<T, M> {
    ghost use Rattle.std.specs.Prelude.{◌≡◌, [], ◌++◌};
    ghost use Rattle.html_render_layout_pictures.specs.Drawing.{Drawing};

    ghost Value = { Drawing T M };

    ghost view = { λ p. record { frame = p.frame; lines = p.before ++ p.last.lines; waiting = p.waiting.items; due = p.due } };

    ghost invariant = { λ p. p.last.line ≡ [] };
}

impl<T: Tag, M: Copy> Picture<T, M> {
    /// Returns a picture without rows, after marks that wait.
    ///
    /// # Errors
    ///
    /// `OutOfMemory`.
    pub fn new(alloc: Global, frame: Frame<T>, waiting: Vec<M>) -> Result<Picture<T, M>, Error>
        ensures ok { IfOk result (λ p. p ≡ drawing.begun frame waiting.items) }
        ensures err { OnlyOutOfMemory result }
    {
        let mut picture = Picture::empty(alloc, frame);
        picture.renew(frame, waiting)?;
        Ok(picture)
    }

    /// Returns a picture without lines, marks and borders.
    fn empty(alloc: Global, frame: Frame<T>) -> Picture<T, M> {
        Picture {
            alloc,
            frame,
            before: FinishedLines::new(alloc),
            last: LineBuffer::new(alloc),
            waiting: Vec::new(alloc),
            due: None,
            widths: Vec::new(alloc),
            spare: None,
        }
    }

    /// Becomes a picture without rows, after marks that wait. Keeps the memory.
    ///
    /// # Errors
    ///
    /// `OutOfMemory`.
    pub fn renew(&mut self, frame: Frame<T>, waiting: Vec<M>) -> Result<(), Error>
        ensures ok { OnOk result (self.new ≡ drawing.begun frame waiting.items) }
        ensures err { OnlyOutOfMemory result }
    {
        if !frame.borders || frame.width == 0 {
            self.begin_with(frame, waiting, None);
            return Ok(());
        }
        let mut above = mem::replace(&mut self.widths, Vec::new(self.alloc));
        above.clear();
        above.push(frame.width)?;
        let due = Border {
            marks: waiting,
            above,
        };
        self.begin_with(frame, Vec::new(self.alloc), Some(due));
        Ok(())
    }

    /// Becomes a picture without rows, with a border that is due. Keeps the memory.
    fn begin_with(&mut self, frame: Frame<T>, waiting: Vec<M>, due: Option<Border<M>>)
        ensures { self.new ≡ record { frame = frame; lines = []; waiting = waiting.items; due = due } }
    {
        self.frame = frame;
        self.before.clear();
        self.last.clear();
        self.waiting = waiting;
        self.due = due;
    }

    /// Adds a row: its lines, after the border that is due, or, if it isn't drawn, its marks to those that wait.
    ///
    /// # Errors
    ///
    /// `OutOfMemory`. Part of the picture may then be lost.
    #[tactic(auto, using(crate::proofs::CellLines::drawn_rows))]
    pub fn add_row(&mut self, row: Row<T, M>) -> Result<(), Error>
        ensures ok { OnOk result (self.new ≡ drawing.with_row self.old row) }
        ensures err { OnlyOutOfMemory result }
    {
        if is_drawn(&row) {
            self.draw_row(row.cells)?;
        } else {
            row.cells.wait_for_lines(&mut self.waiting)?;
        }
        Ok(())
    }

    /// Removes and returns a row without cells, in the memory of one that is drawn, or a new one.
    ///
    /// # Errors
    ///
    /// `AllocError`.
    pub fn take_row(&mut self) -> Result<RowCells<T, M>, AllocError>
        ensures same { self.new ≡ self.old }
        ensures none { IfOk result (λ row. row ≡ []) }
    {
        match self.spare.take() {
            Some(mut row) => {
                row.clear();
                Ok(row)
            }
            None => RowCells::new(self.alloc),
        }
    }

    /// Adds the lines of a row, after the border that is due.
    fn draw_row(&mut self, row: RowCells<T, M>) -> Result<(), AllocError>
        requires { 0 < length row }
        ensures { OnOk result (self.new ≡ drawing.with_cells self.old row) }
    {
        self.draw_border(&row)?;
        row.wait_for_lines(&mut self.waiting)?;
        if row.len() == 1 {
            self.draw_only_cell(row)
        } else {
            self.draw_cells(row)
        }
    }

    /// Adds the border that is due above a row. The border below the row is due then.
    fn draw_border(&mut self, row: &RowCells<T, M>) -> Result<(), AllocError>
        ensures { OnOk result (self.new ≡ record self.old {
          lines = self.old.lines ++ drawing.due_lines self.old.frame self.old.due (definition.separators_of row.now);
          due = drawing.due_below self.old.frame (definition.separators_of row.now);
        }) }
    {
        if !self.frame.borders && self.due.is_none() {
            return Ok(());
        }
        let mut widths = mem::replace(&mut self.widths, Vec::new(self.alloc));
        row.put_widths(&mut widths)?;
        let due = mem::replace(&mut self.due, None);
        let mut last = mem::replace(&mut self.last, LineBuffer::new(self.alloc));
        self.widths = self
            .frame
            .put_due(self.alloc, &mut last, due, widths.as_slice())?;
        self.last = last;
        self.due = self.frame.due_below(self.alloc, widths);
        Ok(())
    }

    /// Adds the lines of a row of one cell, after the marks that wait. They are moved, unless they are few.
    fn draw_only_cell(&mut self, row: RowCells<T, M>) -> Result<(), AllocError>
        requires { length row ≡ 1 }
        ensures { OnOk result (self.new ≡ record self.old {
          lines = self.old.lines ++ marked_before self.old.waiting (definition.row_lines self.old.frame row);
          waiting = [];
        }) }
    {
        if self.put_few(&row)? {
            self.spare = Some(row);
            return Ok(());
        }
        self.move_only_cell(row)
    }

    /// Adds copies of the lines of a row of one cell, if they are few and no marks wait. Reports whether it does.
    fn put_few(&mut self, row: &RowCells<T, M>) -> Result<bool, AllocError>
        requires { length row.now ≡ 1 }
        ensures { IfOk result (λ put. MatchBool put
            (self.new ≡ record self.old {
              lines = self.old.lines ++ marked_before self.old.waiting (definition.row_lines self.old.frame row.now);
              waiting = [];
            })
            (self.new ≡ self.old)) }
    {
        if !self.waiting.is_empty() {
            return Ok(false);
        }
        let mut last = mem::replace(&mut self.last, LineBuffer::new(self.alloc));
        let put = self.frame.put_few_lines(&mut last, row)?;
        self.last = last;
        Ok(put)
    }

    /// Moves the lines of a row of one cell to the end, after the marks that wait.
    fn move_only_cell(&mut self, row: RowCells<T, M>) -> Result<(), AllocError>
        requires { length row ≡ 1 }
        ensures { OnOk result (self.new ≡ record self.old {
          lines = self.old.lines ++ marked_before self.old.waiting (definition.row_lines self.old.frame row);
          waiting = [];
        }) }
    {
        self.before.append_buffer(&mut self.last)?;
        let mut lines = self.frame.only_cell_lines(row)?;
        lines.mark_first(self.waiting.as_slice())?;
        self.waiting.clear();
        self.before.append(&mut lines)
    }

    /// Adds the lines of a row, after the marks that wait.
    fn draw_cells(&mut self, row: RowCells<T, M>) -> Result<(), AllocError>
        requires { 0 < length row }
        ensures { OnOk result (self.new ≡ record self.old {
          lines = self.old.lines ++ marked_before self.old.waiting (definition.row_lines self.old.frame row);
          waiting = [];
        }) }
    {
        if self.draw_few(&row)? {
            self.spare = Some(row);
            return Ok(());
        }
        self.draw_many(row)
    }

    /// Adds copies of the lines of a row, after the marks that wait, if they are few. Reports whether it does.
    fn draw_few(&mut self, row: &RowCells<T, M>) -> Result<bool, AllocError>
        requires { 0 < length row.now }
        ensures { IfOk result (λ put. MatchBool put
            (self.new ≡ record self.old {
              lines = self.old.lines ++ marked_before self.old.waiting (definition.row_lines self.old.frame row.now);
              waiting = [];
            })
            (self.new ≡ self.old)) }
    {
        let put = self
            .frame
            .put_few_of(self.alloc, &mut self.last, self.waiting.as_slice(), row)?;
        if put {
            self.waiting.clear();
        }
        Ok(put)
    }

    /// Adds the lines of a row, after the marks that wait.
    fn draw_many(&mut self, row: RowCells<T, M>) -> Result<(), AllocError>
        requires { 0 < length row }
        ensures { OnOk result (self.new ≡ record self.old {
          lines = self.old.lines ++ marked_before self.old.waiting (definition.row_lines self.old.frame row);
          waiting = [];
        }) }
    {
        let mut last = mem::replace(&mut self.last, LineBuffer::new(self.alloc));
        last.push_marks(self.waiting.as_slice())?;
        let spare = self.frame.put_row(self.alloc, &mut last, row)?;
        self.waiting.clear();
        self.last = last;
        self.spare = Some(spare);
        Ok(())
    }

    /// Appends the picture of all rows that were added, with its last border, to lines. Returns the marks that wait after it.
    ///
    /// # Errors
    ///
    /// `OutOfMemory`. Lines may be lost.
    pub fn finish(&mut self, to: &mut FinishedLines<T, M>) -> Result<Vec<M>, Error>
        ensures ok { IfOk result (λ marks. (to.new, marks.items) ≡ appended to.old (drawing.finished self.old)) }
        ensures picture { (waiting : List M) (rows : List (TableRow T M)) → self.old ≡ drawing.with_rows (drawing.begun self.old.frame waiting) rows
            → IfOk result (λ marks. (to.new, marks.items) ≡ appended to.old (definition.picture self.old.frame waiting rows)) }
        ensures err { OnlyOutOfMemory result }
    {
        let mut last = mem::replace(&mut self.last, LineBuffer::new(self.alloc));
        let due = mem::replace(&mut self.due, None);
        self.widths = self.frame.put_due(self.alloc, &mut last, due, &[])?;
        to.append(&mut self.before)?;
        to.append_buffer(&mut last)?;
        self.last = last;
        Ok(mem::replace(&mut self.waiting, Vec::new(self.alloc)))
    }
}
