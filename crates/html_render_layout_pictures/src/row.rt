//! The lines of a row, each written from left to right over the row's cells.
//!
//! In a high row most cells have no line of a given number. So its lines are written over its blank text: the characters
//! between two cells that have one are put at once.

ghost use Rattle.std.specs.Prelude.{◌≡◌, ◌+◌, ◌≤◌, ◌<◌, ◌^◌, ◌++◌, ◌∷◌, [], length, map, drop, replicate, OnOk, OnErr, IfOk, MatchBool};
ghost use Rattle.std.specs.List.{range_with_len};
ghost use Rattle.std.specs.Str.{chars};
ghost use Rattle.std.specs.String.{string_bytes};
ghost use Rattle.html_render_layout_lines.specs.TaggedText.{under};
ghost use Rattle.html_render_layout_lines.specs.Line.{marks_line};
ghost use Rattle.html_render_layout_buffer.specs.Lines.{with_spaces, no_lines};
ghost use Rattle.html_render_layout_buffer.specs.Padding.{repeated};
ghost use Rattle.html_render_layout_pictures.specs.Blank.{blank_cells, with_due};
ghost use Rattle.html_render_layout_pictures.specs.Picture as definition;
ghost use Rattle.html_render_layout_pictures.specs.RowCells.{cell_at, cells_of, line_total, counted_height};
ghost use Rattle.html_render_layout_pictures.specs.Rows.{filled_at, marked_cell, row_line, cells_behind, rows_put, separator};

use crate::blank::{Blank, add_blank_cell, first_blank_cell};
use crate::cells::{RowCell, RowCells, RowContents};
use crate::gaps::{CHUNK, Filler, gap, push_fillers};
use crate::picture::Frame;
use crate::plain::has_no_marks;
use html_render_layout_buffer::buffer::{LineBuffer, columns_missing};
use html_render_layout_lines::tag::Tag;
use std::alloc::{AllocError, Global};

/// The lines of a row that is no higher than this are written cell by cell.
const LOW: usize = 8;

/// A line of a row.
#[derive(Drop)]
pub(crate) struct RowLine<'a, T, M> {
    /// Lines of all cells.
    pub(crate) lines: &'a LineBuffer<T, M>,
    /// Number of the line, from 0.
    pub(crate) number: usize,
    ghost few: { length lines.now.lines < 2 ^ 64 },
}

impl<'a, T: Tag, M: Copy> RowLine<'a, T, M> {
    /// Returns the line of a number.
    #[inline]
    pub(crate) fn new(lines: &'a LineBuffer<T, M>, number: usize) -> RowLine<'a, T, M>
        ensures lines { result.lines.now ≡ lines.now }
        ensures number { result.number ≡ number }
    {
        // the proof reads here that a machine word holds the number of lines
        let _count = lines.line_count();
        RowLine { lines, number }
    }
}

/// Returns the number of lines of a row: that of its highest cell, and at least 1.
fn height<M: Copy>(cells: &[RowCell<M>]) -> usize
    ensures { result ≡ counted_height cells.now }
{
    let mut height = 1;
    for cell in cells {
        height = height.max(cell.count);
    }
    height
}

impl<T: Tag> Frame<T> {
    /// Appends the characters between a cell and the next one: the spaces that are missing after its line, and a separator.
    #[inline(always)]
    #[tactic(auto, using(crate::proofs::LawSets::gaps_put))]
    fn put_gap<M: Copy>(&self, to: &mut LineBuffer<T, M>, missing: usize) -> Result<(), AllocError>
        ensures { OnOk result (to.new ≡ record { lines = to.old.lines; line = (to.old.line ++ repeated self.now.tag 0x20 missing) ++ separator self.now ∷ [] }) }
    {
        let few = missing.min(CHUNK - 1);
        push_fillers(to, Filler::Space, missing - few, self.tag)?;
        to.push_str(gap(self.borders, few), few + 1, self.tag)
    }

    /// Appends a cell's own line, if the cell is as high, and after its last one the marks that wait there. Returns how many
    /// columns are missing then. Line `start` is the cell's first.
    #[inline(always)]
    fn put_cell<M: Copy>(
        &self,
        to: &mut LineBuffer<T, M>,
        line: &RowLine<'_, T, M>,
        start: usize,
        cell: &RowCell<M>,
    ) -> Result<usize, AllocError>
        requires { start + cell.now.count ≤ length line.now.lines.now.lines }
        ensures put { IfOk result (λ missing. with_spaces to.new self.now.tag missing ≡ record {
          lines = to.old.lines;
          line = to.old.line ++ filled_at self.now.tag line.now.number (marked_cell (cell_at cell.now (drop start line.now.lines.now.lines)));
        }) }
        ensures within { IfOk result (λ missing. missing ≤ cell.now.width) }
    {
        if line.number >= cell.count {
            return Ok(cell.width);
        }
        let own = start + line.number;
        to.append_line(line.lines, own)?;
        if line.number + 1 == cell.count {
            to.push_marks(cell.marks.as_slice())?;
        }
        Ok(columns_missing(line.lines.line_columns(own), cell.width))
    }

    /// Appends cells' own lines after those of the cells before them, after which columns are missing, and fills the last.
    fn put_others<M: Copy>(
        &self,
        to: &mut LineBuffer<T, M>,
        missing: usize,
        line: &RowLine<'_, T, M>,
        start: usize,
        others: &[RowCell<M>],
    ) -> Result<(), AllocError>
        requires { start + line_total others.now ≤ length line.now.lines.now.lines }
        ensures { OnOk result (to.new ≡ record {
          lines = to.old.lines;
          line = (to.old.line ++ repeated self.now.tag 0x20 missing)
              ++ cells_behind self.now line.now.number (cells_of others.now (drop start line.now.lines.now.lines));
        }) }
    {
        let mut missing = missing;
        let mut start = start;
        for cell in others {
            self.put_gap(to, missing)?;
            missing = self.put_cell(to, line, start, cell)?;
            start += cell.count;
        }
        push_fillers(to, Filler::Space, missing, self.tag)
    }

    /// Appends a line of a row, cell by cell.
    fn put_line<M: Copy>(
        &self,
        to: &mut LineBuffer<T, M>,
        line: &RowLine<'_, T, M>,
        cells: &[RowCell<M>],
    ) -> Result<(), AllocError>
        requires { line_total cells.now ≤ length line.now.lines.now.lines }
        ensures { OnOk result (to.new ≡ record {
          lines = to.old.lines;
          line = to.old.line ++ row_line self.now line.now.number (map marked_cell (cells_of cells.now line.now.lines.now.lines));
        }) }
    {
        let [first, others @ ..] = cells else {
            return Ok(());
        };
        let missing = self.put_cell(to, line, 0, first)?;
        self.put_others(to, missing, line, first.count, others)
    }

    /// Appends the first `height` lines of a row, cell by cell.
    fn put_low_lines<M: Copy>(
        &self,
        to: &mut LineBuffer<T, M>,
        cells: &[RowCell<M>],
        lines: &LineBuffer<T, M>,
        height: usize,
    ) -> Result<(), AllocError>
        requires { line_total cells.now ≤ length lines.now.lines }
        ensures { OnOk result (to.new ≡ rows_put to.old
            (map (λ n. row_line self.now n (map marked_cell (cells_of cells.now lines.now.lines))) (range_with_len 0 height))) }
    {
        for number in 0..height {
            self.put_line(to, &RowLine::new(lines, number), cells)?;
            to.end_line()?;
        }
        Ok(())
    }

    /// Appends what is due and a cell's own line. The cell begins at this place of the blank text, and is as high.
    #[inline(never)]
    fn put_own<M: Copy>(
        &self,
        to: &mut LineBuffer<T, M>,
        blank: &mut Blank<'_>,
        line: &RowLine<'_, T, M>,
        start: usize,
        cell: &RowCell<M>,
    ) -> Result<(), AllocError>
        requires cell { blank.old.after ≡ replicate cell.now.width 0x20 ++ drop cell.now.width blank.old.after }
        requires within { start + cell.now.count ≤ length line.now.lines.now.lines }
        ensures line { OnOk result (with_due to.new self.now.tag blank.new.due ≡ record {
          lines = to.old.lines;
          line = (to.old.line ++ under self.now.tag blank.old.due)
              ++ filled_at self.now.tag line.now.number (marked_cell (cell_at cell.now (drop start line.now.lines.now.lines)));
        }) }
        ensures left { OnOk result (blank.new.after ≡ drop cell.now.width blank.old.after) }
    {
        blank.put(to, self.tag)?;
        let missing = self.put_cell(to, line, start, cell)?;
        blank.pass_all_but(cell.width, missing);
        Ok(())
    }

    /// Appends a cell's own line, if the cell is as high, or passes its blank text, at whose place the cell begins.
    #[inline(always)]
    #[tactic(auto, using(crate::proofs::Blanks::spaces_due))]
    fn put_over<M: Copy>(
        &self,
        to: &mut LineBuffer<T, M>,
        blank: &mut Blank<'_>,
        line: &RowLine<'_, T, M>,
        start: usize,
        cell: &RowCell<M>,
    ) -> Result<(), AllocError>
        requires cell { blank.old.after ≡ replicate cell.now.width 0x20 ++ drop cell.now.width blank.old.after }
        requires within { start + cell.now.count ≤ length line.now.lines.now.lines }
        ensures line { OnOk result (with_due to.new self.now.tag blank.new.due ≡ record {
          lines = to.old.lines;
          line = (to.old.line ++ under self.now.tag blank.old.due)
              ++ filled_at self.now.tag line.now.number (marked_cell (cell_at cell.now (drop start line.now.lines.now.lines)));
        }) }
        ensures left { OnOk result (blank.new.after ≡ drop cell.now.width blank.old.after) }
    {
        if line.number < cell.count {
            return self.put_own(to, blank, line, start, cell);
        }
        blank.pass_spaces(cell.width);
        Ok(())
    }

    /// Appends cells' own lines, or their blank text, after those of the cells before them.
    fn put_all_next<M: Copy>(
        &self,
        to: &mut LineBuffer<T, M>,
        blank: &mut Blank<'_>,
        line: &RowLine<'_, T, M>,
        start: usize,
        others: &[RowCell<M>],
    ) -> Result<(), AllocError>
        requires blank { blank.old.after ≡ blank_cells self.now.borders others.now }
        requires within { start + line_total others.now ≤ length line.now.lines.now.lines }
        ensures { OnOk result (with_due to.new self.now.tag blank.new.due ≡ record {
          lines = to.old.lines;
          line = (to.old.line ++ under self.now.tag blank.old.due)
              ++ cells_behind self.now line.now.number (cells_of others.now (drop start line.now.lines.now.lines));
        }) }
    {
        let mut start = start;
        for cell in others {
            blank.pass_separator(self.borders);
            self.put_over(to, blank, line, start, cell)?;
            start += cell.count;
        }
        Ok(())
    }

    /// Appends a line of a row, over the row's blank text.
    fn put_line_over<M: Copy>(
        &self,
        to: &mut LineBuffer<T, M>,
        text: &str,
        line: &RowLine<'_, T, M>,
        first: &RowCell<M>,
        others: &[RowCell<M>],
    ) -> Result<(), AllocError>
        requires text { chars text.now ≡ replicate first.now.width 0x20 ++ blank_cells self.now.borders others.now }
        requires within { first.now.count + line_total others.now ≤ length line.now.lines.now.lines }
        ensures { OnOk result (to.new ≡ record {
          lines = to.old.lines;
          line = to.old.line ++ row_line self.now line.now.number (map marked_cell (cells_of (first.now ∷ others.now) line.now.lines.now.lines));
        }) }
    {
        let mut blank = Blank::new(text);
        self.put_over(to, &mut blank, line, 0, first)?;
        self.put_all_next(to, &mut blank, line, first.count, others)?;
        blank.put(to, self.tag)
    }

    /// Returns the blank text of a row's first cell and the others.
    fn blank_text<M: Copy>(
        &self,
        alloc: Global,
        first: &RowCell<M>,
        others: &[RowCell<M>],
    ) -> Result<String, AllocError>
        ensures { IfOk result (λ t. chars (string_bytes t) ≡ replicate first.now.width 0x20 ++ blank_cells self.now.borders others.now) }
    {
        let mut text = first_blank_cell(alloc, first.width)?;
        for cell in others {
            add_blank_cell(&mut text, self.borders, cell.width)?;
        }
        Ok(text)
    }

    /// Appends the first `height` lines of a row, over its blank text.
    fn put_high_lines<M: Copy>(
        &self,
        to: &mut LineBuffer<T, M>,
        cells: (&RowCell<M>, &[RowCell<M>]),
        lines: &LineBuffer<T, M>,
        text: &str,
        height: usize,
    ) -> Result<(), AllocError>
        requires text { chars text.now ≡ replicate cells.0.now.width 0x20 ++ blank_cells self.now.borders cells.1.now }
        requires within { cells.0.now.count + line_total cells.1.now ≤ length lines.now.lines }
        ensures { OnOk result (to.new ≡ rows_put to.old
            (map (λ n. row_line self.now n (map marked_cell (cells_of (cells.entry.0.now ∷ cells.entry.1.now) lines.now.lines))) (range_with_len 0 height))) }
    {
        let (first, others) = cells;
        for number in 0..height {
            self.put_line_over(to, text, &RowLine::new(lines, number), first, others)?;
            to.end_line()?;
        }
        Ok(())
    }

    /// Appends the lines of a row.
    fn put_lines<M: Copy>(
        &self,
        alloc: Global,
        to: &mut LineBuffer<T, M>,
        cells: &[RowCell<M>],
        lines: &LineBuffer<T, M>,
    ) -> Result<(), AllocError>
        requires { line_total cells.now ≤ length lines.now.lines }
        ensures { OnOk result (to.new ≡ rows_put to.old
            (map (λ n. row_line self.now n (map marked_cell (cells_of cells.now lines.now.lines)))
            (range_with_len 0 (definition.height (cells_of cells.now lines.now.lines))))) }
    {
        let height = height(cells);
        match cells {
            [first, others @ ..] if height > LOW => {
                let blank = self.blank_text(alloc, first, others)?;
                self.put_high_lines(to, (first, others), lines, blank.as_str(), height)
            }
            _ if lines.is_plain(self.tag) && has_no_marks(cells) => {
                self.put_plain_lines(alloc, to, cells, lines, height)
            }
            _ => self.put_low_lines(to, cells, lines, height),
        }
    }

    /// Appends the lines of a row. If memory runs out, the buffer then has no lines.
    fn put_lines_or_clear<M: Copy>(
        &self,
        alloc: Global,
        to: &mut LineBuffer<T, M>,
        cells: &[RowCell<M>],
        lines: &LineBuffer<T, M>,
    ) -> Result<(), AllocError>
        requires { line_total cells.now ≤ length lines.now.lines }
        ensures ok { OnOk result (to.new ≡ rows_put to.old
            (map (λ n. row_line self.now n (map marked_cell (cells_of cells.now lines.now.lines)))
            (range_with_len 0 (definition.height (cells_of cells.now lines.now.lines))))) }
        ensures err { OnErr result (to.new ≡ no_lines) }
    {
        let put = self.put_lines(alloc, to, cells, lines);
        if put.is_err() {
            to.clear();
        }
        put
    }

    /// Appends marks and the lines of a row, if these are few. Reports whether it does.
    pub(crate) fn put_few_of<M: Copy>(
        &self,
        alloc: Global,
        to: &mut LineBuffer<T, M>,
        marks: &[M],
        row: &RowCells<T, M>,
    ) -> Result<bool, AllocError>
        requires { 0 < length row.now }
        ensures ok { IfOk result (λ put. MatchBool put
            (to.new ≡ rows_put (record { lines = to.old.lines; line = to.old.line ++ marks_line marks.now }) (definition.row_lines self.now row.now))
            (to.new ≡ to.old)) }
        ensures err { OnErr result (to.new ≡ no_lines) }
    {
        let Some(lines) = row.held.lines.few() else {
            return Ok(false);
        };
        to.push_marks(marks)?;
        self.put_lines_or_clear(alloc, to, row.held.cells.as_slice(), lines)?;
        Ok(true)
    }

    /// Appends the lines of a row. Returns a row without cells, in the memory of this one.
    pub(crate) fn put_row<M: Copy>(
        &self,
        alloc: Global,
        to: &mut LineBuffer<T, M>,
        row: RowCells<T, M>,
    ) -> Result<RowCells<T, M>, AllocError>
        requires { 0 < length row }
        ensures drawn { OnOk result (to.new ≡ rows_put to.old (definition.row_lines self.now row)) }
        ensures memory { IfOk result (λ r. r ≡ []) }
    {
        let RowContents { cells, lines } = row.into_contents();
        let lines = lines.into_buffer()?;
        self.put_lines(alloc, to, cells.as_slice(), &lines)?;
        RowCells::in_memory_of(alloc, cells, lines)
    }
}
