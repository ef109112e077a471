//! The lines of a row whose characters have one tag: the text of each is put together first, and then appended at once.

ghost use Rattle.std.specs.Prelude.{◌≡◌, ◌==◌, ◌+◌, ◌≤◌, ◌<◌, ◌++◌, ◌∷◌, [], All, cond, length, map, drop, replicate, OnOk, IfOk};
ghost use Rattle.std.specs.Bool.{OnTrue};
ghost use Rattle.std.specs.List.{range_with_len};
ghost use Rattle.std.specs.Str.{chars, encode_utf8_all};
ghost use Rattle.html_render_layout_lines.specs.TaggedText.{text_columns, under};
ghost use Rattle.html_render_layout_buffer.specs.Lines.{ArePlain};
ghost use Rattle.html_render_layout_buffer.specs.Padding.{repeated};
ghost use Rattle.html_render_layout_pictures.specs.declared.borders.TheConstants.{BORDERS};
ghost use Rattle.html_render_layout_pictures.specs.RowCells.{cell_at, cells_of, line_total};
ghost use Rattle.html_render_layout_pictures.specs.Rows.{filled_at, marked_cell, row_line, cells_behind, rows_put};

use crate::cells::RowCell;
use crate::gaps::{CHUNK, end_of_gap, few_spaces, long_gap};
use crate::picture::Frame;
use crate::row::RowLine;
use html_render_layout_buffer::buffer::{LineBuffer, columns_missing};
use html_render_layout_lines::tag::Tag;
use std::alloc::{AllocError, Global};
use std::marker::Model;

/// Bytes for which the text of a line has room at first.
const ROOM: usize = 256;

/// The text of a line, and its columns.
#[derive(Drop)]
struct LineText {
    text: String,
    columns: usize,
}

impl Model for LineText {
    ghost use Rattle.std.specs.Prelude.{◌≡◌, List, ℕ};
    ghost use Rattle.std.specs.Str.{chars};
    ghost use Rattle.std.specs.String.{string_bytes};
    ghost use Rattle.html_render_layout_lines.specs.TaggedText.{text_columns};

    ghost Value = { List ℕ };

    ghost view = { λ t. chars (string_bytes t.text) };

    ghost invariant = { λ t. t.columns ≡ text_columns (chars (string_bytes t.text)) };
}

impl LineText {
    /// Returns an empty text, with room for [`ROOM`] bytes.
    fn with_room(alloc: Global) -> Result<LineText, AllocError>
        ensures { IfOk result (λ text. text ≡ []) }
    {
        let text = String::with_capacity(alloc, ROOM)?;
        Ok(LineText { text, columns: 0 })
    }

    /// Removes all characters, and keeps the memory.
    fn clear(&mut self)
        ensures { self.new ≡ [] }
    {
        self.text.clear();
        self.columns = 0;
    }

    /// Appends a text of `columns` columns. `AllocError` also if a machine word doesn't hold all columns.
    #[inline(always)]
    fn push_str(&mut self, text: &str, columns: usize) -> Result<(), AllocError>
        requires { columns ≡ text_columns (chars text.now) }
        ensures { OnOk result (self.new ≡ self.old ++ chars text.now) }
    {
        let Some(sum) = self.columns.checked_add(columns) else {
            return Err(AllocError);
        };
        self.text.push_str(text)?;
        self.columns = sum;
        Ok(())
    }

    /// Appends `count` spaces. Most calls have none to append.
    #[inline(always)]
    fn push_spaces(&mut self, count: usize) -> Result<(), AllocError>
        ensures { OnOk result (self.new ≡ self.old ++ replicate count 0x20) }
    {
        if count == 0 {
            return Ok(());
        }
        self.push_some_spaces(count)
    }

    /// Appends `count` spaces.
    #[inline(never)]
    #[tactic(auto, using(crate::proofs::PlainLines::spaces_wide, crate::proofs::PlainLines::spaces_parted))]
    fn push_some_spaces(&mut self, count: usize) -> Result<(), AllocError>
        ensures { OnOk result (self.new ≡ self.old ++ replicate count 0x20) }
    {
        let mut left = count;
        while left > 0 {
            let next = left.min(CHUNK);
            self.push_str(few_spaces(next), next)?;
            left -= next;
        }
        Ok(())
    }

    /// Appends `count` spaces, at once if they are few.
    #[inline(always)]
    #[tactic(auto, using(crate::proofs::PlainLines::spaces_wide, crate::proofs::PlainLines::spaces_ended))]
    fn push_padding(&mut self, count: usize) -> Result<(), AllocError>
        ensures { OnOk result (self.new ≡ self.old ++ replicate count 0x20) }
    {
        let few = count.min(CHUNK);
        self.push_spaces(count - few)?;
        self.push_str(few_spaces(few), few)
    }

    /// Appends the spaces that are missing after a cell's line, and the separator, both from a long gap.
    #[inline(always)]
    #[tactic(auto, using(crate::proofs::LawSets::gaps_put))]
    fn push_gap(
        &mut self,
        gap: &'static str,
        borders: bool,
        missing: usize,
    ) -> Result<(), AllocError>
        requires { gap.now ≡ encode_utf8_all (replicate 127 0x20 ++ cond borders BORDERS.separator 0x20 ∷ []) }
        ensures { OnOk result (self.new ≡ (self.old ++ replicate missing 0x20) ++ cond borders BORDERS.separator 0x20 ∷ []) }
    {
        let few = missing.min(CHUNK - 1);
        self.push_spaces(missing - few)?;
        self.push_str(end_of_gap(gap, borders, few), few + 1)
    }

    /// Appends the text to the open line of a buffer, under a tag.
    fn put<T: Tag, M: Copy>(&self, to: &mut LineBuffer<T, M>, tag: T) -> Result<(), AllocError>
        ensures { OnOk result (to.new ≡ record { lines = to.old.lines; line = to.old.line ++ under tag self.now }) }
    {
        to.push_str(self.text.as_str(), self.columns, tag)
    }
}

/// Reports whether no marks wait after the lines of cells.
pub(crate) fn has_no_marks<M: Copy>(cells: &[RowCell<M>]) -> bool
    ensures { OnTrue result (All (λ c. c.marks.items ≡ []) cells.now) }
{
    for cell in cells {
        if !cell.marks.as_slice().is_empty() {
            return false;
        }
    }
    true
}

impl<T: Tag> Frame<T> {
    /// Appends a cell's own line, if the cell is as high. Returns how many columns are then missing. Line `start` is the
    /// cell's first.
    #[inline(always)]
    fn put_plain_cell<M: Copy>(
        &self,
        text: &mut LineText,
        line: &RowLine<'_, T, M>,
        start: usize,
        cell: &RowCell<M>,
    ) -> Result<usize, AllocError>
        requires plain { ArePlain self.now.tag line.now.lines.now.lines }
        requires marks { cell.now.marks.items ≡ [] }
        requires within { start + cell.now.count ≤ length line.now.lines.now.lines }
        ensures { IfOk result (λ missing. under self.now.tag text.new ++ repeated self.now.tag 0x20 missing ≡ under self.now.tag text.old
            ++ filled_at self.now.tag line.now.number (marked_cell (cell_at cell.now (drop start line.now.lines.now.lines)))) }
    {
        if line.number >= cell.count {
            return Ok(cell.width);
        }
        let own = start + line.number;
        let columns = line.lines.line_columns(own);
        let Some(known) = columns else {
            return Err(AllocError);
        };
        text.push_str(line.lines.line_text(own), known)?;
        Ok(columns_missing(columns, cell.width))
    }

    /// Appends cells' own lines after those of the cells before them, after which columns are missing, and fills the last.
    fn put_plain_others<M: Copy>(
        &self,
        text: &mut LineText,
        missing: usize,
        line: &RowLine<'_, T, M>,
        start: usize,
        others: &[RowCell<M>],
    ) -> Result<(), AllocError>
        requires plain { ArePlain self.now.tag line.now.lines.now.lines }
        requires marks { All (λ c. c.marks.items ≡ []) others.now }
        requires within { start + line_total others.now ≤ length line.now.lines.now.lines }
        ensures { OnOk result (under self.now.tag text.new ≡ (under self.now.tag text.old ++ repeated self.now.tag 0x20 missing)
            ++ cells_behind self.now line.now.number (cells_of others.now (drop start line.now.lines.now.lines))) }
    {
        let gap = long_gap(self.borders);
        let mut missing = missing;
        let mut start = start;
        for cell in others {
            text.push_gap(gap, self.borders, missing)?;
            missing = self.put_plain_cell(text, line, start, cell)?;
            start += cell.count;
        }
        text.push_padding(missing)
    }

    /// Appends a line of a row. `text` is a buffer for its text.
    fn put_plain_line<M: Copy>(
        &self,
        to: &mut LineBuffer<T, M>,
        text: &mut LineText,
        line: &RowLine<'_, T, M>,
        cells: &[RowCell<M>],
    ) -> Result<(), AllocError>
        requires plain { ArePlain self.now.tag line.now.lines.now.lines }
        requires marks { All (λ c. c.marks.items ≡ []) cells.now }
        requires within { line_total cells.now ≤ length line.now.lines.now.lines }
        ensures { OnOk result (to.new ≡ record {
          lines = to.old.lines;
          line = to.old.line ++ row_line self.now line.now.number (map marked_cell (cells_of cells.now line.now.lines.now.lines));
        }) }
    {
        let [first, others @ ..] = cells else {
            return Ok(());
        };
        text.clear();
        let missing = self.put_plain_cell(text, line, 0, first)?;
        self.put_plain_others(text, missing, line, first.count, others)?;
        text.put(to, self.tag)
    }

    /// Appends the first `height` lines of a row.
    pub(crate) fn put_plain_lines<M: Copy>(
        &self,
        alloc: Global,
        to: &mut LineBuffer<T, M>,
        cells: &[RowCell<M>],
        lines: &LineBuffer<T, M>,
        height: usize,
    ) -> Result<(), AllocError>
        requires plain { ArePlain self.now.tag lines.now.lines }
        requires marks { All (λ c. c.marks.items ≡ []) cells.now }
        requires within { line_total cells.now ≤ length lines.now.lines }
        ensures { OnOk result (to.new ≡ rows_put to.old
            (map (λ n. row_line self.now n (map marked_cell (cells_of cells.now lines.now.lines))) (range_with_len 0 height))) }
    {
        let mut text = LineText::with_room(alloc)?;
        for number in 0..height {
            self.put_plain_line(to, &mut text, &RowLine::new(lines, number), cells)?;
            to.end_line()?;
        }
        Ok(())
    }
}
