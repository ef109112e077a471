//! The open row of a table whose cells are side by side: its places, and the cells before them.

ghost use Rattle.std.specs.Prelude.{◌≡◌, suc, ◌+◌, ◌-◌, ◌^◌, ◌<◌, ◌++◌, ◌∷◌, [], length, reverse, sum, take, drop, count_by, not, ◌==◌, OnOk, IfOk};
ghost use Rattle.std.specs.List.{list_any};
ghost use Rattle.html_render_dom_values.specs.Outcome.{OnlyOutOfMemory};
ghost use Rattle.html_render_parts_widths.specs.Shares.{widths_across};
ghost use Rattle.html_render_parts.specs.TableCells.{is_cell};
ghost use Rattle.html_render_layout_blocks.specs.OpenRows as rows;
ghost use Rattle.html_render_layout_blocks.specs.RowSteps.{after_cell, before_cell, empty_cell};

use html_render_dom_values::Error;
use html_render_layout_buffer::finished::FinishedLines;
use html_render_layout_lines::tag::Tag;
use html_render_layout_pictures::cells::RowCells;
use html_render_layout_pictures::picture::Row;
use html_render_parts::table::{CellKind, PlacedCell};
use html_render_parts_widths::{ColumnNeed, WidthsMemory, widths_across};
use std::alloc::{AllocError, Global};
use std::marker::Model;
use std::mem;

/// Number of places up to which a row's memory is kept for the next row.
const KEPT_PLACES: usize = 1_024;

/// A place in a row, of a cell, a placeholder or a gap.
#[derive(Clone, Copy)]
struct RowPlace {
    /// Whether a cell of the row itself begins here.
    is_cell: bool,
    /// Columns of text; `None` if the place is skipped, since its columns have no width.
    width: Option<usize>,
}

/// An open row.
#[derive(Drop)]
pub struct OpenRow<T, M> {
    /// Places ahead, the next one last.
    ahead: Vec<RowPlace>,
    /// Kept cells before these places, also empty ones.
    cells: RowCells<T, M>,
    /// Whether the whole row has a placeholder.
    placeholder: bool,
}

impl<T, M> Model for OpenRow<T, M> {
    ghost use Rattle.std.specs.Prelude.{reverse};
    ghost use Rattle.html_render_layout_blocks.specs.OpenRows as rows;

    ghost Value = { rows.OpenRow T M };

    ghost view = { λ r. record { ahead = reverse r.ahead.items; cells = r.cells; placeholder = r.placeholder } };
}

/// Widths of a table's columns, in columns of text. Their sum, with the separators between them, fits a machine word.
#[derive(Drop)]
pub struct Widths {
    widths: Vec<usize>,
    /// Memory for computing widths.
    memory: WidthsMemory,
    /// Buffer for the places of a row.
    places: Vec<RowPlace>,
    /// Buffer for the cells of a row.
    pub cells: Vec<PlacedCell>,
    ghost fit: { sum widths.items + (length widths.items - 1) < 2 ^ 64 },
}

impl Model for Widths {
    ghost use Rattle.std.specs.Prelude.{List, ℕ};

    ghost Value = { List ℕ };

    ghost view = { λ w. w.widths.items };
}

/// Reports whether a place has a cell of the row itself.
fn is_cell(kind: CellKind) -> bool
    ensures { result ≡ is_cell kind }
{
    matches!(kind, CellKind::Cell)
}

/// Reports whether a place has a cell of an earlier row, which hangs into the row.
fn is_placeholder(kind: CellKind) -> bool
    ensures { result ≡ rows.is_placeholder kind }
{
    matches!(kind, CellKind::Placeholder)
}

/// Reports whether a cell of an earlier row hangs into a row.
fn has_placeholder(cells: &[PlacedCell]) -> bool
    ensures { result ≡ list_any (λ s. rows.is_placeholder s.kind) cells.now }
{
    cells.iter().any(|cell| is_placeholder(cell.kind))
}

/// Returns the sum of widths.
fn total(widths: &[usize]) -> usize
    requires { sum widths.now < 2 ^ 64 }
    ensures { result ≡ sum widths.now }
{
    let mut total = 0;
    for width in widths {
        total += *width;
    }
    total
}

/// Returns the columns of text of a cell over these columns, with the separators that it covers. `None` if none of its
/// columns has a width.
fn cell_width(columns: &[usize]) -> Option<usize>
    requires { sum columns.now + (length columns.now - 1) < 2 ^ 64 }
    ensures { result ≡ rows.cell_width columns.now }
{
    let total = total(columns);
    if total == 0 {
        None
    } else {
        Some(total + (columns.len() - 1))
    }
}

/// Splits off the first `columns` widths, or all if there are fewer. Returns them and the rest.
#[tactic(auto, using(crate::proofs::Places::columns_at))]
fn columns_at(widths: &[usize], columns: usize) -> (&[usize], &[usize])
    ensures own { result.0.now ≡ take columns widths.now }
    ensures behind { result.1.now ≡ drop columns widths.now }
{
    widths.split_at(columns.min(widths.len()))
}

/// Replaces `row` by the places of a row over columns of these widths.
#[tactic(auto, using(crate::proofs::Places::own_fits, crate::proofs::Places::behind_fits))]
fn put_places(
    row: &mut Vec<RowPlace>,
    widths: &[usize],
    cells: &[PlacedCell],
) -> Result<(), AllocError>
    requires { sum widths.now + (length widths.now - 1) < 2 ^ 64 }
    ensures { OnOk result (row.new.items ≡ rows.places widths.now cells.now) }
{
    row.clear();
    row.reserve_exact(cells.len())?;
    let mut rest = widths;
    for cell in cells {
        let (own, behind) = columns_at(rest, cell.columns);
        row.push(RowPlace {
            is_cell: is_cell(cell.kind),
            width: cell_width(own),
        })?;
        rest = behind;
    }
    Ok(())
}

/// Returns the columns of the next cell; `None` if it is skipped or there is none. The next place is the last one in
/// `ahead`.
fn next_width(ahead: &[RowPlace]) -> Option<usize>
    ensures { result ≡ rows.next_width (reverse ahead.now) }
{
    let mut rest = ahead;
    while let Some((place, before)) = rest.split_last() {
        if place.is_cell {
            return place.width;
        }
        rest = before;
    }
    None
}

/// Appends an empty cell, unless it is skipped.
fn push_empty<T: Tag, M: Copy>(
    alloc: Global,
    cells: &mut RowCells<T, M>,
    width: Option<usize>,
) -> Result<(), AllocError>
    ensures { OnOk result (cells.new ≡ cells.old ++ empty_cell width) }
{
    if let Some(width) = width {
        cells.push_empty(alloc, width)?;
    }
    Ok(())
}

/// Removes the next cell's place and those before it. Appends empty cells for the latter. The next place is the last
/// one in `ahead`.
fn pass_cell<T: Tag, M: Copy>(
    alloc: Global,
    ahead: &mut Vec<RowPlace>,
    cells: &mut RowCells<T, M>,
) -> Result<(), AllocError>
    ensures ahead { OnOk result (reverse ahead.new.items ≡ after_cell (reverse ahead.old.items)) }
    ensures cells { OnOk result (cells.new ≡ cells.old ++ rows.empty_cells (before_cell (reverse ahead.old.items))) }
{
    while let Some(place) = ahead.pop() {
        if place.is_cell {
            return Ok(());
        }
        push_empty(alloc, cells, place.width)?;
    }
    Ok(())
}

/// Appends empty cells for the places ahead. The next place is the last one in `ahead`.
fn push_rest<T: Tag, M: Copy>(
    alloc: Global,
    ahead: &[RowPlace],
    cells: &mut RowCells<T, M>,
) -> Result<(), AllocError>
    ensures { OnOk result (cells.new ≡ cells.old ++ rows.empty_cells (reverse ahead.now)) }
{
    for place in ahead.iter().rev() {
        push_empty(alloc, cells, place.width)?;
    }
    Ok(())
}

/// Returns the number of columns that have a width.
fn count_filled(widths: &[usize]) -> usize
    ensures { result ≡ count_by (λ w. not (w == 0)) widths.now }
{
    widths.iter().filter(|width| **width != 0).count()
}

impl Widths {
    /// Returns the widths of no columns, without an allocation.
    pub fn new(alloc: Global) -> Widths
        ensures { result ≡ [] }
    {
        Widths {
            widths: Vec::new(alloc),
            memory: WidthsMemory::new(alloc),
            places: Vec::new(alloc),
            cells: Vec::new(alloc),
        }
    }

    /// Returns the widths of columns that are side by side in `width` columns, in this memory. `None` if the columns don't
    /// fit.
    #[tactic(auto, using(html_render_parts_widths::specs::laws::Needs::across_within))]
    pub fn across(self, needs: &[ColumnNeed], width: usize) -> Result<Option<Widths>, Error>
        ensures ok { IfOk result (λ widths. widths ≡ widths_across width needs.now) }
        ensures err { OnlyOutOfMemory result }
    {
        let Widths {
            widths,
            mut memory,
            places,
            cells,
        } = self;
        match widths_across(&mut memory, widths, needs, width)? {
            Some(widths) => Ok(Some(Widths {
                widths,
                memory,
                places,
                cells,
            })),
            None => Ok(None),
        }
    }

    /// Keeps the memory of few places for those of the next row.
    fn keep_places(&mut self, places: Vec<RowPlace>)
        ensures { self.new ≡ self.old }
    {
        if places.capacity() <= KEPT_PLACES {
            self.places = places;
        }
    }

    /// Keeps the memory of few cells for those of the next row.
    pub fn keep_cells(&mut self, cells: Vec<PlacedCell>)
        ensures { self.new ≡ self.old }
    {
        if cells.capacity() <= KEPT_PLACES {
            self.cells = cells;
        }
    }

    /// Returns the width of the table: that of its columns, and of the separators between those that have a width.
    #[tactic(auto, using(crate::specs::laws::TableWithin::frame_width_within))]
    pub fn frame_width(&self) -> usize
        ensures { result ≡ sum self.now + (count_by (λ w. not (w == 0)) self.now - 1) }
    {
        let widths = self.widths.as_slice();
        total(widths) + count_filled(widths).saturating_sub(1)
    }
}

impl<T: Tag, M: Copy> OpenRow<T, M> {
    /// Returns an open row with these cells, placeholders and gaps ahead, over columns of these widths. Its kept cells are those
    /// of `row`, which has none yet.
    #[inline(always)]
    pub fn new(
        alloc: Global,
        widths: &mut Widths,
        cells: &[PlacedCell],
        row: RowCells<T, M>,
    ) -> Result<OpenRow<T, M>, AllocError>
        requires { row ≡ [] }
        ensures row { IfOk result (λ row. row ≡ rows.open_row widths.old cells.now) }
        ensures widths { widths.new ≡ widths.old }
    {
        let mut ahead = mem::replace(&mut widths.places, Vec::new(alloc));
        put_places(&mut ahead, widths.widths.as_slice(), cells)?;
        ahead.reverse();
        Ok(OpenRow {
            ahead,
            cells: row,
            placeholder: has_placeholder(cells),
        })
    }

    /// Returns the columns of the next cell; `None` if it is skipped or there is none.
    pub fn next_width(&self) -> Option<usize>
        ensures { result ≡ rows.next_width self.now.ahead }
    {
        next_width(self.ahead.as_slice())
    }

    /// Skips the next cell. Places before it are empty cells.
    pub fn skip_cell(&mut self, alloc: Global) -> Result<(), AllocError>
        ensures { OnOk result (self.new ≡ rows.past_cell self.old []) }
    {
        pass_cell(alloc, &mut self.ahead, &mut self.cells)
    }

    /// Adds the next cell, whose lines are moved out of `lines`. Places before it are empty cells.
    pub fn add_cell(
        &mut self,
        alloc: Global,
        width: usize,
        lines: &mut FinishedLines<T, M>,
        marks: Vec<M>,
    ) -> Result<(), AllocError>
        ensures { OnOk result (self.new ≡ rows.past_cell self.old (record { width = width; lines = lines.old; marks = marks.items } ∷ [])) }
    {
        pass_cell(alloc, &mut self.ahead, &mut self.cells)?;
        self.cells.push(width, lines, marks)
    }

    /// Returns the whole row. Places ahead are empty cells.
    pub fn finish(mut self, alloc: Global, widths: &mut Widths) -> Result<Row<T, M>, AllocError>
        ensures row { IfOk result (λ row. row ≡ rows.whole_row self) }
        ensures widths { widths.new ≡ widths.old }
    {
        push_rest(alloc, self.ahead.as_slice(), &mut self.cells)?;
        widths.keep_places(self.ahead);
        Ok(Row {
            cells: self.cells,
            has_placeholder: self.placeholder,
        })
    }
}
