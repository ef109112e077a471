//! Spans of the cells of a table, row by row, as its elements ask for them.

ghost use Rattle.std.specs.Prelude.{◌≡◌, ◌+◌, ◌-◌, ◌<◌, ◌^◌, ◌++◌, ◌∷◌, [], All, IfOk, OnOk, OnErr, IfErr, Some, map};
ghost use Rattle.html_render_parts.specs.Grid.{AreValid};
ghost use Rattle.html_render_parts.specs.Placement.{lists};
ghost use Rattle.html_render_parts.specs.Spans.{AreAsked, width_of, greatest_width, spanned, spanned_in};
ghost use Rattle.html_render_parts.specs.TableCells.{cell_grid_of};
ghost use Rattle.html_render_parts.specs.Refusal.{Builds};

use crate::table::cells::TableCells;
use crate::table::{Span, spans_are_valid};
use html_render_dom_values::Error;
use std::alloc::{AllocError, Global};
use std::marker::Model;

/// Number of cells that memory is reserved for at a row's first one.
const USUAL_CELLS: usize = 8;

/// Cells of a row, with the spans that its elements ask for. A colspan of 0 asks for the columns that the row has left.
#[derive(Drop)]
pub struct RowCells {
    cells: Vec<Span>,
}

impl Model for RowCells {
    ghost use Rattle.std.specs.Prelude.{List};
    ghost use Rattle.html_render_parts.specs.declared.table.Span.{Span};
    ghost use Rattle.html_render_parts.specs.Spans.{AreAsked};

    ghost Value = { List Span };

    ghost view = { λ r. r.cells.items };

    ghost invariant = { λ r. AreAsked r.cells.items };
}

impl RowCells {
    /// Creates a row without cells.
    pub fn new(alloc: Global) -> RowCells
        ensures { result ≡ [] }
    {
        RowCells {
            cells: Vec::new(alloc),
        }
    }

    /// Appends a cell.
    ///
    /// # Errors
    ///
    /// `AllocError` if an allocation is refused.
    #[tactic(auto, using(crate::proofs::ValidSpans::asked_more))]
    pub fn push(&mut self, colspan: usize, rowspan: usize) -> Result<(), AllocError>
        ensures { OnOk result (self.new ≡ self.old ++ (record { colspan = colspan; rowspan = rowspan }) ∷ []) }
    {
        if self.cells.is_empty() {
            self.cells.reserve(USUAL_CELLS)?;
        }
        self.cells.push(Span {
            colspan: colspan as u128,
            rowspan: rowspan as u128,
        })?;
        Ok(())
    }
}

/// Rows of a part of a table, with the spans that their cells ask for.
#[derive(Drop)]
pub struct PartRows {
    rows: Vec<Vec<Span>>,
}

impl Model for PartRows {
    ghost use Rattle.std.specs.Prelude.{All, List};
    ghost use Rattle.html_render_parts.specs.declared.table.Span.{Span};
    ghost use Rattle.html_render_parts.specs.Placement.{lists};
    ghost use Rattle.html_render_parts.specs.Spans.{AreAsked};

    ghost Value = { List (List Span) };

    ghost view = { λ p. lists p.rows.items };

    ghost invariant = { λ p. All AreAsked (lists p.rows.items) };
}

impl PartRows {
    /// Creates a part without rows.
    pub fn new(alloc: Global) -> PartRows
        ensures { result ≡ [] }
    {
        PartRows {
            rows: Vec::new(alloc),
        }
    }

    /// Appends a row.
    ///
    /// # Errors
    ///
    /// `AllocError` if an allocation is refused.
    #[tactic(auto, using(crate::proofs::ValidSpans::rows_more, crate::proofs::ValidSpans::all_asked_more))]
    pub fn push(&mut self, row: RowCells) -> Result<(), AllocError>
        ensures { OnOk result (self.new ≡ self.old ++ row ∷ []) }
    {
        self.rows.push(row.cells)?;
        Ok(())
    }
}

/// Returns the number of columns that a row's cells ask for together, a 0 counted as 1.
fn width_of(cells: &[Span]) -> u128
    requires { AreAsked cells.now }
    ensures width { result ≡ width_of cells.now }
    ensures fits { result + 1 < 2 ^ 128 }
{
    let mut width: u128 = 0;
    for cell in cells {
        width += cell.colspan.max(1);
    }
    width
}

/// Returns the greatest width of rows, in columns.
#[tactic(auto, using(crate::proofs::ValidSpans::row_asked))]
fn greatest_width(rows: &[Vec<Span>]) -> u128
    requires { All AreAsked (lists rows.now) }
    ensures greatest { result ≡ greatest_width (lists rows.now) }
    ensures fits { result + 1 < 2 ^ 128 }
{
    let mut widest = 0;
    for row in rows {
        widest = width_of(row.as_slice()).max(widest);
    }
    widest
}

/// Returns the span of a cell in a row that is narrower by `missing` columns than the widest of its part of the table.
fn spanned(missing: u128, cell: &Span) -> Span
    requires { missing + 1 < 2 ^ 128 }
    ensures { result ≡ spanned missing cell.now }
{
    let colspan = if cell.colspan == 0 {
        missing + 1
    } else {
        cell.colspan
    };
    Span {
        colspan,
        rowspan: cell.rowspan.max(1),
    }
}

/// Returns the spans of the cells of a row in a part of a table whose widest row has this width.
fn spanned_row(alloc: Global, widest: u128, cells: &[Span]) -> Result<Vec<Span>, AllocError>
    requires widest { widest + 1 < 2 ^ 128 }
    requires asked { AreAsked cells.now }
    ensures { IfOk result (λ spans. spans.items ≡ map (spanned (widest - width_of cells.now)) cells.now) }
{
    let missing = widest.saturating_sub(width_of(cells));
    let spans: Vec<Span> = cells
        .iter()
        .map(|cell| spanned(missing, cell))
        .collect(alloc)?;
    Ok(spans)
}

/// Appends the spans of the cells of a part's rows. Valid rows stay valid, also if an allocation is refused.
#[tactic(auto, using(crate::proofs::ValidSpans::row_asked, crate::proofs::ValidSpans::valid_more))]
#[inline(never)]
fn push_rows(alloc: Global, part: &[Vec<Span>], rows: &mut Vec<Vec<Span>>) -> Result<(), AllocError>
    requires { All AreAsked (lists part.now) }
    ensures ok { OnOk result (lists rows.new.items
        ≡ lists rows.old.items ++ spanned_in (greatest_width (lists part.now)) (lists part.now)) }
    ensures valid { AreValid (lists rows.old.items) → AreValid (lists rows.new.items) }
{
    let widest = greatest_width(part);
    for row in part {
        rows.push(spanned_row(alloc, widest, row.as_slice())?)?;
    }
    Ok(())
}

/// Appends rows, or takes their memory if there are none before.
fn append_rows(rows: &mut Vec<Vec<Span>>, mut part: Vec<Vec<Span>>) -> Result<(), AllocError>
    ensures ok { OnOk result (rows.new.items ≡ rows.old.items ++ part.items) }
    ensures kept { OnErr result (rows.new.items ≡ rows.old.items) }
{
    if rows.is_empty() {
        *rows = part;
        return Ok(());
    }
    rows.append(&mut part)?;
    Ok(())
}

/// Spans of the cells of a table, row by row, each of at least one column and one row.
#[derive(Drop)]
pub struct TableSpans {
    rows: Vec<Vec<Span>>,
}

impl Model for TableSpans {
    ghost use Rattle.std.specs.Prelude.{List};
    ghost use Rattle.html_render_parts.specs.declared.table.Span.{Span};
    ghost use Rattle.html_render_parts.specs.Grid.{AreValid};
    ghost use Rattle.html_render_parts.specs.Placement.{lists};

    ghost Value = { List (List Span) };

    ghost view = { λ t. lists t.rows.items };

    ghost invariant = { λ t. AreValid (lists t.rows.items) };
}

impl TableSpans {
    /// Creates the spans of no rows.
    pub fn new(alloc: Global) -> TableSpans
        ensures { result ≡ [] }
    {
        TableSpans {
            rows: Vec::new(alloc),
        }
    }

    /// Appends the spans of the cells of a part's rows. Rows in which no cell asks for the columns left are moved.
    ///
    /// # Errors
    ///
    /// `AllocError` if an allocation is refused.
    #[tactic(auto, using(crate::proofs::ValidSpans::rows_moved, crate::proofs::ValidSpans::valid_moved))]
    pub fn push_part(&mut self, part: PartRows) -> Result<(), AllocError>
        ensures { OnOk result (self.new ≡ self.old ++ spanned_in (greatest_width part) part) }
    {
        let rows = part.rows;
        if spans_are_valid(rows.as_slice()) {
            return append_rows(&mut self.rows, rows);
        }
        let alloc = *self.rows.allocator();
        push_rows(alloc, rows.as_slice(), &mut self.rows)
    }

    /// Returns the cells on the columns of their grid.
    ///
    /// # Errors
    ///
    /// `Fail` exactly if a cell ends after column or row `u128::MAX`, and `OutOfMemory` if an allocation is refused.
    pub fn cells(&self, alloc: Global) -> Result<TableCells, Error>
        ensures { Builds result (cell_grid_of self.now) (λ cells. cells) }
    {
        TableCells::new(alloc, self.rows.as_slice())
    }
}
