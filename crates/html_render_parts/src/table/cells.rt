//! Cells of a table on the columns of its grid, and the places in each of its rows.
//!
//! In a row of a cell with colspan 3 and rowspan 1 and a cell with colspan 2 and rowspan 2, each cell has one column. The
//! places follow from the cells and the edges: the two cells in the first row, and a gap and a placeholder in the row below
//! it.

ghost use Rattle.std.specs.Prelude.{◌≡◌, ◌+◌, ◌^◌, ◌≤◌, ◌<◌, ◌++◌, ◌∷◌, [], true, All, Some, length, map, IsTrue, IfOk, IfErr, OnOk, MatchBool};
ghost use Rattle.std.specs.List.Sorted.{IsStrictlyIncreasing};
ghost use Rattle.html_render_dom_values.specs.Outcome.{OnlyOutOfMemory};
ghost use Rattle.html_render_parts.specs.Placement.{hanging, lists, own_from, placed_rows, rising, row_from};
ghost use Rattle.html_render_parts.specs.OwnCells.{own_rows_from, on_columns};
ghost use Rattle.html_render_parts.specs.PlacementSteps.{AreAhead, fitting_positions, places_ahead, row_fits, row_told, rows_ahead};
ghost use Rattle.html_render_parts.specs.SimpleRows.{AllStoredFit, StoredFit, fitting_row, own_or_simple, own_placed, own_rows_on, own_with_simple, row_on};
ghost use Rattle.html_render_parts.specs.Grid.{AreValid, edges_of};
ghost use Rattle.html_render_parts.specs.Positions.{positions_fit};
ghost use Rattle.html_render_parts.specs.TableCells.{cell_grid_of, columns_of, rows_on, span_on};
ghost use Rattle.html_render_parts.specs.Refusal.{Builds, Fails};

use crate::table::gathering::Positions;
use crate::table::placement::{PositionedCell, RowPlacer};
use crate::table::row_list::RowList;
use crate::table::{PlacedCell, Span, numbering, simple};
use html_render_dom_values::Error;
use std::alloc::{AllocError, Global};
use std::marker::Model;
use std::sync::Arc;

/// Cell of a table on the columns of its grid.
#[derive(Clone, Copy)]
pub struct GridCell {
    /// Number of rows that the cell spans, its own included, at least 1.
    pub rowspan: u128,
    /// First column, from 0.
    pub first: usize,
    /// Number of columns, at least 1.
    pub columns: usize,
}

/// Edges of a table's grid, and own cells of its rows at their own columns.
#[derive(Drop)]
struct PlacedCells {
    /// Edges, rising.
    edges: Vec<u128>,
    /// Own cells of each row; none of a simple row.
    own: RowList<PositionedCell>,
}

/// Adds the edges of a simple row.
#[tactic(auto, using(crate::specs::laws::Refusal::refusals))]
fn add_simple_row(
    cells: &[Span],
    positions: &mut Positions,
    ends: &mut Vec<u128>,
) -> Result<(), Error>
    ensures positions { OnOk result (positions.new ≡ rising (positions.old ++ row_told 0 [] cells.now)) }
    ensures fits { OnOk result (row_fits (row_from 0 [] cells.now) ≡ true) }
    ensures err { IfErr result (λ e. Fails e (fitting_row (row_from 0 [] cells.now))) }
{
    simple::put_ends(ends, cells)?;
    positions.add(ends)?;
    Ok(())
}

/// Places the next row of a table, and adds its edges. Returns false if the row is simple and isn't placed. `ends` is a buffer.
fn place_next_own(
    row: usize,
    cells: &[Span],
    placer: &mut RowPlacer,
    positions: &mut Positions,
    ends: &mut Vec<u128>,
) -> Result<bool, Error>
    ensures hanging { OnOk result (placer.new.hanging ≡ hanging (row + 1) (placer.old.hanging ++ own_from row 0 placer.old.hanging cells.now)) }
    ensures positions { OnOk result (positions.new ≡ rising (positions.old ++ row_told 0 placer.old.hanging cells.now)) }
    ensures fits { OnOk result (row_fits (row_from 0 placer.old.hanging cells.now) ≡ true) }
    ensures own { IfOk result (λ placed. own_or_simple row cells.now (own_placed placed placer.new.own) ≡ own_from row 0 placer.old.hanging cells.now) }
    ensures err { IfErr result (λ e. Fails e (fitting_row (row_from 0 placer.old.hanging cells.now))) }
{
    if placer.hangs_nothing() && simple::spans_end(cells) {
        add_simple_row(cells, positions, ends)?;
        return Ok(false);
    }
    placer.place_row(row, cells)?;
    positions.add(placer.told())?;
    Ok(true)
}

/// Returns the number of cells of all rows, at most `usize::MAX`.
fn cell_count(rows: &[Vec<Span>]) -> usize {
    let mut count: usize = 0;
    for cells in rows {
        count = count.saturating_add(cells.len());
    }
    count
}

/// Appends the own cells of the last row; none if that isn't placed. Reserves memory for `cells` cells, those of all rows, before
/// the first row that is placed.
fn push_own(
    cells: usize,
    placer: &RowPlacer,
    is_placed: bool,
    own: &mut RowList<PositionedCell>,
) -> Result<(), AllocError>
    ensures { OnOk result (own.new ≡ own.old ++ own_placed is_placed placer.now.own ∷ []) }
{
    if is_placed {
        own.reserve_first(cells)?;
        own.push(placer.own())
    } else {
        own.push(&[])
    }
}

/// Places the rows of a table, and returns their own cells and the edges. The other places aren't stored.
fn place_cells(alloc: Global, rows: &[Vec<Span>]) -> Result<PlacedCells, Error>
    ensures fits { IfOk result (λ p. IsTrue (positions_fit (placed_rows (lists rows.now)))) }
    ensures edges { IfOk result (λ p. p.edges.items ≡ edges_of (placed_rows (lists rows.now))) }
    ensures own { IfOk result (λ p. own_with_simple 0 (lists rows.now) p.own ≡ own_rows_from 0 [] (lists rows.now)) }
    ensures count { IfOk result (λ p. length p.own ≡ length rows.now) }
    ensures err { IfErr result (λ e. Fails e (fitting_positions (placed_rows (lists rows.now)))) }
{
    let mut placer = RowPlacer::new(alloc);
    let mut positions = Positions::zero(alloc)?;
    let mut ends = Vec::new(alloc);
    let mut own = RowList::with_capacity(alloc, rows.len(), 0)?;
    let cell_total = cell_count(rows);
    for (row, cells) in rows.iter().enumerate() {
        let is_placed = place_next_own(row, cells, &mut placer, &mut positions, &mut ends)?;
        push_own(cell_total, &placer, is_placed, &mut own)?;
    }
    'bottom: while placer.place_bottom_row()? {
        positions.add(placer.told())?;
    }
    let edges = positions.into_rising()?;
    Ok(PlacedCells { edges, own })
}

/// Replaces `row` by placed cells of a row on the columns of their grid.
fn put_placed(
    row: &mut Vec<GridCell>,
    edges: &[u128],
    cells: &[PositionedCell],
) -> Result<(), AllocError>
    requires rising { IsStrictlyIncreasing edges.now }
    requires fits { All (λ c. c.column + c.span.colspan < 2 ^ 128) cells.now }
    ensures { OnOk result (row.new.items ≡ map (on_columns edges.now) cells.now) }
{
    row.clear();
    let mut behind: usize = 0;
    for cell in cells {
        let placed = simple::cell_at(edges, cell.column, &cell.span, behind);
        behind = placed.first.saturating_add(placed.columns);
        row.push(placed)?;
    }
    Ok(())
}

/// Replaces `row` by the cells of a row on the columns of their grid. `own` are its own cells; none of a simple row.
fn put_row(
    row: &mut Vec<GridCell>,
    edges: &[u128],
    cells: &[Span],
    own: &[PositionedCell],
) -> Result<(), AllocError>
    requires rising { IsStrictlyIncreasing edges.now }
    requires fits { StoredFit cells.now own.now }
    ensures { OnOk result (row.new.items ≡ row_on edges.now cells.now own.now) }
{
    if own.is_empty() {
        simple::put_cells(row, edges, cells)
    } else {
        put_placed(row, edges, own)
    }
}

/// Returns the cells of all rows on the columns of their grid. `own` are the own cells of each row; none of simple rows.
fn rows_on_columns(
    alloc: Global,
    edges: &[u128],
    rows: &[Vec<Span>],
    own: &RowList<PositionedCell>,
) -> Result<RowList<GridCell>, AllocError>
    requires rising { IsStrictlyIncreasing edges.now }
    requires count { length own.now ≡ length rows.now }
    requires fits { AllStoredFit (lists rows.now) own.now }
    ensures { IfOk result (λ v. v ≡ own_rows_on edges.now (lists rows.now) own.now) }
{
    let mut cells = RowList::with_capacity(alloc, rows.len(), cell_count(rows))?;
    let mut placed = Vec::new(alloc);
    for (row, spans) in rows.iter().enumerate() {
        put_row(&mut placed, edges, spans, own.row(row))?;
        cells.push(placed.as_slice())?;
    }
    Ok(cells)
}

/// Replaces `spans` by the spans of a row's cells.
fn put_spans(spans: &mut Vec<Span>, edges: &[u128], cells: &[GridCell]) -> Result<(), AllocError>
    requires rising { IsStrictlyIncreasing edges.now }
    requires on_edges { All (λ c. c.first + c.columns < length edges.now) cells.now }
    ensures { OnOk result (spans.new.items ≡ map (span_on edges.now) cells.now) }
{
    spans.clear();
    for cell in cells {
        spans.push(Span {
            colspan: edges[cell.first + cell.columns] - edges[cell.first],
            rowspan: cell.rowspan,
        })?;
    }
    Ok(())
}

/// Edges of a table's grid, and its cells on the columns between them.
#[derive(Drop)]
struct CellRows {
    /// Edges: 0 and the ends of all places, each once, rising. There is one more than there are columns.
    edges: Vec<u128>,
    /// Own cells of each row.
    rows: RowList<GridCell>,
}

/// Cells of a table on the columns of its grid, row by row, and the edges of the grid. Copies share them.
#[derive(Drop)]
pub struct TableCells {
    shared: Arc<CellRows>,
}

impl Model for TableCells {
    ghost use Rattle.html_render_parts.specs.TableCells.{CellGrid, IsCellGrid};

    ghost Value = { CellGrid };

    ghost view = { λ c. record { edges = c.shared.value.edges.items; rows = c.shared.value.rows } };

    ghost invariant = { λ c. IsCellGrid (record { edges = c.shared.value.edges.items; rows = c.shared.value.rows }) };
}

impl TableCells {
    /// Returns the cells with these spans, row by row, on the columns of their grid. The caller ensures that each span is at
    /// least 1.
    ///
    /// # Errors
    ///
    /// - `Fail`, exactly if a cell, placeholder or gap would end past `u128::MAX`.
    /// - `OutOfMemory`.
    pub fn new(alloc: Global, rows: &[Vec<Span>]) -> Result<TableCells, Error>
        requires { AreValid (lists rows.now) }
        ensures { Builds result (cell_grid_of (lists rows.now)) (λ cells. cells) }
    {
        let placed = place_cells(alloc, rows)?;
        let rows = rows_on_columns(alloc, &placed.edges, rows, &placed.own)?;
        let edges = placed.edges;
        let shared = Arc::new(alloc, CellRows { edges, rows })?;
        Ok(TableCells { shared })
    }

    /// Returns the edges of the grid: 0 and the ends of all places, each once, rising.
    fn edges(&self) -> &[u128]
        ensures edges { result.now ≡ self.now.edges }
        ensures rising { IsStrictlyIncreasing result.now }
    {
        self.shared.edges.as_slice()
    }

    /// Returns the number of columns of the table.
    pub fn columns(&self) -> usize
        ensures { result ≡ columns_of self.now }
    {
        self.shared.edges.len().saturating_sub(1)
    }

    /// Returns the own cells of each row, without placeholders and gaps.
    pub fn rows(&self) -> &RowList<GridCell>
        ensures rows { result.now ≡ self.now.rows }
        ensures on_columns { All (λ cells. All (λ c. (c.first + c.columns ≤ columns_of self.now) × (0 < c.columns)) cells) self.now.rows }
    {
        &self.shared.rows
    }

    /// Returns a copy, which shares the cells in memory.
    ///
    /// # Errors
    ///
    /// `AllocError` if there are 2^63 copies.
    pub fn try_clone(&self) -> Result<TableCells, AllocError>
        ensures { IfOk result (λ copy. copy ≡ self.now) }
    {
        let shared = self.shared.clone()?;
        Ok(TableCells { shared })
    }

    /// Returns an iterator over the rows of the table, from the first on, with the places in each.
    ///
    /// # Errors
    ///
    /// `OutOfMemory`.
    pub fn into_rows(self, alloc: Global) -> Result<RowsAhead, Error>
        ensures ok { IfOk result (λ rows. rows ≡ rows_on self) }
        ensures err { OnlyOutOfMemory result }
    {
        let left = Box::new(alloc, self.into_placer(alloc))?;
        Ok(RowsAhead { left: Some(left) })
    }

    /// Returns the rows of the table, from the first on, without an allocation.
    fn into_placer(self, alloc: Global) -> RowsLeft
        ensures { result ≡ rows_on self }
    {
        // the proof reads here that these are the cells of a table
        let _ = &self.shared;
        RowsLeft {
            cells: self,
            row: 0,
            placer: RowPlacer::new(alloc),
            spans: Vec::new(alloc),
        }
    }
}

/// Replaces `places` by those of the next row of a table if it is simple. Otherwise returns false, and only `places` changes.
fn next_simple(
    cells: &TableCells,
    row: &mut usize,
    placer: &RowPlacer,
    places: &mut Vec<PlacedCell>,
) -> Result<bool, AllocError>
    requires { AreAhead cells.now row.old placer.now.hanging }
    ensures placed { IfOk result (λ found. MatchBool found
        (rows_ahead cells.now row.old placer.now.hanging ≡ places.new.items ∷ rows_ahead cells.now row.new placer.now.hanging)
        (row.new ≡ row.old)) }
    ensures ahead { AreAhead cells.now row.new placer.now.hanging }
{
    let rows = cells.rows();
    if *row >= rows.len() {
        return Ok(false);
    }
    let own = rows.row(*row);
    if placer.hangs_nothing() && simple::cells_end(own) {
        simple::put_places(places, cells.edges(), own)?;
        *row += 1;
        return Ok(true);
    }
    Ok(false)
}

/// Places the next row of a table, and returns whether there is one.
fn place_next(
    cells: &TableCells,
    row: &mut usize,
    placer: &mut RowPlacer,
    spans: &mut Vec<Span>,
) -> Result<bool, Error>
    requires { AreAhead cells.now row.old placer.old.hanging }
    ensures ok { IfOk result (λ placed. MatchBool placed
        (places_ahead cells.now row.old placer.old.hanging ≡ placer.new.places ∷ places_ahead cells.now row.new placer.new.hanging)
        ((places_ahead cells.now row.old placer.old.hanging ≡ []) × (places_ahead cells.now row.new placer.new.hanging ≡ []))) }
    ensures err { OnlyOutOfMemory result }
    ensures ahead { AreAhead cells.now row.new placer.new.hanging }
{
    let rows = cells.rows();
    if *row >= rows.len() {
        return placer.place_bottom_row();
    }
    let own = rows.row(*row);
    put_spans(spans, cells.edges(), own)?;
    placer.place_row(*row, spans)?;
    *row += 1;
    Ok(true)
}

/// Rows of a table that aren't placed yet, and the state of their placement.
#[derive(Drop)]
struct RowsLeft {
    /// Cells of the table.
    cells: TableCells,
    /// Number of the table's own rows that are placed.
    row: usize,
    /// Placement of the rows.
    placer: RowPlacer,
    /// Buffer for the spans of a row's own cells.
    spans: Vec<Span>,
}

impl Model for RowsLeft {
    ghost use Rattle.std.specs.Prelude.{List};
    ghost use Rattle.html_render_parts.specs.declared.table.PlacedCell.{PlacedCell};

    ghost Value = { List (List PlacedCell) };

    ghost use Rattle.html_render_parts.specs.PlacementSteps.{AreAhead, rows_ahead};

    ghost view = { λ a. rows_ahead a.cells a.row a.placer.hanging };

    ghost invariant = { λ a. AreAhead a.cells a.row a.placer.hanging };
}

impl RowsLeft {
    /// Replaces `places` by those of the next row, from the first column on: cells, placeholders and gaps. Returns false
    /// after the last row.
    fn next(&mut self, places: &mut Vec<PlacedCell>) -> Result<bool, Error>
        ensures ok { IfOk result (λ found. MatchBool found (self.old ≡ places.new.items ∷ self.new) ((self.old ≡ []) × (self.new ≡ []))) }
        ensures err { OnlyOutOfMemory result }
    {
        if next_simple(&self.cells, &mut self.row, &self.placer, places)? {
            return Ok(true);
        }
        let placed = place_next(
            &self.cells,
            &mut self.row,
            &mut self.placer,
            &mut self.spans,
        )?;
        if placed {
            numbering::put_numbered(places, self.cells.edges(), self.placer.places())?;
        }
        Ok(placed)
    }

    /// Whether all rows are placed.
    fn is_over(&self) -> bool
        ensures { IsTrue result → self.now ≡ [] }
    {
        self.row >= self.cells.rows().len() && self.placer.hangs_nothing()
    }
}

/// Iterator over the rows of a table: its own, and then one for each distinct end of a row span below the last row.
///
/// A row is placed when it is asked for. After the last row, no memory is held.
#[derive(Drop)]
pub struct RowsAhead {
    /// Rows that aren't placed yet; `None` after the last row.
    left: Option<Box<RowsLeft>>,
}

impl Model for RowsAhead {
    ghost use Rattle.std.specs.Prelude.{List, [], option_map, unwrap_or};
    ghost use Rattle.html_render_parts.specs.declared.table.PlacedCell.{PlacedCell};

    ghost Value = { List (List PlacedCell) };

    ghost view = { λ a. unwrap_or (option_map (λ l. l.value) a.left) [] };
}

impl RowsAhead {
    /// Replaces `places` by those of the next row, from the first column on: cells, placeholders and gaps. Returns false
    /// after the last row.
    ///
    /// # Errors
    ///
    /// `OutOfMemory`.
    pub fn next(&mut self, places: &mut Vec<PlacedCell>) -> Result<bool, Error>
        ensures ok { IfOk result (λ found. MatchBool found (self.old ≡ places.new.items ∷ self.new) ((self.old ≡ []) × (self.new ≡ []))) }
        ensures err { OnlyOutOfMemory result }
    {
        let Some(left) = &mut self.left else {
            return Ok(false);
        };
        let found = left.next(places)?;
        if left.is_over() {
            self.left = None;
        }
        Ok(found)
    }
}
