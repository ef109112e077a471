//! The grid of a table: the place of each cell, and its number of columns.
//!
//! For one row of a cell with colspan 3 and rowspan 1 and a cell with colspan 2 and rowspan 2, `table_grid(alloc, &rows)`
//! has the edges 0, 3 and 5: two columns. Its second row, below the last one, has a gap and a placeholder of one column
//! each.

ghost use Rattle.std.specs.Prelude.{◌≡◌, ◌↔◌, ◌⊎◌, ◌<◌, ◌≤◌, ℕ, All, Any, Contains, IsTrue, IfOk, IfErr, Some, length, sum_by};
ghost use Rattle.std.specs.List.Sorted.{IsStrictlyIncreasing};
ghost use Rattle.html_render_parts.specs.Placement.{lists};
ghost use Rattle.html_render_parts.specs.Grid.{AreSideBySide, AreValid, IsLeastNumbering, IsNumbering, grid_of, rank, shown};
ghost use Rattle.html_render_parts.specs.Refusal.{Builds};

pub mod cells;
mod gathering;
mod laws;
mod numbering;
mod placement;
pub mod row_list;
mod simple;
pub mod spans;

use html_render_dom_values::Error;
use std::alloc::Global;

/// Numbers of columns and rows that a cell spans. Each is at least 1 in a valid span.
#[derive(Clone, Copy, Debug, PartialEq, Eq)]
pub struct Span {
    /// Number of columns that the cell spans.
    pub colspan: u128,
    /// Number of rows that the cell spans, its own included.
    pub rowspan: u128,
}

/// Content of a place in a table's row.
#[derive(Clone, Copy, Debug, PartialEq, Eq)]
pub enum CellKind {
    /// Cell of the row itself.
    Cell,
    /// Slot covered by a cell of an earlier row that spans into this one.
    Placeholder,
    /// Empty slot before a placeholder.
    Gap,
}

/// Cell, placeholder or gap, with its place in its row.
#[derive(Clone, Copy, Debug, PartialEq, Eq)]
pub struct PlacedCell {
    /// Content of the place.
    pub kind: CellKind,
    /// Position of the start: 0, or the end of the place before.
    pub start: u128,
    /// Position of the end, which isn't part of the place.
    pub end: u128,
    /// Number of grid columns, at least 1.
    pub columns: usize,
}

/// Grid of a table: its edges, and the places of its cells.
#[derive(Debug, PartialEq, Eq, Drop)]
pub struct TableGrid {
    /// Edges of the columns: 0 and the ends of all places, each once, rising. There is one more than there are columns.
    pub edges: Vec<u128>,
    /// Places of each row: the table's own rows, and then one for each distinct end of a row span below the last row.
    pub rows: Vec<Vec<PlacedCell>>,
}

/// Whether each cell of a row spans at least one column and one row.
fn row_is_valid(cells: &[Span]) -> bool
    ensures { IsTrue result ↔ All (λ s. (1 ≤ s.colspan) × (1 ≤ s.rowspan)) cells.now }
{
    cells
        .iter()
        .all(|span| span.colspan >= 1 && span.rowspan >= 1)
}

/// Whether each cell of each row spans at least one column and one row.
fn rows_are_valid(rows: &[Vec<Span>]) -> bool
    ensures { IsTrue result ↔ All (λ cells. All (λ s. (1 ≤ s.colspan) × (1 ≤ s.rowspan)) cells.items) rows.now }
{
    rows.iter().all(|cells| row_is_valid(cells))
}

/// Whether each cell of each row spans at least one column and one row, as [`table_grid`] requires. Allocates nothing.
pub fn spans_are_valid(rows: &[Vec<Span>]) -> bool
    ensures { IsTrue result ↔ AreValid (lists rows.now) }
{
    rows_are_valid(rows)
}

/// Returns the grid of a table's rows.
///
/// Rows are placed from the first on, each from position 0. A cell that spans further rows has a placeholder in each of
/// them. Below the last row follows one row for each distinct end of a row span there, with a placeholder for each cell that
/// reaches it. The columns are the fewest that keep the order of all edges.
///
/// The caller ensures that each span is at least 1 (see [`spans_are_valid`]).
///
/// # Errors
///
/// - `Fail`, exactly if a cell, placeholder or gap would end past `u128::MAX`.
/// - `OutOfMemory`.
pub fn table_grid(alloc: Global, rows: &[Vec<Span>]) -> Result<TableGrid, Error>
    requires { AreValid (lists rows.now) }
    ensures grid { Builds result (grid_of (lists rows.now)) shown }

    // the places of a row are side by side from 0 on; each has a column, and all together no more than the table has
    ensures side_by_side { IfOk result (λ g. All (AreSideBySide 0) (lists g.rows.items)) }
    ensures columns { IfOk result (λ g. All (λ cells. All (λ c. 1 ≤ c.columns) cells) (lists g.rows.items)) }
    ensures in_table { IfOk result (λ g. All (λ cells. sum_by (λ c. c.columns) cells < length g.edges.items) (lists g.rows.items)) }

    // the edges are 0 and the ends of all places, rising; their numbers are in this order, and no numbering in this order
    // has a smaller number for any edge
    ensures edges { IfOk result (λ g. (e : ℕ) → Contains g.edges.items e
        ↔ ((e ≡ 0) ⊎ Any (λ cells. Any (λ c. c.end ≡ e) cells) (lists g.rows.items))) }
    ensures rising { IfOk result (λ g. IsStrictlyIncreasing g.edges.items) }
    ensures numbering { IfOk result (λ g. IsNumbering g.edges.items (rank g.edges.items)) }
    ensures least { IfOk result (λ g. IsLeastNumbering g.edges.items (rank g.edges.items)) }
{
    let placed = placement::place_rows(alloc, rows)?;
    let edges = numbering::edges_of(alloc, &placed)?;
    let rows = numbering::numbered_rows(alloc, &edges, &placed)?;
    Ok(TableGrid { edges, rows })
}
