//! Estimates of tables.

ghost use Rattle.std.specs.Prelude.{◌≡◌, ◌*◌, ◌/◌, sum_by, IfOk};
ghost use Rattle.html_render_parts_widths.specs.Needs.{AreSome, column_needs};
ghost use Rattle.html_render_parts.specs.TableCells.{columns_of};
ghost use Rattle.html_render_layout_nodes.specs.Preorder.{flatten, forest_of};
ghost use Rattle.html_render_layout_estimates.specs.TextSize.{saturated};
ghost use Rattle.html_render_layout_estimates.specs.Cells.{cell_needs};
ghost use Rattle.html_render_layout_estimates.specs.Estimates.{table_estimate};

use crate::cells::put_cell_needs;
use html_render_layout_nodes::tree::{Entry, Estimate, RenderNode};
use html_render_parts::table::cells::TableCells;
use html_render_parts_widths::{CellNeed, ColumnNeed, NeedsMemory, column_needs};
use std::alloc::{AllocError, Global};

/// Returns the sum of the cells' preferred widths, each rounded down to a multiple of the cell's number of columns; at most
/// `usize::MAX`.
fn size_of_cells(cells: &[CellNeed]) -> usize
    requires { AreSome cells.now }
    ensures { result ≡ saturated (sum_by (λ c. c.preferred_width / c.count * c.count) cells.now) }
{
    let mut preferred_width: usize = 0;
    for cell in cells {
        preferred_width = preferred_width.saturating_add(
            cell.preferred_width / cell.count * cell.count,
        );
    }
    preferred_width
}

/// Returns the sum of the columns' minimum widths, at most `usize::MAX`.
fn least_of_columns(needs: &[ColumnNeed]) -> usize
    ensures { result ≡ saturated (sum_by (λ n. n.min_width) needs.now) }
{
    let mut min_width: usize = 0;
    for need in needs {
        min_width = min_width.saturating_add(need.min_width);
    }
    min_width
}

/// Measurement of a table.
#[derive(Drop)]
pub struct Measure {
    /// Estimate of its node.
    pub estimate: Estimate,
    /// Widths that its columns need.
    pub needs: Vec<ColumnNeed>,
}

/// Memory for measuring tables, reused from table to table.
#[derive(Drop)]
pub struct TableMemory {
    /// Needs of the cells.
    cells: Vec<CellNeed>,
    /// Memory for the needs of the columns.
    needs: NeedsMemory,
}

impl TableMemory {
    /// Returns memory for measuring tables, without an allocation.
    pub fn new(alloc: Global) -> TableMemory {
        TableMemory {
            cells: Vec::new(alloc),
            needs: NeedsMemory::new(alloc),
        }
    }
}

/// Measures a table on its grid over its measured rows.
///
/// `children` is the number of its children.
pub fn measure_table(
    alloc: Global,
    memory: &mut TableMemory,
    grid: &TableCells,
    children: usize,
    rows: &[Entry<RenderNode>],
) -> Result<Measure, AllocError>
    requires { flatten (forest_of rows.now) ≡ rows.now }
    ensures estimate { IfOk result (λ m. m.estimate
        ≡ table_estimate (columns_of grid.now) (cell_needs grid.now.rows (forest_of rows.now)) 0 children) }
    ensures needs { IfOk result (λ m. m.needs.items ≡ column_needs (columns_of grid.now) (cell_needs grid.now.rows (forest_of rows.now))) }
{
    let columns = grid.columns();
    let TableMemory {
        cells,
        needs: needs_memory,
    } = memory;
    put_cell_needs(cells, grid, rows)?;
    let needs = column_needs(alloc, needs_memory, columns, cells.as_slice())?;
    let separators = columns.saturating_sub(1);
    let estimate = Estimate {
        min_width: least_of_columns(needs.as_slice()).saturating_add(separators),
        preferred_width: size_of_cells(cells.as_slice()).saturating_add(separators),
        prefix: 0,
        children,
    };
    Ok(Measure { estimate, needs })
}
