//! Cells of a table: their columns on the table's grid, and the widths that they need there.

ghost use Rattle.std.specs.Prelude.{◌≡◌, ◌++◌, OnOk};
ghost use Rattle.html_render_layout_nodes.specs.Preorder.{flatten, forest_of};
ghost use Rattle.html_render_parts_widths.specs.Needs.{AreCells};
ghost use Rattle.html_render_parts.specs.TableCells.{columns_of};
ghost use Rattle.html_render_layout_estimates.specs.Cells.{cell_needs};
ghost use Rattle.html_render_layout_estimates.specs.CellSteps.{row_needs};

use crate::trees::first_tree;
use html_render_layout_nodes::tree::{Entry, RenderNode};
use html_render_parts::table::cells::{GridCell, TableCells};
use html_render_parts::table::row_list::RowList;
use html_render_parts_widths::CellNeed;
use std::alloc::AllocError;

/// Appends the needs of a row's cells over their columns.
fn add_row(
    needs: &mut Vec<CellNeed>,
    cells: &[GridCell],
    trees: &[Entry<RenderNode>],
) -> Result<(), AllocError>
    requires { flatten (forest_of trees.now) ≡ trees.now }
    ensures { OnOk result (needs.new.items ≡ needs.old.items ++ row_needs cells.now (forest_of trees.now)) }
{
    let mut rest = trees;
    for cell in cells {
        let Some(tree) = first_tree(rest) else {
            return Ok(());
        };
        needs.push(CellNeed {
            start: cell.first,
            count: cell.columns,
            preferred_width: tree.node.estimate.preferred_width,
            min_width: tree.node.estimate.min_width,
        })?;
        rest = tree.beside;
    }
    Ok(())
}

/// Appends the needs of the cells of these rows.
fn add_rows(
    needs: &mut Vec<CellNeed>,
    rows: &RowList<GridCell>,
    trees: &[Entry<RenderNode>],
) -> Result<(), AllocError>
    requires { flatten (forest_of trees.now) ≡ trees.now }
    ensures { OnOk result (needs.new.items ≡ needs.old.items ++ cell_needs rows.now (forest_of trees.now)) }
{
    let mut rest = trees;
    for at in 0..rows.len() {
        let Some(row) = first_tree(rest) else {
            return Ok(());
        };
        add_row(needs, rows.row(at), row.below)?;
        rest = row.beside;
    }
    Ok(())
}

/// Returns the number of cells of these rows.
fn cell_count(rows: &RowList<GridCell>) -> usize {
    let mut count = 0usize;
    for at in 0..rows.len() {
        count = count.saturating_add(rows.row(at).len());
    }
    count
}

/// Replaces `needs` by the minimum and preferred width that each cell of a table needs over its columns, row by row.
///
/// `rows` are the table's rows with their cells, all measured. Only the cells' own nodes are read, not their contents.
///
/// # Errors
///
/// `AllocError` if an allocation is refused.
pub fn put_cell_needs(
    needs: &mut Vec<CellNeed>,
    grid: &TableCells,
    rows: &[Entry<RenderNode>],
) -> Result<(), AllocError>
    requires { flatten (forest_of rows.now) ≡ rows.now }
    ensures ok { OnOk result (needs.new.items ≡ cell_needs grid.now.rows (forest_of rows.now)) }
    ensures cells { OnOk result (AreCells (columns_of grid.now) needs.new.items) }
{
    let cells = grid.rows();
    needs.clear();
    needs.reserve_exact(cell_count(cells))?;
    add_rows(needs, cells, rows)?;
    Ok(())
}
