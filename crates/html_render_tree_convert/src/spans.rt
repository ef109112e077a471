//! The grid of a table whose cells are all known.

ghost use Rattle.std.specs.Prelude.{◌≡◌, IfOk, IfErr, Some, option_map};
ghost use Rattle.html_render_layout_nodes.specs.Tables.{unmeasured_table};
ghost use Rattle.html_render_parts.specs.TableCells.{cell_grid_of};
ghost use Rattle.html_render_parts.specs.Refusal.{Builds};

use html_render_dom_values::Error;
use html_render_layout_nodes::tree::Grid;
use html_render_parts::table::spans::TableSpans;
use std::alloc::Global;

/// Creates the grid of a table whose cells have these spans, row by row.
///
/// # Errors
///
/// `Fail` exactly if a cell ends after column or row `u128::MAX`, and `OutOfMemory` if an allocation is refused.
#[inline(never)]
pub fn grid_of(alloc: Global, spans: &TableSpans) -> Result<Grid, Error>
    ensures { Builds result (option_map unmeasured_table (cell_grid_of spans.now)) (λ grid. grid) }
{
    let cells = spans.cells(alloc)?;
    Ok(Grid::new(alloc, cells)?)
}
