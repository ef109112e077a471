//! Simple rows: no cell hangs into such a row, and none of its own hangs into the next one. So its places are its own cells,
//! side by side from position 0 on, and need no placement.

ghost use Rattle.std.specs.Prelude.{◌≡◌, ◌↔◌, ◌+◌, ◌^◌, ◌≤◌, ◌<◌, [], true, All, length, map, IsTrue, IfErr, OnOk};
ghost use Rattle.std.specs.List.Sorted.{IsStrictlyIncreasing};
ghost use Rattle.html_render_parts.specs.Placement.{row_from};
ghost use Rattle.html_render_parts.specs.PlacementSteps.{row_fits, row_told};
ghost use Rattle.html_render_parts.specs.SimpleRows.{cells_from, fitting_row, place_on};
ghost use Rattle.html_render_parts.specs.OwnCells.{cell_at};
ghost use Rattle.html_render_parts.specs.Refusal.{Fails};

use crate::table::cells::GridCell;
use crate::table::{CellKind, PlacedCell, Span, numbering};
use html_render_dom_values::Error;
use std::alloc::AllocError;

/// Reports whether no cell with these spans hangs into the next row.
pub(crate) fn spans_end(cells: &[Span]) -> bool
    ensures { IsTrue result ↔ All (λ s. s.rowspan ≤ 1) cells.now }
{
    cells.iter().all(|span| span.rowspan <= 1)
}

/// Reports whether none of these cells hangs into the next row.
pub(crate) fn cells_end(cells: &[GridCell]) -> bool
    ensures { IsTrue result ↔ All (λ c. c.rowspan ≤ 1) cells.now }
{
    cells.iter().all(|cell| cell.rowspan <= 1)
}

/// Replaces `ends` by the ends of cells with these spans, side by side from position 0 on. `Fail` if one would be past
/// `u128::MAX`.
pub(crate) fn put_ends(ends: &mut Vec<u128>, cells: &[Span]) -> Result<(), Error>
    ensures ends { OnOk result (ends.new.items ≡ row_told 0 [] cells.now) }
    ensures fits { OnOk result (row_fits (row_from 0 [] cells.now) ≡ true) }
    ensures err { IfErr result (λ e. Fails e (fitting_row (row_from 0 [] cells.now))) }
{
    ends.clear();
    let mut cursor: u128 = 0;
    for span in cells {
        match cursor.checked_add(span.colspan) {
            Some(end) => cursor = end,
            None => return Err(Error::Fail),
        }
        ends.push(cursor)?;
    }
    Ok(())
}

/// Returns a cell at a column on the columns of its grid. `guess` is the expected first column: it saves a search if it is
/// right.
pub(crate) fn cell_at(edges: &[u128], column: u128, span: &Span, guess: usize) -> GridCell
    requires rising { IsStrictlyIncreasing edges.now }
    requires fits { column + span.now.colspan < 2 ^ 128 }
    ensures { result ≡ cell_at edges.now column span.now }
{
    let first = numbering::rank_near(edges, column, guess);
    let end = numbering::rank_near(edges, column + span.colspan, first.saturating_add(1));
    GridCell {
        rowspan: span.rowspan,
        first,
        columns: end - first,
    }
}

/// Replaces `row` by cells with these spans, side by side from position 0 on, on the columns of their grid.
pub(crate) fn put_cells(
    row: &mut Vec<GridCell>,
    edges: &[u128],
    cells: &[Span],
) -> Result<(), AllocError>
    requires rising { IsStrictlyIncreasing edges.now }
    requires fits { All (λ n. n < 2 ^ 128) (row_told 0 [] cells.now) }
    ensures { OnOk result (row.new.items ≡ cells_from edges.now 0 cells.now) }
{
    row.clear();
    let mut cursor: u128 = 0;
    let mut behind: usize = 0;
    for span in cells {
        let cell = cell_at(edges, cursor, span, behind);
        cursor += span.colspan;
        behind = cell.first.saturating_add(cell.columns);
        row.push(cell)?;
    }
    Ok(())
}

/// Replaces `places` by the places of these cells, if they are side by side from position 0 on.
pub(crate) fn put_places(
    places: &mut Vec<PlacedCell>,
    edges: &[u128],
    cells: &[GridCell],
) -> Result<(), AllocError>
    requires { All (λ c. c.first + c.columns < length edges.now) cells.now }
    ensures { OnOk result (places.new.items ≡ map (place_on edges.now) cells.now) }
{
    places.clear();
    for cell in cells {
        places.push(PlacedCell {
            kind: CellKind::Cell,
            start: edges[cell.first],
            end: edges[cell.first + cell.columns],
            columns: cell.columns,
        })?;
    }
    Ok(())
}
