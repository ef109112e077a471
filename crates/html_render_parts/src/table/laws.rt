//! Laws of the grid of a table. Each is the contract of an empty function.

ghost use Rattle.std.specs.Prelude.{◌≡◌, ◌↔◌, ◌⊎◌, ◌&&◌, ◌+◌, ◌<◌, ◌≤◌, ℕ, Bool, List, [], Some, All, Any, Contains, length, map, take, drop, count_by, option_map, slice_index_or, sum_by};
ghost use Rattle.std.specs.List.Sorted.{IsStrictlyIncreasing};
ghost use Rattle.html_render_parts.specs.Placement.{bottom_rows, hanging, own_from, placed_rows, row_from};
ghost use Rattle.html_render_parts.specs.Positions.{hangs_into};
ghost use Rattle.html_render_parts.specs.PlacementSteps.{IsByColumn};
ghost use Rattle.html_render_parts.specs.Grid.{AreSideBySide, grid_of, IsLeastNumbering, IsNumbering, rank};
ghost use Rattle.html_render_parts.specs.TableCells.{CellGrid, IsCellGrid, cell_grid_of, columns_of, rows_on, spans_on};
ghost use Rattle.html_render_parts.specs.CellsInRows.{cells_in, columns_taken};
ghost use Rattle.html_render_parts.specs.CellsAbove.{cells_above, own_rows};

use super::Span;
use super::placement::PositionedCell;

/// States that the cells of a table on the columns of its grid agree with the grid:
///
/// - They have its edges, and are refused exactly if the grid is.
/// - The places of their rows are those of the grid.
/// - Each cell begins and ends at the numbers of its edges. The rows below the last one have none.
fn cells_are_those_of_the_grid()
    ensures grid { (rows : List (List Span)) → grid_of rows ≡ option_map (λ g. (g.edges, rows_on g)) (cell_grid_of rows) }
    ensures tables { (g : CellGrid) → IsCellGrid g → grid_of (spans_on g) ≡ Some (g.edges, rows_on g) }
    ensures spans { (rows : List (List Span)) (g : CellGrid) → cell_grid_of rows ≡ Some g → spans_on g ≡ rows }
    ensures cells { (rows : List (List Span)) (g : CellGrid) → cell_grid_of rows ≡ Some g
        → map columns_taken g.rows ≡ map (cells_in g.edges) (take (length rows) (rows_on g)) }
    ensures below { (rows : List (List Span)) (g : CellGrid) → cell_grid_of rows ≡ Some g
        → All (λ places. cells_in g.edges places ≡ []) (drop (length rows) (rows_on g)) }
{}

/// States that the edges of a table's cells are 0 and the ends of all places in its rows, rising; and that their numbers are
/// in this order, and no numbering in this order has a smaller number for any edge.
fn cells_have_the_least_numbering()
    ensures edges { (rows : List (List Span)) (g : CellGrid) → cell_grid_of rows ≡ Some g → (e : ℕ) → Contains g.edges e
        ↔ ((e ≡ 0) ⊎ Any (λ places. Any (λ p. p.end ≡ e) places) (rows_on g)) }
    ensures rising { (rows : List (List Span)) (g : CellGrid) → cell_grid_of rows ≡ Some g → IsStrictlyIncreasing g.edges }
    ensures numbering { (rows : List (List Span)) (g : CellGrid) → cell_grid_of rows ≡ Some g → IsNumbering g.edges (rank g.edges) }
    ensures least { (rows : List (List Span)) (g : CellGrid) → cell_grid_of rows ≡ Some g → IsLeastNumbering g.edges (rank g.edges) }
{}

/// States that the places of each row of a table are side by side from 0 on, that each has a column, and that those of a row
/// have together no more columns than the table.
fn rows_of_cells_are_side_by_side()
    ensures side_by_side { (g : CellGrid) → IsCellGrid g → All (AreSideBySide 0) (rows_on g) }
    ensures columns { (g : CellGrid) → IsCellGrid g → All (λ places. All (λ p. 1 ≤ p.columns) places) (rows_on g) }
    ensures in_table { (g : CellGrid) → IsCellGrid g → All (λ places. sum_by (λ p. p.columns) places ≤ columns_of g) (rows_on g) }
{}

/// States that the cells that hang into a row are all cells of the rows above it whose own row and rowspan have a sum above
/// its number, each as often as it is there, in order of own column.
fn cells_hang_from_all_rows_above()
    ensures rows { (rows : List (List Span)) (row : ℕ) → row < length rows
        → slice_index_or (placed_rows rows) row [] ≡ row_from 0 (hanging row (cells_above row rows)) (slice_index_or rows row []) }
    ensures own { (rows : List (List Span)) (row : ℕ) → row < length rows
        → slice_index_or (own_rows rows) row [] ≡ own_from row 0 (hanging row (cells_above row rows)) (slice_index_or rows row []) }
    ensures bottom { (rows : List (List Span))
        → drop (length rows) (placed_rows rows) ≡ bottom_rows (hanging (length rows) (cells_above (length rows) rows)) }
    ensures above { (rows : List (List Span)) (row : ℕ) → All (λ c. c.row < row) (cells_above row rows) }
    ensures all { (row : ℕ) (above : List PositionedCell) (c : PositionedCell)
        → Contains (hanging row above) c ↔ (Contains above c × (row < c.row + c.span.rowspan)) }
    ensures each { (row : ℕ) (above : List PositionedCell) (is : PositionedCell → Bool)
        → count_by is (hanging row above) ≡ count_by (λ c. hangs_into row c && is c) above }
    ensures ordered { (row : ℕ) (above : List PositionedCell) → IsByColumn (hanging row above) }
{}
