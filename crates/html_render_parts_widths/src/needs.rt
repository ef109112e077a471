//! Widths that the columns of a table need for its cells.

ghost use Rattle.std.specs.Prelude.{◌≡◌, ◌<◌, ◌↔◌, ℕ, length, map, slice_index, slice_index_or, IfOk, IsTrue, OnOk};
ghost use Rattle.html_render_parts_widths.specs.Needs.{no_need, part, column_needs, AreSome, AreCells};

use super::shares::ColumnNeed;
use super::spans::{Span, put_greatest};
use std::alloc::{AllocError, Global};

/// Widths that a cell needs over its columns, in columns of text.
#[derive(Clone, Copy)]
pub struct CellNeed {
    /// Index of its first column.
    pub start: usize,
    /// Number of its columns.
    pub count: usize,
    /// Preferred width of its content.
    pub preferred_width: usize,
    /// Minimum width of its content.
    pub min_width: usize,
}

/// Replaces `parts` by the part of each cell's preferred width that each of its columns gets.
fn put_size_parts(parts: &mut Vec<Span>, cells: &[CellNeed]) -> Result<(), AllocError>
    requires { AreSome cells.now }
    ensures { OnOk result (parts.new.items ≡ map (λ c. part c c.preferred_width) cells.now) }
{
    parts.clear();
    parts.reserve_exact(cells.len())?;
    for cell in cells {
        parts.push(Span {
            start: cell.start,
            count: cell.count,
            value: cell.preferred_width / cell.count,
        })?;
    }
    Ok(())
}

/// Replaces `parts` by the part of each cell's minimum width that each of its columns gets.
fn put_least_parts(parts: &mut Vec<Span>, cells: &[CellNeed]) -> Result<(), AllocError>
    requires { AreSome cells.now }
    ensures { OnOk result (parts.new.items ≡ map (λ c. part c c.min_width) cells.now) }
{
    parts.clear();
    parts.reserve_exact(cells.len())?;
    for cell in cells {
        parts.push(Span {
            start: cell.start,
            count: cell.count,
            value: cell.min_width / cell.count,
        })?;
    }
    Ok(())
}

/// Memory for computing what the columns of a table need, reused from table to table.
#[derive(Drop)]
pub struct NeedsMemory {
    /// Parts of the cells' widths.
    parts: Vec<Span>,
    /// Preferred widths of the columns.
    sizes: Vec<usize>,
    /// Minimum widths of the columns.
    least: Vec<usize>,
}

impl NeedsMemory {
    /// Returns memory for the needs of columns, without an allocation.
    pub fn new(alloc: Global) -> NeedsMemory {
        NeedsMemory {
            parts: Vec::new(alloc),
            sizes: Vec::new(alloc),
            least: Vec::new(alloc),
        }
    }
}

/// Joins the preferred and the minimum widths of columns, column by column.
fn together(alloc: Global, sizes: &[usize], least: &[usize]) -> Result<Vec<ColumnNeed>, AllocError>
    requires { length least.now ≡ length sizes.now }
    ensures len { IfOk result (λ needs. length needs.items ≡ length sizes.now) }
    ensures each { IfOk result (λ needs. (k : ℕ) → k < length sizes.now → slice_index_or needs.items k no_need
        ≡ record { preferred_width = slice_index sizes.now k; min_width = slice_index least.now k; longest_word = 0 }) }
{
    let mut needs = Vec::with_capacity(alloc, sizes.len())?;
    for (at, size) in sizes.iter().enumerate() {
        needs.push(ColumnNeed {
            preferred_width: *size,
            min_width: least[at],
            longest_word: 0,
        })?;
    }
    Ok(needs)
}

/// Returns the preferred and the minimum width that each column needs for its cells.
///
/// A cell's preferred width and its minimum width are divided equally among its columns, and rounded down. A column needs
/// the greatest part of any cell that covers it, separately for preferred and for minimum widths; 0 without such a cell.
/// Words aren't measured: each column's longest word is 0. All widths are in columns of text. The caller ensures that each
/// cell has a column and that its columns are among the `columns` of the table.
///
/// # Errors
///
/// `AllocError` if an allocation is refused.
#[tactic(auto, using(crate::proofs::ColumnNeeds::are_some, crate::proofs::ColumnNeeds::sizes_over, crate::proofs::ColumnNeeds::least_over, crate::proofs::ColumnNeeds::needed))]
pub fn column_needs(
    alloc: Global,
    memory: &mut NeedsMemory,
    columns: usize,
    cells: &[CellNeed],
) -> Result<Vec<ColumnNeed>, AllocError>
    requires { AreCells columns cells.now }
    ensures { IfOk result (λ needs. needs.items ≡ column_needs columns cells.now) }
{
    let NeedsMemory {
        parts,
        sizes,
        least,
    } = memory;
    put_size_parts(parts, cells)?;
    put_greatest(sizes, columns, parts.as_slice())?;
    put_least_parts(parts, cells)?;
    put_greatest(least, columns, parts.as_slice())?;
    together(alloc, sizes.as_slice(), least.as_slice())
}
