//! Rows of items, one after another in one vector.

ghost use Rattle.std.specs.Prelude.{◌≡◌, ◌<◌, ◌++◌, ◌∷◌, [], length, get_or, IfOk, OnOk};

use std::alloc::{AllocError, Global};
use std::marker::Model;

/// Where the items of a row are.
#[derive(Clone, Copy)]
struct RowRange {
    /// Index of its first item.
    start: usize,
    /// Index after its last item.
    end: usize,
}

/// Rows of items, without an allocation for each row.
#[derive(Drop)]
pub struct RowList<T> {
    /// Items of all rows.
    items: Vec<T>,
    /// Where the items of each row are.
    ranges: Vec<RowRange>,
}

impl<T> Model for RowList<T> {
    ghost use Rattle.std.specs.Prelude.{List};
    ghost use Rattle.html_render_parts.specs.RowLists.{AreRanges, rows_in};

    ghost Value = { List (List T) };

    ghost view = { λ r. rows_in r.items.items r.ranges.items };

    ghost invariant = { λ r. AreRanges r.items.items r.ranges.items };
}

impl<T> RowList<T> {
    /// Creates a list of no rows, with room for `rows` rows and `items` items in all.
    pub(crate) fn with_capacity(
        alloc: Global,
        rows: usize,
        items: usize,
    ) -> Result<RowList<T>, AllocError>
        ensures { IfOk result (λ list. list ≡ []) }
    {
        let ranges = Vec::with_capacity(alloc, rows)?;
        let items = Vec::with_capacity(alloc, items)?;
        Ok(RowList { items, ranges })
    }

    /// Reserves memory for `items` items, if there is none yet.
    pub(crate) fn reserve_first(&mut self, items: usize) -> Result<(), AllocError>
        ensures { self.new ≡ self.old }
    {
        if self.items.capacity() == 0 {
            self.items.reserve_exact(items)?;
        }
        Ok(())
    }

    /// Returns the number of rows.
    pub fn len(&self) -> usize
        ensures { result ≡ length self.now }
    {
        self.ranges.len()
    }

    /// Returns the items of a row.
    #[tactic(auto, using(crate::proofs::RowLists::range_there, crate::proofs::RowLists::row_found))]
    pub fn row(&self, row: usize) -> &[T]
        requires { row < length self.now }
        ensures { result.now ≡ get_or self.now row result.now }
    {
        let range = self.ranges[row];
        &self.items[range.start..range.end]
    }
}

impl<T: Copy> RowList<T> {
    /// Appends a row of these items.
    #[tactic(auto, using(crate::proofs::RowLists::ranges_more, crate::proofs::RowLists::ranges_pushed, crate::proofs::RowLists::rows_pushed))]
    pub(crate) fn push(&mut self, items: &[T]) -> Result<(), AllocError>
        ensures { OnOk result (self.new ≡ self.old ++ items.now ∷ []) }
    {
        let start = self.items.len();
        self.items.extend_from_slice(items)?;
        let end = self.items.len();
        self.ranges.push(RowRange { start, end })?;
        Ok(())
    }
}
