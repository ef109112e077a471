//! Positions of a table's cells in its rows, before the edges are numbered.

ghost use Rattle.std.specs.Prelude.{◌≡◌, ◌↔◌, ◌≤◌, ◌∷◌, nat_lt, [], Some, filter, IsTrue, IfOk, OnOk, IfErr, MatchBool, MatchOption, Contains, All};
ghost use Rattle.html_render_parts.specs.Placement.{bottom_rows, end_of, lists, not_due, placed_rows};
ghost use Rattle.html_render_parts.specs.Positions.{hangs_into};
ghost use Rattle.html_render_parts.specs.PlacementSteps.{empty_row, put, put_to, telling_end, owning, keeping, with_hanging, with_due, with_own};
ghost use Rattle.html_render_parts.specs.PlacementSteps.{with_gap, with_rest, with_row, nothing_placed, with_next_row, IsNextBottom, fitting_positions};
ghost use Rattle.html_render_parts.specs.Refusal.{Builds, Fails, Makes};

use crate::table::{CellKind, Span};
use html_render_dom_values::Error;
use std::alloc::{AllocError, Global};
use std::marker::Model;
use std::mem;

/// Cell of the table with its own row and its own column.
#[derive(Clone, Copy)]
pub(crate) struct PositionedCell {
    /// Own row, from 0.
    row: usize,
    /// Own column: the position at which the cell begins in its own row.
    pub column: u128,
    /// Columns and rows that the cell spans.
    pub span: Span,
}

/// Place in a row: that of a cell, a placeholder or a gap.
#[derive(Clone, Copy)]
pub(crate) struct Place {
    /// Content of the place.
    pub kind: CellKind,
    /// Position of the start.
    pub start: u128,
    /// Position of the end, which isn't part of the place.
    pub end: u128,
}

impl PositionedCell {
    /// Whether the cell's last row is `row` or below it.
    fn hangs_into(&self, row: u128) -> bool
        ensures { result ≡ hangs_into row self.now }
    {
        let own = self.row as u128;
        row < own || row - own < self.span.rowspan
    }

    /// Whether the cell's last row is above that of `other`.
    fn ends_before(&self, other: &PositionedCell) -> bool
        ensures { result ≡ nat_lt (end_of self.now) (end_of other.now) }
    {
        if self.row <= other.row {
            let below = (other.row - self.row) as u128;
            self.span.rowspan < below || self.span.rowspan - below < other.span.rowspan
        } else {
            let below = (self.row - other.row) as u128;
            below < other.span.rowspan && self.span.rowspan < other.span.rowspan - below
        }
    }
}

/// Row under construction, from the left.
#[derive(Drop)]
struct RowBuilder {
    /// Places so far.
    places: Vec<Place>,
    /// The row's own cells so far.
    own: Vec<PositionedCell>,
    /// Ends of the own cells and of the displaced placeholders so far. Each other end is an edge of a cell above.
    told: Vec<u128>,
    /// Cells so far that hang into the next row, in the order in which they were placed.
    kept: Vec<PositionedCell>,
    /// Position at which the next place begins.
    cursor: u128,
}

impl Model for RowBuilder {
    ghost use Rattle.html_render_parts.specs.PlacementSteps.{RowSoFar};

    ghost Value = { RowSoFar };

    ghost view = { λ l. record {
      places = l.places.items;
      own = l.own.items;
      told = l.told.items;
      kept = l.kept.items;
      cursor = l.cursor;
    } };
}

impl RowBuilder {
    /// Returns a row without places.
    fn new(alloc: Global) -> RowBuilder
        ensures { result ≡ empty_row }
    {
        RowBuilder {
            places: Vec::new(alloc),
            own: Vec::new(alloc),
            told: Vec::new(alloc),
            kept: Vec::new(alloc),
            cursor: 0,
        }
    }

    /// Empties the row, and keeps its buffers.
    fn clear(&mut self)
        ensures { self.new ≡ empty_row }
    {
        self.places.clear();
        self.own.clear();
        self.told.clear();
        self.kept.clear();
        self.cursor = 0;
    }

    /// Returns the position at which the next place begins.
    fn cursor(&self) -> u128
        ensures { result ≡ self.now.cursor }
    {
        self.cursor
    }

    /// Returns the places so far.
    fn places(&self) -> &[Place]
        ensures { result.now ≡ self.now.places }
    {
        &self.places
    }

    /// Returns the row's own cells so far.
    fn own(&self) -> &[PositionedCell]
        ensures { result.now ≡ self.now.own }
    {
        &self.own
    }

    /// Returns the ends that were recorded so far.
    fn told(&self) -> &[u128]
        ensures { result.now ≡ self.now.told }
    {
        &self.told
    }

    /// Appends a place from the cursor to `end`.
    fn put_to(&mut self, kind: CellKind, end: u128) -> Result<(), Error>
        ensures { Makes result (put_to kind end self.old) self.new }
    {
        let start = self.cursor;
        self.places.push(Place { kind, start, end })?;
        self.cursor = end;
        Ok(())
    }

    /// Appends a place of `columns` columns at the cursor. `Fail` if it would end past `u128::MAX`.
    fn put(&mut self, kind: CellKind, columns: u128) -> Result<(), Error>
        ensures { Makes result (put kind columns self.old) self.new }
    {
        match self.cursor().checked_add(columns) {
            Some(end) => self.put_to(kind, end),
            None => Err(Error::Fail),
        }
    }

    /// Records the end of the last place.
    fn tell_end(&mut self) -> Result<(), AllocError>
        ensures { OnOk result (self.new ≡ telling_end self.old) }
    {
        let end = self.cursor;
        self.told.push(end)?;
        Ok(())
    }

    /// Keeps a cell, placed in the row `row`, if it hangs into the next one.
    fn keep(&mut self, row: usize, cell: PositionedCell) -> Result<(), AllocError>
        ensures { OnOk result (self.new ≡ keeping row (cell ∷ []) self.old) }
    {
        if cell.hangs_into(row as u128 + 1) {
            self.kept.push(cell)?;
        }
        Ok(())
    }

    /// Keeps those of the cells, placed in the row `row`, that hang into the next one.
    fn keep_all(&mut self, row: usize, cells: &[PositionedCell]) -> Result<(), AllocError>
        ensures { OnOk result (self.new ≡ keeping row cells.now self.old) }
    {
        for cell in cells {
            self.keep(row, *cell)?;
        }
        Ok(())
    }

    /// Adds a cell to the row's own.
    fn take_own(&mut self, cell: PositionedCell) -> Result<(), AllocError>
        ensures { OnOk result (self.new ≡ owning cell self.old) }
    {
        self.own.push(cell)?;
        Ok(())
    }

    /// Places the placeholder of a hanging cell at the cursor. If that is past the cell's own column, records the end.
    fn put_hanging(&mut self, cell: PositionedCell) -> Result<(), Error>
        ensures { Makes result (with_hanging cell self.old) self.new }
    {
        let displaced = cell.column < self.cursor();
        self.put(CellKind::Placeholder, cell.span.colspan)?;
        if displaced {
            self.tell_end()?;
        }
        Ok(())
    }

    /// Places one of the row's own cells at the cursor.
    #[tactic(auto, using(crate::proofs::HangingOrder::ends_here))]
    fn put_own(&mut self, row: usize, span: Span) -> Result<(), Error>
        ensures { Makes result (with_own row span self.old) self.new }
    {
        let column = self.cursor();
        let cell = PositionedCell { row, column, span };
        self.put(CellKind::Cell, span.colspan)?;
        self.tell_end()?;
        self.take_own(cell)?;
        if span.rowspan <= 1 {
            return Ok(());
        }
        Ok(self.keep(row, cell)?)
    }

    /// Places a gap up to a column, if the cursor isn't there yet.
    fn put_gap(&mut self, column: u128) -> Result<(), Error>
        ensures { Makes result (with_gap column self.old) self.new }
    {
        if self.cursor() < column {
            self.put_to(CellKind::Gap, column)?;
        }
        Ok(())
    }

    /// Places the placeholders that are due, those of hanging cells whose own column is at most the cursor. Returns the
    /// cells that aren't due yet.
    fn put_due<'a>(
        &mut self,
        row: usize,
        hanging: &'a [PositionedCell],
    ) -> Result<&'a [PositionedCell], Error>
        ensures placed { Makes result (with_due row hanging.now self.old) self.new }
        ensures rest { IfOk result (λ rest. rest.now ≡ not_due self.old.cursor hanging.now) }
    {
        for (i, cell) in hanging.iter().enumerate() {
            if self.cursor() < cell.column {
                return Ok(&hanging[i..]);
            }
            self.put_hanging(*cell)?;
            self.keep(row, *cell)?;
        }
        Ok(&hanging[hanging.len()..])
    }

    /// Places the placeholders after the row's own cells, each at the greater of the cursor and its cell's own column, after
    /// a gap if there is room.
    fn put_rest(&mut self, hanging: &[PositionedCell]) -> Result<(), Error>
        ensures { Makes result (with_rest hanging.now self.old) self.new }
    {
        for cell in hanging {
            self.put_gap(cell.column)?;
            self.put_hanging(*cell)?;
        }
        Ok(())
    }

    /// Places a row's own cells and those that hang into it.
    #[tactic(auto, using(crate::specs::laws::Refusal::refusals))]
    fn put_row(
        &mut self,
        row: usize,
        cells: &[Span],
        hanging: &[PositionedCell],
    ) -> Result<(), Error>
        ensures { Makes result (with_row row cells.now hanging.now self.old) self.new }
    {
        let mut rest = hanging;
        for span in cells {
            rest = self.put_due(row, rest)?;
            self.put_own(row, *span)?;
        }
        self.put_rest(rest)?;
        Ok(self.keep_all(row, rest)?)
    }

    /// Exchanges the kept cells for others.
    fn swap_kept(&mut self, cells: &mut Vec<PositionedCell>)
        ensures kept { self.new ≡ record self.old { kept = cells.old.items } }
        ensures cells { cells.new.items ≡ self.old.kept }
    {
        mem::swap(&mut self.kept, cells);
    }
}

/// Returns a cell that ends first; `None` if there are no cells.
fn first_to_end(hanging: &[PositionedCell]) -> Option<PositionedCell>
    ensures { MatchOption result (hanging.now ≡ []) (λ first. Contains hanging.now first × All (λ c. end_of first ≤ end_of c) hanging.now) }
{
    let mut first = *hanging.first()?;
    for cell in hanging {
        if cell.ends_before(&first) {
            first = *cell;
        }
    }
    Some(first)
}

/// Removes all cells but those that end after `first`.
fn keep_later(cells: &mut Vec<PositionedCell>, first: PositionedCell)
    ensures { cells.new.items ≡ filter (λ c. nat_lt (end_of first) (end_of c)) cells.old.items }
{
    cells.retain(|cell| first.ends_before(cell));
}

/// Placement of a table's rows, one after another: the last placed row, and the cells that hang into the next one. Its
/// buffers are reused for each row.
#[derive(Drop)]
pub(crate) struct RowPlacer {
    /// Last placed row.
    last: RowBuilder,
    /// Cells that hang into the next row, in order of own column.
    hanging: Vec<PositionedCell>,
}

impl Model for RowPlacer {
    ghost use Rattle.html_render_parts.specs.PlacementSteps.{IsByColumn, Placing};

    ghost Value = { Placing };

    ghost view = { λ p. record {
      places = p.last.places;
      own = p.last.own;
      told = p.last.told;
      hanging = p.hanging.items;
    } };

    ghost invariant = { λ p. IsByColumn p.hanging.items };
}

impl RowPlacer {
    /// Returns a placement without rows.
    pub(crate) fn new(alloc: Global) -> RowPlacer
        ensures { result ≡ nothing_placed }
    {
        RowPlacer {
            last: RowBuilder::new(alloc),
            hanging: Vec::new(alloc),
        }
    }

    /// Returns the places of the last row.
    pub(crate) fn places(&self) -> &[Place]
        ensures { result.now ≡ self.now.places }
    {
        self.last.places()
    }

    /// Returns the last row's own cells, without those that hang into it.
    pub(crate) fn own(&self) -> &[PositionedCell]
        ensures { result.now ≡ self.now.own }
    {
        self.last.own()
    }

    /// Returns the ends of the last row's own cells and displaced placeholders. Each other end is an edge of a cell above.
    pub(crate) fn told(&self) -> &[u128]
        ensures { result.now ≡ self.now.told }
    {
        self.last.told()
    }

    /// Whether no cell hangs into the next row.
    pub(crate) fn hangs_nothing(&self) -> bool
        ensures { IsTrue result ↔ (self.now.hanging ≡ []) }
    {
        self.hanging.is_empty()
    }

    /// Places the next row, `row`, with these own cells. On an error the hanging cells are unchanged.
    pub(crate) fn place_row(&mut self, row: usize, cells: &[Span]) -> Result<(), Error>
        ensures placed { Makes result (with_next_row row cells.now self.old) self.new }
        ensures hanging { IfErr result (λ e. self.new.hanging ≡ self.old.hanging) }
    {
        self.last.clear();
        self.last.put_row(row, cells, &self.hanging)?;
        self.last.swap_kept(&mut self.hanging);
        Ok(())
    }

    /// Places the next row below the table's last one, and returns whether there is one. On an error the hanging cells are
    /// unchanged.
    pub(crate) fn place_bottom_row(&mut self) -> Result<bool, Error>
        ensures ok { IfOk result (λ placed. MatchBool placed (IsNextBottom self.old self.new) ((self.old.hanging ≡ []) × (self.new ≡ self.old))) }
        ensures err { IfErr result (λ e. Fails e (fitting_positions (bottom_rows self.old.hanging))) }
        ensures hanging { IfErr result (λ e. self.new.hanging ≡ self.old.hanging) }
    {
        let Some(first) = first_to_end(&self.hanging) else {
            return Ok(false);
        };
        self.last.clear();
        self.last.put_rest(&self.hanging)?;
        keep_later(&mut self.hanging, first);
        Ok(true)
    }
}

/// Returns the places of all rows of a table, and of the rows below the last one. `Fail` if one would end past `u128::MAX`.
pub(crate) fn place_rows(alloc: Global, rows: &[Vec<Span>]) -> Result<Vec<Vec<Place>>, Error>
    ensures { Builds result (fitting_positions (placed_rows (lists rows.now))) (λ all. lists all.items) }
{
    let mut placed = Vec::new(alloc);
    let mut placer = RowPlacer::new(alloc);
    for (row, cells) in rows.iter().enumerate() {
        placer.place_row(row, cells)?;
        placed.push(Vec::from_slice(alloc, placer.places())?)?;
    }
    'bottom: while placer.place_bottom_row()? {
        placed.push(Vec::from_slice(alloc, placer.places())?)?;
    }
    Ok(placed)
}
