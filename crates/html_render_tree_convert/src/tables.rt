//! What the elements of tables are, as HTML has them.

/// A part of a table, as an element of HTML makes it.
#[derive(Clone, Copy)]
pub enum Part {
    /// A table: of `table`.
    Table,
    /// Rows: of `thead`, `tbody` and `tfoot`.
    Body,
    /// A row: of `tr`.
    Row,
    /// A cell, and what it spans: of `td` and `th`.
    Cell(CellSpan),
    /// The text above a table: of `caption`.
    Caption,
}

/// What a cell asks for.
#[derive(Clone, Copy)]
pub struct CellSpan {
    /// How many columns: 0 means as many as its row has left, in its part of the table.
    pub colspan: usize,
    /// How many rows, its own included: at least 1.
    pub rowspan: usize,
}
