//! Column widths of tables, cut fairly, and counts of a call's work.
//!
//! `column_widths(alloc, &[3, 3], &[9, 4], 10)` returns a [`ColumnCut`] with the widths 5 and 4, level 2 and 0 lowered
//! columns. docs/BEHAVIOUR.md has the rules under "Column widths".
//!
//! All counts of `Meter::default()` are 0. A metered call sets the fields that its documentation names, counted from 0, also
//! on an error. It leaves the other fields unchanged.
#![tactic(auto)]

mod check;
mod cut;
mod fit;
mod laws;
mod levels;
mod lowering;
mod needs;
mod shares;
mod spans;

pub use check::check_cut;
pub use cut::{ColumnCut, column_widths, column_widths_metered};
pub use fit::cut_fits;
pub use needs::{CellNeed, NeedsMemory, column_needs};
pub use shares::{ColumnNeed, WidthsMemory, stand_side_by_side, widths_across};
pub use spans::{Span, greatest_values};

/// Counts of the work of one call.
#[derive(Clone, Copy, Debug, Default, PartialEq, Eq)]
pub struct Meter {
    /// Sums taken in the search for a level.
    pub probes: usize,
    /// Nodes that a walk opened.
    pub entered: usize,
    /// Nodes that a walk finished: closed after their children, or opened without a visit of their children.
    pub left: usize,
    /// Greatest number of nodes open at once.
    pub frames: usize,
}
