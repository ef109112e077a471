//! Parts of a page: decorators, column widths, and the grid of a table.
#![tactic(auto)]

pub mod decorate;
pub mod table;

/// Column widths, cut fairly, and the meter of metered calls.
pub mod widths {
    pub use html_render_parts_widths::{
        ColumnCut, Meter, check_cut, column_widths, column_widths_metered, cut_fits,
    };
}
