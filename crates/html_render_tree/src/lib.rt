//! Documents as wrapped text: a DOM, which calls build, becomes a render tree, and that becomes lines.
//!
//! `config::plain_no_decorate(alloc)` renders plain text: its `dom_to_render_tree(alloc, &dom)?` is the render tree of the
//! DOM `dom`, and `render_to_string(alloc, tree, 80)?` is the text of that in 80 columns.
#![tactic(auto)]

pub mod config;
pub mod htree;
mod laws;
mod texts;

pub use html_render_dom::{Error, dom, style, text};
pub use html_render_layout::{block, tree};
pub use html_render_parts::{decorate, widths};

/// The grid of a table.
pub mod table {
    pub use html_render_parts::table::{
        CellKind, PlacedCell, Span, TableGrid, spans_are_valid, table_grid,
    };
}

/// Documents that scripts build. Each line of a script is a call on a DOM.
pub mod script {
    pub use html_render_dom::script::{ScriptError, built};
}
