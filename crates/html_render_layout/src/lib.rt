//! Layout of a render tree: the effect of each node on the block that it is laid out into.
#![tactic(auto)]

mod bullet;
mod items;
mod nesting;
mod spaces;
mod state;
mod styles;
mod tagging;
pub mod walk;
mod working;

pub use html_render_layout_estimates::estimate;

/// Types of tagged lines.
pub mod block {
    pub use html_render_layout_tagged::line::{
        LineElements, TaggedLine, TaggedLineElement, TaggedString, TaggedStrings,
    };
}

/// The render tree, which a document becomes before it is wrapped.
pub mod tree {
    pub use html_render_layout_nodes::tree::RenderTree;
}
