//! Texts of nodes.
//!
//! A short text is stored in its node, so that most texts of a document need no allocation.

use html_render_dom_values::small_text::SmallText;

/// Text of a node. Up to 30 bytes are stored in the node, without an allocation.
pub type NodeText = SmallText<30>;
