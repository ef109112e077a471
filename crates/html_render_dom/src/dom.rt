//! The document object model (DOM): numbered nodes, each with its data, its parent and its children in order.
//!
//! [`RcDom`] is an arena that owns the nodes. A [`Handle`] is the number of one of them;
//! `RcDom::new(alloc)?.get_document()` is node 0, the document.

mod documents;
mod dump;
mod edits;
mod moves;
mod paths;
mod queries;
mod settings;

pub use documents::RcDom;
pub use html_render_dom_nodes::{
    Attribute, AttributeValue, Attributes, DoctypeParts, ElementFlags, Handle, LocalName,
    Namespace, NodeData, NodeOrText, OptionalHandle, QualName, TextContents,
};
pub use settings::QuirksMode;
