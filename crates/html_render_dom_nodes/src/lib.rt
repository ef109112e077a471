//! The nodes of a document: their data, the vector of nodes, and single edits and moves in it.
#![tactic(auto)]

mod attributes;
mod contents;
mod flags;
mod handles;
mod laws;
pub mod lists;
mod local_name;
mod names;
pub mod nodes;

pub use attributes::Attributes;
pub use contents::{DoctypeParts, NodeData, NodeOrText, TextContents};
pub use flags::ElementFlags;
pub use handles::{Handle, OptionalHandle};
pub use local_name::LocalName;
pub use names::{Attribute, AttributeValue, Namespace, QualName, is_same_name};
