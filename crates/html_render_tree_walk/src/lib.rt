//! The walk that a conversion follows over a document: each node, and where the children of an element end. Of a table, captions
//! come first, then all other children but feet, then feet, wherever they are in the document.
#![tactic(auto)]

pub mod cursor;
