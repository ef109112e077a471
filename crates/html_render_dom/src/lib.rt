//! The document object model (DOM), from which render trees are converted, the computed styles of its elements, and documents
//! that scripts and steps build.
#![tactic(auto)]

pub mod dom;
pub mod faults;
pub mod script;
pub mod steps;
pub mod style;

pub use html_render_dom_values::{Error, text};
