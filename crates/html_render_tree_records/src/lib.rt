//! Documents, settings and lines as records, as callers in other languages pass them and read them.
//!
//! A step is a call on a document, a setting a call of a configuration, both as numbers over one buffer of text. All numbers
//! are tested, and those without a meaning are refused. A result is a text or records of lines, as bytes.
#![tactic(auto)]

pub mod faults;
mod lines;
pub mod rendering;
mod rules;
pub mod settings;

pub use html_render_dom::steps::{building, step};
