//! Documents that scripts build: texts whose lines are calls on a DOM.
//!
//! `built(alloc, "<p\n\"text")?` is the DOM of a paragraph that holds `text`.

mod building;
mod escapes;
mod splits;

pub use building::{ScriptError, built};
