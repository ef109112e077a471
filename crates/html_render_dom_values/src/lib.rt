//! Values that all crates above share: errors, texts that are compared by their bytes, colours, the treatment of white
//! space, and the test whether columns fit a width.
//!
//! The `specs/` define finite forests, the values of documents and render trees, and how an error relates to a definition.
#![tactic(auto)]

pub mod colours;
mod errors;
mod inline_text;
mod laws;
pub mod room;
pub mod small_text;
pub mod text;
pub mod white_space;

pub use errors::Error;
