//! Wrapping of texts and marks into lines.
//!
//! A [`Paragraph`](paragraph::Paragraph) is fed texts and marks. Its `flush` appends the lines to finished lines.
#![tactic(auto)]

mod laws;
pub mod paragraph;
mod word;
