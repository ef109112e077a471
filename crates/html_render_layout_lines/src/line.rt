//! What lines hold: tagged characters and marks.
//!
//! A [`TaggedText`] holds them as text under runs of tags.

mod columns;
mod tagged_text;

pub use columns::{counted_on, text_columns};
pub use tagged_text::{Run, TaggedText, TextParts, style_tag};

/// What a line holds.
#[derive(Clone, Copy)]
pub enum Element<T, M> {
    /// A character with its tag.
    Character(char, T),
    /// A mark, which takes no column.
    Mark(M),
}
