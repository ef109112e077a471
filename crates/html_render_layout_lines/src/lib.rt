//! Elements of lines, words as text under runs of tags, and what a character is to the wrapping of text.
#![tactic(auto)]

pub mod character;
pub mod line;
pub mod tag;
