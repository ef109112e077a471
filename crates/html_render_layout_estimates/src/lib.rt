//! Minimum and preferred width of each node of a render tree, and the settings of measuring and layout.
#![tactic(auto)]

pub mod cells;
pub mod estimate;
mod laws;
pub mod settings;
mod sized;
pub mod text;
mod trees;
mod whole_words;
pub mod words;
