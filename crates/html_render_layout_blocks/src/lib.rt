//! Blocks: finished lines, and an open paragraph that receives texts.
#![tactic(auto)]

pub mod block;
pub mod held;
mod laws;
