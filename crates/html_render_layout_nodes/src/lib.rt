//! Render trees as one vector of nodes in pre-order, texts of nodes, and the open nodes of a walk over a tree.
#![tactic(auto)]

pub mod frames;
pub mod text;
pub mod tree;
