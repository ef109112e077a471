//! Documents that steps build: calls on a document as records of numbers over one text.

pub mod building;
mod laws;
pub mod pieces;
pub mod step;
