//! The conversion of a document: what a node becomes without its children, the definition of the whole render tree, and one
//! forward pass that writes it: the events of a walk, and what each does to the open elements.
#![tactic(auto)]

mod attributes;
mod builder;
mod conversion;
pub mod convert;
mod due;
pub mod elements;
mod images;
mod kinds;
mod laws;
pub mod mapping;
pub mod plans;
mod spans;
pub mod tables;
