//! The lines of a layout, and lines of tagged strings, the caller's view of them.
//!
//! - [`LaidOut`](laid_out::LaidOut) is the result of a layout: lines whose characters have indices into
//!   [`Stacks`](stacks::Stacks) as tags.
//! - [`tagged_lines`](grouping::tagged_lines) groups their characters into [`TaggedLine`](line::TaggedLine)s.
//! - [`coloured`](colours::coloured) writes tagged lines as text under a colour map.
#![tactic(auto)]

pub mod colours;
pub mod grouping;
pub mod laid_out;
mod laws;
pub mod line;
pub mod stacks;
