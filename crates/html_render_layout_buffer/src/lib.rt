//! Lines in few buffers: line by line they take no memory of their own.
//!
//! - [`LineBuffer`](buffer::LineBuffer) holds ended lines and an open one in one text.
//! - [`FinishedLines`](finished::FinishedLines) holds ended lines alone, in one buffer or in several.
//! - [`NestedLines`](nested::NestedLines) holds the lines of blocks in blocks, each after the prefixes of all open blocks.
#![tactic(auto)]

pub mod buffer;
mod ends;
pub mod finished;
pub mod nested;
pub mod prefix;
mod runs;
mod slot;
