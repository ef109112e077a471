//! Calls by their names, as cases write them, with numbers for nodes, spans and columns; and what reports calls.
//!
//! `cuts::answer(alloc, "cut_fits", "3 3 / 9 4 / 10", watch)?` returns the line of a result.
#![tactic(auto)]

pub mod annotations;
pub mod cuts;
pub mod decorators;
pub mod documents;
pub mod elements;
pub mod faults;
pub mod grids;
pub mod rules;
pub mod styles;
pub mod texts;
pub mod values;
pub mod watch;
