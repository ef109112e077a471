//! Pictures of tables whose cells stand side by side.
#![tactic(auto)]

mod blank;
mod border;
pub mod borders;
pub mod cells;
pub mod gaps;
mod laws;
pub mod picture;
mod plain;
mod row;
