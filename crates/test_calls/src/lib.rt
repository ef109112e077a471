//! Tests of facts that neither a rendered text nor a contract states:
//!
//! - Deep documents need no deep stack.
//! - Cuts of many columns take little work.
//! - After each of 20,000 moves of nodes, the lists of children equal those of a plain vector.
//!
//! Facts that a text shows are cases of `test_cases`.
//!
//! This crate has no public items.
#![tactic(auto)]

#[cfg(test)]
mod cuts;
#[cfg(test)]
mod deep;
#[cfg(test)]
mod moves;
