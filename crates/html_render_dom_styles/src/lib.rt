//! Style rules, the elements that they select, as in Selectors Level 3, and the cascade for one property: the winner among
//! its updates, by importance, origin and specificity, as in CSS Cascading and Inheritance Level 3, section 6.
#![tactic(auto)]

mod laws;
mod origins;
mod rules;
mod selectors;
mod specificities;
mod updates;
mod winners;

pub use origins::StyleOrigin;
pub use rules::{Declaration, Display, PseudoElement, Style, StyleRule};
pub use specificities::Specificity;
pub use winners::WithSpec;
