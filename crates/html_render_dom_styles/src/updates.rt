//! Updates of a property.

use super::origins::StyleOrigin;
use super::specificities::Specificity;

/// A declared value of a property, with the data that decide whether it wins.
#[derive(Drop)]
pub struct Update<T> {
    /// Whether the declaration is important.
    pub important: bool,
    /// Origin of the rule.
    pub origin: StyleOrigin,
    /// Specificity of the rule.
    pub specificity: Specificity,
    /// Declared value.
    pub value: T,
}
