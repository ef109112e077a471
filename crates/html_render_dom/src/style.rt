//! Computed styles: rules with declarations, and the cascade that decides between them.
//!
//! `computed_style(alloc, &rules, "p", &attrs)?` gives each property of a `p` with these attributes the value that
//! wins among the declarations of the rules that select it.
//!
//! Importance, origin and specificity decide as in CSS Cascading and Inheritance Level 3, section 6. Rules select elements
//! as in Selectors Level 3.

mod attributes;
mod computed;
mod index;

pub use computed::{ComputedStyle, ContentText, computed_style};
pub use html_render_dom_styles::{
    Declaration, Display, PseudoElement, Specificity, Style, StyleOrigin, StyleRule, WithSpec,
};
pub use html_render_dom_values::colours::Colour;
pub use html_render_dom_values::white_space::WhiteSpace;
pub use index::RuleIndex;
