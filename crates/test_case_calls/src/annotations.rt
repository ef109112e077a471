//! Annotations as cases print them.

use html_render_parts::decorate::RichAnnotation;
use std::alloc::{AllocError, Global};

/// An annotation that a case can print.
pub trait Shown: Drop {
    /// Returns the name of the annotation, with its value in parentheses.
    fn shown(&self, alloc: Global) -> Result<String, AllocError>;
}

impl Shown for () {
    fn shown(&self, alloc: Global) -> Result<String, AllocError> {
        String::from_str(alloc, "()")
    }
}

impl Shown for RichAnnotation {
    fn shown(&self, alloc: Global) -> Result<String, AllocError> {
        match self {
            RichAnnotation::Link(target) => format!(in alloc; "Link({})", target.as_str()),
            RichAnnotation::Image(source) => format!(in alloc; "Image({})", source.as_str()),
            RichAnnotation::Colour(colour) => format!(in alloc; "Colour({colour})"),
            RichAnnotation::BgColour(colour) => format!(in alloc; "BgColour({colour})"),
            other => format!(in alloc; "{other:?}"),
        }
    }
}
