//! The quirks mode of a document.

/// The quirks mode of a document, which an HTML parser derives from the doctype. This library stores it and doesn't use it.
#[derive(Clone, Copy, Debug, PartialEq, Eq)]
pub enum QuirksMode {
    /// Rendered as by old browsers.
    Quirks,
    /// Rendered by the standard, except for a few details of old browsers.
    LimitedQuirks,
    /// Rendered by the standard.
    NoQuirks,
}
