//! Treatment of white space: `WhiteSpace::PreWrap.preserve_whitespace()` and `WhiteSpace::PreWrap.do_wrap()` are true.

ghost use Rattle.std.specs.Prelude.{◌≡◌};
ghost use Rattle.html_render_dom_values.specs.WhiteSpace.{preserves, wraps};

/// Treatment of white space: a value of the CSS property `white-space`.
#[derive(Clone, Copy, Debug, Default, PartialEq, Eq)]
pub enum WhiteSpace {
    /// Collapses white space, and wraps lines between words. The default.
    #[default]
    Normal,
    /// Preserves white space, and ends lines at newlines. A character that doesn't fit begins the next line.
    Pre,
    /// Preserves white space, ends lines at newlines, and wraps them between words.
    PreWrap,
}

impl WhiteSpace {
    /// Whether white space is preserved.
    pub fn preserve_whitespace(self) -> bool
        ensures { result ≡ preserves self }
    {
        match self {
            WhiteSpace::Normal => false,
            WhiteSpace::Pre | WhiteSpace::PreWrap => true,
        }
    }

    /// Whether lines are wrapped between words.
    pub fn do_wrap(self) -> bool
        ensures { result ≡ wraps self }
    {
        match self {
            WhiteSpace::Pre => false,
            WhiteSpace::Normal | WhiteSpace::PreWrap => true,
        }
    }
}
