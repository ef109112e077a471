//! Prefixes of lines.

ghost use Rattle.std.specs.Prelude.{◌≡◌, replicate};
ghost use Rattle.std.specs.Str.{chars};
ghost use Rattle.html_render_layout_lines.specs.TaggedText.{counted, text_columns};

use html_render_layout_lines::line::text_columns;

/// A prefix of lines: a text under one tag.
#[derive(Drop)]
pub struct Prefix<'a, T> {
    /// Characters of the prefix.
    pub text: &'a str,
    /// Columns of the text; `None` if they pass a machine word.
    pub columns: Option<usize>,
    /// Tag of all characters.
    pub tag: T,
    ghost columns_of_text: { columns ≡ counted (text_columns (chars text.now)) },
}

/// Returns a number of columns that is known.
pub(crate) fn known(columns: usize) -> Option<usize>
    ensures { result ≡ counted columns }
{
    Some(columns)
}

impl<'a, T: Copy> Prefix<'a, T> {
    /// Returns a prefix, and counts its columns.
    pub fn new(text: &'a str, tag: T) -> Prefix<'a, T>
        ensures text { result.text.now ≡ text.now }
        ensures tag { result.tag ≡ tag }
    {
        Prefix {
            text,
            columns: text_columns(text),
            tag,
        }
    }

    /// Returns a prefix of `count` spaces, whose columns needn't be counted.
    #[tactic(auto, using(crate::proofs::Growing::spaces_width))]
    pub fn of_spaces(text: &'a str, count: usize, tag: T) -> Prefix<'a, T>
        requires { chars text.now ≡ replicate count 0x20 }
        ensures text { result.text.now ≡ text.now }
        ensures tag { result.tag ≡ tag }
    {
        Prefix {
            text,
            columns: known(count),
            tag,
        }
    }
}
