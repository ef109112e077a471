//! Places at which a decorator writes a text or annotates characters.

ghost use Rattle.std.specs.Prelude.{◌≡◌};

use html_render_dom_values::colours::Colour;
use std::marker::Model;

/// Text of the document that belongs to a place: the target of a link, or the source or title of an image.
///
/// In contracts, it is the bytes of the text.
#[derive(Drop)]
pub struct Given<'a> {
    text: &'a str,
}

impl<'a> Model for Given<'a> {
    ghost use Rattle.std.specs.Prelude.{ℕ, List};

    ghost Value = { List ℕ };

    ghost view = { λ g. g.text.now };
}

impl<'a> Given<'a> {
    /// Wraps a text of the document.
    pub(crate) fn new(text: &'a str) -> Given<'a>
        ensures { result ≡ text.entry.now }
    {
        Given { text }
    }

    /// Returns the text.
    pub fn as_str(&self) -> &str
        ensures { result.now ≡ self.now }
    {
        self.text
    }
}

/// Place at which a decorator writes a text or annotates characters.
#[derive(Drop)]
pub enum Place<'a> {
    /// Start of a link to this target: the text before it, and the annotation of its characters.
    LinkStart(Given<'a>),
    /// End of a link: the text after it.
    LinkEnd,
    /// Start of emphasised text: the text before it, and the annotation of its characters.
    EmStart,
    /// End of emphasised text: the text after it.
    EmEnd,
    /// Start of strong text: the text before it, and the annotation of its characters.
    StrongStart,
    /// End of strong text: the text after it.
    StrongEnd,
    /// Start of struck-out text: the text before it, and the annotation of its characters.
    StrikeoutStart,
    /// End of struck-out text: the text after it.
    StrikeoutEnd,
    /// Start of code: the text before it, and the annotation of its characters.
    CodeStart,
    /// End of code: the text after it.
    CodeEnd,
    /// Start of a superscript: the text before it, and the annotation of its characters.
    SuperscriptStart,
    /// End of a superscript: the text after it.
    SuperscriptEnd,
    /// Image with this source and this title: the text written for it, and the annotation of its characters.
    Image(Given<'a>, Given<'a>),
    /// Preformatted text, except on continuation lines: the annotation of its characters.
    PreformatFirst,
    /// Preformatted text on a continuation line: the annotation of its characters.
    PreformatCont,
    /// Prefix of each line of a heading of this level.
    HeaderPrefix(usize),
    /// Prefix of each line of a quote.
    QuotePrefix,
    /// Prefix of an item of an unordered list.
    UnorderedItemPrefix,
    /// Prefix of the item with this number of an ordered list.
    OrderedItemPrefix(i64),
    /// Text of this colour: the annotation of its characters.
    Colour(Colour),
    /// Text on a background of this colour: the annotation of its characters.
    Background(Colour),
}
