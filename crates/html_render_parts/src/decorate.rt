//! Decorators: texts written around the parts of a document, and annotations of its characters.
//!
//! - [`PlainDecorator`] is the decorator of plain text. It writes `3. ` before the item of number 3 of an ordered list, and
//!   `[` and `]` around a link. Its annotations are `()`.
//! - [`RichDecorator`] is the decorator of text that a viewer styles. It writes nothing around a link, and annotates its
//!   characters with `RichAnnotation::Link` of its target.
//! - [`Altered`] changes some results of another decorator. `Altered { below: PlainDecorator::new(), changes }` is the
//!   decorator of plain text, except for what `changes`, a value of a type that implements [`Changes`], changes.
//!
//! With the first two, a sub-block has the same decorator as its block.

ghost use Rattle.std.specs.Prelude.{◌≡◌, IfOk, map, string_bytes};
ghost use Rattle.html_render_dom_values.specs.Outcome.{OnlyOutOfMemory};
ghost use Rattle.html_render_parts.specs.Decoration.{Decoration};

mod altered;
mod changes;
mod place;
mod plain;
mod rich;

pub use altered::Altered;
pub use changes::Changes;
use html_render_dom_values::Error;
use html_render_dom_values::colours::Colour;
use html_render_dom_values::text::Text;
pub use place::{Given, Place};
pub use plain::PlainDecorator;
pub use rich::{RichAnnotation, RichDecorator};
use std::alloc::Global;

/// Texts written around the parts of a document, and annotations of its characters.
///
/// Each result is a function of the decorator's value and of the arguments, which `decoration` states. A text that isn't
/// written is an empty string. A part's annotation is that of all its characters, also of the texts written before and after
/// its contents.
pub trait TextDecorator: Drop {
    /// Annotation of a character.
    type Annotation: Eq + Clone + Default + Drop;

    // the decorator's results, as functions
    ghost decoration: { Decoration Self Self.Annotation };

    /// Returns the text before a link to the target `url`, and the annotation of the link's characters.
    ///
    /// # Errors
    ///
    /// `OutOfMemory`.
    fn decorate_link_start(
        &self,
        alloc: Global,
        url: &str,
    ) -> Result<(String, Self::Annotation), Error>
        ensures text { IfOk result (λ r. string_bytes r.0 ≡ (decoration.link_start self.now url.now).text) }
        ensures annotation { IfOk result (λ r. r.1 ≡ (decoration.link_start self.now url.now).annotation) }
        ensures err { OnlyOutOfMemory result };

    /// Returns the text after a link.
    ///
    /// # Errors
    ///
    /// `OutOfMemory`.
    fn decorate_link_end(&self, alloc: Global) -> Result<String, Error>
        ensures ok { IfOk result (λ text. string_bytes text ≡ decoration.link_end self.now) }
        ensures err { OnlyOutOfMemory result };

    /// Returns the text before emphasised text, and the annotation of its characters.
    ///
    /// # Errors
    ///
    /// `OutOfMemory`.
    fn decorate_em_start(&self, alloc: Global) -> Result<(String, Self::Annotation), Error>
        ensures text { IfOk result (λ r. string_bytes r.0 ≡ (decoration.em.start self.now).text) }
        ensures annotation { IfOk result (λ r. r.1 ≡ (decoration.em.start self.now).annotation) }
        ensures err { OnlyOutOfMemory result };

    /// Returns the text after emphasised text.
    ///
    /// # Errors
    ///
    /// `OutOfMemory`.
    fn decorate_em_end(&self, alloc: Global) -> Result<String, Error>
        ensures ok { IfOk result (λ text. string_bytes text ≡ decoration.em.end self.now) }
        ensures err { OnlyOutOfMemory result };

    /// Returns the text before strong text, and the annotation of its characters.
    ///
    /// # Errors
    ///
    /// `OutOfMemory`.
    fn decorate_strong_start(&self, alloc: Global) -> Result<(String, Self::Annotation), Error>
        ensures text { IfOk result (λ r. string_bytes r.0 ≡ (decoration.strong.start self.now).text) }
        ensures annotation { IfOk result (λ r. r.1 ≡ (decoration.strong.start self.now).annotation) }
        ensures err { OnlyOutOfMemory result };

    /// Returns the text after strong text.
    ///
    /// # Errors
    ///
    /// `OutOfMemory`.
    fn decorate_strong_end(&self, alloc: Global) -> Result<String, Error>
        ensures ok { IfOk result (λ text. string_bytes text ≡ decoration.strong.end self.now) }
        ensures err { OnlyOutOfMemory result };

    /// Returns the text before struck-out text, and the annotation of its characters.
    ///
    /// # Errors
    ///
    /// `OutOfMemory`.
    fn decorate_strikeout_start(&self, alloc: Global) -> Result<(String, Self::Annotation), Error>
        ensures text { IfOk result (λ r. string_bytes r.0 ≡ (decoration.strikeout.start self.now).text) }
        ensures annotation { IfOk result (λ r. r.1 ≡ (decoration.strikeout.start self.now).annotation) }
        ensures err { OnlyOutOfMemory result };

    /// Returns the text after struck-out text.
    ///
    /// # Errors
    ///
    /// `OutOfMemory`.
    fn decorate_strikeout_end(&self, alloc: Global) -> Result<String, Error>
        ensures ok { IfOk result (λ text. string_bytes text ≡ decoration.strikeout.end self.now) }
        ensures err { OnlyOutOfMemory result };

    /// Returns the text before code, and the annotation of its characters.
    ///
    /// # Errors
    ///
    /// `OutOfMemory`.
    fn decorate_code_start(&self, alloc: Global) -> Result<(String, Self::Annotation), Error>
        ensures text { IfOk result (λ r. string_bytes r.0 ≡ (decoration.code.start self.now).text) }
        ensures annotation { IfOk result (λ r. r.1 ≡ (decoration.code.start self.now).annotation) }
        ensures err { OnlyOutOfMemory result };

    /// Returns the text after code.
    ///
    /// # Errors
    ///
    /// `OutOfMemory`.
    fn decorate_code_end(&self, alloc: Global) -> Result<String, Error>
        ensures ok { IfOk result (λ text. string_bytes text ≡ decoration.code.end self.now) }
        ensures err { OnlyOutOfMemory result };

    /// Returns the text before a superscript, and the annotation of its characters.
    ///
    /// It isn't called for a superscript of a single text that is empty or of ASCII digits alone: this is written in
    /// superscript digits.
    ///
    /// # Errors
    ///
    /// `OutOfMemory`.
    fn decorate_superscript_start(&self, alloc: Global) -> Result<(String, Self::Annotation), Error>
        ensures text { IfOk result (λ r. string_bytes r.0 ≡ (decoration.superscript.start self.now).text) }
        ensures annotation { IfOk result (λ r. r.1 ≡ (decoration.superscript.start self.now).annotation) }
        ensures err { OnlyOutOfMemory result };

    /// Returns the text after a superscript.
    ///
    /// # Errors
    ///
    /// `OutOfMemory`.
    fn decorate_superscript_end(&self, alloc: Global) -> Result<String, Error>
        ensures ok { IfOk result (λ text. string_bytes text ≡ decoration.superscript.end self.now) }
        ensures err { OnlyOutOfMemory result };

    /// Returns the text for an image with the source `src` and this title, and the annotation of its characters. The source
    /// of a drawing is empty.
    ///
    /// # Errors
    ///
    /// `OutOfMemory`.
    fn decorate_image(
        &self,
        alloc: Global,
        src: &str,
        title: &str,
    ) -> Result<(String, Self::Annotation), Error>
        ensures text { IfOk result (λ r. string_bytes r.0 ≡ (decoration.image self.now src.now title.now).text) }
        ensures annotation { IfOk result (λ r. r.1 ≡ (decoration.image self.now src.now title.now).annotation) }
        ensures err { OnlyOutOfMemory result };

    /// Returns the innermost annotation of preformatted characters, except on continuation lines.
    ///
    /// # Errors
    ///
    /// `OutOfMemory`.
    fn decorate_preformat_first(&self, alloc: Global) -> Result<Self::Annotation, Error>
        ensures ok { IfOk result (λ annotation. annotation ≡ decoration.preformat_first self.now) }
        ensures err { OnlyOutOfMemory result };

    /// Returns the innermost annotation of preformatted characters on a continuation line: one that begins because something
    /// didn't fit on the line before.
    ///
    /// # Errors
    ///
    /// `OutOfMemory`.
    fn decorate_preformat_cont(&self, alloc: Global) -> Result<Self::Annotation, Error>
        ensures ok { IfOk result (λ annotation. annotation ≡ decoration.preformat_continuing self.now) }
        ensures err { OnlyOutOfMemory result };

    /// Returns the prefix of each line of a heading of this level.
    ///
    /// # Errors
    ///
    /// `OutOfMemory`.
    fn header_prefix(&self, alloc: Global, level: usize) -> Result<String, Error>
        ensures ok { IfOk result (λ prefix. string_bytes prefix ≡ decoration.header_prefix self.now level) }
        ensures err { OnlyOutOfMemory result };

    /// Returns the prefix of each line of a quote.
    ///
    /// # Errors
    ///
    /// `OutOfMemory`.
    fn quote_prefix(&self, alloc: Global) -> Result<String, Error>
        ensures ok { IfOk result (λ prefix. string_bytes prefix ≡ decoration.quote_prefix self.now) }
        ensures err { OnlyOutOfMemory result };

    /// Returns the prefix of the first line of an item of an unordered list. Its other lines are indented by the same
    /// columns.
    ///
    /// # Errors
    ///
    /// `OutOfMemory`.
    fn unordered_item_prefix(&self, alloc: Global) -> Result<String, Error>
        ensures ok { IfOk result (λ prefix. string_bytes prefix ≡ decoration.unordered_item_prefix self.now) }
        ensures err { OnlyOutOfMemory result };

    /// Returns the prefix of the first line of the item with this number of an ordered list. The layout pads it to the
    /// columns of the wider prefix of the list's first and last number, and indents the item's other lines by these.
    ///
    /// # Errors
    ///
    /// `OutOfMemory`.
    fn ordered_item_prefix(&self, alloc: Global, number: i64) -> Result<String, Error>
        ensures ok { IfOk result (λ prefix. string_bytes prefix ≡ decoration.ordered_item_prefix self.now number) }
        ensures err { OnlyOutOfMemory result };

    /// Returns the annotation of characters of this colour; `None` for no annotation.
    ///
    /// # Errors
    ///
    /// `OutOfMemory`.
    fn push_colour(&self, alloc: Global, colour: Colour) -> Result<Option<Self::Annotation>, Error>
        ensures ok { IfOk result (λ annotation. annotation ≡ decoration.push_colour self.now colour) }
        ensures err { OnlyOutOfMemory result };

    /// Returns the annotation of characters on a background of this colour; `None` for no annotation.
    ///
    /// # Errors
    ///
    /// `OutOfMemory`.
    fn push_bgcolour(
        &self,
        alloc: Global,
        colour: Colour,
    ) -> Result<Option<Self::Annotation>, Error>
        ensures ok { IfOk result (λ annotation. annotation ≡ decoration.push_background self.now colour) }
        ensures err { OnlyOutOfMemory result };

    /// Returns the closing lines of a document, where `links` are the targets of all its links, in order. They follow the
    /// footnotes, if there are any.
    ///
    /// # Errors
    ///
    /// `OutOfMemory`.
    fn finalise(&self, alloc: Global, links: &[Text]) -> Result<Vec<String>, Error>
        ensures ok { IfOk result (λ lines. map string_bytes lines.items ≡ decoration.finalise self.now links.now) }
        ensures err { OnlyOutOfMemory result };

    /// Returns the decorator of a sub-block. The document's own block has the decorator that the given one returns here.
    ///
    /// # Errors
    ///
    /// `OutOfMemory`.
    fn make_subblock_decorator(&self, alloc: Global) -> Result<Self, Error>
        ensures ok { IfOk result (λ inner. inner ≡ decoration.subblock self.now) }
        ensures err { OnlyOutOfMemory result };

    // a clone of an annotation is the same value as its original
    ghost clone_is_same: { (a b : Self.Annotation) → Self.Annotation.is_clone a b → b ≡ a };
}
