//! Changes to the results of a decorator.

ghost use Rattle.std.specs.Prelude.{◌≡◌, IfOk, map, string_bytes};
ghost use Rattle.html_render_dom_values.specs.Outcome.{OnlyOutOfMemory};
ghost use Rattle.html_render_parts.specs.Alteration.{Alteration};

use super::place::Place;
use html_render_dom_values::Error;
use html_render_dom_values::text::Text;
use std::alloc::Global;

/// Changes to the results of a decorator, whose annotations are of type `B`.
///
/// `text`, `annotation` and `lines` take that decorator's result as `below`, and return the result that replaces it: `below`
/// for no change.
pub trait Changes<B>: Drop {
    /// Annotation of a character in the changed results.
    type Annotation: Eq + Clone + Default + Drop;

    // the changes, as functions
    ghost alteration: { Alteration Self B Self.Annotation };

    /// Returns the text written at `place`, where `below` is the other decorator's.
    ///
    /// # Errors
    ///
    /// `OutOfMemory`.
    fn text(&self, alloc: Global, place: &Place<'_>, below: String) -> Result<String, Error>
        ensures ok { IfOk result (λ text. string_bytes text ≡ alteration.text self.now place.now (string_bytes below)) }
        ensures err { OnlyOutOfMemory result };

    /// Returns the annotation of characters at `place`, where `below` is the other decorator's.
    ///
    /// # Errors
    ///
    /// `OutOfMemory`.
    fn annotation(
        &self,
        alloc: Global,
        place: &Place<'_>,
        below: B,
    ) -> Result<Self::Annotation, Error>
        ensures ok { IfOk result (λ annotation. annotation ≡ alteration.annotation self.now place.now below) }
        ensures err { OnlyOutOfMemory result };

    /// Returns the annotation of characters of a colour or on a background for which the other decorator has none; `None`
    /// for no annotation. If the other decorator has one, `annotation` is called instead.
    ///
    /// # Errors
    ///
    /// `OutOfMemory`.
    fn colour(&self, alloc: Global, place: &Place<'_>) -> Result<Option<Self::Annotation>, Error>
        ensures ok { IfOk result (λ annotation. annotation ≡ alteration.colour self.now place.now) }
        ensures err { OnlyOutOfMemory result };

    /// Returns the closing lines of a document, where `links` are the targets of all its links, in order, and `below` the
    /// closing lines of the other decorator.
    ///
    /// # Errors
    ///
    /// `OutOfMemory`.
    fn lines(&self, alloc: Global, links: &[Text], below: Vec<String>) -> Result<Vec<String>, Error>
        ensures ok { IfOk result (λ lines. map string_bytes lines.items ≡ alteration.lines self.now links.now (map string_bytes below.items)) }
        ensures err { OnlyOutOfMemory result };

    /// Returns the changes in a sub-block.
    ///
    /// # Errors
    ///
    /// `OutOfMemory`.
    fn subblock(&self, alloc: Global) -> Result<Self, Error>
        ensures ok { IfOk result (λ inner. inner ≡ alteration.subblock self.now) }
        ensures err { OnlyOutOfMemory result };

    // a clone of an annotation is the same value as its original
    ghost clone_is_same: { (a b : Self.Annotation) → Self.Annotation.is_clone a b → b ≡ a };
}
