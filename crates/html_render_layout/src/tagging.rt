//! Tagging: how a character refers to its annotations.
//!
//! With [`Untagged`] a layout stores no annotations, and a tag is `()`. With [`Stacks`] a tag is the index of an annotation
//! stack.

ghost use Rattle.std.specs.Prelude.{◌≡◌, IfOk};
ghost use Rattle.html_render_dom_values.specs.Outcome.{OnlyOutOfMemory};
ghost use Rattle.html_render_layout.specs.Working.{tabled, untagged};

use html_render_dom_values::Error;
use html_render_layout_lines::tag::Tag;
use html_render_layout_tagged::stacks::Stacks;

/// A store for the annotations of a layout's characters.
pub trait Tagging<A>: Drop {
    /// Tag of a character: it refers to the character's annotations.
    type Tag: Tag;

    // store and tag after an annotation is added on top of those of a tag
    ghost annotated: { Self → Self.Tag → A → Self × Self.Tag };

    /// Returns the tag of the annotations of `below` with one more on top, and stores these.
    ///
    /// # Errors
    ///
    /// `OutOfMemory`.
    fn annotate(&mut self, below: Self::Tag, annotation: A) -> Result<Self::Tag, Error>
        ensures ok { IfOk result (λ tag. (self.new, tag) ≡ annotated self.old below annotation) }
        ensures err { OnlyOutOfMemory result };
}

/// No annotations: the tags are `()`, as for a string.
#[derive(Drop)]
pub struct Untagged;

impl<A: Drop> Tagging<A> for Untagged {
    type Tag = ();

    ghost annotated = { untagged };

    /// Drops the annotation.
    fn annotate(&mut self, _below: (), _annotation: A) -> Result<(), Error> {
        Ok(())
    }
}

impl<A: Drop> Tagging<A> for Stacks<A> {
    type Tag = usize;

    ghost annotated = { tabled };

    /// Pushes a stack, and returns its index.
    fn annotate(&mut self, below: usize, annotation: A) -> Result<usize, Error> {
        self.push(below, annotation)
    }
}
