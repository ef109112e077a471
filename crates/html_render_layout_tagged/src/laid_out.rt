//! Result of a layout: lines whose tags are indices into a table of annotation stacks, that table, and the names of marks.

ghost use Rattle.std.specs.Prelude.{◌≡◌, ◌↔◌, [], ◌∷◌, ◌++◌, length, IsTrue, OnOk};
ghost use Rattle.html_render_dom_values.specs.Outcome.{OnlyOutOfMemory};

use crate::stacks::Stacks;
use html_render_dom_values::Error;
use html_render_dom_values::text::Text;
use html_render_layout_buffer::finished::FinishedLines;
use std::alloc::Global;
use std::marker::Model;

/// Growing list of texts, in the order in which they were pushed.
#[derive(Drop)]
pub struct TextList {
    texts: Vec<Text>,
}

impl Model for TextList {
    ghost use Rattle.std.specs.Prelude.{List, ℕ};

    ghost Value = { List (List ℕ) };

    ghost view = { λ l. l.texts.items };
}

impl TextList {
    /// Returns an empty list, without an allocation.
    pub fn new(alloc: Global) -> TextList
        ensures { result ≡ [] }
    {
        TextList {
            texts: Vec::new(alloc),
        }
    }

    /// Returns the number of texts.
    pub fn len(&self) -> usize
        ensures { result ≡ length self.now }
    {
        self.texts.len()
    }

    /// Whether there are no texts.
    pub fn is_empty(&self) -> bool
        ensures { IsTrue result ↔ (self.now ≡ []) }
    {
        self.texts.is_empty()
    }

    /// Borrows all texts.
    pub fn as_slice(&self) -> &[Text]
        ensures { result.now ≡ self.now }
    {
        self.texts.as_slice()
    }

    /// Appends a copy of a text.
    ///
    /// # Errors
    ///
    /// `OutOfMemory`.
    pub fn push(&mut self, text: &str) -> Result<(), Error>
        ensures ok { OnOk result (self.new ≡ self.old ++ text.now ∷ []) }
        ensures err { OnlyOutOfMemory result }
    {
        let text = Text::from_str(*self.texts.allocator(), text)?;
        self.texts.push(text)?;
        Ok(())
    }
}

/// Lines of a layout, with the annotation stacks of their tags and the names of their marks.
#[derive(Drop)]
pub struct LaidOut<A> {
    /// Lines. A character's tag is an index into `stacks`, a mark one into `names`.
    pub lines: FinishedLines<usize, usize>,
    /// Annotation stacks, by tag.
    pub stacks: Stacks<A>,
    /// Names of fragments, by mark.
    pub names: TextList,
}
