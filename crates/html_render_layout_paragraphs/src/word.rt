//! A word that a paragraph extends by letters, texts and marks. It knows its columns.

ghost use Rattle.std.specs.Prelude.{◌≡◌, [], ◌∷◌, ◌++◌, map, OnOk};
ghost use Rattle.std.specs.Bool.{OnTrue};
ghost use Rattle.std.specs.Str.{chars};
ghost use Rattle.html_render_layout_lines.specs.Character.{width_of, character_of, tag_on};
ghost use Rattle.html_render_layout_lines.specs.Line.{word_columns, element_of};
ghost use Rattle.html_render_layout_paragraphs.specs.Stream.{styled};
ghost use Rattle.html_render_layout_lines.specs.TaggedText.{counted, text_columns, items_of, Cuts, HasTag, elements_of, open_elements};
ghost use Rattle.html_render_layout_paragraphs.specs.Word.{EndsInCharacter};

use html_render_layout_buffer::buffer::LineBuffer;
use html_render_layout_lines::character::{Character, Item, TextStyle};
use html_render_layout_lines::line::{TaggedText, TextParts, counted_on};
use html_render_layout_lines::tag::Tag;
use std::alloc::{AllocError, Global};
use std::marker::Model;

/// A word: characters with their styles, and marks among them.
#[derive(Drop)]
pub struct Word<T, M> {
    text: TaggedText<TextStyle<T>, M>,
    /// Columns of the word; `None` if they pass a machine word.
    count: Option<usize>,
}

impl<T, M> Model for Word<T, M> {
    ghost use Rattle.std.specs.Prelude.{◌≡◌, List};
    ghost use Rattle.html_render_layout_lines.specs.Line.{word_columns};
    ghost use Rattle.html_render_layout_lines.specs.TaggedText.{counted, items_of};
    ghost use Rattle.html_render_layout_lines.specs.declared.character.Item.{Item};

    ghost Value = { List (Item T M) };

    ghost view = { λ w. items_of w.text.elements };

    ghost invariant = { λ w. w.count ≡ counted (word_columns (items_of w.text.elements)) };
}

impl<T: Tag, M: Copy> Word<T, M> {
    /// Returns an empty word.
    #[inline]
    pub(crate) fn new(alloc: Global) -> Word<T, M>
        ensures { result ≡ [] }
    {
        Word {
            text: TaggedText::new(alloc),
            count: Some(0),
        }
    }

    /// Returns the columns, which are stored; `None` if they pass a machine word.
    #[inline]
    pub(crate) fn columns(&self) -> Option<usize>
        ensures { result ≡ counted (word_columns self.now) }
    {
        self.count
    }

    /// Reports whether the word has neither a character nor a mark.
    #[inline]
    pub(crate) fn is_empty(&self) -> bool
        ensures { OnTrue result (self.now ≡ []) }
    {
        self.text.is_empty()
    }

    /// Removes all characters and marks, keeping the memory.
    #[inline]
    pub(crate) fn clear(&mut self)
        ensures { self.new ≡ [] }
    {
        self.text.clear();
        self.count = Some(0);
    }

    /// Appends a text of `width` columns in a style.
    #[inline]
    pub(crate) fn push_str(
        &mut self,
        text: &str,
        width: usize,
        style: TextStyle<T>,
    ) -> Result<(), AllocError>
        requires { width ≡ text_columns (chars text.now) }
        ensures { OnOk result (self.new ≡ self.old ++ styled style (chars text.now)) }
    {
        self.text.push_str(text, style)?;
        self.count = counted_on(self.count, width);
        Ok(())
    }

    /// Appends a character of `width` columns in a style.
    #[inline]
    pub(crate) fn push_char(
        &mut self,
        c: char,
        width: usize,
        style: TextStyle<T>,
    ) -> Result<(), AllocError>
        requires { width ≡ width_of c }
        ensures { OnOk result (self.new ≡ self.old ++ Item.Character (character_of style c) ∷ []) }
    {
        self.text.push_char(c, style)?;
        self.count = counted_on(self.count, width);
        Ok(())
    }

    /// Appends a mark.
    pub(crate) fn push_mark(&mut self, mark: M) -> Result<(), AllocError>
        ensures { OnOk result (self.new ≡ self.old ++ Item.Mark mark ∷ []) }
    {
        self.text.push_mark(mark)?;
        Ok(())
    }

    /// Returns the characters and marks in order, as borrowed parts: closed runs, and then an open run.
    pub(crate) fn parts(&self) -> TextParts<'_, TextStyle<T>, M>
        ensures items { items_of (elements_of result.closed.now result.closed_text.now ++ open_elements result.tag result.open_text.now) ≡ self.now }
        ensures cuts { Cuts result.closed.now result.closed_text.now }
        ensures has_tag { HasTag result.tag result.open_text.now }
    {
        self.text.parts()
    }

    /// Reports whether the word ends with a character.
    #[inline]
    pub(crate) fn ends_in_character(&self) -> bool
        ensures { OnTrue result (EndsInCharacter self.now) }
    {
        let parts = self.text.parts();
        !parts.open_text.is_empty()
    }
}

/// Appends a word of `width` columns to the open line of a buffer. `continues` selects the tags for continuation lines.
#[inline]
pub(crate) fn push_word<T: Tag, M: Copy>(
    lines: &mut LineBuffer<T, M>,
    word: &Word<T, M>,
    width: usize,
    continues: bool,
) -> Result<(), AllocError>
    requires { width ≡ word_columns word.now }
    ensures { OnOk result (lines.new ≡ record { lines = lines.old.lines; line = lines.old.line ++ map (element_of continues) word.now }) }
{
    lines.append_word(&word.text, width, continues)
}

/// Returns the tag of a character. `continues` selects its tag for continuation lines.
#[inline]
pub(crate) fn tag_on<T: Copy>(continues: bool, character: &Character<T>) -> T
    ensures { result ≡ tag_on continues character.now }
{
    if continues {
        character.continuation_tag
    } else {
        character.tag
    }
}
