//! A text of tagged characters with marks between them: its bytes, and runs that say which of them are under which tag.
//!
//! A text under one tag has no closed run: the run at the text's end is kept apart from the others, and a run is closed
//! only where a mark or another tag follows it.

ghost use Rattle.std.specs.Prelude.{◌≡◌, ◌++◌, ◌∷◌, [], Some, None, OnOk, OnErr, ◌==◌, length};
ghost use Rattle.std.specs.Bool.{OnTrue};
ghost use Rattle.std.specs.Str.{chars, IsUtf8};
ghost use Rattle.html_render_layout_lines.specs.TaggedText.{under, closed_run, Cuts, HasTag, elements_of, open_elements, style_tag};

use crate::character::TextStyle;
use crate::line::Element;
use crate::tag::Tag;
use html_render_dom_values::small_text::SmallText;
use std::alloc::{AllocError, Global};
use std::marker::Model;

/// Maximum length in bytes of a text that is stored in the value itself.
const SHORT: usize = 30;

/// The next part of a text.
#[derive(Clone, Copy)]
pub enum Run<T, M> {
    /// A number of bytes of the text under one tag.
    Text(usize, T),
    /// A mark, which takes no byte.
    Mark(M),
}

/// A text with tags and marks.
#[derive(Drop)]
pub struct TaggedText<T, M> {
    text: SmallText<SHORT>,
    runs: Vec<Run<T, M>>,
    // where the open run begins in the text, and its tag, if a run is open
    start: usize,
    tag: Option<T>,
}

impl<T, M> Model for TaggedText<T, M> {
    ghost use Rattle.html_render_layout_lines.specs.TaggedText.{Content, all_elements, IsCut};

    ghost Value = { Content T M };

    ghost view = { λ t. record { elements = all_elements t.runs.items t.tag t.start t.text; tag = t.tag } };

    ghost invariant = { λ t. IsCut t.runs.items t.tag t.start t.text };
}

/// A text in parts: its closed runs with the text that they take, and its open run.
#[derive(Drop)]
pub struct TextParts<'a, T, M> {
    /// The closed runs in order.
    pub closed: &'a [Run<T, M>],
    /// The text that the closed runs take, each the number of bytes that it says.
    pub closed_text: &'a str,
    /// The tag of the open run; none where no run is open.
    pub tag: Option<T>,
    /// The text of the open run.
    pub open_text: &'a str,
}

impl<T: Tag, M: Copy> TaggedText<T, M> {
    /// An empty text.
    #[inline]
    pub fn new(alloc: Global) -> TaggedText<T, M>
        ensures { result ≡ record { elements = []; tag = None } }
    {
        TaggedText {
            text: SmallText::new(),
            runs: Vec::new(alloc),
            start: 0,
            tag: None,
        }
    }

    /// Leaves it empty, and keeps its memory.
    #[inline]
    pub fn clear(&mut self)
        ensures { self.new ≡ record { elements = []; tag = None } }
    {
        self.text.clear();
        self.runs.clear();
        self.start = 0;
        self.tag = None;
    }

    /// Whether a run with this tag is open.
    #[inline]
    fn is_under(&self, tag: T) -> bool
        ensures { OnTrue result (self.now.tag ≡ Some tag) }
    {
        match &self.tag {
            Some(own) => own.is_same(&tag),
            None => false,
        }
    }

    /// Closes the open run, if there is one.
    fn close(&mut self) -> Result<(), AllocError>
        ensures ok { OnOk result (self.new ≡ record { elements = self.old.elements; tag = None }) }
        ensures err { OnErr result (self.new ≡ self.old) }
    {
        let text = self.text.as_str();
        let end = text.len();
        push_closed(&mut self.runs, self.tag, end - self.start)?;
        self.start = end;
        self.tag = None;
        Ok(())
    }

    /// Opens a run.
    #[inline]
    fn open(&mut self, tag: T)
        requires { self.old.tag ≡ None }
        ensures { self.new ≡ record { elements = self.old.elements; tag = Some tag } }
    {
        self.tag = Some(tag);
    }

    /// Puts a text into the open run.
    #[inline]
    fn push_here(&mut self, text: &str, tag: T) -> Result<(), AllocError>
        requires { self.old.tag ≡ Some tag }
        ensures ok { OnOk result (self.new ≡ record { elements = self.old.elements ++ under tag (chars text.now); tag = Some tag }) }
        ensures err { OnErr result (self.new ≡ self.old) }
    {
        self.text.push_str(*self.runs.allocator(), text)?;
        Ok(())
    }

    /// Puts a character into the open run.
    #[inline]
    fn push_char_here(&mut self, c: char, tag: T) -> Result<(), AllocError>
        requires { self.old.tag ≡ Some tag }
        ensures ok { OnOk result (self.new ≡ record { elements = self.old.elements ++ Element.Character c tag ∷ []; tag = Some tag }) }
        ensures err { OnErr result (self.new ≡ self.old) }
    {
        self.text.push(*self.runs.allocator(), c)?;
        Ok(())
    }

    /// Appends a mark to the closed runs.
    fn push_mark_here(&mut self, mark: M) -> Result<(), AllocError>
        requires { self.old.tag ≡ None }
        ensures ok { OnOk result (self.new ≡ record { elements = self.old.elements ++ Element.Mark mark ∷ []; tag = None }) }
        ensures err { OnErr result (self.new ≡ self.old) }
    {
        self.runs.push(Run::Mark(mark))?;
        Ok(())
    }

    /// Puts a text under a tag.
    ///
    /// # Errors
    ///
    /// `OutOfMemory`. Its elements are then as they were.
    #[inline]
    pub fn push_str(&mut self, text: &str, tag: T) -> Result<(), AllocError>
        ensures ok { OnOk result (self.new.elements ≡ self.old.elements ++ under tag (chars text.now)) }
        ensures err { OnErr result (self.new.elements ≡ self.old.elements) }
    {
        if !self.is_under(tag) {
            self.close()?;
            self.open(tag);
        }
        self.push_here(text, tag)
    }

    /// Puts a character under a tag.
    ///
    /// # Errors
    ///
    /// `OutOfMemory`. Its elements are then as they were.
    #[inline]
    pub fn push_char(&mut self, c: char, tag: T) -> Result<(), AllocError>
        ensures ok { OnOk result (self.new.elements ≡ self.old.elements ++ Element.Character c tag ∷ []) }
        ensures err { OnErr result (self.new.elements ≡ self.old.elements) }
    {
        if !self.is_under(tag) {
            self.close()?;
            self.open(tag);
        }
        self.push_char_here(c, tag)
    }

    /// Puts a mark.
    ///
    /// # Errors
    ///
    /// `OutOfMemory`. Its elements are then as they were.
    pub fn push_mark(&mut self, mark: M) -> Result<(), AllocError>
        ensures ok { OnOk result (self.new.elements ≡ self.old.elements ++ Element.Mark mark ∷ []) }
        ensures err { OnErr result (self.new.elements ≡ self.old.elements) }
    {
        self.close()?;
        self.push_mark_here(mark)
    }

    /// Its elements in order, as parts that need not be copied.
    #[inline]
    pub fn parts(&self) -> TextParts<'_, T, M>
        ensures elements { elements_of result.closed.now result.closed_text.now ++ open_elements result.tag result.open_text.now ≡ self.now.elements }
        ensures cuts { Cuts result.closed.now result.closed_text.now }
        ensures has_tag { HasTag result.tag result.open_text.now }
        ensures utf8 { IsUtf8 result.open_text.now }
    {
        let text = self.text.as_str();
        TextParts {
            closed: self.runs.as_slice(),
            closed_text: &text[..self.start],
            tag: self.tag,
            open_text: &text[self.start..],
        }
    }

    /// Whether it holds neither a character nor a mark.
    #[inline]
    pub fn is_empty(&self) -> bool
        ensures { result ≡ (length self.now.elements == 0) }
    {
        self.text.as_str().is_empty() && self.runs.as_slice().is_empty()
    }
}

/// The tag of a style's characters on a line that continues another, or on an ordinary line.
#[inline]
pub fn style_tag<T: Copy>(style: TextStyle<T>, continues: bool) -> T
    ensures { result ≡ style_tag continues style }
{
    if continues {
        style.continuation_tag
    } else {
        style.tag
    }
}

/// Puts the run that was open, if it has any bytes.
fn push_closed<T: Copy, M: Copy>(
    runs: &mut Vec<Run<T, M>>,
    tag: Option<T>,
    len: usize,
) -> Result<(), AllocError>
    ensures ok { OnOk result (runs.new.items ≡ runs.old.items ++ closed_run tag len) }
    ensures err { OnErr result (runs.new.items ≡ runs.old.items) }
{
    match tag {
        Some(tag) if len > 0 => runs.push(Run::Text(len, tag))?,
        _ => {}
    }
    Ok(())
}
