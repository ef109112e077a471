//! Lines of tagged strings and fragment starts.
//!
//! In rich text, `"a "` and `em("b")` make a line of the strings `a ` without an annotation and `b` with that of emphasis.

ghost use Rattle.std.specs.Prelude.{◌≡◌, ◌==◌, ◌-◌, ◌^◌, min, length};
ghost use Rattle.std.specs.Iterator.{YieldsFirstRef, item_count};
ghost use Rattle.html_render_layout_tagged.specs.TaggedLine.{strings_of, element_columns, line_columns};

use html_render_layout_lines::line::text_columns;
use std::marker::Model;

/// Text with one tag.
#[derive(Drop)]
pub struct TaggedString<T> {
    /// The text.
    pub s: String,
    /// Tag of the text. In the lines of a document, it is the annotations of the first character, the outermost first; those
    /// of the others are equal.
    pub tag: T,
}

/// Element of a tagged line.
#[derive(Drop)]
pub enum TaggedLineElement<T> {
    /// Text with one tag.
    Str(TaggedString<T>),
    /// Start of the part of the document with this name, for links into the text. It takes no column.
    FragmentStart(String),
}

/// Line of tagged strings and fragment starts.
#[derive(Drop)]
pub struct TaggedLine<T> {
    elements: Vec<TaggedLineElement<T>>,
}

impl<T> Model for TaggedLine<T> {
    ghost use Rattle.std.specs.Prelude.{List};
    ghost use Rattle.html_render_layout_tagged.specs.declared.line.TaggedLineElement.{TaggedLineElement};

    ghost Value = { List (TaggedLineElement T) };

    ghost view = { λ l. l.elements.items };
}

impl<T: Drop> TaggedLine<T> {
    /// Returns the line of these elements.
    pub(crate) fn new(elements: Vec<TaggedLineElement<T>>) -> TaggedLine<T>
        ensures { result ≡ elements.items }
    {
        TaggedLine { elements }
    }

    /// Borrows the elements.
    pub(crate) fn elements(&self) -> &[TaggedLineElement<T>]
        ensures { result.now ≡ self.now }
    {
        self.elements.as_slice()
    }

    /// Returns an iterator over the elements, in order.
    pub fn iter(&self) -> LineElements<'_, T>
        ensures { result ≡ self.now }
    {
        LineElements {
            rest: self.elements.as_slice(),
        }
    }

    /// Returns an iterator over the strings, in order, without the fragment starts.
    pub fn tagged_strings(&self) -> TaggedStrings<'_, T>
        ensures { result ≡ strings_of self.now }
    {
        TaggedStrings {
            rest: self.elements.as_slice(),
        }
    }

    /// Returns the width of the line in columns, at most `usize::MAX`: the sum over the characters of its strings. A
    /// character takes as many columns as `unicode_width` gives, and 0 if it gives none.
    pub fn width(&self) -> usize
        ensures { result ≡ min (line_columns self.now) (2 ^ 64 - 1) }
    {
        let mut width: usize = 0;
        for element in self.elements() {
            width = width.saturating_add(columns(element));
        }
        width
    }

    /// Whether the line has no elements. A line of a fragment start alone isn't empty.
    pub fn is_empty(&self) -> bool
        ensures { result ≡ (length self.now == 0) }
    {
        self.elements.as_slice().is_empty()
    }
}

/// Iterator over the elements of a line.
#[derive(Drop)]
pub struct LineElements<'a, T> {
    rest: &'a [TaggedLineElement<T>],
}

impl<'a, T> Model for LineElements<'a, T> {
    ghost use Rattle.std.specs.Prelude.{List};
    ghost use Rattle.html_render_layout_tagged.specs.declared.line.TaggedLineElement.{TaggedLineElement};

    ghost Value = { List (TaggedLineElement T) };

    ghost view = { λ l. l.rest.now };
}

impl<'a, T> Iterator for LineElements<'a, T> {
    type Item = &'a TaggedLineElement<T>;

    ghost next_gives = { YieldsFirstRef (λ l. l) };

    ghost remaining = { item_count (λ l. l) };

    /// Returns the next element; `None` after the last one.
    fn next(&mut self) -> Option<&'a TaggedLineElement<T>> {
        let (first, others) = self.rest.split_first()?;
        self.rest = others;
        Some(first)
    }
}

/// Iterator over the strings of a line.
#[derive(Drop)]
pub struct TaggedStrings<'a, T> {
    rest: &'a [TaggedLineElement<T>],
}

impl<'a, T> Model for TaggedStrings<'a, T> {
    ghost use Rattle.std.specs.Prelude.{List};
    ghost use Rattle.html_render_layout_tagged.specs.declared.line.TaggedString.{TaggedString};
    ghost use Rattle.html_render_layout_tagged.specs.TaggedLine.{strings_of};

    ghost Value = { List (TaggedString T) };

    ghost view = { λ l. strings_of l.rest.now };
}

impl<'a, T> Iterator for TaggedStrings<'a, T> {
    type Item = &'a TaggedString<T>;

    ghost next_gives = { YieldsFirstRef (λ l. l) };

    ghost remaining = { item_count (λ l. l) };

    /// Returns the next string; `None` after the last one.
    fn next(&mut self) -> Option<&'a TaggedString<T>> {
        while let Some((first, others)) = self.rest.split_first() {
            self.rest = others;
            if let TaggedLineElement::Str(string) = first {
                return Some(string);
            }
        }
        None
    }
}

/// Returns the columns of an element, at most `usize::MAX`.
fn columns<T>(element: &TaggedLineElement<T>) -> usize
    ensures { result ≡ min (element_columns element.now) (2 ^ 64 - 1) }
{
    match element {
        TaggedLineElement::Str(string) => text_columns(&string.s).unwrap_or(usize::MAX),
        TaggedLineElement::FragmentStart(_) => 0,
    }
}
