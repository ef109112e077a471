//! A buffer of lines: ended lines and an open one, stored in one text.

ghost use Rattle.std.specs.Prelude.{◌≡◌, ◌+◌, ◌==◌, ◌≤◌, ◌<◌, ℕ, [], ◌∷◌, ◌++◌, Some, encode_utf8, length, drop, replicate, reverse, OnOk, OnErr, IfOk};
ghost use Rattle.std.specs.Bool.{OnTrue};
ghost use Rattle.std.specs.Str.{chars, IsUtf8, IsCharBoundary};
ghost use Rattle.std.specs.String.{string_bytes};
ghost use Rattle.html_render_layout_lines.specs.Character.{width_of};
ghost use Rattle.html_render_layout_lines.specs.Line.{columns, text_bytes, marks_line};
ghost use Rattle.html_render_layout_lines.specs.TaggedText.{counted, text_columns, under};
ghost use Rattle.html_render_layout_buffer.specs.Lines.{no_lines, all_bytes, ArePlain};

use crate::ends::LineEnd;
use crate::runs::TagRuns;
use crate::slot::Slot;
use html_render_layout_lines::character::width_of;
use html_render_layout_lines::line::Element;
use html_render_layout_lines::tag::Tag;
use std::alloc::{AllocError, Global};
use std::marker::Model;

mod append;
mod behind;
mod marks;
pub mod parts;
mod sizes;
mod spaces;
mod stored;
mod word;

pub use sizes::columns_missing;
pub(crate) use sizes::is_within;

/// Ended lines and an open line, each of tagged characters and marks.
#[derive(Drop)]
pub struct LineBuffer<T, M> {
    // the lines' characters, with a newline at the end of each ended line
    text: String,
    // a tag for each byte of the lines, without newlines, and the marks
    slots: TagRuns<Slot<T, M>>,
    // ends of the ended lines
    ends: Vec<LineEnd>,
    // where the open line begins in the text
    start: usize,
    // where the open line begins in the slots
    slot_start: usize,
    // columns of the open line; `None` if they pass a machine word
    columns: Option<usize>,
}

impl<T, M> Model for LineBuffer<T, M> {
    ghost use Rattle.std.specs.String.{string_bytes};
    ghost use Rattle.html_render_layout_buffer.specs.Lines.{BufferedLines};
    ghost use Rattle.html_render_layout_buffer.specs.Fields.{buffered, HoldLines};

    ghost Value = { BufferedLines T M };

    ghost view = { λ b. buffered (record {
      text = string_bytes b.text;
      slots = b.slots;
      ends = b.ends.items;
      start = b.start;
      slot_start = b.slot_start;
      columns = b.columns;
    }) };

    ghost invariant = { λ b. HoldLines (record {
      text = string_bytes b.text;
      slots = b.slots;
      ends = b.ends.items;
      start = b.start;
      slot_start = b.slot_start;
      columns = b.columns;
    }) };
}

impl<T: Tag, M: Copy> LineBuffer<T, M> {
    /// Returns a buffer without lines.
    pub fn new(alloc: Global) -> LineBuffer<T, M>
        ensures { result ≡ no_lines }
    {
        LineBuffer {
            text: String::new(alloc),
            slots: TagRuns::new(alloc),
            ends: Vec::new(alloc),
            start: 0,
            slot_start: 0,
            columns: Some(0),
        }
    }

    /// Removes all lines, and keeps the memory.
    pub fn clear(&mut self)
        ensures { self.new ≡ no_lines }
    {
        clear_all(&mut self.text, &mut self.slots, &mut self.ends);
        self.start = 0;
        self.slot_start = 0;
        self.columns = Some(0);
    }

    /// Reserves memory for `bytes` more bytes of text and `lines` more lines.
    ///
    /// # Errors
    ///
    /// `AllocError`. The lines stay unchanged.
    pub fn reserve(&mut self, bytes: usize, lines: usize) -> Result<(), AllocError>
        ensures { self.new ≡ self.old }
    {
        self.text.reserve(bytes)?;
        self.ends.reserve(lines)
    }

    /// Returns the allocator.
    #[inline]
    pub(crate) fn alloc(&self) -> Global {
        *self.ends.allocator()
    }

    /// Returns the number of ended lines.
    #[inline]
    pub fn line_count(&self) -> usize
        ensures { result ≡ length self.now.lines }
    {
        self.ends.as_slice().len()
    }

    /// Reports whether the open line has neither a character nor a mark.
    #[inline]
    pub fn is_line_empty(&self) -> bool
        ensures test { result ≡ (length self.now.line == 0) }
        ensures empty { OnTrue result (self.now.line ≡ []) }
    {
        self.slots.len() == self.slot_start
    }

    /// Returns the columns of the open line. `None` if they pass a machine word.
    #[inline]
    pub fn open_columns(&self) -> Option<usize>
        ensures { result ≡ counted (columns self.now.line) }
    {
        self.columns
    }

    /// Appends a text of `width` columns to the open line, under a tag.
    ///
    /// # Errors
    ///
    /// `AllocError`. The buffer then has no lines.
    #[inline(always)]
    pub fn push_str(&mut self, text: &str, width: usize, tag: T) -> Result<(), AllocError>
        requires { width ≡ text_columns (chars text.now) }
        ensures ok { OnOk result (self.new ≡ record { lines = self.old.lines; line = self.old.line ++ under tag (chars text.now) }) }
        ensures err { OnErr result (self.new ≡ no_lines) }
    {
        self.push_counted(text, known(width), tag)
    }

    /// Appends a character of `width` columns to the open line, under a tag.
    ///
    /// # Errors
    ///
    /// `AllocError`. The buffer then has no lines.
    #[inline]
    pub fn push_char(&mut self, c: char, width: usize, tag: T) -> Result<(), AllocError>
        requires { width ≡ width_of c }
        ensures ok { OnOk result (self.new ≡ record { lines = self.old.lines; line = self.old.line ++ Element.Character c tag ∷ [] }) }
        ensures err { OnErr result (self.new ≡ no_lines) }
    {
        let columns = counted_sum(self.columns, known(width));
        let put = put_char(&mut self.text, &mut self.slots, c, tag);
        match put {
            Ok(()) => self.columns = columns,
            // Memory ran out.
            Err(_) => {
                clear_all(&mut self.text, &mut self.slots, &mut self.ends);
                self.start = 0;
                self.slot_start = 0;
                self.columns = Some(0);
            }
        }
        put
    }

    /// Appends a text to the open line, under a tag. Its columns are counted before; `None` if they pass a machine word.
    ///
    /// # Errors
    ///
    /// `AllocError`. The buffer then has no lines.
    #[inline(always)]
    pub(crate) fn push_counted(
        &mut self,
        text: &str,
        width: Option<usize>,
        tag: T,
    ) -> Result<(), AllocError>
        requires { width ≡ counted (text_columns (chars text.now)) }
        ensures ok { OnOk result (self.new ≡ record { lines = self.old.lines; line = self.old.line ++ under tag (chars text.now) }) }
        ensures err { OnErr result (self.new ≡ no_lines) }
    {
        let columns = counted_sum(self.columns, width);
        let put = put_text(&mut self.text, &mut self.slots, text, tag);
        match put {
            Ok(()) => self.columns = columns,
            // Memory ran out.
            Err(_) => {
                clear_all(&mut self.text, &mut self.slots, &mut self.ends);
                self.start = 0;
                self.slot_start = 0;
                self.columns = Some(0);
            }
        }
        put
    }

    /// Appends a character or a mark to the open line.
    ///
    /// # Errors
    ///
    /// `AllocError`. The buffer then has no lines.
    fn push_element(&mut self, element: Element<T, M>) -> Result<(), AllocError>
        ensures ok { OnOk result (self.new ≡ record { lines = self.old.lines; line = self.old.line ++ element ∷ [] }) }
        ensures err { OnErr result (self.new ≡ no_lines) }
    {
        match element {
            Element::Character(c, tag) => self.push_char(c, width_of(c), tag),
            Element::Mark(mark) => self.push_mark(mark),
        }
    }

    /// Appends elements to the open line, the last one first.
    ///
    /// # Errors
    ///
    /// `AllocError`. The buffer then has no lines.
    pub(crate) fn push_reversed(&mut self, elements: &[Element<T, M>]) -> Result<(), AllocError>
        ensures ok { OnOk result (self.new ≡ record { lines = self.old.lines; line = self.old.line ++ reverse elements.now }) }
        ensures err { OnErr result (self.new ≡ no_lines) }
    {
        for element in elements.iter().rev() {
            self.push_element(*element)?;
        }
        Ok(())
    }

    /// Appends a mark to the open line.
    ///
    /// # Errors
    ///
    /// `AllocError`. The buffer then has no lines.
    pub fn push_mark(&mut self, mark: M) -> Result<(), AllocError>
        ensures ok { OnOk result (self.new ≡ record { lines = self.old.lines; line = self.old.line ++ Element.Mark mark ∷ [] }) }
        ensures err { OnErr result (self.new ≡ no_lines) }
    {
        let put = self.slots.push(1, Slot::Mark(mark));
        match put {
            Ok(()) => {}
            // Memory ran out.
            Err(_) => {
                clear_all(&mut self.text, &mut self.slots, &mut self.ends);
                self.start = 0;
                self.slot_start = 0;
                self.columns = Some(0);
            }
        }
        put
    }

    /// Appends marks to the open line.
    ///
    /// # Errors
    ///
    /// `AllocError`. The buffer then has no lines.
    pub fn push_marks(&mut self, marks: &[M]) -> Result<(), AllocError>
        ensures ok { OnOk result (self.new ≡ record { lines = self.old.lines; line = self.old.line ++ marks_line marks.now }) }
        ensures err { OnErr result (self.new ≡ no_lines) }
    {
        for mark in marks {
            self.push_mark(*mark)?;
        }
        Ok(())
    }

    /// Ends the open line, and opens an empty one.
    ///
    /// # Errors
    ///
    /// `AllocError`. The buffer then has no lines.
    #[inline]
    pub fn end_line(&mut self) -> Result<(), AllocError>
        ensures ok { OnOk result (self.new ≡ record { lines = self.old.lines ++ self.old.line ∷ []; line = [] }) }
        ensures err { OnErr result (self.new ≡ no_lines) }
    {
        let slots = self.slots.len();
        let ended = put_end(&mut self.text, &mut self.ends, slots, self.columns);
        self.columns = Some(0);
        match ended {
            Ok(end) => {
                self.start = end;
                self.slot_start = slots;
                Ok(())
            }
            // Memory ran out.
            Err(e) => {
                clear_all(&mut self.text, &mut self.slots, &mut self.ends);
                self.start = 0;
                self.slot_start = 0;
                Err(e)
            }
        }
    }

    /// Reports whether all characters have this tag, and there are no marks. Lines without either aren't looked into.
    #[inline]
    pub fn is_plain(&self, tag: T) -> bool
        ensures { OnTrue result (ArePlain tag self.now.lines) }
    {
        self.slots.has_one_tag(Slot::Byte(tag))
    }

    /// Returns the text of the open line.
    #[inline]
    fn open_text(&self) -> &str
        ensures { result.now ≡ text_bytes self.now.line }
    {
        text_from(self.text.as_str(), self.start)
    }

    /// Returns the text, with a newline at the end of each ended line.
    pub fn into_string(self) -> String
        ensures { string_bytes result ≡ all_bytes self }
    {
        self.text
    }
}

/// Returns a number of columns that is known.
#[inline]
fn known(width: usize) -> Option<usize>
    ensures { result ≡ counted width }
{
    Some(width)
}

/// Returns the sum of two numbers of columns. `None` if it passes a machine word.
#[inline]
pub(crate) fn counted_sum(count: Option<usize>, more: Option<usize>) -> Option<usize>
    ensures { (n m : ℕ) → count ≡ counted n → more ≡ counted m → result ≡ counted (n + m) }
{
    count?.checked_add(more?)
}

/// Removes all of a buffer's text, slots and ends, and keeps their memory.
fn clear_all<T: Tag, M: Copy>(
    text: &mut String,
    slots: &mut TagRuns<Slot<T, M>>,
    ends: &mut Vec<LineEnd>,
)
    ensures text { string_bytes text.new ≡ [] }
    ensures slots { slots.new ≡ [] }
    ensures ends { ends.new.items ≡ [] }
{
    text.clear();
    slots.clear();
    ends.clear();
}

/// Appends a text and its slots.
#[inline(always)]
fn put_text<T: Tag, M: Copy>(
    text: &mut String,
    slots: &mut TagRuns<Slot<T, M>>,
    more: &str,
    tag: T,
) -> Result<(), AllocError>
    ensures text { OnOk result (string_bytes text.new ≡ string_bytes text.old ++ more.now) }
    ensures slots { OnOk result (slots.new ≡ slots.old ++ replicate (length more.now) (Slot.Byte tag)) }
    ensures utf8 { IsUtf8 more.now }
{
    text.push_str(more)?;
    slots.push(more.len(), Slot::Byte(tag))
}

/// Appends a character and its slots.
#[inline]
fn put_char<T: Tag, M: Copy>(
    text: &mut String,
    slots: &mut TagRuns<Slot<T, M>>,
    c: char,
    tag: T,
) -> Result<(), AllocError>
    ensures text { OnOk result (string_bytes text.new ≡ string_bytes text.old ++ encode_utf8 c) }
    ensures slots { OnOk result (slots.new ≡ slots.old ++ replicate (length (encode_utf8 c)) (Slot.Byte tag)) }
{
    text.push(c)?;
    slots.push(c.len_utf8(), Slot::Byte(tag))
}

/// Appends a newline, and the end of the line. Returns where its text ends.
#[inline]
fn put_end(
    text: &mut String,
    ends: &mut Vec<LineEnd>,
    slots: usize,
    columns: Option<usize>,
) -> Result<usize, AllocError>
    ensures text { OnOk result (string_bytes text.new ≡ string_bytes text.old ++ 10 ∷ []) }
    ensures ends { IfOk result (λ end. ends.new.items ≡ ends.old.items ++ record { text = end; slots = slots; columns = columns } ∷ []) }
    ensures end { IfOk result (λ end. end ≡ length (string_bytes text.new)) }
{
    text.push('\n')?;
    let end = text.as_str().len();
    ends.push(LineEnd::new(end, slots, columns))?;
    Ok(end)
}

/// Returns what is after a place in a text.
#[inline]
fn text_from(text: &str, start: usize) -> &str
    requires within { start ≤ length text.now }
    requires begins { IsCharBoundary text.now start }
    ensures { result.now ≡ drop start text.now }
{
    &text[start..]
}
