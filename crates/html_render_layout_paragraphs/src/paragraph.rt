//! A paragraph, which wraps texts and marks into lines.
//!
//! At a width of 11 and with a style of `WhiteSpace::Normal`, `paragraph.add_text("Hello wide world", style)?` and then
//! `paragraph.flush(&mut lines)?` append the lines `Hello wide` and `world`.

ghost use Rattle.std.specs.Prelude.{◌≡◌, [], ◌==◌, Some, None, OnOk, IfOk, IfErr, length, not, option_map};
ghost use Rattle.std.specs.Bool.{OnTrue};
ghost use Rattle.std.specs.Str.{chars};
ghost use Rattle.html_render_dom_values.specs.Outcome.{Gives, OnlyOutOfMemory, Refuses};
ghost use Rattle.html_render_layout_paragraphs.specs.Paragraph.{all_lines};
ghost use Rattle.html_render_layout_paragraphs.specs.Stream.{start, step, after, styled, finished, flushed_to};

use crate::word::Word;
use html_render_dom_values::Error;
use html_render_layout_buffer::buffer::LineBuffer;
use html_render_layout_buffer::finished::FinishedLines;
use html_render_layout_lines::character::{Character, Item, TextStyle};
use html_render_layout_lines::tag::Tag;
use std::alloc::{AllocError, Global};
use std::marker::Model;
use std::mem;

mod cut;
mod feeding;
mod line_buffer;
mod word;

/// Whether a word is open, and how the white space of its text is treated.
#[derive(Clone, Copy)]
enum OpenWord {
    /// No word is open.
    Closed,
    /// A word of a text whose white space is collapsed.
    Collapsed,
    /// A word of a text whose white space is preserved.
    Preserved,
}

/// A paragraph of lines of a given width, which is fed texts and marks in order.
///
/// The section "Paragraphs" of docs/BEHAVIOUR.md states where characters are placed.
#[derive(Drop)]
pub struct Paragraph<T, M> {
    /// Allocator of words and waiting marks.
    alloc: Global,
    /// Columns of a line.
    width: usize,
    /// Whether a character wider than a line is placed nevertheless.
    overflow: bool,
    /// Finished lines, and the open line.
    lines: LineBuffer<T, M>,
    /// Whether the open line is a continuation line: it began because something didn't fit.
    continues: bool,
    /// Marks that wait for the next character.
    waiting: Vec<M>,
    /// Pending space: white space after which nothing is placed yet.
    pending: Option<Character<T>>,
    /// The open word.
    word: Word<T, M>,
    /// Whether a word is open.
    open_word: OpenWord,
}

impl<T, M> Model for Paragraph<T, M> {
    ghost use Rattle.html_render_layout_paragraphs.specs.OpenWord.{open_word_of};
    ghost use Rattle.html_render_layout_paragraphs.specs.Stream.{State};

    ghost Value = { State T M };

    ghost view = { λ p. record {
      setting = record { width = p.width; overflow = p.overflow };
      page = record { lines = p.lines.lines; line = p.lines.line; continues = p.continues; waiting = p.waiting.items };
      pending = p.pending;
      word = p.word;
      open_word = open_word_of p.open_word;
    } };
}

impl<T: Tag, M: Copy> Paragraph<T, M> {
    /// Returns an empty paragraph for lines of `width` columns.
    ///
    /// A character that is wider than a line is alone on its line with `overflow`. Without it,
    /// [`add_text`](Paragraph::add_text) or [`flush`](Paragraph::flush) returns `TooNarrow`.
    pub fn new(alloc: Global, width: usize, overflow: bool) -> Self
        ensures { result ≡ start (record { width = width; overflow = overflow }) [] }
    {
        Paragraph {
            alloc,
            width,
            overflow,
            lines: LineBuffer::new(alloc),
            continues: false,
            waiting: Vec::new(alloc),
            pending: None,
            word: Word::new(alloc),
            open_word: OpenWord::Closed,
        }
    }

    /// Resets to an empty paragraph for lines of `width` columns, reusing the memory.
    #[inline(always)]
    pub fn renew(&mut self, width: usize, overflow: bool)
        ensures { self.new ≡ start (record { width = width; overflow = overflow }) [] }
    {
        self.width = width;
        self.overflow = overflow;
        self.lines.clear();
        self.continues = false;
        self.waiting.clear();
        self.pending = None;
        self.clear_word();
    }

    /// Feeds a mark. It takes no column, and directly precedes the next character that is placed. A pending space is
    /// placed before the mark.
    ///
    /// While a word is open, the mark is a part of it. Otherwise it waits.
    ///
    /// # Errors
    ///
    /// `OutOfMemory`. The contents of the paragraph are then unspecified.
    pub fn add_mark(&mut self, mark: M) -> Result<(), Error>
        ensures ok { OnOk result (step self.old (Item.Mark mark) ≡ Some self.new) }
        ensures err { OnlyOutOfMemory result }
    {
        match self.open_word {
            OpenWord::Closed => self.hold_mark(mark)?,
            OpenWord::Collapsed | OpenWord::Preserved => self.word.push_mark(mark)?,
        }
        Ok(())
    }

    /// Feeds the characters of a text.
    ///
    /// # Errors
    ///
    /// - `OutOfMemory`.
    /// - `TooNarrow`, with overflow off, if a character that is placed is wider than a line. Placed are the characters
    ///   of a word that ends, and those that are placed by themselves.
    ///
    /// The contents of the paragraph are then unspecified.
    pub fn add_text(&mut self, text: &str, style: TextStyle<T>) -> Result<(), Error>
        ensures { Gives result (after self.old (styled style (chars text.now))) self.new }
    {
        self.feed(text, style)
    }

    /// Ends the open line, unless it is empty.
    fn end_open_line(&mut self) -> Result<(), AllocError>
        ensures { OnOk result (self.new ≡ record self.old { page = record self.old.page { lines = all_lines self.old.page; line = [] } }) }
    {
        if self.lines.is_line_empty() {
            return Ok(());
        }
        self.lines.end_line()
    }

    /// Resets to an empty paragraph, except for the waiting marks. The lines must be empty already.
    fn restart(&mut self)
        requires lines { self.old.page.lines ≡ [] }
        requires line { self.old.page.line ≡ [] }
        ensures { self.new ≡ start self.old.setting self.old.page.waiting }
    {
        self.continues = false;
        self.pending = None;
        self.clear_word();
    }

    /// Reports whether the paragraph is empty, except for waiting marks, so that `flush` has nothing to do.
    #[inline]
    fn is_blank(&self) -> bool
        ensures { OnTrue result (self.now ≡ start self.now.setting self.now.page.waiting) }
    {
        matches!(self.open_word, OpenWord::Closed)
            && self.word.is_empty()
            && self.pending.is_none()
            && self.lines.is_line_empty()
            && !self.continues
            && self.lines.line_count() == 0
    }

    /// Appends the lines of all that was fed to `lines`, and empties the paragraph. Marks that still wait are kept. Returns
    /// whether there were lines.
    ///
    /// # Errors
    ///
    /// - `OutOfMemory`.
    /// - `TooNarrow`, with overflow off, if a character of the open word is wider than a line.
    ///
    /// The contents of the paragraph and of `lines` are then unspecified.
    #[inline(always)]
    #[tactic(auto, using(crate::proofs::Flushing::flushing))]
    pub fn flush(&mut self, lines: &mut FinishedLines<T, M>) -> Result<bool, Error>
        ensures ok { OnOk result (option_map (flushed_to self.old.setting lines.old) (finished self.old) ≡ Some (lines.new, self.new)) }
        ensures some { IfOk result (λ some. some ≡ not (length lines.new == length lines.old)) }
        ensures err { IfErr result (λ e. Refuses e (finished self.old)) }
    {
        if self.is_blank() {
            return Ok(false);
        }
        self.flush_contents(lines)
    }

    /// Flushes a paragraph that may have contents.
    ///
    /// # Errors
    ///
    /// Those of [`Paragraph::flush`].
    #[inline(never)]
    fn flush_contents(&mut self, lines: &mut FinishedLines<T, M>) -> Result<bool, Error>
        ensures ok { OnOk result (option_map (flushed_to self.old.setting lines.old) (finished self.old) ≡ Some (lines.new, self.new)) }
        ensures some { IfOk result (λ some. some ≡ not (length lines.new == length lines.old)) }
        ensures err { IfErr result (λ e. Refuses e (finished self.old)) }
    {
        self.end_word()?;
        self.end_open_line()?;
        let some = self.lines.line_count() > 0;
        lines.append_buffer(&mut self.lines)?;
        self.restart();
        Ok(some)
    }

    /// Removes and returns the waiting marks. Marks in an open word aren't among them.
    pub fn take_waiting(&mut self) -> Vec<M>
        ensures marks { result.items ≡ self.old.page.waiting }
        ensures after { self.new ≡ record self.old { page = record self.old.page { waiting = [] } } }
    {
        mem::replace(&mut self.waiting, Vec::new(self.alloc))
    }
}
