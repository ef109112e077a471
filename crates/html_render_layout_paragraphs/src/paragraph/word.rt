//! The open word, and placing of words: as a whole if they fit on the line, otherwise character by character.

ghost use Rattle.std.specs.Prelude.{IfErr, IfOk, ◌≤◌, length, ◌≡◌, ◌+◌, ◌<◌, [], ◌++◌, Some, None, OnOk, IfSome, map, true, false};
ghost use Rattle.std.specs.Bool.{OnTrue};
ghost use Rattle.std.specs.Str.{chars, IsUtf8};
ghost use Rattle.html_render_dom_values.specs.Outcome.{Gives, Refuses};
ghost use Rattle.html_render_layout_lines.specs.Character.{width_of, character_of};
ghost use Rattle.html_render_layout_lines.specs.Line.{columns, word_columns};
ghost use Rattle.html_render_layout_paragraphs.specs.Paragraph.{fits, with_due_space, put_items};
ghost use Rattle.html_render_layout_paragraphs.specs.Placing.{put_word};
ghost use Rattle.html_render_layout_paragraphs.specs.Stream.{on_page, placed_word, end_word, singles_step, styled};
ghost use Rattle.html_render_layout_lines.specs.TaggedText.{Cuts, open_elements, items_of, text_columns, style_tag, under};
ghost use Rattle.html_render_layout_paragraphs.specs.Word.{with_word, EndsInCharacter};
ghost use Rattle.html_render_layout_paragraphs.specs.Feeding.{IsFront, placed_text, put_runs};

use crate::paragraph::feeding::printable_in_front;
use crate::paragraph::{OpenWord, Paragraph};
use crate::word::{Word, push_word};
use html_render_dom_values::Error;
use html_render_layout_lines::character::{
    Character, Kind, TextStyle, split_first_character, width_of,
};
use html_render_layout_lines::line::{Element, Run, style_tag};
use html_render_layout_lines::tag::Tag;
use std::alloc::AllocError;
use std::mem;

/// A leading part of a text: its number of bytes, and its columns.
#[derive(Clone, Copy)]
struct Front {
    bytes: usize,
    columns: usize,
}

impl<T: Tag, M: Copy> Paragraph<T, M> {
    /// Reports whether the open word fits on the line after the pending space.
    #[inline]
    fn has_room(&self) -> bool
        ensures { result ≡ fits self.now.setting (with_due_space self.now.page self.now.pending) (word_columns self.now.word) }
    {
        let _width = self.width;
        match self.word.columns() {
            Some(columns) => self.fits_behind_gap(columns),
            None => false,
        }
    }

    /// Removes and returns the open word.
    fn take_word(&mut self) -> Word<T, M>
        ensures word { result ≡ self.old.word }
        ensures after { self.new ≡ record self.old { word = []; open_word = None } }
    {
        self.open_word = OpenWord::Closed;
        mem::replace(&mut self.word, Word::new(self.alloc))
    }

    /// Keeps the memory of a placed word for the next one. No word is open then.
    fn reuse_word(&mut self, word: Word<T, M>)
        ensures { self.new ≡ record self.old { word = []; open_word = None } }
    {
        self.word = word;
        self.clear_word();
    }

    /// Closes the open word, if there is one, and discards its contents.
    #[inline]
    pub(super) fn clear_word(&mut self)
        ensures { self.new ≡ record self.old { word = []; open_word = None } }
    {
        self.word.clear();
        self.open_word = OpenWord::Closed;
    }

    /// Appends the open word of `width` columns to the line as a whole. The word must end with a character.
    #[tactic(auto, using(crate::proofs::WholeWords::whole))]
    fn push_word(&mut self, width: usize) -> Result<(), AllocError>
        requires width { width ≡ word_columns self.old.word }
        requires whole { EndsInCharacter self.old.word }
        ensures { OnOk result (self.new ≡ record self.old { page = with_word self.old.page self.old.word; word = []; open_word = None }) }
    {
        self.push_waiting()?;
        push_word(&mut self.lines, &self.word, width, self.continues)?;
        self.clear_word();
        Ok(())
    }

    /// Returns the columns of the open word if it can be appended as a whole: if it fits on the line and ends with a
    /// character.
    #[inline]
    fn whole_width(&self) -> Option<usize>
        ensures width { IfSome result (λ w. w ≡ word_columns self.now.word) }
        ensures whole { IfSome result (λ w. EndsInCharacter self.now.word) }
        ensures fits { IfSome result (λ w. fits self.now.setting self.now.page (word_columns self.now.word) ≡ true) }
    {
        let width = self.word.columns()?;
        if self.fits(width) && self.word.ends_in_character() {
            Some(width)
        } else {
            None
        }
    }

    /// Places the open word: as a whole if it can be appended so, otherwise character by character.
    #[tactic(auto, using(crate::proofs::WholeWords::whole_words))]
    fn put_word(&mut self) -> Result<(), Error>
        ensures ok { OnOk result (
            on_page (record self.old { word = []; open_word = None }) (put_items self.old.setting self.old.page self.old.word) ≡ Some self.new) }
        ensures err { IfErr result (λ e. Refuses e (put_items self.old.setting self.old.page self.old.word)) }
    {
        match self.whole_width() {
            Some(width) => {
                self.push_word(width)?;
                Ok(())
            }
            None => self.put_word_by_characters(),
        }
    }

    /// Places the characters and marks of the open word one by one.
    fn put_word_by_characters(&mut self) -> Result<(), Error>
        ensures ok { OnOk result (
            on_page (record self.old { word = []; open_word = None }) (put_items self.old.setting self.old.page self.old.word) ≡ Some self.new) }
        ensures err { IfErr result (λ e. Refuses e (put_items self.old.setting self.old.page self.old.word)) }
    {
        let word = self.take_word();
        self.put_items(&word)?;
        self.reuse_word(word);
        Ok(())
    }

    /// Places the characters and marks of a word one by one.
    #[tactic(auto, using(html_render_dom_values::specs::laws::Outcome::refusals, crate::proofs::WordColumns::item_parts))]
    fn put_items(&mut self, word: &Word<T, M>) -> Result<(), Error>
        ensures ok { OnOk result (on_page self.old (put_items self.old.setting self.old.page word.now) ≡ Some self.new) }
        ensures err { IfErr result (λ e. Refuses e (put_items self.old.setting self.old.page word.now)) }
    {
        let parts = word.parts();
        self.put_runs(parts.closed, parts.closed_text)?;
        self.put_open_run(parts.tag, parts.open_text)
    }

    /// Places the characters of a word's open run one by one. `style` is `None` if no run is open.
    #[tactic(auto, using(crate::proofs::WordColumns::open_runs))]
    fn put_open_run(&mut self, style: Option<TextStyle<T>>, text: &str) -> Result<(), Error>
        ensures ok { OnOk result (on_page self.old (put_items self.old.setting self.old.page (items_of (open_elements style text.now))) ≡ Some self.new) }
        ensures err { IfErr result (λ e. Refuses e (put_items self.old.setting self.old.page (items_of (open_elements style text.now)))) }
    {
        if let Some(style) = style {
            self.put_characters(text, style)?;
        }
        Ok(())
    }

    /// Places the characters and marks of a word's closed runs one by one. `text` is the text of the runs.
    #[tactic(auto, using(html_render_dom_values::specs::laws::Outcome::refusals))]
    fn put_runs(&mut self, runs: &[Run<TextStyle<T>, M>], text: &str) -> Result<(), Error>
        requires { Cuts runs.now text.now }
        ensures ok { OnOk result (on_page self.old (put_runs self.old.setting self.old.page runs.now text.now) ≡ Some self.new) }
        ensures err { IfErr result (λ e. Refuses e (put_runs self.old.setting self.old.page runs.now text.now)) }
    {
        let mut at = 0;
        for run in runs {
            match run {
                Run::Text(len, style) => {
                    let end = at + *len;
                    self.put_characters(&text[at..end], *style)?;
                    at = end;
                }
                Run::Mark(mark) => self.hold_mark(*mark)?,
            }
        }
        Ok(())
    }

    /// Places the characters of a text one by one: each on the open line if it fits there, and otherwise on a
    /// continuation line.
    #[tactic(auto, using(html_render_dom_values::specs::laws::Outcome::refusals))]
    pub(super) fn put_characters(&mut self, text: &str, style: TextStyle<T>) -> Result<(), Error>
        ensures ok { OnOk result (on_page self.old (put_items self.old.setting self.old.page (styled style (chars text.now))) ≡ Some self.new) }
        ensures err { IfErr result (λ e. Refuses e (put_items self.old.setting self.old.page (styled style (chars text.now)))) }
    {
        let mut rest = text;
        while !rest.is_empty() {
            self.make_line_for(rest, style)?;
            rest = self.put_front(rest, style)?;
        }
        Ok(())
    }

    /// Reports whether a character of `width` columns doesn't fit on the open line, but on an empty one.
    #[inline]
    fn is_for_next_line(&self, width: usize) -> bool
        ensures here { OnTrue result (fits self.now.setting self.now.page width ≡ false) }
        ensures there { OnTrue result (width ≤ self.now.setting.width) }
    {
        !self.fits(width) && width <= self.width
    }

    /// Begins a continuation line if the first character of a text doesn't fit on the open line, but on an empty one.
    #[tactic(auto, using(crate::proofs::WholeWords::next_lines))]
    fn make_line_for(&mut self, text: &str, style: TextStyle<T>) -> Result<(), AllocError>
        requires { 0 < length text.now }
        ensures { OnOk result (on_page self.old (put_items self.old.setting self.old.page (styled style (chars text.now)))
            ≡ on_page self.new (put_items self.new.setting self.new.page (styled style (chars text.now)))) }
    {
        let (c, _) = split_first_character(text);
        if self.is_for_next_line(width_of(c)) {
            self.continue_line()?;
        }
        Ok(())
    }

    /// Places the longest leading part of a text that fits on the line, or else its first character. Returns the rest
    /// of the text.
    #[tactic(auto, using(html_render_dom_values::specs::laws::Outcome::refusals))]
    fn put_front<'a>(&mut self, text: &'a str, style: TextStyle<T>) -> Result<&'a str, Error>
        requires { 0 < length text.now }
        ensures ok { IfOk result (λ rest. on_page self.old (put_items self.old.setting self.old.page (styled style (chars text.now)))
            ≡ on_page self.new (put_items self.new.setting self.new.page (styled style (chars rest.now)))) }
        ensures text { IfOk result (λ rest. IsUtf8 rest.now) }
        ensures shorter { IfOk result (λ rest. length rest.now < length text.now) }
        ensures err { IfErr result (λ e. Refuses e (put_items self.old.setting self.old.page (styled style (chars text.now)))) }
    {
        let front = self.fitting_front(text);
        if front.bytes > 0 {
            self.push_text(&text[..front.bytes], front.columns, style)?;
            return Ok(&text[front.bytes..]);
        }
        let (c, behind) = split_first_character(text);
        self.put_character(character_of(c, style), width_of(c))?;
        Ok(behind)
    }

    /// Returns the longest leading part of a text that fits on the line. It is empty if the line passes its width.
    fn fitting_front(&self, text: &str) -> Front
        ensures front { IsFront text.now result.bytes result.columns }
        ensures fits { 0 < result.bytes → fits self.now.setting self.now.page result.columns ≡ true }
    {
        let width = self.width;
        match self.lines.open_columns() {
            Some(columns) if columns <= width => longest_front(text, width - columns),
            _ => Front {
                bytes: 0,
                columns: 0,
            },
        }
    }

    /// Places the open word, after the pending space or on a continuation line.
    #[inline(never)]
    #[tactic(auto, using(html_render_dom_values::specs::laws::Outcome::refusals))]
    fn place_word(&mut self) -> Result<(), Error>
        ensures { Gives result (placed_word self.old) self.new }
    {
        self.make_place(self.has_room())?;
        self.put_word()
    }

    /// Places the open word, if there is one. Most calls find none.
    #[inline(always)]
    pub(super) fn end_word(&mut self) -> Result<(), Error>
        ensures { Gives result (end_word self.old) self.new }
    {
        match self.open_word {
            OpenWord::Closed => Ok(()),
            OpenWord::Collapsed | OpenWord::Preserved => self.place_word(),
        }
    }

    /// Begins an empty word. `preserved` says whether white space is preserved in its text.
    pub(super) fn begin_word(&mut self, preserved: bool)
        ensures { self.new ≡ record self.old { word = []; open_word = Some preserved } }
    {
        self.word.clear();
        self.open_word = if preserved {
            OpenWord::Preserved
        } else {
            OpenWord::Collapsed
        };
    }

    /// Appends the waiting marks and a text of `width` columns to the open line.
    #[inline]
    pub(super) fn push_text(
        &mut self,
        text: &str,
        width: usize,
        style: TextStyle<T>,
    ) -> Result<(), AllocError>
        requires { width ≡ text_columns (chars text.now) }
        ensures { OnOk result (self.new ≡ record self.old {
          page = record self.old.page {
            line = (self.old.page.line ++ map (λ m. Element.Mark m) self.old.page.waiting)
                ++ under (style_tag self.old.page.continues style) (chars text.now);
            waiting = [];
          };
        }) }
    {
        self.push_waiting()?;
        self.lines
            .push_str(text, width, style_tag(style, self.continues))
    }

    /// Places a text of `width` columns and at least one character: as a whole if it fits on the line, otherwise
    /// character by character.
    #[tactic(auto, using(html_render_dom_values::specs::laws::Outcome::refusals, crate::proofs::WholeWords::text_words))]
    pub(super) fn put_text(
        &mut self,
        text: &str,
        width: usize,
        style: TextStyle<T>,
    ) -> Result<(), Error>
        requires width { width ≡ text_columns (chars text.now) }
        requires some { 0 < length text.now }
        ensures ok { OnOk result (on_page self.old (put_items self.old.setting self.old.page (styled style (chars text.now))) ≡ Some self.new) }
        ensures err { IfErr result (λ e. Refuses e (put_items self.old.setting self.old.page (styled style (chars text.now)))) }
    {
        if self.fits(width) {
            self.push_text(text, width, style)?;
            Ok(())
        } else {
            self.put_characters(text, style)
        }
    }

    /// Places the characters of a text of `width` columns by themselves, after the pending space if that fits. The text has at
    /// least one. It is called while no word is open.
    #[tactic(auto, using(html_render_dom_values::specs::laws::Outcome::refusals))]
    pub(super) fn place_singles(
        &mut self,
        text: &str,
        width: usize,
        style: TextStyle<T>,
    ) -> Result<(), Error>
        requires width { width ≡ text_columns (chars text.now) }
        requires some { 0 < length text.now }
        ensures { Gives result (singles_step self.old style (chars text.now)) self.new }
    {
        self.settle_for(Kind::Preserved)?;
        self.put_text(text, width, style)
    }

    /// Places a text of `width` columns and at least one character as a word, after the pending space or on a
    /// continuation line. It is called while no word is open.
    #[tactic(auto, using(html_render_dom_values::specs::laws::Outcome::refusals, crate::proofs::WordColumns::texts))]
    pub(super) fn place_text(
        &mut self,
        text: &str,
        width: usize,
        style: TextStyle<T>,
    ) -> Result<(), Error>
        requires width { width ≡ text_columns (chars text.now) }
        requires some { 0 < length text.now }
        ensures { Gives result (placed_text self.old style (chars text.now)) self.new }
    {
        self.make_place(self.fits_behind_gap(width))?;
        self.put_text(text, width, style)
    }
}

/// Returns a character with the mode and the tags of a style.
#[inline]
pub(super) fn character_of<T: Copy>(c: char, style: TextStyle<T>) -> Character<T>
    ensures { result ≡ character_of style c }
{
    Character {
        code: c,
        mode: style.mode,
        tag: style.tag,
        continuation_tag: style.continuation_tag,
    }
}

/// Returns the number of printable ASCII characters at the start of a text, at most `room`.
#[inline]
fn printable_front(text: &str, room: usize) -> usize
    ensures front { IsFront text.now result result }
    ensures fits { result ≤ room }
{
    let bytes = text.as_bytes();
    printable_in_front(&bytes[..room.min(bytes.len())])
}

/// Returns the first character of a text as a leading part. The part is empty if the character has more than `room`
/// columns.
fn first_front(text: &str, room: usize) -> Front
    requires { 0 < length text.now }
    ensures front { IsFront text.now result.bytes result.columns }
    ensures fits { result.columns ≤ room }
{
    let (c, behind) = split_first_character(text);
    let width = width_of(c);
    if width > room {
        return Front {
            bytes: 0,
            columns: 0,
        };
    }
    Front {
        bytes: text.len() - behind.len(),
        columns: width,
    }
}

/// Returns a leading part of a text of at most `room` columns: its printable ASCII characters, or else its first character.
/// The part is empty if that is wider.
fn next_front(text: &str, room: usize) -> Front
    requires { 0 < length text.now }
    ensures front { IsFront text.now result.bytes result.columns }
    ensures fits { result.columns ≤ room }
{
    let count = printable_front(text, room);
    if count == 0 {
        return first_front(text, room);
    }
    Front {
        bytes: count,
        columns: count,
    }
}

/// Returns the longest leading part of a text that has at most `room` columns.
fn longest_front(text: &str, room: usize) -> Front
    ensures front { IsFront text.now result.bytes result.columns }
    ensures fits { result.columns ≤ room }
{
    let mut bytes = 0;
    let mut columns: usize = 0;
    while bytes < text.len() {
        let next = next_front(&text[bytes..], room - columns);
        if next.bytes == 0 {
            break;
        }
        bytes += next.bytes;
        columns += next.columns;
    }
    Front { bytes, columns }
}
