//! Feeding of texts: words and stretches as slices, other characters one by one.
//!
//! A stretch is consecutive characters of [`Kind::Letter`], the parts of words, or of [`Kind::Preserved`], each of which is
//! placed by itself. A text has characters of only one of these kinds.

ghost use Rattle.std.specs.Prelude.{IfErr, IfOk, length, take, drop, ◌≡◌, ◌+◌, ◌≤◌, ◌<◌, [], Some, None, true};
ghost use Rattle.std.specs.Bool.{OnTrue};
ghost use Rattle.std.specs.List.{list_all, slice_index};
ghost use Rattle.std.specs.Str.{chars, IsUtf8};
ghost use Rattle.html_render_dom_values.specs.Outcome.{Gives, Refuses};
ghost use Rattle.html_render_dom_values.specs.declared.white_space.WhiteSpace.TheVariants.{Normal};
ghost use Rattle.html_render_layout_lines.specs.Character.{kind, width_of, character_of};
ghost use Rattle.html_render_layout_paragraphs.specs.Feeding.{is_ascii_from, IsStretch, IsFront, HasFreeColumns, placed_text_and_space, with_words};
ghost use Rattle.html_render_layout_paragraphs.specs.Stream.{after, step, letter_step, letters_step, then_single, then_singles, stretch_step, character_step};
ghost use Rattle.html_render_layout_paragraphs.specs.Stream.{with_pending, joins, styled};
ghost use Rattle.html_render_layout_lines.specs.TaggedText.{text_columns};

use crate::paragraph::word::character_of;
use crate::paragraph::{OpenWord, Paragraph};
use html_render_dom_values::Error;
use html_render_dom_values::white_space::WhiteSpace;
use html_render_layout_lines::character::{
    Character, Class, Item, Kind, TextStyle, class_of, split_first_character,
};
use html_render_layout_lines::tag::Tag;
use std::alloc::AllocError;
use std::simd::prelude::*;

/// A stretch at the start of a text: its number of bytes, and its columns.
#[derive(Clone, Copy)]
struct Stretch {
    bytes: usize,
    columns: usize,
}

/// Words at the start of a text, each with the space before it, and the stretch after them and after one byte of white space.
#[derive(Clone, Copy)]
struct FittingWords {
    bytes: usize,
    columns: usize,
    next: Stretch,
}

/// A rest of a text, and a stretch at its start, which needn't be looked for again.
#[derive(Drop)]
struct Rest<'a> {
    text: &'a str,
    stretch: Stretch,
}

impl<T: Tag, M: Copy> Paragraph<T, M> {
    /// Places the open word, if there is one, and then a character by itself.
    #[tactic(auto, using(html_render_dom_values::specs::laws::Outcome::refusals))]
    fn add_single(&mut self, class: Class, character: Character<T>) -> Result<(), Error>
        requires { class.width ≡ width_of character.code }
        ensures { Gives result (then_single self.old class.kind character) self.new }
    {
        self.end_word()?;
        self.place_single(class, character)
    }

    /// Reports whether a letter joins the open word. `preserved` says whether white space is preserved in the letter's
    /// text.
    #[inline]
    fn joins(&self, preserved: bool) -> bool
        ensures { result ≡ joins self.now.open_word preserved }
    {
        match self.open_word {
            OpenWord::Closed => false,
            OpenWord::Collapsed => !preserved,
            OpenWord::Preserved => preserved,
        }
    }

    /// Feeds a letter of `width` columns. It joins the open word, or that word is placed and the letter begins another.
    #[tactic(auto, using(html_render_dom_values::specs::laws::Outcome::refusals))]
    fn add_letter(&mut self, c: char, width: usize, style: TextStyle<T>) -> Result<(), Error>
        requires { width ≡ width_of c }
        ensures { Gives result (letter_step self.old (character_of style c)) self.new }
    {
        let preserved = style.mode.preserve_whitespace();
        if !self.joins(preserved) {
            self.end_word()?;
            self.begin_word(preserved);
        }
        self.word.push_char(c, width, style)?;
        Ok(())
    }

    /// Feeds collapsible white space: places the open word, if there is one, and notes a pending space.
    #[inline(never)]
    #[tactic(auto, using(html_render_dom_values::specs::laws::Outcome::refusals))]
    fn add_space(&mut self, character: Character<T>) -> Result<(), Error>
        ensures { Gives result (character_step Kind.Space self.old character) self.new }
    {
        self.end_word()?;
        self.note_space(character);
        Ok(())
    }

    /// Makes a character the pending space, unless there is one already.
    #[inline]
    fn note_space(&mut self, character: Character<T>)
        ensures { self.new ≡ with_pending self.old character }
    {
        if self.pending.is_none() {
            self.pending = Some(character);
        }
    }

    /// Makes a character the pending space.
    #[inline]
    fn set_pending(&mut self, character: Character<T>)
        ensures { self.new ≡ record self.old { pending = Some character } }
    {
        self.pending = Some(character);
    }

    /// Feeds a character of a given class.
    fn add_classed(&mut self, class: Class, c: char, style: TextStyle<T>) -> Result<(), Error>
        requires { class.width ≡ width_of c }
        ensures { Gives result (character_step class.kind self.old (character_of style c)) self.new }
    {
        match class.kind {
            Kind::Letter => self.add_letter(c, class.width, style),
            Kind::Space => self.add_space(character_of(c, style)),
            Kind::Divider => self.end_word(),
            Kind::Dropped => Ok(()),
            Kind::Preserved | Kind::Newline | Kind::Tab | Kind::SoftSpace | Kind::SoftTab =>
                self.add_single(class, character_of(c, style)),
        }
    }

    /// Feeds a character in a style.
    fn add_character(&mut self, c: char, style: TextStyle<T>) -> Result<(), Error>
        ensures { Gives result (step self.old (Item.Character (character_of style c))) self.new }
    {
        self.add_classed(class_of(style.mode, c), c, style)
    }

    /// Feeds consecutive letters of `width` columns. They join the open word, or that word is placed and they begin
    /// another.
    #[tactic(auto, using(html_render_dom_values::specs::laws::Outcome::refusals))]
    fn add_letters(&mut self, letters: &str, width: usize, style: TextStyle<T>) -> Result<(), Error>
        requires { width ≡ text_columns (chars letters.now) }
        ensures { Gives result (letters_step self.old style (chars letters.now)) self.new }
    {
        let preserved = style.mode.preserve_whitespace();
        if !self.joins(preserved) {
            self.end_word()?;
            self.begin_word(preserved);
        }
        self.word.push_str(letters, width, style)?;
        Ok(())
    }

    /// Places the open word, if there is one, and then the characters of a text of `width` columns by themselves. The text has
    /// at least one.
    #[tactic(auto, using(html_render_dom_values::specs::laws::Outcome::refusals))]
    fn add_singles(&mut self, text: &str, width: usize, style: TextStyle<T>) -> Result<(), Error>
        requires width { width ≡ text_columns (chars text.now) }
        requires some { 0 < length text.now }
        ensures { Gives result (then_singles self.old style (chars text.now)) self.new }
    {
        self.end_word()?;
        self.place_singles(text, width, style)
    }

    /// Feeds a stretch of `width` columns and at least one character, as [`Paragraph::add_character`] does each of them.
    fn add_stretch(&mut self, stretch: &str, width: usize, style: TextStyle<T>) -> Result<(), Error>
        requires width { width ≡ text_columns (chars stretch.now) }
        requires some { 0 < length stretch.now }
        ensures { Gives result (stretch_step self.old style (chars stretch.now)) self.new }
    {
        if style.mode.do_wrap() {
            self.add_letters(stretch, width, style)
        } else {
            self.add_singles(stretch, width, style)
        }
    }

    /// Reports whether no word is open.
    #[inline]
    fn is_between_words(&self) -> bool
        ensures closed { OnTrue result (self.now.open_word ≡ None) }
        ensures word { OnTrue result (self.now.word ≡ []) }
    {
        matches!(self.open_word, OpenWord::Closed) && self.word.is_empty()
    }

    /// Places a word of `width` columns, and notes the white space after it as the pending space. It is called while no
    /// word is open.
    #[inline]
    #[tactic(auto, using(html_render_dom_values::specs::laws::Outcome::refusals))]
    fn add_word(
        &mut self,
        word: &str,
        width: usize,
        space: char,
        style: TextStyle<T>,
    ) -> Result<(), Error>
        requires width { width ≡ text_columns (chars word.now) }
        requires some { 0 < length word.now }
        ensures { Gives result (placed_text_and_space self.old style (chars word.now) space) self.new }
    {
        self.place_text(word, width, style)?;
        self.note_space(character_of(space, style));
        Ok(())
    }

    /// Returns the columns that are free on the line for a space and a word after it. 0 if the line is empty or passes
    /// its width, or if marks wait.
    #[inline]
    fn room_behind_space(&self) -> usize
        ensures { 0 < result → HasFreeColumns self.now result }
    {
        if self.lines.is_line_empty() || !self.waiting.is_empty() {
            return 0;
        }
        match self.lines.open_columns() {
            Some(columns) if columns <= self.width => self.width - columns,
            _ => 0,
        }
    }

    /// Returns the words at the start of a text that fit on the line, each with the one space before it. White space
    /// follows each of them. The text begins with the pending space, and no word is open.
    #[inline]
    fn fitting_words(&self, text: &str, style: TextStyle<T>) -> FittingWords
        requires mode { style.mode ≡ Normal }
        requires some { 0 < length text.now }
        requires byte { slice_index text.now 0 < 128 }
        requires closed { self.now.open_word ≡ None }
        requires word { self.now.word ≡ [] }
        ensures front { IsFront text.now result.bytes result.columns }
        ensures within { result.bytes < length text.now }
        ensures byte { slice_index text.now result.bytes < 128 }
        ensures waiting { 0 < result.bytes → self.now.page.waiting ≡ [] }
        ensures fed { after (with_words self.now style text.now 0) (styled style (chars (drop 1 text.now)))
            ≡ after (with_words self.now style text.now result.bytes) (styled style (chars (drop (result.bytes + 1) text.now))) }
        ensures next { IsStretch style.mode (drop (result.bytes + 1) text.now) result.next.bytes result.next.columns }
    {
        let room = self.room_behind_space();
        let mut bytes = 0;
        let mut columns: usize = 0;
        let mut next = stretch_in_front(&text[1..], style.mode);
        while text.as_bytes()[bytes] == b' '
            && next.bytes > 0
            && next.columns < room - columns
            && has_space_at(text.as_bytes(), bytes + 1 + next.bytes)
        {
            bytes = bytes + 1 + next.bytes;
            columns = columns + 1 + next.columns;
            next = stretch_in_front(&text[bytes + 1..], style.mode);
        }
        FittingWords {
            bytes,
            columns,
            next,
        }
    }

    /// Feeds the words after the pending space that fit on the line, and the white space after them. Returns the rest
    /// of the text. The text begins with the pending space, and no word is open.
    fn feed_fitting_words<'a>(
        &mut self,
        text: &'a str,
        style: TextStyle<T>,
    ) -> Result<Rest<'a>, AllocError>
        requires mode { style.mode ≡ Normal }
        requires some { 0 < length text.now }
        requires byte { slice_index text.now 0 < 128 }
        requires closed { self.old.open_word ≡ None }
        requires word { self.old.word ≡ [] }
        requires due { self.old.pending ≡ Some (character_of style (slice_index text.now 0)) }
        ensures ok { IfOk result (λ rest. after self.old (styled style (chars (drop 1 text.now))) ≡ after self.new (styled style (chars rest.text.now))) }
        ensures text { IfOk result (λ rest. IsUtf8 rest.text.now) }
        ensures stretch { IfOk result (λ rest. IsStretch style.mode rest.text.now rest.stretch.bytes rest.stretch.columns) }
        ensures shorter { IfOk result (λ rest. length rest.text.now < length text.now) }
    {
        let words = self.fitting_words(text, style);
        let count = words.bytes;
        let rest = Rest {
            text: &text[count + 1..],
            stretch: words.next,
        };
        if count == 0 {
            return Ok(rest);
        }
        let space = char::from(text.as_bytes()[count]);
        self.push_text(&text[..count], words.columns, style)?;
        self.set_pending(character_of(space, style));
        Ok(rest)
    }

    /// Feeds a word and the white space after it, and then the words after them that fit on the line. Returns the rest
    /// of the text. No word is open.
    fn feed_word<'a>(
        &mut self,
        text: &'a str,
        letters: Stretch,
        style: TextStyle<T>,
    ) -> Result<Rest<'a>, Error>
        requires mode { style.mode ≡ Normal }
        requires letters { IsStretch style.mode text.now letters.bytes letters.columns }
        requires some { 0 < letters.bytes }
        requires within { letters.bytes < length text.now }
        requires byte { slice_index text.now letters.bytes < 128 }
        requires space { kind Normal (slice_index text.now letters.bytes) ≡ Kind.Space }
        requires closed { self.old.open_word ≡ None }
        requires word { self.old.word ≡ [] }
        ensures ok { IfOk result (λ rest. after self.old (styled style (chars text.now)) ≡ after self.new (styled style (chars rest.text.now))) }
        ensures text { IfOk result (λ rest. IsUtf8 rest.text.now) }
        ensures stretch { IfOk result (λ rest. IsStretch style.mode rest.text.now rest.stretch.bytes rest.stretch.columns) }
        ensures shorter { IfOk result (λ rest. length rest.text.now < length text.now) }
        ensures err { IfErr result (λ e. Refuses e (after self.old (styled style (chars text.now)))) }
    {
        let count = letters.bytes;
        let space = char::from(text.as_bytes()[count]);
        self.add_word(&text[..count], letters.columns, space, style)?;
        Ok(self.feed_fitting_words(&text[count..], style)?)
    }

    /// Feeds the stretch at the start of a text. Returns the rest, without the stretch at its start.
    fn feed_stretch<'a>(
        &mut self,
        text: &'a str,
        stretch: Stretch,
        style: TextStyle<T>,
    ) -> Result<Rest<'a>, Error>
        requires stretch { IsStretch style.mode text.now stretch.bytes stretch.columns }
        requires some { 0 < stretch.bytes }
        ensures ok { IfOk result (λ rest. after self.old (styled style (chars text.now)) ≡ after self.new (styled style (chars rest.text.now))) }
        ensures text { IfOk result (λ rest. IsUtf8 rest.text.now) }
        ensures stretch { IfOk result (λ rest. IsStretch style.mode rest.text.now rest.stretch.bytes rest.stretch.columns) }
        ensures shorter { IfOk result (λ rest. length rest.text.now < length text.now) }
        ensures err { IfErr result (λ e. Refuses e (after self.old (styled style (chars text.now)))) }
    {
        let count = stretch.bytes;
        self.add_stretch(&text[..count], stretch.columns, style)?;
        let text = &text[count..];
        Ok(Rest {
            text,
            stretch: no_stretch(text, style.mode),
        })
    }

    /// Feeds the first character of a text. Returns the rest.
    fn feed_character<'a>(&mut self, text: &'a str, style: TextStyle<T>) -> Result<Rest<'a>, Error>
        requires { 0 < length text.now }
        ensures ok { IfOk result (λ rest. after self.old (styled style (chars text.now)) ≡ after self.new (styled style (chars rest.text.now))) }
        ensures text { IfOk result (λ rest. IsUtf8 rest.text.now) }
        ensures stretch { IfOk result (λ rest. IsStretch style.mode rest.text.now rest.stretch.bytes rest.stretch.columns) }
        ensures shorter { IfOk result (λ rest. length rest.text.now < length text.now) }
        ensures err { IfErr result (λ e. Refuses e (after self.old (styled style (chars text.now)))) }
    {
        let (c, behind) = split_first_character(text);
        self.add_character(c, style)?;
        Ok(Rest {
            text: behind,
            stretch: stretch_in_front(behind, style.mode),
        })
    }

    /// Feeds the start of a text, and returns the rest. The start is the first of these that the text has:
    ///
    /// - while no word is open, a word and the white space after it, and then the words that fit on the line
    /// - a stretch
    /// - a character
    fn feed_front<'a>(&mut self, front: Rest<'a>, style: TextStyle<T>) -> Result<Rest<'a>, Error>
        requires some { 0 < length front.text.now }
        requires stretch { IsStretch style.mode front.text.now front.stretch.bytes front.stretch.columns }
        ensures ok { IfOk result (λ rest. after self.old (styled style (chars front.entry.text.now)) ≡ after self.new (styled style (chars rest.text.now))) }
        ensures text { IfOk result (λ rest. IsUtf8 rest.text.now) }
        ensures stretch { IfOk result (λ rest. IsStretch style.mode rest.text.now rest.stretch.bytes rest.stretch.columns) }
        ensures shorter { IfOk result (λ rest. length rest.text.now < length front.entry.text.now) }
        ensures err { IfErr result (λ e. Refuses e (after self.old (styled style (chars front.entry.text.now)))) }
    {
        let Rest { text, stretch } = front;
        if stretch.bytes == 0 {
            return self.feed_character(text, style);
        }
        if style.mode == WhiteSpace::Normal
            && has_space_at(text.as_bytes(), stretch.bytes)
            && self.is_between_words()
        {
            return self.feed_word(text, stretch, style);
        }
        self.feed_stretch(text, stretch, style)
    }

    /// Feeds the characters of a text.
    pub(super) fn feed(&mut self, text: &str, style: TextStyle<T>) -> Result<(), Error>
        ensures { Gives result (after self.old (styled style (chars text.now))) self.new }
    {
        let mut rest = Rest {
            text,
            stretch: stretch_in_front(text, style.mode),
        };
        while !rest.text.is_empty() {
            rest = self.feed_front(rest, style)?;
        }
        Ok(())
    }
}

/// Reports whether a space or a line feed is at byte `at`. Both are collapsible under `Normal`.
#[inline]
#[tactic(auto, unfolding(html_render_layout_lines::specs::Character::kind))]
fn has_space_at(text: &[u8], at: usize) -> bool
    ensures within { OnTrue result (at < length text.now) }
    ensures byte { OnTrue result (slice_index text.now at < 128) }
    ensures space { OnTrue result (kind Normal (slice_index text.now at) ≡ Kind.Space) }
{
    at < text.len() && matches!(text[at], b' ' | b'\n')
}

/// Number of bytes that are tested at once. Most words are shorter.
const LANES: usize = 8;

/// Returns the number of bytes from `least` to `~` at the start of a text, at most `LANES`.
#[inline(always)]
fn ascii_in_block(text: &[u8], least: u8) -> usize
    requires { LANES ≤ length text.now }
    ensures within { result ≤ LANES }
    ensures ascii { list_all (is_ascii_from least) (take result text.now) ≡ true }
{
    let block = u8x8::from_slice(text);
    let others = block.simd_lt(u8x8::splat(least)) | block.simd_gt(u8x8::splat(b'~'));
    let others = others.to_bitmask();
    if others == 0 {
        return LANES;
    }
    others.trailing_zeros() as usize
}

/// Returns the number of bytes from `least` to `~` at the start of a text, the first `known` of which are known to be such.
#[inline(always)]
fn ascii_after(text: &[u8], known: usize, least: u8) -> usize
    requires within { known ≤ length text.now }
    requires known { list_all (is_ascii_from least) (take known text.now) ≡ true }
    ensures within { result ≤ length text.now }
    ensures ascii { list_all (is_ascii_from least) (take result text.now) ≡ true }
{
    let mut count = known;
    while count < text.len() && text[count] >= least && text[count] <= b'~' {
        count += 1;
    }
    count
}

/// Returns the number of printable ASCII characters, the space excluded, at the start of a text. Each has one byte and
/// one column.
#[inline]
fn plain_in_front(text: &[u8]) -> usize
    ensures within { result ≤ length text.now }
    ensures plain { list_all (is_ascii_from 0x21) (take result text.now) ≡ true }
{
    if text.len() < LANES {
        return ascii_after(text, 0, b'!');
    }
    let count = ascii_in_block(text, b'!');
    if count < LANES {
        return count;
    }
    ascii_after(text, count, b'!')
}

/// Returns the number of printable ASCII characters at the start of a text. Each has one byte and one column.
#[inline]
pub(super) fn printable_in_front(text: &[u8]) -> usize
    ensures within { result ≤ length text.now }
    ensures printable { list_all (is_ascii_from 0x20) (take result text.now) ≡ true }
{
    let mut count = 0;
    while text.len() - count >= LANES {
        let more = ascii_in_block(&text[count..], b' ');
        count += more;
        if more < LANES {
            return count;
        }
    }
    ascii_after(text, count, b' ')
}

/// Returns an empty stretch at the start of a text.
#[inline]
fn no_stretch(text: &str, mode: WhiteSpace) -> Stretch
    ensures { IsStretch mode text.now result.bytes result.columns }
{
    let _ = text;
    let _ = mode;
    Stretch {
        bytes: 0,
        columns: 0,
    }
}

/// Returns the printable ASCII characters at the start of a text; the space is one of them only under `Pre`.
#[inline]
fn ascii_stretch(text: &str, mode: WhiteSpace) -> Stretch
    ensures { IsStretch mode text.now result.bytes result.columns }
{
    if mode.do_wrap() {
        let count = plain_in_front(text.as_bytes());
        Stretch {
            bytes: count,
            columns: count,
        }
    } else {
        let count = printable_in_front(text.as_bytes());
        Stretch {
            bytes: count,
            columns: count,
        }
    }
}

/// Returns the first character of a text if it is in a stretch, and an empty one otherwise.
fn first_stretch(text: &str, mode: WhiteSpace) -> Stretch
    requires { 0 < length text.now }
    ensures { IsStretch mode text.now result.bytes result.columns }
{
    let (c, rest) = split_first_character(text);
    let class = class_of(mode, c);
    match class.kind {
        Kind::Letter | Kind::Preserved => Stretch {
            bytes: text.len() - rest.len(),
            columns: class.width,
        },
        _ => no_stretch(text, mode),
    }
}

/// Returns a stretch at the start of a text. It is empty only if the first character is in none.
#[inline]
fn next_stretch(text: &str, mode: WhiteSpace) -> Stretch
    requires { 0 < length text.now }
    ensures { IsStretch mode text.now result.bytes result.columns }
{
    if text.as_bytes()[0] >= 0x80 {
        return first_stretch(text, mode);
    }
    ascii_stretch(text, mode)
}

/// Returns the stretch at the start of a text: the printable ASCII characters and, if a character outside ASCII follows
/// them, the characters from there on.
#[inline]
fn stretch_in_front(text: &str, mode: WhiteSpace) -> Stretch
    ensures { IsStretch mode text.now result.bytes result.columns }
{
    let ascii = ascii_stretch(text, mode);
    match text.as_bytes().get(ascii.bytes) {
        Some(byte) if *byte >= 0x80 => longer_stretch(text, ascii, mode),
        _ => ascii,
    }
}

/// Returns the whole stretch at the start of a text, of which a part is known. Stops early if its columns pass a machine
/// word.
#[inline(never)]
fn longer_stretch(text: &str, known: Stretch, mode: WhiteSpace) -> Stretch
    requires { IsStretch mode text.now known.bytes known.columns }
    ensures { IsStretch mode text.now result.bytes result.columns }
{
    let mut bytes = known.bytes;
    let mut columns = known.columns;
    while bytes < text.len() {
        let next = next_stretch(&text[bytes..], mode);
        let Some(sum) = columns.checked_add(next.columns) else {
            break;
        };
        if next.bytes == 0 {
            break;
        }
        bytes += next.bytes;
        columns = sum;
    }
    Stretch { bytes, columns }
}
