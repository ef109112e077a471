//! A block: finished lines, and an open paragraph that receives texts.
//!
//! `block.add_inline_text("a", style)?`, `block.new_line_hard()?` and `block.add_inline_text("b", style)?` give the
//! lines `a` and `b` once the block is flushed.

ghost use Rattle.std.specs.Prelude.{◌≡◌, ◌==◌, ◌<◌, cond, not, length, [], ◌∷◌, Some, None, min, option_map, unwrap_or};
ghost use Rattle.std.specs.Prelude.{OnOk, IfOk, IfErr};
ghost use Rattle.std.specs.List.{list_all};
ghost use Rattle.std.specs.Str.{chars};
ghost use Rattle.html_render_dom_values.specs.Outcome.{Gives, OnlyOutOfMemory, Refuses};
ghost use Rattle.html_render_layout_lines.specs.Character.{is_collapsible};
ghost use Rattle.html_render_layout_paragraphs.specs.Stream.{after, styled};
ghost use Rattle.html_render_layout_lines.specs.TaggedText.{under};
ghost use Rattle.html_render_layout_buffer.specs.Prefixed.{prefixed};
ghost use Rattle.html_render_layout_blocks.specs.Joined.{fitting, moved};
ghost use Rattle.html_render_layout_blocks.specs.Block.{is_collapsible_text, mark_items, inner_width};
ghost use Rattle.html_render_layout_lines.specs.Line.{is_empty};
ghost use Rattle.html_render_layout_blocks.specs.Block as block;
ghost use Rattle.html_render_layout_blocks.specs.Machine as machine;
ghost use Rattle.html_render_layout_blocks.specs.Machine.{machine};

use html_render_dom_values::Error;
use html_render_dom_values::white_space::WhiteSpace;
use html_render_layout_buffer::finished::FinishedLines;
use html_render_layout_buffer::prefix::Prefix;
use html_render_layout_lines::character::{TextStyle, is_collapsible};
use html_render_layout_lines::tag::Tag;
use html_render_layout_paragraphs::paragraph::Paragraph;
use padding::flush_padded;
use std::alloc::{AllocError, Global};
use std::marker::Model;
use std::mem;
use tables::BlockTable;

mod cells;
mod closing;
mod opening;
mod padding;
mod rows;
mod tables;

/// Widths of a block, and whether lines may pass them.
#[derive(Clone, Copy)]
pub struct BlockSetting {
    /// Columns of a line.
    pub width: usize,
    /// Maximum columns of a paragraph's lines, prefixes excluded; `None` if only `width` limits them.
    pub max_wrap_width: Option<usize>,
    /// Whether a character wider than a line is placed nevertheless, alone on its line, and whether a line may pass the
    /// width with its prefix.
    pub overflow: bool,
}

/// A block: finished lines, an open paragraph, and an open table if there is one.
///
/// A character that is too wide closes the paragraph, with overflow off. From then on texts and marks are ignored, and
/// each flush returns `TooNarrow`.
#[derive(Drop)]
pub struct Block<T, M> {
    /// Allocator of lines, paragraphs and tables.
    alloc: Global,
    /// Widths and overflow.
    setting: BlockSetting,
    /// Tag of the spaces that pad lines of paragraphs; `None` without padding.
    padding: Option<T>,
    /// Finished lines.
    lines: FinishedLines<T, M>,
    /// Open paragraph; `None` once a character was too wide for it.
    paragraph: Option<Paragraph<T, M>>,
    /// Whether a block-level part has just ended in this block, so that the next text that isn't blank starts another one.
    at_block_end: bool,
    /// Open table; `None` if no table is open.
    table: BlockTable<T, M>,
}

impl<T, M> Model for Block<T, M> {
    ghost use Rattle.html_render_layout_blocks.specs.Machine.{MachineBlock};

    ghost Value = { MachineBlock T M };

    ghost view = { λ b. record {
      setting = b.setting;
      padding = b.padding;
      lines = b.lines;
      paragraph = b.paragraph;
      at_block_end = b.at_block_end;
      table = b.table;
    } };
}

/// Reports whether a text is empty.
fn has_no_character(text: &str) -> bool
    ensures { result ≡ (length (chars text.now) == 0) }
{
    text.is_empty()
}

/// Reports whether a text is dropped at the end of a block: whether it is collapsible white space alone, under
/// `Normal`.
fn is_collapsible_text(mode: WhiteSpace, text: &str) -> bool
    ensures { result ≡ is_collapsible_text mode (chars text.now) }
{
    match mode {
        WhiteSpace::Normal => is_collapsible_alone(text),
        WhiteSpace::Pre | WhiteSpace::PreWrap => false,
    }
}

/// Reports whether a text has no character but collapsible white space.
pub fn is_collapsible_alone(text: &str) -> bool
    ensures { result ≡ list_all is_collapsible (chars text.now) }
{
    for c in text.chars() {
        if !is_collapsible(c) {
            return false;
        }
    }
    true
}

/// Returns the columns of a paragraph's lines in a block of `width` columns: at most `most`, if that is given.
fn wrap_width(width: usize, most: Option<usize>) -> usize
    ensures { result ≡ unwrap_or (option_map (min width) most) width }
{
    match most {
        Some(most) => width.min(most),
        None => width,
    }
}

/// Returns the columns of a sub-block after a prefix of `prefix` columns, at least `inner`. Returns `None`, with
/// overflow off, if fewer than `inner` columns are free.
fn inner_width(setting: BlockSetting, prefix: usize, inner: usize) -> Option<usize>
    ensures { result ≡ inner_width setting prefix inner }
{
    let left = setting.width.saturating_sub(prefix);
    if setting.overflow || inner <= left {
        Some(left.max(inner))
    } else {
        None
    }
}

impl<T: Tag, M: Copy> Block<T, M> {
    /// Returns an empty block.
    ///
    /// With `padding`, lines of its paragraphs are padded to the width of the block with spaces under that tag.
    pub fn new(alloc: Global, setting: BlockSetting, padding: Option<T>) -> Block<T, M>
        ensures { result ≡ block.empty_block machine setting padding }
    {
        let width = wrap_width(setting.width, setting.max_wrap_width);
        let paragraph = Some(Paragraph::new(alloc, width, setting.overflow));
        Block {
            alloc,
            setting,
            padding,
            lines: FinishedLines::new(alloc),
            paragraph,
            at_block_end: false,
            table: BlockTable::none(),
        }
    }

    /// Reserves memory for `bytes` more bytes of text and `lines` more lines.
    ///
    /// # Errors
    ///
    /// `OutOfMemory`.
    pub fn reserve(&mut self, bytes: usize, lines: usize) -> Result<(), Error>
        ensures same { self.new ≡ self.old }
        ensures err { OnlyOutOfMemory result }
    {
        self.lines.reserve(bytes, lines)?;
        Ok(())
    }

    /// Returns the allocator.
    pub(crate) fn alloc(&self) -> Global {
        self.alloc
    }

    /// Returns the setting of a block of `width` columns in this one.
    fn inner_setting(&self, width: usize) -> BlockSetting
        ensures { result ≡ record self.now.setting { width = width } }
    {
        BlockSetting {
            width,
            max_wrap_width: self.setting.max_wrap_width,
            overflow: self.setting.overflow,
        }
    }

    /// Returns an empty block of `width` columns, with the other settings and the padding of this one.
    pub(crate) fn inner_block(&self, width: usize) -> Block<T, M>
        ensures { result ≡ block.inner_block machine self.now width }
    {
        Block::new(self.alloc, self.inner_setting(width), self.padding)
    }

    /// Replaces the open paragraph.
    fn open_paragraph(&mut self, paragraph: Paragraph<T, M>)
        ensures { self.new ≡ record self.old { paragraph = Some paragraph } }
    {
        self.paragraph = Some(paragraph);
    }

    /// Resets the paragraph to an empty one for a block with a setting, reusing its memory.
    fn renew_paragraph(&mut self, setting: BlockSetting)
        ensures { self.new ≡ record self.old { paragraph = (machine).start (block.paragraph_setting setting) [] } }
    {
        let width = wrap_width(setting.width, setting.max_wrap_width);
        if let Some(paragraph) = &mut self.paragraph {
            paragraph.renew(width, setting.overflow);
            return;
        }
        self.open_paragraph(Paragraph::new(self.alloc, width, setting.overflow));
    }

    /// Resets to an empty block of `width` columns in `outer`, reusing the memory.
    pub(crate) fn become_inner(&mut self, outer: &Block<T, M>, width: usize)
        ensures { self.new ≡ block.inner_block machine outer.now width }
    {
        let setting = outer.inner_setting(width);
        self.renew_paragraph(setting);
        self.setting = setting;
        self.padding = outer.padding;
        self.lines.clear();
        self.at_block_end = false;
        self.table.close();
    }

    /// Returns the columns of a sub-block after a prefix of `prefix` columns, at least `inner`. Returns `None`, with
    /// overflow off, if fewer than `inner` columns are free.
    pub(crate) fn width_behind(&self, prefix: usize, inner: usize) -> Option<usize>
        ensures { result ≡ block.inner_width self.now.setting prefix inner }
    {
        inner_width(self.setting, prefix, inner)
    }

    /// Closes the paragraph for good, since a character was too wide.
    #[inline(never)]
    fn close_paragraph(&mut self)
        ensures { self.new ≡ record self.old { paragraph = None } }
    {
        self.paragraph = None;
    }

    /// Feeds a text to the open paragraph. If a character is too wide, closes the paragraph, so that the next flush
    /// returns `TooNarrow`.
    fn feed(&mut self, text: &str, style: TextStyle<T>) -> Result<(), Error>
        ensures ok { OnOk result (self.new ≡ block.feed machine self.old (styled style (chars text.now))) }
        ensures err { OnlyOutOfMemory result }
    {
        let Some(paragraph) = &mut self.paragraph else {
            return Ok(());
        };
        match paragraph.add_text(text, style) {
            Ok(()) => Ok(()),
            Err(Error::TooNarrow) => {
                self.close_paragraph();
                Ok(())
            }
            Err(_) => Err(Error::OutOfMemory),
        }
    }

    /// Flushes the open paragraph. Returns whether it had no line.
    #[inline(always)]
    #[tactic(auto, using(html_render_dom_values::specs::laws::Outcome::refusals, crate::proofs::Behind::flushed))]
    fn flush_paragraph(&mut self) -> Result<bool, Error>
        ensures ok { OnOk result (block.flush machine self.old ≡ Some self.new) }
        ensures none { IfOk result (λ none. none ≡ (length self.new.lines == length self.old.lines)) }
        ensures err { IfErr result (λ e. Refuses e (block.flush machine self.old)) }
    {
        let padding = self.padding;
        let width = self.setting.width;
        let Some(paragraph) = &mut self.paragraph else {
            return Err(Error::TooNarrow);
        };
        let some = flush_padded(self.alloc, paragraph, &mut self.lines, width, padding)?;
        Ok(!some)
    }

    /// Appends the lines of the open paragraph, padded to the width of the block if there is padding, and empties the
    /// paragraph. Its waiting marks are kept.
    ///
    /// # Errors
    ///
    /// - `OutOfMemory`.
    /// - `TooNarrow`, with overflow off, if a character of the paragraph is wider than a line.
    pub fn flush(&mut self) -> Result<(), Error>
        ensures { Gives result (block.flush machine self.old) self.new }
    {
        self.flush_paragraph()?;
        Ok(())
    }

    /// Removes and returns the waiting marks.
    fn take_waiting(&mut self) -> Vec<M>
        ensures marks { result.items ≡ machine.waiting self.old.paragraph }
        ensures after { self.new ≡ record self.old { paragraph = machine.without_waiting self.old.paragraph } }
    {
        match &mut self.paragraph {
            Some(paragraph) => paragraph.take_waiting(),
            None => Vec::new(self.alloc),
        }
    }

    /// Removes and returns the finished lines.
    pub(crate) fn take_lines(&mut self) -> FinishedLines<T, M>
        ensures lines { result ≡ self.old.lines }
        ensures after { self.new ≡ record self.old { lines = [] } }
    {
        mem::replace(&mut self.lines, FinishedLines::new(self.alloc))
    }

    /// Appends a line that is empty except for the waiting marks.
    fn add_empty_line(&mut self) -> Result<(), AllocError>
        ensures { OnOk result (self.new ≡ block.add_lines machine self.old ([] ∷ [])) }
    {
        let marks = self.take_waiting();
        self.lines.push_marks_line(marks.as_slice())
    }

    /// Appends an empty line with the waiting marks, unless the block has no line.
    fn separate(&mut self) -> Result<(), AllocError>
        ensures { OnOk result (self.new ≡ cond (not (is_empty self.old.lines)) (block.add_lines machine self.old ([] ∷ [])) self.old) }
    {
        if self.lines.is_empty() {
            return Ok(());
        }
        self.add_empty_line()
    }

    /// Sets whether a block-level part has just ended.
    fn set_at_block_end(&mut self, at_block_end: bool)
        ensures { self.new ≡ record self.old { at_block_end = at_block_end } }
    {
        self.at_block_end = at_block_end;
    }

    /// Starts a block-level part: flushes, and appends an empty line with the waiting marks, unless there is no line yet.
    ///
    /// # Errors
    ///
    /// - `OutOfMemory`.
    /// - `TooNarrow`, as in [`flush`](Block::flush).
    #[tactic(auto, using(html_render_dom_values::specs::laws::Outcome::refusals), unfolding(crate::specs::Machine::operations))]
    pub fn start_block(&mut self) -> Result<(), Error>
        ensures { Gives result (machine.operations.start_block self.old) self.new }
    {
        self.flush()?;
        self.separate()?;
        self.set_at_block_end(false);
        Ok(())
    }

    /// Ends a block-level part: the next text that isn't blank starts another one. See
    /// [`add_inline_text`](Block::add_inline_text).
    #[tactic(auto, unfolding(crate::specs::Machine::operations))]
    pub fn end_block(&mut self)
        ensures { self.new ≡ machine.operations.end_block self.old }
    {
        self.at_block_end = true;
    }

    /// Begins a new line: flushes.
    ///
    /// # Errors
    ///
    /// - `OutOfMemory`.
    /// - `TooNarrow`, as in [`flush`](Block::flush).
    #[tactic(auto, unfolding(crate::specs::Machine::operations))]
    pub fn new_line(&mut self) -> Result<(), Error>
        ensures { Gives result (machine.operations.new_line self.old) self.new }
    {
        self.flush()
    }

    /// Begins a new line: flushes, and appends an empty line with the waiting marks if the paragraph had no line.
    /// Afterwards the next text starts no block-level part, even if one had ended before.
    ///
    /// # Errors
    ///
    /// - `OutOfMemory`.
    /// - `TooNarrow`, as in [`flush`](Block::flush).
    #[tactic(auto, using(html_render_dom_values::specs::laws::Outcome::refusals), unfolding(crate::specs::Machine::operations))]
    pub fn new_line_hard(&mut self) -> Result<(), Error>
        ensures { Gives result (machine.operations.new_line_hard self.old) self.new }
    {
        if self.flush_paragraph()? {
            self.add_empty_line()?;
        }
        self.set_at_block_end(false);
        Ok(())
    }

    /// Adds a text to the open paragraph.
    ///
    /// At the end of a block, a text of collapsible white space alone is dropped under [`WhiteSpace::Normal`], and any
    /// other text starts a block first. An empty text does nothing.
    ///
    /// # Errors
    ///
    /// - `OutOfMemory`.
    /// - `TooNarrow`, as in [`flush`](Block::flush), if the text starts a block.
    #[tactic(auto, using(html_render_dom_values::specs::laws::Outcome::refusals), unfolding(crate::specs::Machine::operations))]
    pub fn add_inline_text(&mut self, text: &str, style: TextStyle<T>) -> Result<(), Error>
        ensures { Gives result (machine.operations.add_inline_text self.old style (chars text.now)) self.new }
    {
        if has_no_character(text) {
            return Ok(());
        }
        if !self.at_block_end {
            return self.feed(text, style);
        }
        if is_collapsible_text(style.mode, text) {
            return Ok(());
        }
        self.start_block()?;
        self.feed(text, style)
    }

    /// Adds a mark to the open paragraph. It directly precedes the next character that is placed there; a pending space
    /// is placed before the mark. If no character follows, the mark waits for the next paragraph, or for a line that is
    /// added otherwise.
    ///
    /// # Errors
    ///
    /// `OutOfMemory`.
    #[tactic(auto, unfolding(crate::specs::Machine::operations))]
    pub fn add_mark(&mut self, mark: M) -> Result<(), Error>
        ensures ok { OnOk result (self.new ≡ machine.operations.add_mark self.old mark) }
        ensures err { OnlyOutOfMemory result }
    {
        let Some(paragraph) = &mut self.paragraph else {
            return Ok(());
        };
        paragraph.add_mark(mark)
    }

    /// Adds marks to the open paragraph.
    fn add_marks(&mut self, marks: &[M]) -> Result<(), Error>
        ensures ok { OnOk result (self.new ≡ block.feed machine self.old (mark_items marks.now)) }
        ensures err { OnlyOutOfMemory result }
    {
        let Some(paragraph) = &mut self.paragraph else {
            return Ok(());
        };
        add_each_mark(paragraph, marks)
    }

    /// Moves lines to the end of this block's, the first after `first`, the others after `later`; the waiting marks precede
    /// `first`. Returns `TooNarrow`, with overflow off, if a line passes the width then.
    #[tactic(auto, using(html_render_dom_values::specs::laws::Outcome::refusals, crate::proofs::Moving::moves))]
    fn move_lines(
        &mut self,
        lines: &mut FinishedLines<T, M>,
        waiting: &[M],
        first: &Prefix<'_, T>,
        later: &Prefix<'_, T>,
    ) -> Result<(), Error>
        requires { 0 < length lines.old }
        ensures { Gives result (option_map (λ all. record self.old { lines = all }) (moved self.old.setting.width self.old.setting.overflow waiting.now
            (under first.now.tag (chars first.now.text.now)) (under later.now.tag (chars later.now.text.now)) self.old.lines lines.old)) self.new }
    {
        let width = self.setting.width;
        if !self.setting.overflow && !lines.fits_after(first.columns, later.columns, width) {
            return Err(Error::TooNarrow);
        }
        self.lines.append_behind(lines, waiting, first, later)?;
        Ok(())
    }

    /// Moves the lines of a flushed block to the end of this flushed block's, each after its prefix. The marks `end` are put at
    /// the end of the last line. Without lines they are fed to this block.
    #[tactic(auto, using(html_render_dom_values::specs::laws::Outcome::refusals, crate::proofs::Appending::none_put))]
    fn append_lines(
        &mut self,
        lines: &mut FinishedLines<T, M>,
        end: &[M],
        first: &str,
        later: &Prefix<'_, T>,
    ) -> Result<(), Error>
        ensures { Gives result (option_map (λ all. block.put_lines machine self.old all end.now) (fitting self.old.setting.width self.old.setting.overflow
            (prefixed (under later.now.tag (chars first.now)) (under later.now.tag (chars later.now.text.now)) lines.old))) self.new }
    {
        if lines.is_empty() {
            return self.add_marks(end);
        }
        lines.mark_last(end)?;
        let waiting = self.take_waiting();
        self.move_lines(
            lines,
            waiting.as_slice(),
            &Prefix::new(first, later.tag),
            later,
        )
    }

    /// Appends the lines of a sub-block, each after a prefix under the tag of `later`: the first line after `first`, the
    /// others after `later`.
    ///
    /// Both blocks are flushed first, and a table that is open in the sub-block is ended. Waiting marks of this block
    /// precede the first prefix. Those of the sub-block are put at the end of its last line. If the sub-block has no
    /// line, its marks wait in this block.
    ///
    /// # Errors
    ///
    /// - `OutOfMemory`.
    /// - `TooNarrow`, as in [`flush`](Block::flush) of either block, and, with overflow off, if a line passes the width
    ///   with its prefix.
    #[tactic(auto, using(html_render_dom_values::specs::laws::Outcome::refusals, crate::proofs::Appending::append_unflushed), unfolding(crate::specs::Machine::operations))]
    pub fn append(
        &mut self,
        sub: &mut Block<T, M>,
        first: &str,
        later: &Prefix<'_, T>,
    ) -> Result<(), Error>
        ensures { Gives result (machine.operations.append self.old sub.old later.now.tag (chars first.now) (chars later.now.text.now)) self.new }
    {
        self.flush()?;
        sub.flush_whole()?;
        let end = sub.take_waiting();
        self.append_lines(&mut sub.lines, end.as_slice(), first, later)
    }
}

/// Adds marks to a paragraph.
fn add_each_mark<T: Tag, M: Copy>(paragraph: &mut Paragraph<T, M>, marks: &[M]) -> Result<(), Error>
    ensures ok { OnOk result (after paragraph.old (mark_items marks.now) ≡ Some paragraph.new) }
    ensures err { OnlyOutOfMemory result }
{
    for mark in marks {
        paragraph.add_mark(*mark)?;
    }
    Ok(())
}
