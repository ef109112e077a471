//! The end of a document's block: the marks that wait after its last line, and closing lines.

ghost use Rattle.std.specs.Prelude.{◌≡◌, ◌==◌, ◌++◌, Some, cond, map, option_map, string_bytes};
ghost use Rattle.std.specs.Prelude.{OnOk, IfOk, IfErr};
ghost use Rattle.std.specs.Bool.{OnTrue};
ghost use Rattle.std.specs.Str.{chars};
ghost use Rattle.html_render_dom_values.specs.Outcome.{Gives, Refuses};
ghost use Rattle.html_render_layout_paragraphs.specs.CutText.{text_lines};
ghost use Rattle.html_render_layout_lines.specs.Line.{is_empty};
ghost use Rattle.html_render_layout_lines.specs.TaggedText.{under};
ghost use Rattle.html_render_layout_buffer.specs.Marked.{marked_behind};
ghost use Rattle.html_render_layout_blocks.specs.Closing.{closing_lines};
ghost use Rattle.html_render_layout_blocks.specs.RowSteps.{on_one_line};
ghost use Rattle.html_render_layout_blocks.specs.Block as block;
ghost use Rattle.html_render_layout_blocks.specs.Machine as machine;
ghost use Rattle.html_render_layout_blocks.specs.Machine.{machine};

use super::{Block, BlockSetting};
use html_render_dom_values::Error;
use html_render_layout_buffer::finished::FinishedLines;
use html_render_layout_lines::line::text_columns;
use html_render_layout_lines::tag::Tag;
use html_render_layout_paragraphs::paragraph::Paragraph;
use std::alloc::{AllocError, Global};

impl<T: Tag, M: Copy> Block<T, M> {
    /// Puts marks at the end of the last line.
    fn mark_last_line(&mut self, marks: &[M]) -> Result<(), AllocError>
        ensures { OnOk result (self.new ≡ record self.old { lines = marked_behind marks.now self.old.lines }) }
    {
        self.lines.mark_last(marks)
    }

    /// Puts the waiting marks at the end of the last line. Without lines they keep waiting.
    fn mark_end(&mut self) -> Result<(), AllocError>
        ensures { OnOk result (self.new ≡ cond (is_empty self.old.lines) self.old (record self.old {
          lines = marked_behind (machine.waiting self.old.paragraph) self.old.lines;
          paragraph = machine.without_waiting self.old.paragraph;
        })) }
    {
        if self.lines.is_empty() {
            return Ok(());
        }
        let marks = self.take_waiting();
        self.mark_last_line(marks.as_slice())
    }

    /// Finishes the block: ends the open table, if there is one, flushes, and puts the marks that wait then at the end
    /// of the last line. Without lines they keep waiting.
    ///
    /// # Errors
    ///
    /// - `OutOfMemory`.
    /// - `TooNarrow`, as in [`flush`](Block::flush).
    #[tactic(auto, using(html_render_dom_values::specs::laws::Outcome::refusals), unfolding(crate::specs::Machine::ending))]
    pub fn finish(&mut self) -> Result<(), Error>
        ensures { Gives result (machine.ending.finish self.old) self.new }
    {
        self.flush_whole()?;
        self.mark_end()?;
        Ok(())
    }

    /// Appends finished lines.
    pub(super) fn push_lines(&mut self, lines: &mut FinishedLines<T, M>) -> Result<(), AllocError>
        ensures { OnOk result (self.new ≡ record self.old { lines = self.old.lines ++ lines.old }) }
    {
        self.lines.append(lines)
    }

    /// Appends finished lines, with the waiting marks at the front of the first one.
    pub(super) fn add_lines(&mut self, lines: &mut FinishedLines<T, M>) -> Result<(), AllocError>
        ensures { OnOk result (self.new ≡ block.add_lines machine self.old lines.old) }
    {
        let marks = self.take_waiting();
        lines.mark_first(marks.as_slice())?;
        self.push_lines(lines)
    }

    /// Appends closing lines, one or more for each text, all under one tag. Starts a block for them, if there is a
    /// text.
    ///
    /// - Each text begins a line. An empty text is an empty line.
    /// - A newline becomes a space. Every other character is kept.
    /// - With `cut`, a text is cut into the longest parts that fit the width of the block. Otherwise it is one line,
    ///   which may pass the width.
    /// - The waiting marks are on the empty line that separates the blocks or, if the block has no line yet, at the
    ///   front of the first closing line.
    ///
    /// # Errors
    ///
    /// - `OutOfMemory`.
    /// - `TooNarrow`, as in [`flush`](Block::flush), and, with `cut` and overflow off, if a character is wider than the
    ///   block.
    #[tactic(auto, using(html_render_dom_values::specs::laws::Outcome::refusals), unfolding(crate::specs::Machine::operations, crate::specs::Machine::ending))]
    pub fn add_closing_lines(&mut self, texts: &[String], tag: T, cut: bool) -> Result<(), Error>
        ensures { Gives result (machine.ending.add_closing_lines self.old cut tag (map (λ t. chars (string_bytes t)) texts.now)) self.new }
    {
        if texts.is_empty() {
            return Ok(());
        }
        self.start_block()?;
        let mut lines = closing_lines(self.alloc, self.setting, texts, tag, cut)?;
        self.add_lines(&mut lines)?;
        Ok(())
    }
}

/// Reports whether a text has no newline.
fn is_on_one_line(text: &str) -> bool
    ensures { OnTrue result (on_one_line (chars text.now) ≡ chars text.now) }
{
    for c in text.chars() {
        if c == '\n' {
            return false;
        }
    }
    true
}

/// Returns a space for a newline, and any other character as it is.
fn unbroken(c: char) -> char
    ensures { result ≡ cond (c == 10) 32 c }
{
    if c == '\n' { ' ' } else { c }
}

/// Returns a copy of a text with a space for each newline.
#[tactic(auto, using(crate::proofs::Closing::unbroken_text))]
fn on_one_line(alloc: Global, text: &str) -> Result<String, AllocError>
    ensures { IfOk result (λ line. chars (string_bytes line) ≡ on_one_line (chars text.now)) }
{
    let mut line = String::with_capacity(alloc, text.len())?;
    for c in text.chars() {
        line.push(unbroken(c))?;
    }
    Ok(line)
}

/// Appends the lines of a text without newlines: cut where they are full, or one line.
fn push_text<T: Tag, M: Copy>(
    paragraph: &mut Paragraph<T, M>,
    lines: &mut FinishedLines<T, M>,
    setting: BlockSetting,
    text: &str,
    tag: T,
    cut: bool,
) -> Result<(), Error>
    ensures ok { OnOk result (option_map (λ more. lines.old ++ more)
        (text_lines (record { width = setting.width; overflow = setting.overflow }) cut tag (chars text.now)) ≡ Some lines.new) }
    ensures err { IfErr result (λ e. Refuses e
        (text_lines {M = M} (record { width = setting.width; overflow = setting.overflow }) cut tag (chars text.now))) }
{
    if cut {
        return paragraph.push_cut_text(lines, text, tag, setting.width, setting.overflow);
    }
    lines.push_text_line(text, text_columns(text), tag)?;
    Ok(())
}

/// Appends the lines of a text, with a space for each newline: cut where they are full, or one line.
fn push_closing_text<T: Tag, M: Copy>(
    alloc: Global,
    paragraph: &mut Paragraph<T, M>,
    lines: &mut FinishedLines<T, M>,
    setting: BlockSetting,
    text: &str,
    tag: T,
    cut: bool,
) -> Result<(), Error>
    ensures ok { OnOk result (option_map (λ more. lines.old ++ more)
        (text_lines (record { width = setting.width; overflow = setting.overflow }) cut tag (on_one_line (chars text.now))) ≡ Some lines.new) }
    ensures err { IfErr result (λ e. Refuses e
        (text_lines {M = M} (record { width = setting.width; overflow = setting.overflow }) cut tag (on_one_line (chars text.now)))) }
{
    if is_on_one_line(text) {
        return push_text(paragraph, lines, setting, text, tag, cut);
    }
    let line = on_one_line(alloc, text)?;
    push_text(paragraph, lines, setting, line.as_str(), tag, cut)
}

/// Returns the lines of texts, with a space for each newline: cut where they are full, or one line for each text.
#[tactic(auto, using(html_render_dom_values::specs::laws::Outcome::refusals))]
fn closing_lines<T: Tag, M: Copy>(
    alloc: Global,
    setting: BlockSetting,
    texts: &[String],
    tag: T,
    cut: bool,
) -> Result<FinishedLines<T, M>, Error>
    ensures ok { IfOk result (λ lines. closing_lines setting cut tag (map (λ t. chars (string_bytes t)) texts.now) ≡ Some lines) }
    ensures err { IfErr result (λ e. Refuses e (closing_lines {M = M} setting cut tag (map (λ t. chars (string_bytes t)) texts.now))) }
{
    let mut lines = FinishedLines::new(alloc);
    let mut paragraph = Paragraph::new(alloc, setting.width, setting.overflow);
    for text in texts {
        push_closing_text(
            alloc,
            &mut paragraph,
            &mut lines,
            setting,
            text.as_str(),
            tag,
            cut,
        )?;
    }
    Ok(lines)
}
