//! Texts that are cut into lines exactly where a line is full.

ghost use Rattle.std.specs.Prelude.{◌≡◌, [], ◌∷◌, ◌++◌, Some, true, OnOk, IfErr, option_map};
ghost use Rattle.std.specs.Str.{chars};
ghost use Rattle.html_render_dom_values.specs.Outcome.{Refuses};
ghost use Rattle.html_render_layout_paragraphs.specs.CutText.{kept_style, text_lines};
ghost use Rattle.html_render_layout_paragraphs.specs.Paragraph.{put_items};
ghost use Rattle.html_render_layout_paragraphs.specs.Stream.{styled};

use crate::paragraph::Paragraph;
use html_render_dom_values::Error;
use html_render_dom_values::white_space::WhiteSpace;
use html_render_layout_buffer::finished::FinishedLines;
use html_render_layout_lines::character::TextStyle;
use html_render_layout_lines::tag::Tag;
use std::alloc::AllocError;

/// Returns the style of a text whose white space is preserved and that has one tag on all lines.
fn kept_style<T: Copy>(tag: T) -> TextStyle<T>
    ensures { result ≡ kept_style tag }
{
    TextStyle {
        mode: WhiteSpace::Pre,
        tag,
        continuation_tag: tag,
    }
}

impl<T: Tag, M: Copy> Paragraph<T, M> {
    /// Ends the open line, even an empty one, and moves all lines to the end of `lines`.
    fn move_ended_lines(&mut self, lines: &mut FinishedLines<T, M>) -> Result<(), AllocError>
        ensures { OnOk result (lines.new ≡ lines.old ++ (self.old.page.lines ++ self.old.page.line ∷ [])) }
    {
        self.break_line()?;
        lines.append_buffer(&mut self.lines)
    }

    /// Places the characters of a text one by one, and moves all lines, the open one included, to the end of `lines`.
    #[tactic(auto, using(html_render_dom_values::specs::laws::Outcome::refusals))]
    fn cut_text(&mut self, lines: &mut FinishedLines<T, M>, text: &str, tag: T) -> Result<(), Error>
        ensures ok { OnOk result (option_map (λ cut. lines.old ++ cut) (option_map (λ p. p.lines ++ p.line ∷ [])
            (put_items self.old.setting self.old.page (styled (kept_style tag) (chars text.now)))) ≡ Some lines.new) }
        ensures err { IfErr result (λ e. Refuses e (option_map (λ p. p.lines ++ p.line ∷ [])
            (put_items self.old.setting self.old.page (styled (kept_style tag) (chars text.now))))) }
    {
        self.put_characters(text, kept_style(tag))?;
        self.move_ended_lines(lines)?;
        Ok(())
    }

    /// Appends a text to `lines`, as lines of `width` columns that are cut exactly where a line is full. The paragraph's
    /// own contents are dropped, and its memory is reused.
    ///
    /// Each character is kept, also white space and control characters. An empty text is one empty line. A character that
    /// is wider than a line is alone on its line with `overflow`.
    ///
    /// # Errors
    ///
    /// - `OutOfMemory`.
    /// - `TooNarrow`, with overflow off, if a character is wider than a line.
    ///
    /// The contents of `lines` are then unspecified.
    #[tactic(auto, using(html_render_dom_values::specs::laws::Outcome::refusals))]
    pub fn push_cut_text(
        &mut self,
        lines: &mut FinishedLines<T, M>,
        text: &str,
        tag: T,
        width: usize,
        overflow: bool,
    ) -> Result<(), Error>
        ensures ok { OnOk result (option_map (λ cut. lines.old ++ cut)
            (text_lines (record { width = width; overflow = overflow }) true tag (chars text.now)) ≡ Some lines.new) }
        ensures err { IfErr result (λ e. Refuses e (text_lines {M = M} (record { width = width; overflow = overflow }) true tag (chars text.now))) }
    {
        self.renew(width, overflow);
        self.cut_text(lines, text, tag)
    }
}
