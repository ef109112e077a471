//! Words whose characters have a tag for ordinary lines and one for lines that continue others.

ghost use Rattle.std.specs.Prelude.{◌≡◌, ◌++◌, map, OnOk, OnErr};
ghost use Rattle.std.specs.List.{flat_map};
ghost use Rattle.std.specs.Str.{IsUtf8};
ghost use Rattle.std.specs.String.{string_bytes};
ghost use Rattle.html_render_layout_lines.specs.Line.{columns, text_bytes, element_of};
ghost use Rattle.html_render_layout_lines.specs.TaggedText.{Cuts, items_of};
ghost use Rattle.html_render_layout_buffer.specs.Fields.{line_slots};
ghost use Rattle.html_render_layout_buffer.specs.Lines.{no_lines};
ghost use Rattle.html_render_layout_buffer.specs.Words.{run_slots, open_slots};

use super::{LineBuffer, clear_all, counted_sum, known};
use crate::runs::TagRuns;
use crate::slot::Slot;
use html_render_layout_lines::character::TextStyle;
use html_render_layout_lines::line::{Run, TaggedText, style_tag};
use html_render_layout_lines::tag::Tag;
use std::alloc::AllocError;

impl<T: Tag, M: Copy> LineBuffer<T, M> {
    /// Appends a word of `width` columns to the open line, with the tags of a line that continues another, or of an ordinary
    /// line.
    ///
    /// # Errors
    ///
    /// `AllocError`. The buffer then has no lines.
    pub fn append_word(
        &mut self,
        word: &TaggedText<TextStyle<T>, M>,
        width: usize,
        continues: bool,
    ) -> Result<(), AllocError>
        requires { width ≡ columns word.now.elements }
        ensures ok { OnOk result (self.new ≡ record {
          lines = self.old.lines;
          line = self.old.line ++ map (element_of continues) (items_of word.now.elements);
        }) }
        ensures err { OnErr result (self.new ≡ no_lines) }
    {
        let columns = counted_sum(self.columns, known(width));
        let put = put_word(&mut self.text, &mut self.slots, word, continues);
        match put {
            Ok(()) => self.columns = columns,
            // Memory ran out.
            Err(_) => {
                clear_all(&mut self.text, &mut self.slots, &mut self.ends);
                self.start = 0;
                self.slot_start = 0;
                self.columns = Some(0);
            }
        }
        put
    }
}

/// Appends a word's text and its slots.
fn put_word<T: Tag, M: Copy>(
    text: &mut String,
    slots: &mut TagRuns<Slot<T, M>>,
    word: &TaggedText<TextStyle<T>, M>,
    continues: bool,
) -> Result<(), AllocError>
    ensures text { OnOk result (string_bytes text.new ≡ string_bytes text.old ++ text_bytes word.now.elements) }
    ensures slots { OnOk result (slots.new ≡ slots.old ++ line_slots (map (element_of continues) (items_of word.now.elements))) }
    ensures utf8 { OnOk result (IsUtf8 (text_bytes word.now.elements)) }
{
    let cut = word.parts();
    put_closed(text, slots, cut.closed, cut.closed_text, continues)?;
    text.push_str(cut.open_text)?;
    put_open(slots, cut.tag, cut.open_text.len(), continues)?;
    Ok(())
}

/// Appends the text of a word's closed runs and their slots. Most words have no closed run.
#[inline(always)]
fn put_closed<T: Tag, M: Copy>(
    text: &mut String,
    slots: &mut TagRuns<Slot<T, M>>,
    runs: &[Run<TextStyle<T>, M>],
    closed_text: &str,
    continues: bool,
) -> Result<(), AllocError>
    requires { Cuts runs.now closed_text.now }
    ensures text { OnOk result (string_bytes text.new ≡ string_bytes text.old ++ closed_text.now) }
    ensures slots { OnOk result (slots.new ≡ slots.old ++ flat_map (run_slots continues) runs.now) }
{
    if runs.is_empty() {
        return Ok(());
    }
    text.push_str(closed_text)?;
    put_runs(slots, runs, continues)
}

/// Appends the slots of a word's closed runs.
fn put_runs<T: Tag, M: Copy>(
    slots: &mut TagRuns<Slot<T, M>>,
    runs: &[Run<TextStyle<T>, M>],
    continues: bool,
) -> Result<(), AllocError>
    ensures { OnOk result (slots.new ≡ slots.old ++ flat_map (run_slots continues) runs.now) }
{
    for run in runs {
        put_run(slots, run, continues)?;
    }
    Ok(())
}

/// Appends the slots of a word's run.
fn put_run<T: Tag, M: Copy>(
    slots: &mut TagRuns<Slot<T, M>>,
    run: &Run<TextStyle<T>, M>,
    continues: bool,
) -> Result<(), AllocError>
    ensures { OnOk result (slots.new ≡ slots.old ++ run_slots continues run.now) }
{
    match run {
        Run::Text(len, style) => slots.push(*len, Slot::Byte(style_tag(*style, continues))),
        Run::Mark(mark) => slots.push(1, Slot::Mark(*mark)),
    }
}

/// Appends the slots of a word's open run, if it has one, of `len` bytes.
fn put_open<T: Tag, M: Copy>(
    slots: &mut TagRuns<Slot<T, M>>,
    style: Option<TextStyle<T>>,
    len: usize,
    continues: bool,
) -> Result<(), AllocError>
    ensures { OnOk result (slots.new ≡ slots.old ++ open_slots continues style len) }
{
    match style {
        Some(style) => slots.push(len, Slot::Byte(style_tag(style, continues))),
        None => Ok(()),
    }
}
