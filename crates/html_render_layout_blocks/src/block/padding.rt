//! Paragraphs whose lines are padded with spaces.

ghost use Rattle.std.specs.Prelude.{◌≡◌, ◌==◌, List, ◌++◌, Some, length, not, option_map, OnOk, IfOk, IfErr};
ghost use Rattle.html_render_dom_values.specs.Outcome.{Refuses};
ghost use Rattle.html_render_layout_lines.specs.Line.{Line};
ghost use Rattle.html_render_layout_paragraphs.specs.Paragraph.{LineBuffer, all_lines};
ghost use Rattle.html_render_layout_paragraphs.specs.Stream.{State, start, finished};
ghost use Rattle.html_render_layout_buffer.specs.Padding.{filled};

use html_render_dom_values::Error;
use html_render_layout_buffer::finished::FinishedLines;
use html_render_layout_lines::tag::Tag;
use html_render_layout_paragraphs::paragraph::Paragraph;
use std::alloc::Global;

/// Appends the lines of a paragraph, each padded to `width` columns with spaces under a tag, and empties the paragraph.
/// Its waiting marks are kept. Returns whether there were lines.
#[inline(never)]
#[tactic(auto, using(html_render_dom_values::specs::laws::Outcome::refusals))]
fn flush_filled<T: Tag, M: Copy>(
    alloc: Global,
    paragraph: &mut Paragraph<T, M>,
    to: &mut FinishedLines<T, M>,
    width: usize,
    tag: T,
) -> Result<bool, Error>
    ensures ok { OnOk result (option_map {U = List (Line T M) × State T M}
        (λ (p : LineBuffer T M). (to.old ++ filled (Some tag) width (all_lines p), start paragraph.old.setting p.waiting)) (finished paragraph.old)
        ≡ Some (to.new, paragraph.new)) }
    ensures some { IfOk result (λ some. some ≡ not (length to.new == length to.old)) }
    ensures err { IfErr result (λ e. Refuses e (finished paragraph.old)) }
{
    let mut lines = FinishedLines::new(alloc);
    let some = paragraph.flush(&mut lines)?;
    lines.fill(width, tag)?;
    to.append(&mut lines)?;
    Ok(some)
}

/// Appends the lines of a paragraph and empties it, except for its waiting marks. With padding, pads each line to
/// `width` columns with spaces. Returns whether there were lines.
///
/// # Errors
///
/// - `OutOfMemory`.
/// - `TooNarrow`, with overflow off, if a character of the paragraph is wider than a line.
pub fn flush_padded<T: Tag, M: Copy>(
    alloc: Global,
    paragraph: &mut Paragraph<T, M>,
    to: &mut FinishedLines<T, M>,
    width: usize,
    padding: Option<T>,
) -> Result<bool, Error>
    ensures ok { OnOk result (option_map {U = List (Line T M) × State T M}
        (λ (p : LineBuffer T M). (to.old ++ filled padding width (all_lines p), start paragraph.old.setting p.waiting)) (finished paragraph.old)
        ≡ Some (to.new, paragraph.new)) }
    ensures some { IfOk result (λ some. some ≡ not (length to.new == length to.old)) }
    ensures err { IfErr result (λ e. Refuses e (finished paragraph.old)) }
{
    match padding {
        Some(tag) => flush_filled(alloc, paragraph, to, width, tag),
        None => paragraph.flush(to),
    }
}
