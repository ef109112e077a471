//! Lines as a string.

ghost use Rattle.std.specs.Prelude.{◌≡◌, IfOk, string_bytes};
ghost use Rattle.html_render_tree.specs.Texts.{text_of};

use html_render_layout_buffer::finished::FinishedLines;
use html_render_layout_lines::tag::Tag;
use std::alloc::AllocError;

/// Returns the string of lines: each line's characters and a newline.
pub fn string_of<T: Tag, M: Copy>(lines: FinishedLines<T, M>) -> Result<String, AllocError>
    ensures { IfOk result (λ text. string_bytes text ≡ text_of lines) }
{
    let lines = lines.into_buffer()?;
    Ok(lines.into_string())
}
