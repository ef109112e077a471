//! The closing lines of a document.

ghost use Rattle.std.specs.Prelude.{◌≡◌, ◌++◌, [], codes, map, string_bytes, if◌then◌else◌};
ghost use Rattle.std.specs.Fmt.{decimal};
ghost use Rattle.std.specs.Str.{chars};
ghost use Rattle.std.specs.Prelude.{IfOk};
ghost use Rattle.html_render_dom_values.specs.Outcome.{Gives, OnlyOutOfMemory};
ghost use Rattle.html_render_layout_blocks.specs.Ends.{ended_by};
ghost use Rattle.html_render_layout_blocks.specs.Machine as machine;
ghost use Rattle.html_render_layout.specs.Ending.{footnotes, closing_texts};
ghost use Rattle.html_render_layout.specs.Layout.{on_block};

use crate::tagging::Tagging;
use crate::working::State;
use html_render_dom_values::Error;
use html_render_dom_values::text::Text;
use html_render_parts::decorate::TextDecorator;
use std::alloc::{AllocError, Global};

/// Greatest number of bytes of a footnote before its target: a number of 20 digits, `[` and `]: `.
const NUMBER_ROOM: usize = 24;

/// Returns a footnote: the number of a link in brackets, and its target.
#[tactic(auto, using(crate::proofs::Ending::joined))]
fn footnote(alloc: Global, number: usize, target: &Text) -> Result<String, AllocError>
    ensures { IfOk result (λ text. string_bytes text ≡ codes "[" ++ decimal number ++ codes "]: " ++ target.now) }
{
    let room = target.as_str().len().saturating_add(NUMBER_ROOM);
    let mut text = String::with_capacity(alloc, room)?;
    write!(text, "[{number}]: ")?;
    text.push_str(target.as_str())?;
    Ok(text)
}

/// Returns a footnote for each target, numbered from 1.
fn footnotes(alloc: Global, targets: &[Text]) -> Result<Vec<String>, AllocError>
    ensures { IfOk result (λ texts. map string_bytes texts.items ≡ footnotes 1 targets.now) }
{
    let mut texts = Vec::with_capacity(alloc, targets.len())?;
    for (index, target) in targets.iter().enumerate() {
        let text = footnote(alloc, index + 1, target)?;
        texts.push(text)?;
    }
    Ok(texts)
}

/// Returns a footnote for each target if `link_footnotes` is set, and otherwise none.
fn chosen_footnotes(
    alloc: Global,
    link_footnotes: bool,
    targets: &[Text],
) -> Result<Vec<String>, AllocError>
    ensures { IfOk result (λ texts. map string_bytes texts.items ≡ (if link_footnotes then footnotes 1 targets.now else [])) }
{
    if link_footnotes {
        return footnotes(alloc, targets);
    }
    Ok(Vec::new(alloc))
}

/// Returns the texts of a document's closing lines: the footnotes, and then what the decorator returns for all targets.
fn closing_texts<D: TextDecorator>(
    alloc: Global,
    link_footnotes: bool,
    decorator: &D,
    targets: &[Text],
) -> Result<Vec<String>, Error>
    ensures ok { IfOk result (λ texts. map string_bytes texts.items ≡ closing_texts D.decoration link_footnotes decorator.now targets.now) }
    ensures err { OnlyOutOfMemory result }
{
    let mut texts = chosen_footnotes(alloc, link_footnotes, targets)?;
    let mut more = decorator.finalise(alloc, targets)?;
    texts.append(&mut more)?;
    Ok(texts)
}

/// Finishes the block of a document, and appends its closing lines under a tag: a footnote for each link if `link_footnotes`
/// is set, and then what the decorator returns for all targets. If `wrap_links` is set, they are cut at the block's width.
///
/// # Errors
///
/// `TooNarrow` if overflow is off and a character of the open paragraph is wider than a line, or one of a closing line that
/// is cut is wider than the block. `OutOfMemory`.
#[tactic(auto, using(html_render_dom_values::specs::laws::Outcome::refusals))]
pub fn end<D: TextDecorator, G: Tagging<D::Annotation>>(
    alloc: Global,
    link_footnotes: bool,
    wrap_links: bool,
    tag: G::Tag,
    state: &mut State<D, G>,
) -> Result<(), Error>
    ensures { Gives result (on_block (λ b. ended_by machine.ending b wrap_links tag
        (map chars (closing_texts D.decoration link_footnotes state.old.decorator state.old.targets))) state.old) state.new }
{
    state.block.finish()?;
    let texts = closing_texts(
        alloc,
        link_footnotes,
        &state.decorator,
        state.targets.as_slice(),
    )?;
    state
        .block
        .add_closing_lines(texts.as_slice(), tag, wrap_links)
}
