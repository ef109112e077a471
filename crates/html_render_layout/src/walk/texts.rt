//! Texts: preformatted and struck-out ones, and all others.
#![tactic(auto, using(html_render_dom_values::specs::laws::Outcome::refusals))]

ghost use Rattle.std.specs.Prelude.{◌≡◌, [], ◌∷◌, ◌++◌, true, OnOk, IfOk, string_bytes, if◌then◌else◌};
ghost use Rattle.std.specs.Str.{chars, encode_utf8_all};
ghost use Rattle.html_render_dom_values.specs.Outcome.{Gives, OnlyOutOfMemory};
ghost use Rattle.html_render_layout_blocks.specs.Machine as machine;
ghost use Rattle.html_render_layout.specs.Layout.{struck, on_block, text_style, write};
ghost use Rattle.html_render_layout.specs.Opening.{add_styled};
ghost use Rattle.html_render_layout.specs.Working.{by_tags};

use crate::tagging::Tagging;
use crate::working::State;
use html_render_dom_values::Error;
use html_render_layout_lines::character::{TextStyle, is_collapsible};
use html_render_parts::decorate::TextDecorator;
use std::alloc::{AllocError, Global};

/// The combining long stroke overlay, which follows a struck-out character.
const STROKE: char = '\u{336}';

/// Appends a struck-out character: with a stroke after it, unless it is collapsible white space.
fn push_struck(text: &mut String, c: char) -> Result<(), AllocError>
    ensures { OnOk result (string_bytes text.new ≡ string_bytes text.old ++ encode_utf8_all (struck (c ∷ []))) }
{
    text.push(c)?;
    if !is_collapsible(c) {
        text.push(STROKE)?;
    }
    Ok(())
}

/// Returns a text with a stroke after each character that isn't collapsible white space.
fn struck(alloc: Global, text: &str) -> Result<String, AllocError>
    ensures { IfOk result (λ written. chars (string_bytes written) ≡ struck (chars text.now)) }
{
    let mut written = String::new(alloc);
    for c in text.chars() {
        push_struck(&mut written, c)?;
    }
    Ok(written)
}

/// Adds a struck-out text to the block.
///
/// Few texts are struck out, so this is a function of its own.
#[inline(never)]
fn add_struck<D: TextDecorator, G: Tagging<D::Annotation>>(
    alloc: Global,
    text: &str,
    style: TextStyle<G::Tag>,
    state: &mut State<D, G>,
) -> Result<(), Error>
    ensures { Gives result (on_block (λ b. machine.operations.add_inline_text b style (struck (chars text.now))) state.old) state.new }
{
    let struck = struck(alloc, text)?;
    state.block.as_mut().add_inline_text(struck.as_str(), style)
}

/// Adds a text in a style to the block, with strokes if texts are struck out.
#[inline]
fn add_styled<D: TextDecorator, G: Tagging<D::Annotation>>(
    alloc: Global,
    text: &str,
    style: TextStyle<G::Tag>,
    state: &mut State<D, G>,
) -> Result<(), Error>
    ensures { Gives result (on_block (λ b. machine.operations.add_inline_text b style (if state.old.text.struck_out then struck (chars text.now) else chars text.now)) state.old) state.new }
{
    if state.text.struck_out {
        add_struck(alloc, text, style, state)
    } else {
        state.block.as_mut().add_inline_text(text, style)
    }
}

/// Returns the style of preformatted texts: one more annotation on top, and another one on continuation lines.
fn preformatted_style<D: TextDecorator, G: Tagging<D::Annotation>>(
    alloc: Global,
    state: &mut State<D, G>,
) -> Result<TextStyle<G::Tag>, Error>
    ensures stacks { OnOk result (state.new ≡ record state.old {
      stacks = (text_style (by_tags D.decoration G.annotated) state.old.decorator state.old.stacks state.old.text true).0;
    }) }
    ensures style { IfOk result (λ style.
        style ≡ (text_style (by_tags D.decoration G.annotated) state.old.decorator state.old.stacks state.old.text true).1) }
    ensures err { OnlyOutOfMemory result }
{
    let first = state.decorator.decorate_preformat_first(alloc)?;
    let first = state.stacks.annotate(state.text.tag, first)?;
    let continuing = state.decorator.decorate_preformat_cont(alloc)?;
    let continuing = state.stacks.annotate(state.text.tag, continuing)?;
    Ok(TextStyle {
        mode: state.text.mode,
        tag: first,
        continuation_tag: continuing,
    })
}

/// Adds a preformatted text to the block.
///
/// Few texts are preformatted, so this is a function of its own.
#[inline(never)]
fn add_preformatted<D: TextDecorator, G: Tagging<D::Annotation>>(
    alloc: Global,
    text: &str,
    state: &mut State<D, G>,
) -> Result<(), Error>
    ensures { Gives result (add_styled (by_tags D.decoration G.annotated)
        (text_style (by_tags D.decoration G.annotated) state.old.decorator state.old.stacks state.old.text true)
        (chars text.now) state.old) state.new }
{
    let style = preformatted_style(alloc, state)?;
    add_styled(alloc, text, style, state)
}

/// Adds a text to the block, treated as the state says.
///
/// # Errors
///
/// `TooNarrow` if overflow is off, the text starts a block, and a character of the paragraph before it is wider than a line.
/// `OutOfMemory`.
#[inline]
pub fn add_text<D: TextDecorator, G: Tagging<D::Annotation>>(
    alloc: Global,
    text: &str,
    state: &mut State<D, G>,
) -> Result<(), Error>
    ensures { Gives result (write (by_tags D.decoration G.annotated) (chars text.now) state.old) state.new }
{
    if state.text.preformatted {
        return add_preformatted(alloc, text, state);
    }
    let style = TextStyle {
        mode: state.text.mode,
        tag: state.text.tag,
        continuation_tag: state.text.tag,
    };
    add_styled(alloc, text, style, state)
}
