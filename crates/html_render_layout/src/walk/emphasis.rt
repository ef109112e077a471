//! Decorated parts of a text: emphasis, struck-out parts and superscripts; and [`begin`], which links and images use too.
#![tactic(auto, using(html_render_dom_values::specs::laws::Outcome::refusals))]

ghost use Rattle.std.specs.Prelude.{◌≡◌, Some, IfOk, string_bytes};
ghost use Rattle.std.specs.Str.{chars};
ghost use Rattle.html_render_dom_values.specs.Outcome.{Gives, OnlyOutOfMemory};
ghost use Rattle.html_render_layout.specs.Layout.{emphasis_decoration, start, annotated, write, perform_all};
ghost use Rattle.html_render_layout.specs.Working.{by_tags};

use super::texts::add_text;
use crate::tagging::Tagging;
use crate::working::State;
use html_render_dom_values::Error;
use html_render_layout_nodes::tree::Emphasis;
use html_render_parts::decorate::TextDecorator;
use std::alloc::Global;

/// Returns the decorator's text before an emphasis, and the annotation of the emphasis.
fn start_of<D: TextDecorator>(
    alloc: Global,
    decorator: &D,
    emphasis: Emphasis,
) -> Result<(String, D::Annotation), Error>
    ensures text { IfOk result (λ r. string_bytes r.0 ≡ ((emphasis_decoration D.decoration emphasis).start decorator.now).text) }
    ensures annotation { IfOk result (λ r. r.1 ≡ ((emphasis_decoration D.decoration emphasis).start decorator.now).annotation) }
    ensures err { OnlyOutOfMemory result }
{
    match emphasis {
        Emphasis::Em => decorator.decorate_em_start(alloc),
        Emphasis::Strong => decorator.decorate_strong_start(alloc),
        Emphasis::Code => decorator.decorate_code_start(alloc),
    }
}

/// Returns the decorator's text after an emphasis.
///
/// # Errors
///
/// `OutOfMemory`.
pub fn end_of<D: TextDecorator>(
    alloc: Global,
    decorator: &D,
    emphasis: Emphasis,
) -> Result<String, Error>
    ensures ok { IfOk result (λ text. string_bytes text ≡ (emphasis_decoration D.decoration emphasis).end decorator.now) }
    ensures err { OnlyOutOfMemory result }
{
    match emphasis {
        Emphasis::Em => decorator.decorate_em_end(alloc),
        Emphasis::Strong => decorator.decorate_strong_end(alloc),
        Emphasis::Code => decorator.decorate_code_end(alloc),
    }
}

/// Begins a decorated part: pushes its annotation, then adds the decorator's opening text under it.
///
/// # Errors
///
/// `TooNarrow` and `OutOfMemory`, as for [`add_text`].
pub fn begin<D: TextDecorator, G: Tagging<D::Annotation>>(
    alloc: Global,
    start: (String, D::Annotation),
    state: &mut State<D, G>,
) -> Result<(), Error>
    ensures { Gives result (write (by_tags D.decoration G.annotated) (chars (string_bytes start.0))
        (annotated (by_tags D.decoration G.annotated) (Some start.1) state.old)) state.new }
{
    let (text, annotation) = start;
    state.text.tag = state.stacks.annotate(state.text.tag, annotation)?;
    add_text(alloc, text.as_str(), state)
}

/// Begins an emphasis.
///
/// # Errors
///
/// `TooNarrow` and `OutOfMemory`, as for [`add_text`].
pub fn begin_emphasis<D: TextDecorator, G: Tagging<D::Annotation>>(
    alloc: Global,
    emphasis: Emphasis,
    state: &mut State<D, G>,
) -> Result<(), Error>
    ensures { Gives result (perform_all (by_tags D.decoration G.annotated) state.old (start D.decoration (emphasis_decoration D.decoration emphasis)) state.old) state.new }
{
    let start = start_of(alloc, &state.decorator, emphasis)?;
    begin(alloc, start, state)
}

/// Begins a struck-out part: its annotation, and the decorator's text before it.
///
/// # Errors
///
/// `TooNarrow` and `OutOfMemory`, as for [`add_text`].
pub fn begin_strikeout<D: TextDecorator, G: Tagging<D::Annotation>>(
    alloc: Global,
    state: &mut State<D, G>,
) -> Result<(), Error>
    ensures { Gives result (perform_all (by_tags D.decoration G.annotated) state.old (start D.decoration D.decoration.strikeout) state.old) state.new }
{
    let start = state.decorator.decorate_strikeout_start(alloc)?;
    begin(alloc, start, state)
}

/// Begins a superscript that isn't of digits alone.
///
/// # Errors
///
/// `TooNarrow` and `OutOfMemory`, as for [`add_text`].
pub fn begin_superscript<D: TextDecorator, G: Tagging<D::Annotation>>(
    alloc: Global,
    state: &mut State<D, G>,
) -> Result<(), Error>
    ensures { Gives result (perform_all (by_tags D.decoration G.annotated) state.old (start D.decoration D.decoration.superscript) state.old) state.new }
{
    let start = state.decorator.decorate_superscript_start(alloc)?;
    begin(alloc, start, state)
}
