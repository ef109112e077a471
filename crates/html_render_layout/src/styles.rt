//! Effects of a node's style on its texts: annotations of colours, treatment of white space, and whether they are
//! preformatted.

ghost use Rattle.std.specs.Prelude.{◌≡◌, Some, OnOk, IfOk};
ghost use Rattle.html_render_dom_values.specs.Outcome.{OnlyOutOfMemory};
ghost use Rattle.html_render_layout.specs.Layout.{annotated, style_steps, perform_all};
ghost use Rattle.html_render_layout.specs.Working.{by_tags};

use crate::state::TextContext;
use crate::tagging::Tagging;
use crate::working::State;
use html_render_dom_values::Error;
use html_render_dom_values::white_space::WhiteSpace;
use html_render_layout_nodes::tree::NodeStyle;
use html_render_parts::decorate::TextDecorator;
use std::alloc::Global;

/// Adds an annotation, if there is one, on top of the tag of the texts that follow.
fn annotate<D: TextDecorator, G: Tagging<D::Annotation>>(
    annotation: Option<D::Annotation>,
    state: &mut State<D, G>,
) -> Result<(), Error>
    ensures ok { OnOk result (state.new ≡ annotated (by_tags D.decoration G.annotated) annotation state.old) }
    ensures err { OnlyOutOfMemory result }
{
    if let Some(annotation) = annotation {
        state.text.tag = state.stacks.annotate(state.text.tag, annotation)?;
    }
    Ok(())
}

/// Applies a node's style to the texts that follow. Returns the treatment of texts before the node, to be restored after it.
///
/// Adds the decorator's annotations for the style's colour and for its background, in this order, if there are any. Sets the
/// treatment of white space unless the style's is `Normal`, and makes texts preformatted if the style is.
///
/// # Errors
///
/// `OutOfMemory`.
pub fn begin_style<D: TextDecorator, G: Tagging<D::Annotation>>(
    alloc: Global,
    style: &NodeStyle,
    state: &mut State<D, G>,
) -> Result<TextContext<G::Tag>, Error>
    ensures before { IfOk result (λ text. text ≡ state.old.text) }
    ensures ok { OnOk result (perform_all (by_tags D.decoration G.annotated) state.old (style_steps D.decoration style.now) state.old ≡ Some state.new) }
    ensures err { OnlyOutOfMemory result }
{
    let text = state.text;
    if let Some(colour) = style.colour {
        let annotation = state.decorator.push_colour(alloc, colour)?;
        annotate(annotation, state)?;
    }
    if let Some(colour) = style.background {
        let annotation = state.decorator.push_bgcolour(alloc, colour)?;
        annotate(annotation, state)?;
    }
    match style.white_space {
        WhiteSpace::Normal => {}
        mode => state.text.mode = mode,
    }
    if style.preformatted {
        state.text.preformatted = true;
    }
    Ok(text)
}
