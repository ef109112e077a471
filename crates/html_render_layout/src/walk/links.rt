//! Links with their numbers, and fragment marks.
#![tactic(auto, using(html_render_dom_values::specs::laws::Outcome::refusals))]

ghost use Rattle.std.specs.Fmt.{decimal};
ghost use Rattle.std.specs.Prelude.{◌≡◌, ◌∷◌, ◌++◌, Some, codes, IfOk, OnOk};
ghost use Rattle.html_render_dom_values.specs.Outcome.{Gives, OnlyOutOfMemory};
ghost use Rattle.html_render_parts.specs.Decoration.{link};
ghost use Rattle.html_render_layout.specs.Layout.{AddTarget, AddMark, start, perform, perform_all};
ghost use Rattle.html_render_layout.specs.Opening.{kind_closed, write_number};
ghost use Rattle.html_render_layout.specs.Working.{by_tags};

use super::emphasis::begin;
use super::texts::add_text;
use crate::state::{CloseAction, TextContext};
use crate::tagging::Tagging;
use crate::working::State;
use arrayvec::ArrayString;
use html_render_dom_values::Error;
use html_render_parts::decorate::TextDecorator;
use std::alloc::Global;
use std::fmt;
use std::fmt::Write as _;

/// Adds a fragment mark to the open paragraph, and its name to the state's names.
///
/// # Errors
///
/// `OutOfMemory`.
pub fn add_mark<D: TextDecorator, G: Tagging<D::Annotation>>(
    name: &str,
    state: &mut State<D, G>,
) -> Result<(), Error>
    ensures ok { OnOk result (perform (by_tags D.decoration G.annotated) state.old (AddMark name.now) state.old ≡ Some state.new) }
    ensures err { OnlyOutOfMemory result }
{
    state.block.as_mut().add_mark(state.names.len())?;
    state.names.push(name)
}

/// Begins a link: adds its target to the list that numbers links, then its annotation and the decorator's text before it.
///
/// # Errors
///
/// `TooNarrow` and `OutOfMemory`, as for [`add_text`].
pub fn begin_link<D: TextDecorator, G: Tagging<D::Annotation>>(
    alloc: Global,
    target: &str,
    state: &mut State<D, G>,
) -> Result<(), Error>
    ensures { Gives result (perform_all (by_tags D.decoration G.annotated) state.old
        (AddTarget target.now ∷ start D.decoration (link D.decoration target.now)) state.old) state.new }
{
    state.targets.push(target)?;
    let start = state.decorator.decorate_link_start(alloc, target)?;
    begin(alloc, start, state)
}

/// Returns the number of a link in brackets. Allocates nothing.
fn bracketed(number: usize) -> Result<ArrayString<22>, fmt::Error>
    ensures { IfOk result (λ text. text.bytes ≡ codes "[" ++ decimal number ++ codes "]") }
{
    let mut text = ArrayString::<22>::new();
    write!(text, "[{number}]")?;
    Ok(text)
}

/// Adds the number of a link in brackets, if links have footnotes.
fn add_number<D: TextDecorator, G: Tagging<D::Annotation>>(
    alloc: Global,
    number: usize,
    state: &mut State<D, G>,
) -> Result<(), Error>
    ensures { Gives result (write_number (by_tags D.decoration G.annotated) number state.old) state.new }
{
    if !state.settings.link_footnotes {
        return Ok(());
    }
    match bracketed(number) {
        Ok(text) => add_text(alloc, text.as_str(), state),
        Err(_) => Err(Error::OutOfMemory),
    }
}

/// Ends a link: adds the decorator's text after it, restores the treatment of texts to `text`, and adds the link's number in
/// brackets if links have footnotes.
///
/// # Errors
///
/// `TooNarrow` and `OutOfMemory`, as for [`add_text`].
pub fn close_link<D: TextDecorator, G: Tagging<D::Annotation>>(
    alloc: Global,
    text: TextContext<G::Tag>,
    number: usize,
    state: &mut State<D, G>,
) -> Result<(), Error>
    ensures { Gives result (kind_closed (by_tags D.decoration G.annotated) (CloseAction.EndLink text number) state.old) state.new }
{
    let end = state.decorator.decorate_link_end(alloc)?;
    add_text(alloc, end.as_str(), state)?;
    state.text = text;
    add_number(alloc, number, state)
}
