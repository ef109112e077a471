//! Calls of the decorators of plain and rich text: a name and arguments in, an annotation and a text out.

use crate::annotations::Shown;
use crate::faults::Fault;
use crate::rules::colour;
use crate::texts::split_word;
use crate::watch::Watch;
use html_render_dom_values::Error;
use html_render_dom_values::text::Text;
use html_render_parts::decorate::{PlainDecorator, RichDecorator, TextDecorator};
use std::alloc::Global;

/// Returns the line of the result of a decorator's call: `plain` or `rich`, the call's name, and its arguments.
pub fn answer(alloc: Global, given: &str, watch: Watch) -> Result<String, Fault> {
    match split_word(given) {
        ("plain", call) => called(alloc, &PlainDecorator::new(), call, watch),
        ("rich", call) => called(alloc, &RichDecorator::new(), call, watch),
        _ => Err(Fault::Malformed("no decorator has this name")),
    }
}

/// Result of a call: a text, and the annotation of its characters and those after it, if there is one.
type Reply<A> = Result<(String, Option<A>), Error>;

/// Returns the result of a call that has a text and an annotation.
fn start<A: Drop>(came: Result<(String, A), Error>) -> Reply<A> {
    came.map(|(text, annotation)| (text, Some(annotation)))
}

/// Returns the result of a call that has a text alone.
fn text<A: Drop>(came: Result<String, Error>) -> Reply<A> {
    came.map(|text| (text, None))
}

/// Returns the result of a call that has an annotation or none.
fn mark<A: Drop>(alloc: Global, came: Result<Option<A>, Error>) -> Reply<A> {
    came.map(|annotation| (String::new(alloc), annotation))
}

/// Returns the line of the result of a decorator's call: the annotation in braces, and the text; of `finalise`, all lines.
fn called<D: TextDecorator>(
    alloc: Global,
    decorator: &D,
    call: &str,
    watch: Watch,
) -> Result<String, Fault>
where
    D::Annotation: Shown,
{
    let (name, given) = split_word(call);
    let (source, title) = split_word(given);
    let (level, number) = (given.parse().unwrap_or(0), given.parse().unwrap_or(0));
    let colour = colour(if name.starts_with("push_") {
        given
    } else {
        "0"
    })?;
    let links: Vec<Text> = given
        .split_whitespace()
        .map(|word| Text::from_str(alloc, word))
        .try_collect(alloc)?;
    watch.begin(name);
    let (text, annotation) = watch.end(match name {
        "decorate_link_start" => start(decorator.decorate_link_start(alloc, given)),
        "decorate_em_start" => start(decorator.decorate_em_start(alloc)),
        "decorate_strong_start" => start(decorator.decorate_strong_start(alloc)),
        "decorate_strikeout_start" => start(decorator.decorate_strikeout_start(alloc)),
        "decorate_code_start" => start(decorator.decorate_code_start(alloc)),
        "decorate_superscript_start" => start(decorator.decorate_superscript_start(alloc)),
        "decorate_image" => start(decorator.decorate_image(alloc, source, title)),
        "decorate_link_end" => text(decorator.decorate_link_end(alloc)),
        "decorate_em_end" => text(decorator.decorate_em_end(alloc)),
        "decorate_strong_end" => text(decorator.decorate_strong_end(alloc)),
        "decorate_strikeout_end" => text(decorator.decorate_strikeout_end(alloc)),
        "decorate_code_end" => text(decorator.decorate_code_end(alloc)),
        "decorate_superscript_end" => text(decorator.decorate_superscript_end(alloc)),
        "header_prefix" => text(decorator.header_prefix(alloc, level)),
        "quote_prefix" => text(decorator.quote_prefix(alloc)),
        "unordered_item_prefix" => text(decorator.unordered_item_prefix(alloc)),
        "ordered_item_prefix" => text(decorator.ordered_item_prefix(alloc, number)),
        "decorate_preformat_first" => {
            mark(alloc, decorator.decorate_preformat_first(alloc).map(Some))
        }
        "decorate_preformat_cont" => {
            mark(alloc, decorator.decorate_preformat_cont(alloc).map(Some))
        }
        "push_colour" => mark(alloc, decorator.push_colour(alloc, colour)),
        "push_bgcolour" => mark(alloc, decorator.push_bgcolour(alloc, colour)),
        "finalise" => return watch.shown(alloc, decorator.finalise(alloc, &links)),
        _ => return Err(Fault::Malformed("no call of a decorator has this name")),
    })?;
    let mark = match annotation {
        Some(annotation) => format!(in alloc; "{{{}}}", annotation.shown(alloc)?)?,
        None => String::new(alloc),
    };
    Ok(format!(in alloc; "|{mark}{text}\n")?)
}
