//! Calls of the values in a document (names, attributes, texts) by their names.

use crate::elements::{attributes, shown_attributes, shown_data};
use crate::faults::Fault;
use crate::texts::{printed, split_word};
use crate::watch::Watch;
use html_render_dom::dom::{Attributes, LocalName, NodeData, TextContents};
use html_render_dom::text::Text;
use std::alloc::Global;

/// Returns the line of the value that a call makes or changes, from two words.
pub fn answer(alloc: Global, asked: &str, given: &str, watch: Watch) -> Result<String, Fault> {
    let (first, more) = split_word(given);
    let name = String::from_str(alloc, given)?;
    let (of, added) = (attributes(alloc, first)?, attributes(alloc, more)?);
    match asked {
        "Text::from_str" => {
            let text = watch.begin(asked).end(Text::from_str(alloc, given))?;
            let string = watch.begin("Text::into_string").done(text.into_string())?;
            let text = watch.begin("Text::from").done(Text::from(string))?;
            printed(alloc, text.as_str())
        }
        "NodeData::text_of" => {
            let data = watch.begin(asked).end(NodeData::text_of(alloc, given))?;
            printed(alloc, &shown_data(alloc, &data)?)
        }
        "NodeData::doctype" => {
            let (public_id, system_id) = (String::new(alloc), String::new(alloc));
            watch.begin(asked);
            let data = watch.end(NodeData::doctype(alloc, name, public_id, system_id))?;
            printed(alloc, &shown_data(alloc, &data)?)
        }
        "Attributes::of" => {
            let all = watch.begin(asked).end(Attributes::of(alloc, of))?;
            printed(alloc, &shown_attributes(alloc, all.as_slice())?)
        }
        "Attributes::add_missing" => {
            let mut all = Attributes::of(alloc, of)?;
            watch.begin(asked).end(all.add_missing(added))?;
            printed(alloc, &shown_attributes(alloc, all.as_slice())?)
        }
        "LocalName::from_str" => {
            let name = watch.begin(asked).end(LocalName::from_str(alloc, given))?;
            counted(alloc, name.as_str())
        }
        _ => counted(alloc, text(alloc, asked, first, more, watch)?.as_str()),
    }
}

/// Returns the line of a text, after its length in bytes.
fn counted(alloc: Global, text: &str) -> Result<String, Fault> {
    Ok(format!(in alloc; "|{} {text}\n", text.len())?)
}

/// Returns a text that a call makes, or changes with a text or a number of bytes.
fn text(
    alloc: Global,
    asked: &str,
    first: &str,
    more: &str,
    watch: Watch,
) -> Result<TextContents, Fault> {
    let bytes = more
        .parse::<usize>()
        .or_else(|_| first.parse())
        .unwrap_or(0);
    let character = more.chars().next().unwrap_or(' ');
    let mut text = TextContents::from_str(alloc, first)?;
    watch.begin(asked);
    let came = match asked {
        "TextContents::from_str" => return watch.end(TextContents::from_str(alloc, first)),
        "TextContents::with_capacity" => {
            return watch.end(TextContents::with_capacity(alloc, bytes));
        }
        "TextContents::reserve" => text.reserve(alloc, bytes),
        "TextContents::push_str" => text.push_str(alloc, more),
        "TextContents::push" => text.push(alloc, character),
        "TextContents::put_front" => text.put_front(alloc, more),
        "TextContents::clear" => Ok(text.clear()),
        _ => return Err(Fault::Malformed("no question has this name")),
    };
    watch.end(came)?;
    Ok(text)
}
