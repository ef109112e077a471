//! Style rules as cases write them: `Author p.note#id::before important Colour #ff0000; Content text`.

use crate::faults::Fault;
use crate::texts::{split_word, unescaped};
use html_render_dom::style::{
    Colour, Declaration, Display, PseudoElement, Style, StyleOrigin, StyleRule, WhiteSpace,
};
use std::alloc::{AllocError, Global};

/// Parses a colour `#rrggbb`.
pub fn colour(text: &str) -> Result<Colour, Fault> {
    match u32::from_str_radix(text.trim_start_matches('#'), 16)? {
        number if number < 1 << 24 => Ok(Colour {
            r: (number >> 16 & 255) as u8,
            g: (number >> 8 & 255) as u8,
            b: (number & 255) as u8,
        }),
        _ => Err(Fault::Malformed("a colour has more than three bytes")),
    }
}

/// Parses a property and its value.
fn style(alloc: Global, text: &str) -> Result<Style, Fault> {
    match split_word(text) {
        ("Colour", value) => Ok(Style::Colour(colour(value)?)),
        ("BgColour", value) => Ok(Style::BgColour(colour(value)?)),
        ("Display", "None") => Ok(Style::Display(Display::None)),
        ("WhiteSpace", "Normal") => Ok(Style::WhiteSpace(WhiteSpace::Normal)),
        ("WhiteSpace", "Pre") => Ok(Style::WhiteSpace(WhiteSpace::Pre)),
        ("WhiteSpace", "PreWrap") => Ok(Style::WhiteSpace(WhiteSpace::PreWrap)),
        ("Content", value) => Ok(Style::Content(unescaped(alloc, value)?)),
        _ => Err(Fault::Malformed("no property has this name or value")),
    }
}

/// Parses declarations, separated by `; `: `important` if one is so, a property, and its value.
fn declarations(alloc: Global, text: &str) -> Result<Vec<Declaration>, Fault> {
    let mut declarations = Vec::new(alloc);
    for declared in text.split_terminator("; ") {
        let important = declared.strip_prefix("important ");
        declarations.push(Declaration {
            important: important.is_some(),
            style: style(alloc, important.unwrap_or(declared))?,
        })?;
    }
    Ok(declarations)
}

/// Returns a word that a selector states; `None` for no word and for `*`.
fn stated(alloc: Global, word: &str) -> Result<Option<String>, AllocError> {
    match word {
        "" | "*" => Ok(None),
        _ => Ok(Some(String::from_str(alloc, word)?)),
    }
}

/// Parses a rule: an origin, a selector and declarations. A selector is an element name or `*`, each class after `.`, an id after
/// `#`, and a pseudo-element.
pub fn rule(alloc: Global, text: &str) -> Result<StyleRule, Fault> {
    let (origin, rest) = split_word(text);
    let (selector, declared) = split_word(rest);
    let (selector, place) = selector.split_once("::").unwrap_or((selector, ""));
    let (selector, id) = selector.split_once('#').unwrap_or((selector, ""));
    let mut words = selector.split('.');
    Ok(StyleRule {
        origin: match origin {
            "Agent" => StyleOrigin::Agent,
            "User" => StyleOrigin::User,
            "Author" => StyleOrigin::Author,
            "None" | "" => StyleOrigin::None,
            _ => return Err(Fault::Malformed("no origin has this name")),
        },
        element: stated(alloc, words.next().unwrap_or(""))?,
        id: stated(alloc, id)?,
        classes: words
            .map(|word| String::from_str(alloc, word))
            .try_collect(alloc)?,
        pseudo: match place {
            "before" => Some(PseudoElement::Before),
            "after" => Some(PseudoElement::After),
            _ => None,
        },
        declarations: declarations(alloc, declared)?,
    })
}
