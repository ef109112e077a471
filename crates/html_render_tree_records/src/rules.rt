//! Style rules, as records of numbers.

ghost use Rattle.std.specs.Prelude.{◌≡◌, ◌==◌, ◌/◌, ◌%◌, Some, None, map, option_map, string_bytes, IfOk};
ghost use Rattle.html_render_dom_values.specs.Outcome.{OnlyOutOfMemory};
ghost use Rattle.html_render_dom_styles.specs.Rules.{rule_of, style_value_of};
ghost use Rattle.html_render_dom_styles.specs.Selectors.{words};
ghost use Rattle.html_render_tree_records.specs.Settings as settings;
ghost use Rattle.html_render_tree_records.specs.Settings.{declared_in, origin_in, place_in, rgb, rule_in, treatment};

use crate::settings::Setting;
use html_render_dom::steps::pieces::piece_of;
use html_render_tree::Error;
use html_render_tree::style::{
    Colour, Declaration, Display, PseudoElement, Style, StyleOrigin, StyleRule, WhiteSpace,
};
use std::alloc::{AllocError, Global};

/// Returns a piece of `text`, by its start and length in bytes; `None` if it isn't within the text, or isn't UTF-8.
pub fn text_at(text: &[u8], start: u32, length: u32) -> Option<&str>
    ensures { option_map (λ piece. piece.now) result ≡ settings.text_at text.now start length }
{
    piece_of(text, start as usize, length as usize)
}

/// Returns a copy of a piece of `text`; `None` if there is no such piece.
fn copied(alloc: Global, text: &[u8], start: u32, length: u32) -> Result<Option<String>, AllocError>
    ensures { IfOk result (λ copy. option_map string_bytes copy ≡ settings.text_at text.now start length) }
{
    match text_at(text, start, length) {
        Some(piece) => Ok(Some(String::from_str(alloc, piece)?)),
        None => Ok(None),
    }
}

/// Returns a copy of a text that a record may state: `Some(None)` if it doesn't state it, whatever its start and length are,
/// and `None` if it states no piece of `text`.
fn stated(
    alloc: Global,
    is_stated: bool,
    text: &[u8],
    start: u32,
    length: u32,
) -> Result<Option<Option<String>>, AllocError>
    ensures { IfOk result (λ copy. option_map (option_map string_bytes) copy ≡ settings.stated is_stated (settings.text_at text.now start length)) }
{
    if !is_stated {
        return Ok(Some(None));
    }
    match copied(alloc, text, start, length)? {
        Some(copy) => Ok(Some(Some(copy))),
        None => Ok(None),
    }
}

/// Returns the colour 0xRRGGBB.
fn colour_of(number: u32) -> Colour
    ensures { result ≡ rgb number }
{
    Colour {
        r: (number / 65536 % 256) as u8,
        g: (number / 256 % 256) as u8,
        b: (number % 256) as u8,
    }
}

/// Returns the treatment of white space with this number; `None` if there is none.
fn white_space_of(number: u32) -> Option<WhiteSpace>
    ensures { result ≡ treatment number }
{
    match number {
        0 => Some(WhiteSpace::Normal),
        1 => Some(WhiteSpace::Pre),
        2 => Some(WhiteSpace::PreWrap),
        _ => None,
    }
}

/// Returns the declaration of a rule; `None` if the record declares nothing.
fn style_of(alloc: Global, text: &[u8], setting: &Setting) -> Result<Option<Style>, AllocError>
    ensures { IfOk result (λ style. option_map style_value_of style ≡ declared_in text.now setting.now) }
{
    match setting.number {
        0 => Ok(Some(Style::Colour(colour_of(setting.value)))),
        1 => Ok(Some(Style::BgColour(colour_of(setting.value)))),
        2 => Ok(Some(Style::Display(Display::None))),
        3 => match white_space_of(setting.value) {
            Some(white_space) => Ok(Some(Style::WhiteSpace(white_space))),
            None => Ok(None),
        },
        4 => match copied(alloc, text, setting.text, setting.text_length)? {
            Some(content) => Ok(Some(Style::Content(content))),
            None => Ok(None),
        },
        _ => Ok(None),
    }
}

/// Returns the origin of a rule, by the flags.
fn origin_of(flags: u32) -> StyleOrigin
    ensures { result ≡ origin_in flags }
{
    match flags % 4 {
        0 => StyleOrigin::None,
        1 => StyleOrigin::Agent,
        2 => StyleOrigin::User,
        _ => StyleOrigin::Author,
    }
}

/// Returns the pseudo-element that a rule is for, by the flags; `None` for a rule for elements.
fn pseudo_of(flags: u32) -> Option<PseudoElement>
    ensures { result ≡ place_in flags }
{
    if flags / 8 % 2 == 1 {
        Some(PseudoElement::Before)
    } else if flags / 16 % 2 == 1 {
        Some(PseudoElement::After)
    } else {
        None
    }
}

/// Returns copies of the words of a text, between which there is ASCII white space.
fn words_of(alloc: Global, text: &str) -> Result<Vec<String>, AllocError>
    ensures { IfOk result (λ copies. map string_bytes copies.items ≡ words text.now) }
{
    let mut copies = Vec::new(alloc);
    let mut words = text.split_ascii_whitespace();
    while let Some(word) = words.next() {
        copies.push(String::from_str(alloc, word)?)?;
    }
    Ok(copies)
}

/// Returns the rule of a record, with this declaration; `None` if the record states a text that is no piece of `text`.
fn rule_with(
    alloc: Global,
    text: &[u8],
    setting: &Setting,
    style: Style,
) -> Result<Option<StyleRule>, Error>
    requires { declared_in text.now setting.now ≡ Some (style_value_of style) }
    ensures ok { IfOk result (λ rule. option_map rule_of rule ≡ rule_in text.now setting.now) }
    ensures err { OnlyOutOfMemory result }
{
    let flags = setting.flags;
    let has_element = flags / 32 % 2 == 1;
    let has_id = flags / 64 % 2 == 1;
    let Some(element) = stated(
        alloc,
        has_element,
        text,
        setting.element,
        setting.element_length,
    )?
    else {
        return Ok(None);
    };
    let Some(id) = stated(alloc, has_id, text, setting.id, setting.id_length)? else {
        return Ok(None);
    };
    let Some(classes) = text_at(text, setting.classes, setting.classes_length) else {
        return Ok(None);
    };
    let mut declarations = Vec::with_capacity(alloc, 1)?;
    declarations.push(Declaration {
        important: flags / 4 % 2 == 1,
        style,
    })?;
    Ok(Some(StyleRule {
        origin: origin_of(flags),
        element,
        id,
        classes: words_of(alloc, classes)?,
        pseudo: pseudo_of(flags),
        declarations,
    }))
}

/// Returns the rule of a record, whose texts are pieces of `text`; `None` if the record is faulty.
pub fn rule_of(alloc: Global, text: &[u8], setting: &Setting) -> Result<Option<StyleRule>, Error>
    ensures ok { IfOk result (λ rule. option_map rule_of rule ≡ rule_in text.now setting.now) }
    ensures err { OnlyOutOfMemory result }
{
    match style_of(alloc, text, setting)? {
        Some(style) => rule_with(alloc, text, setting, style),
        None => Ok(None),
    }
}
