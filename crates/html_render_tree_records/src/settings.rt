//! Settings of a configuration, as records of numbers.

ghost use Rattle.std.specs.Prelude.{◌≡◌, IfOk};
ghost use Rattle.html_render_dom_values.specs.Outcome.{OnlyOutOfMemory};
ghost use Rattle.html_render_tree_records.specs.Settings.{image_mode_in, with_setting};

use crate::rules::{rule_of, text_at};
use html_render_tree::Error;
use html_render_tree::config::{Config, ImageRenderMode};
use html_render_tree::decorate::TextDecorator;
use html_render_tree::text::Text;
use std::alloc::Global;

/// A call that changes a configuration.
///
/// Texts are pieces of one buffer, given by their start and length in bytes. A setting ignores the fields that its call
/// doesn't use.
#[repr(C)]
#[derive(Clone, Copy, Debug, Default, PartialEq, Eq)]
pub struct Setting {
    /// Number of the call: 1 `allow_width_overflow`, 2 `do_decorate`, 3 `link_footnotes`, 4 `no_link_wrapping`,
    /// 5 `unicode_strikeout`, 6 `empty_img_mode`, 7 `pad_block_width`, 8 `max_wrap_width`, 9 `min_wrap_width`,
    /// 10 `raw_mode`, 11 `no_table_borders`, 12 `fence_tables`, 13 `add_style_rule`, 14 `whole_words`.
    pub kind: u32,
    /// Argument of the call:
    ///
    /// - a switch: 0 for `false`, any other number for `true`
    /// - a number of columns
    /// - `empty_img_mode`: 0 `IgnoreEmpty`, 1 `ShowAlways`, 2 `Replace` with the text, 3 `Filename`
    /// - `add_style_rule`: the declaration of the rule: 0 the colour `value`, 1 the background `value`, 2 `display: none`,
    ///   3 white space by `value`, 4 the text as content
    pub number: u32,
    /// Of a rule: a colour as 0xRRGGBB, or white space: 0 `Normal`, 1 `Pre`, 2 `PreWrap`.
    pub value: u32,
    /// Of a rule, in the lowest two bits, the origin: 0 none, 1 the agent, 2 the user, 3 the author. Also 4 for an important
    /// declaration, 8 for the pseudo-element `Before`, 16 for `After` (unless 8 is set), 32 if it states an element's name,
    /// and 64 if it states an id.
    pub flags: u32,
    /// Start of a text.
    pub text: u32,
    /// Length of the text.
    pub text_length: u32,
    /// Start of a rule's element name.
    pub element: u32,
    /// Length of the element name.
    pub element_length: u32,
    /// Start of a rule's id.
    pub id: u32,
    /// Length of the id.
    pub id_length: u32,
    /// Start of a rule's classes, words separated by ASCII white space.
    pub classes: u32,
    /// Length of the classes.
    pub classes_length: u32,
}

/// Returns how images with an empty title are shown, by a record; `None` if the record is faulty.
fn image_mode(
    alloc: Global,
    text: &[u8],
    setting: &Setting,
) -> Result<Option<ImageRenderMode>, Error>
    ensures ok { IfOk result (λ mode. mode ≡ image_mode_in text.now setting.now) }
    ensures err { OnlyOutOfMemory result }
{
    match setting.number {
        0 => Ok(Some(ImageRenderMode::IgnoreEmpty)),
        1 => Ok(Some(ImageRenderMode::ShowAlways)),
        2 => match text_at(text, setting.text, setting.text_length) {
            Some(title) => Ok(Some(ImageRenderMode::Replace(Text::from_str(alloc, title)?))),
            None => Ok(None),
        },
        3 => Ok(Some(ImageRenderMode::Filename)),
        _ => Ok(None),
    }
}

/// Returns a configuration with the record's mode of images with an empty title; `None` if the record is faulty.
fn with_images<D: TextDecorator>(
    alloc: Global,
    config: Config<D>,
    text: &[u8],
    setting: &Setting,
) -> Result<Option<Config<D>>, Error>
    requires { setting.now.kind ≡ 6 }
    ensures ok { IfOk result (λ made. made ≡ with_setting text.now config setting.now) }
    ensures err { OnlyOutOfMemory result }
{
    match image_mode(alloc, text, setting)? {
        Some(mode) => Ok(Some(config.empty_img_mode(mode))),
        None => Ok(None),
    }
}

/// Returns a configuration with the record's rule after its other rules; `None` if the record is faulty.
fn with_rule<D: TextDecorator>(
    alloc: Global,
    config: Config<D>,
    text: &[u8],
    setting: &Setting,
) -> Result<Option<Config<D>>, Error>
    requires { setting.now.kind ≡ 13 }
    ensures ok { IfOk result (λ made. made ≡ with_setting text.now config setting.now) }
    ensures err { OnlyOutOfMemory result }
{
    match rule_of(alloc, text, setting)? {
        Some(rule) => Ok(Some(config.add_style_rule(alloc, rule)?)),
        None => Ok(None),
    }
}

/// Returns a configuration after the call of a record, whose texts are pieces of `text`; `None` if the record is faulty.
pub fn with_setting<D: TextDecorator>(
    alloc: Global,
    config: Config<D>,
    text: &[u8],
    setting: &Setting,
) -> Result<Option<Config<D>>, Error>
    ensures ok { IfOk result (λ made. made ≡ with_setting text.now config setting.now) }
    ensures err { OnlyOutOfMemory result }
{
    let is_on = setting.number != 0;
    Ok(match setting.kind {
        1 => Some(config.allow_width_overflow()),
        2 => Some(config.do_decorate(alloc)?),
        3 => Some(config.link_footnotes(is_on)),
        4 => Some(config.no_link_wrapping()),
        5 => Some(config.unicode_strikeout(is_on)),
        6 => with_images(alloc, config, text, setting)?,
        7 => Some(config.pad_block_width()),
        8 => Some(config.max_wrap_width(setting.number as usize)),
        9 => Some(config.min_wrap_width(setting.number as usize)),
        10 => Some(config.raw_mode(is_on)),
        11 => Some(config.no_table_borders()),
        12 => Some(config.fence_tables()),
        13 => with_rule(alloc, config, text, setting)?,
        14 => Some(config.whole_words()),
        _ => None,
    })
}
