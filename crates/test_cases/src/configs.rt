//! Calls that change a configuration, by their names.

use html_render_tree::config::{Config, ImageRenderMode};
use html_render_tree::decorate::TextDecorator;
use html_render_tree::text::Text;
use std::alloc::Global;
use test_case_calls::faults::Fault;
use test_case_calls::rules::rule;
use test_case_calls::texts::{split_word, unescaped};
use test_case_calls::watch::Watch;

/// Parses a mode of images without a title, and returns a copy of it.
fn image_mode(alloc: Global, given: &str, watch: Watch) -> Result<ImageRenderMode, Fault> {
    let mode = match split_word(given) {
        ("IgnoreEmpty", _) => ImageRenderMode::IgnoreEmpty,
        ("ShowAlways", _) => ImageRenderMode::ShowAlways,
        ("Filename", _) => ImageRenderMode::Filename,
        ("Replace", text) => ImageRenderMode::Replace(Text::from(unescaped(alloc, text)?)),
        _ => return Err(Fault::Malformed("no mode of images has this name")),
    };
    watch
        .begin("ImageRenderMode::try_clone")
        .end(mode.try_clone(alloc))
}

/// Returns a configuration after a call. What the call takes is made before the call is watched.
pub fn with_setting<D: TextDecorator>(
    alloc: Global,
    config: Config<D>,
    line: &str,
    watch: Watch,
) -> Result<Config<D>, Fault> {
    let (name, given) = split_word(line);
    let added = rule(alloc, if name == "add_style_rule" { given } else { "" })?;
    let mode = match name {
        "empty_img_mode" => image_mode(alloc, given, watch)?,
        _ => ImageRenderMode::IgnoreEmpty,
    };
    watch.begin(name);
    watch.end(match name {
        "pad_block_width" => Ok(config.pad_block_width()),
        "allow_width_overflow" => Ok(config.allow_width_overflow()),
        "fence_tables" => Ok(config.fence_tables()),
        "whole_words" => Ok(config.whole_words()),
        "no_table_borders" => Ok(config.no_table_borders()),
        "no_link_wrapping" => Ok(config.no_link_wrapping()),
        "max_wrap_width" => Ok(config.max_wrap_width(given.parse()?)),
        "min_wrap_width" => Ok(config.min_wrap_width(given.parse()?)),
        "raw_mode" => Ok(config.raw_mode(given.parse()?)),
        "unicode_strikeout" => Ok(config.unicode_strikeout(given.parse()?)),
        "link_footnotes" => Ok(config.link_footnotes(given.parse()?)),
        "empty_img_mode" => Ok(config.empty_img_mode(mode)),
        "do_decorate" => config.do_decorate(alloc),
        "add_style_rule" => config.add_style_rule(alloc, added),
        _ => return Err(Fault::Malformed("no setting has this name")),
    })
}
