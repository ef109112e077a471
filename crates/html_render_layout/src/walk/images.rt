//! Images and drawings, and the title that each is shown with.

ghost use Rattle.std.specs.Prelude.{◌≡◌, ◌==◌, Some, option_map};
ghost use Rattle.std.specs.List.{after_last};
ghost use Rattle.html_render_dom_values.specs.Outcome.{Gives};
ghost use Rattle.html_render_layout.specs.Images.{shown_title};
ghost use Rattle.html_render_layout.specs.Layout.{image, perform_all};
ghost use Rattle.html_render_layout.specs.Working.{by_tags};

use super::emphasis::begin;
use crate::tagging::Tagging;
use crate::working::State;
use html_render_dom_values::Error;
use html_render_layout_estimates::settings::ImageRenderMode;
use html_render_parts::decorate::TextDecorator;
use std::alloc::Global;

/// Returns the part of an address after its last slash, or the whole address if it has none.
fn file_name(address: &str) -> &str
    ensures { result.now ≡ after_last (λ b. b == 47) address.now }
{
    let bytes = address.as_bytes();
    let mut start = bytes.len();
    while start > 0 {
        if bytes[start - 1] == b'/' {
            return &address[start..];
        }
        start -= 1;
    }
    address
}

/// Returns the title that an image is shown with, or `None` if it isn't shown. Only for an empty title the mode decides.
fn shown_title<'a>(mode: &'a ImageRenderMode, source: &'a str, title: &'a str) -> Option<&'a str>
    ensures { option_map (λ title. title.now) result ≡ shown_title mode.now source.now title.now }
{
    if !title.is_empty() {
        return Some(title);
    }
    match mode {
        ImageRenderMode::IgnoreEmpty => None,
        ImageRenderMode::ShowAlways => Some(""),
        ImageRenderMode::Replace(text) => Some(text.as_str()),
        ImageRenderMode::Filename => {
            let name = file_name(source);
            if name.is_empty() { None } else { Some(name) }
        }
    }
}

/// Adds the decorator's text for an image under the image's annotation, or nothing if the image isn't shown.
///
/// # Errors
///
/// `TooNarrow` and `OutOfMemory`, as for [`add_text`](super::texts::add_text).
#[tactic(auto, using(html_render_dom_values::specs::laws::Outcome::refusals))]
pub fn add_image<D: TextDecorator, G: Tagging<D::Annotation>>(
    alloc: Global,
    source: &str,
    title: &str,
    state: &mut State<D, G>,
) -> Result<(), Error>
    ensures { Gives result (perform_all (by_tags D.decoration G.annotated) state.old
        (image D.decoration source.now (shown_title state.old.settings.empty_images source.now title.now)) state.old) state.new }
{
    let Some(title) = shown_title(&state.settings.empty_images, source, title) else {
        return Ok(());
    };
    let start = state.decorator.decorate_image(alloc, source, title)?;
    begin(alloc, start, state)
}
