//! Decorator of rich text, whose annotations name the part that a character is in.

ghost use Rattle.std.proofs.Common.{rules};
ghost use Rattle.html_render_parts.specs.Decorators.{rich};

use super::{PlainDecorator, TextDecorator};
use html_render_dom_values::Error;
use html_render_dom_values::colours::Colour;
use html_render_dom_values::text::Text;
use std::alloc::Global;

/// Annotation of rich text: a part that a character is in.
#[derive(Clone, Debug, Default, PartialEq, Eq, Drop)]
pub enum RichAnnotation {
    /// Part without an annotation of its own: a superscript.
    #[default]
    Default,
    /// Link to this target.
    Link(Text),
    /// Title of an image with this source.
    Image(Text),
    /// Emphasised text.
    Emphasis,
    /// Strong text.
    Strong,
    /// Struck-out text.
    Strikeout,
    /// Code.
    Code,
    /// Preformatted text; `true` on a continuation line.
    Preformat(bool),
    /// Text of this colour.
    Colour(Colour),
    /// Text on a background of this colour.
    BgColour(Colour),
}

/// Decorator of rich text: [`RichAnnotation`]s instead of texts around the parts of a document.
///
/// Superscripts, prefixes and closing lines are those of [`PlainDecorator`]. For an image, it writes the title alone.
#[derive(Clone, Copy, Debug, Default, PartialEq, Eq)]
pub struct RichDecorator;

impl RichDecorator {
    /// Returns the decorator of rich text, without an allocation.
    pub fn new() -> RichDecorator {
        RichDecorator
    }
}

impl TextDecorator for RichDecorator {
    type Annotation = RichAnnotation;

    ghost decoration = { rich };

    ghost clone_is_same = { Prim.search rules };

    fn decorate_link_start(
        &self,
        alloc: Global,
        url: &str,
    ) -> Result<(String, RichAnnotation), Error> {
        let target = Text::from_str(alloc, url)?;
        Ok((String::new(alloc), RichAnnotation::Link(target)))
    }

    fn decorate_link_end(&self, alloc: Global) -> Result<String, Error> {
        Ok(String::new(alloc))
    }

    fn decorate_em_start(&self, alloc: Global) -> Result<(String, RichAnnotation), Error> {
        Ok((String::new(alloc), RichAnnotation::Emphasis))
    }

    fn decorate_em_end(&self, alloc: Global) -> Result<String, Error> {
        Ok(String::new(alloc))
    }

    fn decorate_strong_start(&self, alloc: Global) -> Result<(String, RichAnnotation), Error> {
        Ok((String::new(alloc), RichAnnotation::Strong))
    }

    fn decorate_strong_end(&self, alloc: Global) -> Result<String, Error> {
        Ok(String::new(alloc))
    }

    fn decorate_strikeout_start(&self, alloc: Global) -> Result<(String, RichAnnotation), Error> {
        Ok((String::new(alloc), RichAnnotation::Strikeout))
    }

    fn decorate_strikeout_end(&self, alloc: Global) -> Result<String, Error> {
        Ok(String::new(alloc))
    }

    fn decorate_code_start(&self, alloc: Global) -> Result<(String, RichAnnotation), Error> {
        Ok((String::new(alloc), RichAnnotation::Code))
    }

    fn decorate_code_end(&self, alloc: Global) -> Result<String, Error> {
        Ok(String::new(alloc))
    }

    fn decorate_superscript_start(&self, alloc: Global) -> Result<(String, RichAnnotation), Error> {
        let text = PlainDecorator.decorate_superscript_start(alloc)?.0;
        Ok((text, RichAnnotation::Default))
    }

    fn decorate_superscript_end(&self, alloc: Global) -> Result<String, Error> {
        PlainDecorator.decorate_superscript_end(alloc)
    }

    fn decorate_image(
        &self,
        alloc: Global,
        src: &str,
        title: &str,
    ) -> Result<(String, RichAnnotation), Error> {
        let source = Text::from_str(alloc, src)?;
        let text = String::from_str(alloc, title)?;
        Ok((text, RichAnnotation::Image(source)))
    }

    fn decorate_preformat_first(&self, _alloc: Global) -> Result<RichAnnotation, Error> {
        Ok(RichAnnotation::Preformat(false))
    }

    fn decorate_preformat_cont(&self, _alloc: Global) -> Result<RichAnnotation, Error> {
        Ok(RichAnnotation::Preformat(true))
    }

    fn header_prefix(&self, alloc: Global, level: usize) -> Result<String, Error> {
        PlainDecorator.header_prefix(alloc, level)
    }

    fn quote_prefix(&self, alloc: Global) -> Result<String, Error> {
        PlainDecorator.quote_prefix(alloc)
    }

    fn unordered_item_prefix(&self, alloc: Global) -> Result<String, Error> {
        PlainDecorator.unordered_item_prefix(alloc)
    }

    fn ordered_item_prefix(&self, alloc: Global, number: i64) -> Result<String, Error> {
        PlainDecorator.ordered_item_prefix(alloc, number)
    }

    fn push_colour(&self, _alloc: Global, colour: Colour) -> Result<Option<RichAnnotation>, Error> {
        Ok(Some(RichAnnotation::Colour(colour)))
    }

    fn push_bgcolour(
        &self,
        _alloc: Global,
        colour: Colour,
    ) -> Result<Option<RichAnnotation>, Error> {
        Ok(Some(RichAnnotation::BgColour(colour)))
    }

    fn finalise(&self, alloc: Global, _links: &[Text]) -> Result<Vec<String>, Error> {
        Ok(Vec::new(alloc))
    }

    fn make_subblock_decorator(&self, _alloc: Global) -> Result<RichDecorator, Error> {
        Ok(*self)
    }
}
