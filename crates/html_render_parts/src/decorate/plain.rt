//! Decorator of plain text.

ghost use Rattle.std.specs.Prelude.{refl};
ghost use Rattle.html_render_parts.specs.Decorators.{plain};

use super::TextDecorator;
use html_render_dom_values::Error;
use html_render_dom_values::colours::Colour;
use html_render_dom_values::text::Text;
use std::alloc::Global;

/// Decorator of plain text, without annotations.
///
/// - It writes `[` and `]` around a link and around the title of an image, and `^{` and `}` around a superscript.
/// - The prefix of a heading is one `#` for each level and a space; that of a quote `> `; that of an item `* `, or its
///   number and `. `.
/// - It writes nothing around emphasised, strong and struck-out text and code, and no closing lines.
#[derive(Clone, Copy, Debug, Default, PartialEq, Eq)]
pub struct PlainDecorator;

impl PlainDecorator {
    /// Returns the decorator of plain text, without an allocation.
    pub fn new() -> PlainDecorator {
        PlainDecorator
    }
}

impl TextDecorator for PlainDecorator {
    type Annotation = ();

    ghost decoration = { plain tt };

    ghost clone_is_same = { λ a b h. refl };

    fn decorate_link_start(&self, alloc: Global, _url: &str) -> Result<(String, ()), Error> {
        Ok((String::from_str(alloc, "[")?, ()))
    }

    fn decorate_link_end(&self, alloc: Global) -> Result<String, Error> {
        Ok(String::from_str(alloc, "]")?)
    }

    fn decorate_em_start(&self, alloc: Global) -> Result<(String, ()), Error> {
        Ok((String::new(alloc), ()))
    }

    fn decorate_em_end(&self, alloc: Global) -> Result<String, Error> {
        Ok(String::new(alloc))
    }

    fn decorate_strong_start(&self, alloc: Global) -> Result<(String, ()), Error> {
        Ok((String::new(alloc), ()))
    }

    fn decorate_strong_end(&self, alloc: Global) -> Result<String, Error> {
        Ok(String::new(alloc))
    }

    fn decorate_strikeout_start(&self, alloc: Global) -> Result<(String, ()), Error> {
        Ok((String::new(alloc), ()))
    }

    fn decorate_strikeout_end(&self, alloc: Global) -> Result<String, Error> {
        Ok(String::new(alloc))
    }

    fn decorate_code_start(&self, alloc: Global) -> Result<(String, ()), Error> {
        Ok((String::new(alloc), ()))
    }

    fn decorate_code_end(&self, alloc: Global) -> Result<String, Error> {
        Ok(String::new(alloc))
    }

    fn decorate_superscript_start(&self, alloc: Global) -> Result<(String, ()), Error> {
        Ok((String::from_str(alloc, "^{")?, ()))
    }

    fn decorate_superscript_end(&self, alloc: Global) -> Result<String, Error> {
        Ok(String::from_str(alloc, "}")?)
    }

    fn decorate_image(
        &self,
        alloc: Global,
        _src: &str,
        title: &str,
    ) -> Result<(String, ()), Error> {
        Ok((format!(in alloc; "[{title}]")?, ()))
    }

    fn decorate_preformat_first(&self, _alloc: Global) -> Result<(), Error> {
        Ok(())
    }

    fn decorate_preformat_cont(&self, _alloc: Global) -> Result<(), Error> {
        Ok(())
    }

    fn header_prefix(&self, alloc: Global, level: usize) -> Result<String, Error> {
        let mut prefix = "#".repeat(alloc, level)?;
        prefix.push(' ')?;
        Ok(prefix)
    }

    fn quote_prefix(&self, alloc: Global) -> Result<String, Error> {
        Ok(String::from_str(alloc, "> ")?)
    }

    fn unordered_item_prefix(&self, alloc: Global) -> Result<String, Error> {
        Ok(String::from_str(alloc, "* ")?)
    }

    fn ordered_item_prefix(&self, alloc: Global, number: i64) -> Result<String, Error> {
        Ok(format!(in alloc; "{number}. ")?)
    }

    fn push_colour(&self, _alloc: Global, _colour: Colour) -> Result<Option<()>, Error> {
        Ok(None)
    }

    fn push_bgcolour(&self, _alloc: Global, _colour: Colour) -> Result<Option<()>, Error> {
        Ok(None)
    }

    fn finalise(&self, alloc: Global, _links: &[Text]) -> Result<Vec<String>, Error> {
        Ok(Vec::new(alloc))
    }

    fn make_subblock_decorator(&self, _alloc: Global) -> Result<PlainDecorator, Error> {
        Ok(*self)
    }
}
