//! A decorator that changes some results of another one.

ghost use Rattle.std.specs.Prelude.{◌≡◌, IfOk, string_bytes};
ghost use Rattle.html_render_dom_values.specs.Outcome.{OnlyOutOfMemory};
ghost use Rattle.html_render_parts.specs.Alteration.{altered, coloured};

use super::TextDecorator;
use super::changes::Changes;
use super::place::{Given, Place};
use html_render_dom_values::Error;
use html_render_dom_values::colours::Colour;
use html_render_dom_values::text::Text;
use std::alloc::Global;

/// Decorator with the results of another one, some of them changed.
#[derive(Drop)]
pub struct Altered<D, C> {
    /// Decorator whose results are changed.
    pub below: D,
    /// Changes to its results.
    pub changes: C,
}

impl<D: TextDecorator, C: Changes<D::Annotation>> Altered<D, C> {
    /// Returns the changed text and annotation of `place`, the start of a part, where `below` are the other decorator's.
    fn start(
        &self,
        alloc: Global,
        place: &Place<'_>,
        below: (String, D::Annotation),
    ) -> Result<(String, C::Annotation), Error>
        ensures text { IfOk result (λ r. string_bytes r.0 ≡ C.alteration.text self.now.changes place.now (string_bytes below.0)) }
        ensures annotation { IfOk result (λ r. r.1 ≡ C.alteration.annotation self.now.changes place.now below.1) }
        ensures err { OnlyOutOfMemory result }
    {
        let (text, annotation) = below;
        let text = self.changes.text(alloc, place, text)?;
        let annotation = self.changes.annotation(alloc, place, annotation)?;
        Ok((text, annotation))
    }

    /// Returns the changed annotation of a colour or a background, where `below` is the other decorator's.
    ///
    /// `annotation` of the changes gives it if there is one below, and `colour` otherwise.
    fn coloured(
        &self,
        alloc: Global,
        place: &Place<'_>,
        below: Option<D::Annotation>,
    ) -> Result<Option<C::Annotation>, Error>
        ensures ok { IfOk result (λ r. r ≡ coloured C.alteration self.now.changes place.now below) }
        ensures err { OnlyOutOfMemory result }
    {
        match below {
            Some(below) => Ok(Some(self.changes.annotation(alloc, place, below)?)),
            None => self.changes.colour(alloc, place),
        }
    }
}

impl<D: TextDecorator, C: Changes<D::Annotation>> TextDecorator for Altered<D, C> {
    type Annotation = C::Annotation;

    ghost decoration = { altered D.decoration C.alteration };

    ghost clone_is_same = { C.clone_is_same };

    fn decorate_link_start(
        &self,
        alloc: Global,
        url: &str,
    ) -> Result<(String, C::Annotation), Error> {
        let below = self.below.decorate_link_start(alloc, url)?;
        self.start(alloc, &Place::LinkStart(Given::new(url)), below)
    }

    fn decorate_link_end(&self, alloc: Global) -> Result<String, Error> {
        let below = self.below.decorate_link_end(alloc)?;
        self.changes.text(alloc, &Place::LinkEnd, below)
    }

    fn decorate_em_start(&self, alloc: Global) -> Result<(String, C::Annotation), Error> {
        let below = self.below.decorate_em_start(alloc)?;
        self.start(alloc, &Place::EmStart, below)
    }

    fn decorate_em_end(&self, alloc: Global) -> Result<String, Error> {
        let below = self.below.decorate_em_end(alloc)?;
        self.changes.text(alloc, &Place::EmEnd, below)
    }

    fn decorate_strong_start(&self, alloc: Global) -> Result<(String, C::Annotation), Error> {
        let below = self.below.decorate_strong_start(alloc)?;
        self.start(alloc, &Place::StrongStart, below)
    }

    fn decorate_strong_end(&self, alloc: Global) -> Result<String, Error> {
        let below = self.below.decorate_strong_end(alloc)?;
        self.changes.text(alloc, &Place::StrongEnd, below)
    }

    fn decorate_strikeout_start(&self, alloc: Global) -> Result<(String, C::Annotation), Error> {
        let below = self.below.decorate_strikeout_start(alloc)?;
        self.start(alloc, &Place::StrikeoutStart, below)
    }

    fn decorate_strikeout_end(&self, alloc: Global) -> Result<String, Error> {
        let below = self.below.decorate_strikeout_end(alloc)?;
        self.changes.text(alloc, &Place::StrikeoutEnd, below)
    }

    fn decorate_code_start(&self, alloc: Global) -> Result<(String, C::Annotation), Error> {
        let below = self.below.decorate_code_start(alloc)?;
        self.start(alloc, &Place::CodeStart, below)
    }

    fn decorate_code_end(&self, alloc: Global) -> Result<String, Error> {
        let below = self.below.decorate_code_end(alloc)?;
        self.changes.text(alloc, &Place::CodeEnd, below)
    }

    fn decorate_superscript_start(&self, alloc: Global) -> Result<(String, C::Annotation), Error> {
        let below = self.below.decorate_superscript_start(alloc)?;
        self.start(alloc, &Place::SuperscriptStart, below)
    }

    fn decorate_superscript_end(&self, alloc: Global) -> Result<String, Error> {
        let below = self.below.decorate_superscript_end(alloc)?;
        self.changes.text(alloc, &Place::SuperscriptEnd, below)
    }

    fn decorate_image(
        &self,
        alloc: Global,
        src: &str,
        title: &str,
    ) -> Result<(String, C::Annotation), Error> {
        let below = self.below.decorate_image(alloc, src, title)?;
        self.start(
            alloc,
            &Place::Image(Given::new(src), Given::new(title)),
            below,
        )
    }

    fn decorate_preformat_first(&self, alloc: Global) -> Result<C::Annotation, Error> {
        let below = self.below.decorate_preformat_first(alloc)?;
        self.changes
            .annotation(alloc, &Place::PreformatFirst, below)
    }

    fn decorate_preformat_cont(&self, alloc: Global) -> Result<C::Annotation, Error> {
        let below = self.below.decorate_preformat_cont(alloc)?;
        self.changes.annotation(alloc, &Place::PreformatCont, below)
    }

    fn header_prefix(&self, alloc: Global, level: usize) -> Result<String, Error> {
        let below = self.below.header_prefix(alloc, level)?;
        self.changes.text(alloc, &Place::HeaderPrefix(level), below)
    }

    fn quote_prefix(&self, alloc: Global) -> Result<String, Error> {
        let below = self.below.quote_prefix(alloc)?;
        self.changes.text(alloc, &Place::QuotePrefix, below)
    }

    fn unordered_item_prefix(&self, alloc: Global) -> Result<String, Error> {
        let below = self.below.unordered_item_prefix(alloc)?;
        self.changes.text(alloc, &Place::UnorderedItemPrefix, below)
    }

    fn ordered_item_prefix(&self, alloc: Global, number: i64) -> Result<String, Error> {
        let below = self.below.ordered_item_prefix(alloc, number)?;
        self.changes
            .text(alloc, &Place::OrderedItemPrefix(number), below)
    }

    fn push_colour(&self, alloc: Global, colour: Colour) -> Result<Option<C::Annotation>, Error> {
        let below = self.below.push_colour(alloc, colour)?;
        self.coloured(alloc, &Place::Colour(colour), below)
    }

    fn push_bgcolour(&self, alloc: Global, colour: Colour) -> Result<Option<C::Annotation>, Error> {
        let below = self.below.push_bgcolour(alloc, colour)?;
        self.coloured(alloc, &Place::Background(colour), below)
    }

    fn finalise(&self, alloc: Global, links: &[Text]) -> Result<Vec<String>, Error> {
        let below = self.below.finalise(alloc, links)?;
        self.changes.lines(alloc, links, below)
    }

    fn make_subblock_decorator(&self, alloc: Global) -> Result<Altered<D, C>, Error> {
        Ok(Altered {
            below: self.below.make_subblock_decorator(alloc)?,
            changes: self.changes.subblock(alloc)?,
        })
    }
}
