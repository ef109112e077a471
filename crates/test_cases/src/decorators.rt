//! Decorators that cases name. Each changes some results of plain text's decorator.

ghost use Rattle.std.specs.Prelude.{◌≡◌, refl, IfOk};
ghost use Rattle.html_render_dom_values.specs.Outcome.{OnlyOutOfMemory};
ghost use Rattle.html_render_tree.specs.Alteration.{unchanged};
ghost use Rattle.test_cases.specs.Own as own;

use html_render_tree::Error;
use html_render_tree::decorate::{Altered, Changes, Place, PlainDecorator};
use html_render_tree::text::Text;
use std::alloc::Global;
use test_case_calls::faults::Fault;

/// Change of plain text's decorator.
#[derive(Clone, Copy)]
pub enum Own<'a> {
    /// `grow:N`: the prefix of a quote is N times `>`, and in each sub-block once more.
    Grow(usize),
    /// `odd`: the prefix of item number 2 of a numbered list is `(two) `.
    Odd,
    /// `refusing:CALL`: the call of this name is out of memory.
    Refusing(&'a str),
}

impl<'a> Own<'a> {
    /// Returns the decorator of plain text with the change of this name.
    pub fn decorator(name: &'a str) -> Result<Altered<PlainDecorator, Own<'a>>, Fault> {
        let changes = match name.split_once(':') {
            Some(("grow", level)) => Own::Grow(level.parse()?),
            Some(("refusing", call)) => Own::Refusing(call),
            _ if name == "odd" => Own::Odd,
            _ => return Err(Fault::Malformed("no decorator has this name")),
        };
        let below = PlainDecorator::new();
        Ok(Altered { below, changes })
    }

    /// Returns this result, unless the call is the refused one.
    fn unless_refused<T: Drop>(&self, call: &str, answer: T) -> Result<T, Error>
        ensures ok { IfOk result (λ r. r ≡ answer) }
        ensures err { OnlyOutOfMemory result }
    {
        match self {
            Own::Refusing(refused) if *refused == call => Err(Error::OutOfMemory),
            _ => Ok(answer),
        }
    }
}

/// Returns the name of the decorator's call at a place.
fn call_at(place: &Place<'_>) -> &'static str {
    match place {
        Place::LinkStart(_) => "decorate_link_start",
        Place::LinkEnd => "decorate_link_end",
        Place::EmStart => "decorate_em_start",
        Place::EmEnd => "decorate_em_end",
        Place::StrongStart => "decorate_strong_start",
        Place::StrongEnd => "decorate_strong_end",
        Place::StrikeoutStart => "decorate_strikeout_start",
        Place::StrikeoutEnd => "decorate_strikeout_end",
        Place::CodeStart => "decorate_code_start",
        Place::CodeEnd => "decorate_code_end",
        Place::SuperscriptStart => "decorate_superscript_start",
        Place::SuperscriptEnd => "decorate_superscript_end",
        Place::Image(_, _) => "decorate_image",
        Place::PreformatFirst => "decorate_preformat_first",
        Place::PreformatCont => "decorate_preformat_cont",
        Place::HeaderPrefix(_) => "header_prefix",
        Place::QuotePrefix => "quote_prefix",
        Place::UnorderedItemPrefix => "unordered_item_prefix",
        Place::OrderedItemPrefix(_) => "ordered_item_prefix",
        Place::Colour(_) => "push_colour",
        Place::Background(_) => "push_bgcolour",
    }
}

impl<'a> Changes<()> for Own<'a> {
    type Annotation = ();

    ghost alteration = { record unchanged { text = own.text; subblock = own.subblock } };

    ghost clone_is_same = { λ a b h. refl };

    fn text(&self, alloc: Global, place: &Place<'_>, below: String) -> Result<String, Error> {
        match (self, place) {
            (Own::Grow(level), Place::QuotePrefix) => Ok(">".repeat(alloc, *level)?),
            (Own::Odd, Place::OrderedItemPrefix(2)) => Ok(String::from_str(alloc, "(two) ")?),
            _ => self.unless_refused(call_at(place), below),
        }
    }

    fn annotation(&self, _alloc: Global, place: &Place<'_>, below: ()) -> Result<(), Error> {
        self.unless_refused(call_at(place), below)
    }

    fn colour(&self, _alloc: Global, place: &Place<'_>) -> Result<Option<()>, Error> {
        self.unless_refused(call_at(place), None)
    }

    fn lines(
        &self,
        _alloc: Global,
        _links: &[Text],
        below: Vec<String>,
    ) -> Result<Vec<String>, Error> {
        self.unless_refused("finalise", below)
    }

    fn subblock(&self, _alloc: Global) -> Result<Own<'a>, Error> {
        match self {
            Own::Grow(level) => Ok(Own::Grow(level.saturating_add(1))),
            _ => self.unless_refused("make_subblock_decorator", *self),
        }
    }
}
