//! The elements that a rule selects.

ghost use Rattle.std.specs.Prelude.{◌≡◌, ◌+◌, ◌^◌, ◌<◌, IfSome, length, position, option_copied, option_map, string_bytes};
ghost use Rattle.std.specs.List.{list_all, list_any, slice_split};
ghost use Rattle.std.specs.Char.{is_ascii_whitespace};
ghost use Rattle.std.specs.Str.{bytes_eq};
ghost use Rattle.html_render_dom_styles.specs.Rules.{rule_of};
ghost use Rattle.html_render_dom_styles.specs.Selectors.{has_class, matches_part, selects};

use crate::rules::StyleRule;

/// Reports whether a part of a rule isn't stated, or equals the value `has` of the element.
#[inline(always)]
fn matches_part(stated: &Option<String>, has: Option<&str>) -> bool
    ensures { result ≡ matches_part (option_map string_bytes stated.now) (option_copied has.entry) }
{
    match stated {
        None => true,
        Some(part) => match has {
            None => false,
            Some(value) => part.as_str() == value,
        },
    }
}

/// Returns the index of the first byte of ASCII white space; `None` if there is none.
fn first_white_space(text: &[u8]) -> Option<usize>
    ensures place { result ≡ position is_ascii_whitespace text.now }
    ensures within { IfSome result (λ place. place < length text.now) }
    ensures fits { IfSome result (λ place. place + 1 < 2 ^ 64) }
{
    text.iter().position(|byte| byte.is_ascii_whitespace())
}

/// Reports whether one of the parts of the text, split at each byte of ASCII white space, equals `part`.
#[tactic(auto, using(crate::proofs::Words::parts))]
fn has_part(text: &[u8], part: &[u8]) -> bool
    ensures { result ≡ list_any (bytes_eq part.now) (slice_split is_ascii_whitespace text.now) }
{
    let mut rest = text;
    while let Some(end) = first_white_space(rest) {
        if part == &rest[..end] {
            return true;
        }
        rest = &rest[end + 1..];
    }
    part == rest
}

/// Reports whether `class` is a word of the element's attribute `class`. An empty class never is.
#[inline]
#[tactic(auto, using(crate::proofs::Words::words_of))]
fn has_class(classes: Option<&str>, class: &str) -> bool
    ensures { result ≡ has_class (option_copied classes.entry) class.now }
{
    match classes {
        None => false,
        Some(classes) => !class.is_empty() && has_part(classes.as_bytes(), class.as_bytes()),
    }
}

/// Reports whether all wanted classes are words of the element's attribute `class`.
fn has_classes(classes: Option<&str>, wanted: &[String]) -> bool
    ensures { result ≡ list_all (λ class. has_class (option_copied classes.entry) (string_bytes class)) wanted.now }
{
    wanted
        .iter()
        .all(|class| has_class(classes, class.as_str()))
}

impl StyleRule {
    /// Reports whether the rule selects an element with this local name, id and text of its attribute `class`.
    #[inline(always)]
    #[tactic(auto, using(crate::proofs::Words::all_of))]
    pub fn selects(&self, name: &str, id: Option<&str>, classes: Option<&str>) -> bool
        ensures { result ≡ selects name.now (option_copied id.entry) (option_copied classes.entry) (rule_of self.now) }
    {
        matches_part(&self.element, Some(name))
            && matches_part(&self.id, id)
            && has_classes(classes, &self.classes)
    }
}
