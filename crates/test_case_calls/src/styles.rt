//! Questions about the computed style of an element, and the specificity of a rule.

use crate::elements::attributes;
use crate::faults::Fault;
use crate::rules::rule;
use crate::texts::printed;
use crate::watch::Watch;
use html_render_dom::style::{ComputedStyle, RuleIndex, StyleOrigin, StyleRule, computed_style};
use std::alloc::{AllocError, Global};
use std::fmt::Display;

/// Returns the lines of the style of an element, such as `p@class=a`, by the rules of a configuration's calls: one for each property
/// with a value.
///
/// The style by all rules and that by an index of them must be the same, and the index must know of each style that isn't
/// empty. Of these calls, the one with the name `asked` is watched.
pub fn answer(
    alloc: Global,
    calls: &[&str],
    asked: &str,
    element: &str,
    watch: Watch,
) -> Result<String, Fault> {
    let mut rules = Vec::new(alloc);
    for call in calls {
        if let Some(text) = call.strip_prefix("add_style_rule ") {
            rules.push(rule(alloc, text)?)?;
        }
    }
    let attributes = attributes(alloc, element)?;
    let (name, _) = element.split_once('@').unwrap_or((element, ""));
    let index = watch
        .begin_asked(asked, "RuleIndex::of")
        .end(RuleIndex::of(alloc, &rules))?;
    let style = watch
        .begin_asked(asked, "RuleIndex::computed_style")
        .end(index.computed_style(alloc, &rules, name, &attributes))?;
    let by_index = shown(alloc, &style)?;
    let style = watch
        .begin_asked(asked, "computed_style")
        .end(computed_style(alloc, &rules, name, &attributes))?;
    let shown = shown(alloc, &style)?;
    if shown != by_index || !shown.is_empty() && !index.may_select(name, &attributes) {
        return Err(Fault::Malformed("an index of the rules says something else"));
    }
    printed(alloc, &shown)
}

/// Returns the specificity of a rule, or of one for an element name.
pub fn specificity(alloc: Global, asked: &str, given: &str, watch: Watch) -> Result<String, Fault> {
    let rule = match asked {
        "for_element" => {
            let (name, none) = (String::from_str(alloc, given)?, Vec::new(alloc));
            watch.begin(asked);
            let made = StyleRule::for_element(alloc, StyleOrigin::Author, name, None, none);
            watch.done(made)?
        }
        _ => rule(alloc, given)?,
    };
    watch
        .begin("specificity")
        .shown(alloc, Ok(rule.specificity()))
}

/// Appends the line of a property, if it has a value.
fn push<T: Display + Drop>(
    shown: &mut String,
    name: &str,
    value: Option<T>,
) -> Result<(), AllocError> {
    match value {
        Some(value) => write!(shown, "{name} {value}\n"),
        None => Ok(()),
    }
}

/// Returns a line for each property with a value.
fn shown(alloc: Global, style: &ComputedStyle) -> Result<String, AllocError> {
    let mut shown = String::new(alloc);
    push(&mut shown, "colour", style.colour.val())?;
    push(&mut shown, "bg_colour", style.bg_colour.val())?;
    push(&mut shown, "display", style.display.val().map(|_| "None"))?;
    if let Some(white_space) = style.white_space.val() {
        write!(shown, "white_space {white_space:?}\n")?;
    }
    let contents = [
        ("content", &style.content),
        ("content_before", &style.content_before),
        ("content_after", &style.content_after),
    ];
    for (name, content) in contents {
        push(&mut shown, name, content.val().map(|text| text.as_str()))?;
    }
    if style.internal_pre {
        shown.push_str("internal_pre\n")?;
    }
    Ok(shown)
}
