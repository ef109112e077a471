//! The decorations: style rules that decorate plain text.
//!
//! `add_all(alloc, &mut rules)?` appends ten rules, the first of which puts `*` before the contents of an `em`.

ghost use Rattle.std.specs.Prelude.{◌≡◌, ◌∷◌, ◌++◌, [], IfOk, OnOk, map};
ghost use Rattle.html_render_dom_styles.specs.Rules.{rule_of};
ghost use Rattle.html_render_dom_styles.specs.Selectors.{specificity_of};
ghost use Rattle.html_render_tree.specs.Decorations.{decoration, decoration_specificity, decorations};

use html_render_dom::style::{Declaration, PseudoElement, Style, StyleOrigin, StyleRule};
use std::alloc::{AllocError, Global};

/// Returns a rule that puts a text before or after the contents of each element with this name, as `place` says.
fn decoration(
    alloc: Global,
    name: &str,
    text: &str,
    place: PseudoElement,
) -> Result<StyleRule, AllocError>
    ensures ok { IfOk result (λ rule. rule_of rule ≡ decoration name.now text.now place) }
    ensures specificity { IfOk result (λ rule. specificity_of (rule_of rule) ≡ decoration_specificity) }
{
    let mut declarations = Vec::new(alloc);
    declarations.push(Declaration {
        important: false,
        style: Style::Content(String::from_str(alloc, text)?),
    })?;
    let name = String::from_str(alloc, name)?;
    Ok(StyleRule::for_element(alloc, StyleOrigin::Agent, name, Some(place), declarations))
}

/// Appends the rules that put a text before and after the contents of each element with this name.
fn add_before_and_after(
    alloc: Global,
    rules: &mut Vec<StyleRule>,
    name: &str,
    text: &str,
) -> Result<(), AllocError>
    ensures { OnOk result (map rule_of rules.new.items ≡ map rule_of rules.old.items
        ++ decoration name.now text.now PseudoElement.Before ∷ decoration name.now text.now PseudoElement.After ∷ []) }
{
    rules.push(decoration(alloc, name, text, PseudoElement::Before)?)?;
    rules.push(decoration(alloc, name, text, PseudoElement::After)?)?;
    Ok(())
}

/// Appends all decorations.
pub(super) fn add_all(alloc: Global, rules: &mut Vec<StyleRule>) -> Result<(), AllocError>
    ensures { OnOk result (map rule_of rules.new.items ≡ map rule_of rules.old.items ++ decorations) }
{
    add_before_and_after(alloc, rules, "em", "*")?;
    add_before_and_after(alloc, rules, "dt", "*")?;
    add_before_and_after(alloc, rules, "strong", "**")?;
    add_before_and_after(alloc, rules, "b", "**")?;
    add_before_and_after(alloc, rules, "code", "`")?;
    Ok(())
}
