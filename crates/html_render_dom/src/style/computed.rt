//! Computed styles of elements.

ghost use Rattle.std.specs.Prelude.{◌≡◌, [], ◌∷◌, ◌++◌, IfOk, None, OnOk, Some, map, option_copied, option_to_list, string_bytes};
ghost use Rattle.std.specs.List.{flat_map};
ghost use Rattle.html_render_dom_values.specs.Outcome.{OnlyOutOfMemory};
ghost use Rattle.html_render_dom_values.specs.declared.errors.Error.TheVariants.{OutOfMemory};
ghost use Rattle.html_render_dom_nodes.specs.Content.{property_of};
ghost use Rattle.html_render_dom_styles.specs.Cascade.{winner};
ghost use Rattle.html_render_dom.specs.Applying.{applied, style_by, with_declarations};
ghost use Rattle.html_render_dom.specs.ElementStyle.{element_style};
ghost use Rattle.html_render_dom.specs.RuleIndex.{said_at};
ghost use Rattle.html_render_dom_styles.specs.Rules.{declared_of, rule_of};
ghost use Rattle.html_render_dom_styles.specs.Selectors.{selects};

use super::attributes::first_value;
use html_render_dom_nodes::Attribute;
use html_render_dom_styles::{
    Declaration, Display, PseudoElement, Specificity, Style, StyleOrigin, StyleRule, WithSpec,
};
use html_render_dom_values::Error;
use html_render_dom_values::colours::Colour;
use html_render_dom_values::small_text::SmallText;
use html_render_dom_values::white_space::WhiteSpace;
use std::alloc::{AllocError, Global};

/// Text of a content declaration. Up to 30 bytes are stored without an allocation.
pub type ContentText = SmallText<30>;

/// The style of an element: for each property the declared value that wins, if there is one.
///
/// Nothing is inherited from the element's parent.
#[derive(Drop)]
pub struct ComputedStyle {
    /// Colour of the text.
    pub colour: WithSpec<Colour>,
    /// Colour of the background.
    pub bg_colour: WithSpec<Colour>,
    /// The kind of the element's box; `Display::None` for no box at all.
    pub display: WithSpec<Display>,
    /// Treatment of white space.
    pub white_space: WithSpec<WhiteSpace>,
    /// Content of the element itself, which isn't shown.
    pub content: WithSpec<ContentText>,
    /// Text that is inserted before the element's contents.
    pub content_before: WithSpec<ContentText>,
    /// Text that is inserted after the element's contents.
    pub content_after: WithSpec<ContentText>,
    /// Whether the element is an HTML `pre`, so that its text is preformatted; false in a style from rules alone.
    pub internal_pre: bool,
}

/// Data of a rule that apply to each of its declarations.
#[derive(Clone, Copy)]
struct Source {
    /// Origin of the rule.
    origin: StyleOrigin,
    /// Specificity of the rule.
    specificity: Specificity,
    /// Pseudo-element that the rule styles; `None` for the element itself.
    pseudo: Option<PseudoElement>,
}

/// Updates a content property. Copies the text only if it wins.
#[tactic(auto, using(crate::proofs::Applies::contents))]
fn update_content(
    kept: &mut WithSpec<ContentText>,
    important: bool,
    origin: StyleOrigin,
    specificity: Specificity,
    text: &String,
) -> Result<(), AllocError>
    ensures ok { OnOk result (kept.new ≡ winner (option_to_list kept.old
        ++ record { important = important; origin = origin; specificity = specificity; value = string_bytes text.now } ∷ [])) }
{
    if kept.yields_to(important, origin, specificity) {
        let text = ContentText::from_str(*text.allocator(), text.as_str())?;
        kept.maybe_update(important, origin, specificity, text);
    }
    Ok(())
}

impl ComputedStyle {
    /// Returns the style without any declaration.
    fn unset() -> ComputedStyle
        ensures { result ≡ style_by [] }
    {
        ComputedStyle {
            colour: WithSpec::default(),
            bg_colour: WithSpec::default(),
            display: WithSpec::default(),
            white_space: WithSpec::default(),
            content: WithSpec::default(),
            content_before: WithSpec::default(),
            content_after: WithSpec::default(),
            internal_pre: false,
        }
    }

    /// Applies a declaration for the element itself.
    fn update_own(
        &mut self,
        origin: StyleOrigin,
        specificity: Specificity,
        declaration: &Declaration,
    ) -> Result<(), AllocError>
        ensures { OnOk result (self.new ≡ with_declarations self.old
            (record { origin = origin; specificity = specificity; pseudo = None; declared = declared_of declaration.now } ∷ [])) }
    {
        let important = declaration.important;
        match &declaration.style {
            Style::Colour(colour) => {
                self.colour
                    .maybe_update(important, origin, specificity, *colour);
            }
            Style::BgColour(colour) => {
                self.bg_colour
                    .maybe_update(important, origin, specificity, *colour);
            }
            Style::Display(display) => {
                self.display
                    .maybe_update(important, origin, specificity, *display);
            }
            Style::WhiteSpace(white_space) => {
                self.white_space
                    .maybe_update(important, origin, specificity, *white_space);
            }
            Style::Content(text) => {
                update_content(&mut self.content, important, origin, specificity, text)?;
            }
        }
        Ok(())
    }

    /// Applies a declaration for the pseudo-element `place`. Ignores all properties but content.
    fn update_beside(
        &mut self,
        origin: StyleOrigin,
        specificity: Specificity,
        place: PseudoElement,
        declaration: &Declaration,
    ) -> Result<(), AllocError>
        ensures { OnOk result (self.new ≡ with_declarations self.old
            (record { origin = origin; specificity = specificity; pseudo = Some place; declared = declared_of declaration.now } ∷ [])) }
    {
        if let Style::Content(text) = &declaration.style {
            let important = declaration.important;
            match place {
                PseudoElement::Before => {
                    let kept = &mut self.content_before;
                    update_content(kept, important, origin, specificity, text)?;
                }
                PseudoElement::After => {
                    let kept = &mut self.content_after;
                    update_content(kept, important, origin, specificity, text)?;
                }
            }
        }
        Ok(())
    }

    /// Applies a declaration for the element itself or, if its rule has a pseudo-element, for that.
    fn update(&mut self, source: Source, declaration: &Declaration) -> Result<(), AllocError>
        ensures { OnOk result (self.new ≡ with_declarations self.old
            (record { origin = source.origin; specificity = source.specificity; pseudo = source.pseudo; declared = declared_of declaration.now } ∷ [])) }
    {
        match source.pseudo {
            None => self.update_own(source.origin, source.specificity, declaration),
            Some(place) => {
                self.update_beside(source.origin, source.specificity, place, declaration)
            }
        }
    }

    /// Applies all declarations of a rule, in order.
    #[inline(never)]
    fn update_all(&mut self, rule: &StyleRule) -> Result<(), AllocError>
        ensures { OnOk result (self.new ≡ with_declarations self.old (applied (rule_of rule.now))) }
    {
        let source = Source {
            origin: rule.origin,
            specificity: rule.specificity(),
            pseudo: rule.pseudo,
        };
        for declaration in &rule.declarations {
            self.update(source, declaration)?;
        }
        Ok(())
    }
}

/// Returns the style that the rules, in this order, give an element with this local name and these attributes.
///
/// For each property, the last of the declarations with the greatest importance, origin and specificity wins, among those of
/// the rules that select the element: CSS Cascading and Inheritance Level 3, section 6.
///
/// # Errors
///
/// Returns `OutOfMemory` if the allocation for a copy of a content is refused.
pub fn computed_style(
    alloc: Global,
    rules: &[StyleRule],
    element: &str,
    attrs: &[Attribute],
) -> Result<ComputedStyle, Error>
    ensures ok { IfOk result (λ style. style ≡ element_style (map rule_of rules.now) element.now (map property_of attrs.now)) }
    ensures err { OnlyOutOfMemory result }
{
    let id = first_value(attrs, "id");
    let classes = first_value(attrs, "class");
    let mut style = ComputedStyle::unset();
    for rule in rules {
        if rule.selects(element, id, classes) {
            style.update_all(rule)?;
        }
    }
    Ok(style)
}

/// Returns the style that the rules with these numbers, in this order, give an element with this local name, id and classes.
///
/// Skips numbers without a rule.
pub(super) fn style_of_rules(
    rules: &[StyleRule],
    numbers: &[usize],
    element: &str,
    id: Option<&str>,
    classes: Option<&str>,
) -> Result<ComputedStyle, AllocError>
    ensures { IfOk result (λ style. style
        ≡ style_by (flat_map (said_at (selects element.now (option_copied id.entry) (option_copied classes.entry)) (map rule_of rules.now)) numbers.now)) }
{
    let mut style = ComputedStyle::unset();
    for number in numbers {
        if let Some(rule) = rules.get(*number) {
            if rule.selects(element, id, classes) {
                style.update_all(rule)?;
            }
        }
    }
    Ok(style)
}
