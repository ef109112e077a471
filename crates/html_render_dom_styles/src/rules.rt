//! Style rules and their declarations.

ghost use Rattle.std.specs.Prelude.{◌≡◌, [], Some, None, map, string_bytes};
ghost use Rattle.html_render_dom_styles.specs.Rules.{declared_of, rule_of};
ghost use Rattle.html_render_dom_styles.specs.Selectors.{specificity_of};

use crate::{Specificity, StyleOrigin};
use html_render_dom_values::colours::Colour;
use html_render_dom_values::white_space::WhiteSpace;
use std::alloc::Global;

/// The kind of an element's box: the CSS property `display`.
#[derive(Clone, Copy, Debug, PartialEq, Eq)]
pub enum Display {
    /// No box: the element and its contents are dropped.
    None,
}

/// A pseudo-element, before or after an element's contents: Selectors Level 3, section 7.3.
#[derive(Clone, Copy, Debug, PartialEq, Eq)]
pub enum PseudoElement {
    /// Before the element's contents.
    Before,
    /// After the element's contents.
    After,
}

/// A property and its declared value.
#[derive(Drop)]
pub enum Style {
    /// Colour of the text.
    Colour(Colour),
    /// Colour of the background.
    BgColour(Colour),
    /// Kind of the element's box.
    Display(Display),
    /// Treatment of white space.
    WhiteSpace(WhiteSpace),
    /// Text that a rule for a pseudo-element inserts. Without a pseudo-element it isn't shown.
    Content(String),
}

/// A declaration of a rule.
#[derive(Drop)]
pub struct Declaration {
    /// Whether the declaration is important: CSS Cascading and Inheritance Level 3, section 6, "Important Declarations".
    pub important: bool,
    /// Property and declared value.
    pub style: Style,
}

/// A style rule: a selector, and declarations for the elements that it selects.
///
/// The rule selects an element if each part that it states (`element`, `id`, `classes`) holds of the element: Selectors
/// Level 3, sections 6.1, 6.4 and 6.5. A rule that states none selects every element (section 6.2). Texts are compared
/// byte by byte, in quirks mode too.
#[derive(Drop)]
pub struct StyleRule {
    /// Origin of the rule.
    pub origin: StyleOrigin,
    /// Local name of the element, in any namespace; `None` for every name.
    pub element: Option<String>,
    /// Value of the element's first attribute `id`; `None` if the rule states no id.
    pub id: Option<String>,
    /// Words that the element's first attribute `class` must have. An empty class is no word, so a rule with one selects
    /// nothing.
    pub classes: Vec<String>,
    /// Pseudo-element that the rule styles; `None` for the element itself.
    pub pseudo: Option<PseudoElement>,
    /// Declarations, in order of appearance.
    pub declarations: Vec<Declaration>,
}

impl StyleRule {
    /// Creates a rule for all elements with one local name, whatever their ids and classes.
    pub fn for_element(
        alloc: Global,
        origin: StyleOrigin,
        element: String,
        pseudo: Option<PseudoElement>,
        declarations: Vec<Declaration>,
    ) -> StyleRule
        ensures { rule_of result ≡ record {
          origin = origin;
          element = Some (string_bytes element);
          id = None;
          classes = [];
          pseudo = pseudo;
          declarations = map declared_of declarations.items;
        } }
    {
        StyleRule {
            origin,
            element: Some(element),
            id: None,
            classes: Vec::new(alloc),
            pseudo,
            declarations,
        }
    }

    /// Returns the rule's specificity: Selectors Level 3, section 9.
    ///
    /// - `id`: 1 if the rule states an id;
    /// - `class`: the number of its classes, repeated ones counted, up to 65535;
    /// - `typ`: 1 each for an element name and a pseudo-element;
    /// - `inline`: never.
    #[inline]
    pub fn specificity(&self) -> Specificity
        ensures { result ≡ specificity_of (rule_of self.now) }
    {
        Specificity {
            inline: false,
            id: u16::from(self.id.is_some()),
            class: u16::try_from(self.classes.len()).unwrap_or(u16::MAX),
            typ: u16::from(self.element.is_some()) + u16::from(self.pseudo.is_some()),
        }
    }
}
