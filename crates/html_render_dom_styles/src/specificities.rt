//! Specificities, which decide between declarations of equal importance and origin.

ghost use Rattle.std.specs.Prelude.{◌≡◌, true};
ghost use Rattle.std.specs.Ordering.{as_partial_cmp};
ghost use Rattle.std.proofs.Common.{rules};
ghost use Rattle.std.specs.Cmp.{partial_order_from_own_ties};
ghost use Rattle.std.specs.Cmp.Rules.{comparing};
ghost use Rattle.html_render_dom_styles.specs.Specificities.{no_specificity, specificity_cmp, specificity_sum};

use std::cmp::Ordering;
use std::ops::{Add, AddAssign};

/// The specificity of a declaration: Selectors Level 3, section 9.
///
/// A declaration in a `style` attribute (`inline`) has a greater specificity than any other. Otherwise the counts decide,
/// first `id`, then `class`, then `typ`.
#[derive(Clone, Copy, Debug, Default, PartialEq, Eq)]
pub struct Specificity {
    /// Whether the declaration is in the element's `style` attribute.
    pub inline: bool,
    /// Number of ids.
    pub id: u16,
    /// Number of classes.
    pub class: u16,
    /// Number of element names and pseudo-elements.
    pub typ: u16,
}

impl Specificity {
    /// Returns the specificity of a `style` attribute, with all counts 0.
    pub fn inline() -> Specificity
        ensures { result ≡ record no_specificity { inline = true } }
    {
        Specificity {
            inline: true,
            ..Specificity::default()
        }
    }

    /// Compares two specificities. The order is total.
    pub(super) fn order(self, other: Specificity) -> Ordering
        ensures { result ≡ specificity_cmp self other }
    {
        self.inline
            .cmp(&other.inline)
            .then(self.id.cmp(&other.id))
            .then(self.class.cmp(&other.class))
            .then(self.typ.cmp(&other.typ))
    }
}

impl PartialOrd for Specificity {
    ghost partial_cmp = { as_partial_cmp specificity_cmp };

    ghost laws = { partial_order_from_own_ties (Prim.search (comparing, rules) depth 9) (Prim.search (comparing, rules) depth 9) };

    fn partial_cmp(&self, other: &Specificity) -> Option<Ordering> {
        Some(self.order(*other))
    }
}

/// Adds each count, up to 65535. The sum is `inline` if one of the two is.
impl Add for Specificity {
    type Output = Specificity;

    ghost add_gives = { λ a b sum. sum ≡ specificity_sum a b };

    fn add(self, other: Specificity) -> Specificity {
        Specificity {
            inline: self.inline | other.inline,
            id: self.id.saturating_add(other.id),
            class: self.class.saturating_add(other.class),
            typ: self.typ.saturating_add(other.typ),
        }
    }
}

impl AddAssign for Specificity {
    ghost add_assign_gives = { λ a b sum. sum ≡ specificity_sum a b };

    fn add_assign(&mut self, other: Specificity) {
        *self = *self + other;
    }
}
