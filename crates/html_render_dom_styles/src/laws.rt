//! Laws of the cascade's orders, sums and defaults. Each is the contract of an empty function.

ghost use Rattle.std.specs.Prelude.{◌≡◌, ◌↔◌, false, Some};
ghost use Rattle.std.specs.Cmp.{IsTotalOrder};
ghost use Rattle.std.specs.Ordering.{nat_cmp};
ghost use Rattle.std.specs.declared.cmp.Ordering.TheVariants.{Equal};
ghost use Rattle.html_render_dom_styles.specs.declared.origins.StyleOrigin.{StyleOrigin};
ghost use Rattle.html_render_dom_styles.specs.declared.specificities.Specificity.{Specificity as TheSpecificity};
ghost use Rattle.html_render_dom_styles.specs.Cascade.{rank_of};
ghost use Rattle.html_render_dom_styles.specs.Keeping.{Key, key_cmp};
ghost use Rattle.html_render_dom_styles.specs.Specificities.{no_specificity, specificity_cmp, specificity_sum};

use super::origins::StyleOrigin;
use super::specificities::Specificity;

/// Specificities are totally ordered: of any two, one is at most the other. They tie exactly if they are equal.
#[tactic(auto, using(crate::specs::laws::Orders::orders))]
fn specificities_are_totally_ordered(a: Specificity, b: Specificity)
    ensures answered { ⟦<Specificity as PartialOrd>⟧.partial_cmp a b ≡ Some (specificity_cmp a b) }
    ensures total { IsTotalOrder specificity_cmp }
    ensures equal { (specificity_cmp a b ≡ Equal) ↔ (a ≡ b) }
{}

/// The sum of specificities is commutative and associative. The default, with all counts 0, is its unit.
fn specificities_add_in_any_order(a: Specificity, b: Specificity, c: Specificity)
    ensures commutative { specificity_sum a b ≡ specificity_sum b a }
    ensures associative { specificity_sum (specificity_sum a b) c ≡ specificity_sum a (specificity_sum b c) }
    ensures unit { (d : TheSpecificity) → ⟦<Specificity as Default>⟧.is_default d → specificity_sum a d ≡ a }
    ensures default { ⟦<Specificity as Default>⟧.is_default a ↔ (a ≡ no_specificity) }
{}

/// The keys of updates are totally ordered. They tie exactly if they are equal.
#[tactic(auto, using(crate::specs::laws::Orders::orders))]
fn keys_are_totally_ordered()
    ensures total { IsTotalOrder key_cmp }
    ensures equal { (a b : Key) → (key_cmp a b ≡ Equal) ↔ (a ≡ b) }
{}

/// The order of origins is that of their ranks for normal declarations.
fn origins_rise(a: StyleOrigin, b: StyleOrigin)
    ensures { ⟦<StyleOrigin as PartialOrd>⟧.partial_cmp a b ≡ Some (nat_cmp (rank_of false a) (rank_of false b)) }
{}

/// The default origin is `StyleOrigin::None`.
fn there_is_no_origin_by_default(origin: StyleOrigin)
    ensures { ⟦<StyleOrigin as Default>⟧.is_default origin ↔ (origin ≡ StyleOrigin.None) }
{}
