//! The value of a property, which is that of the winner among its updates.

use super::origins::StyleOrigin;
use super::specificities::Specificity;
use super::updates::Update;
use std::marker::Model;

/// The winner among the updates so far: the last of those with the greatest key. There is none before the first update.
///
/// The key of an update has its importance, the rank of its origin and its specificity, which are compared in this order:
/// CSS Cascading and Inheritance Level 3, section 6.
#[derive(Drop)]
pub struct WithSpec<T> {
    kept: Option<Update<T>>,
}

impl<T> Model for WithSpec<T> {
    ghost use Rattle.std.specs.Prelude.{Option};
    ghost use Rattle.html_render_dom_styles.specs.declared.updates.Update.{Update};

    ghost Value = { Option (Update T) };

    ghost view = { λ w. w.kept };

    ghost inverse = { λ u. record { kept = u } };
}

impl<T> Default for WithSpec<T> {
    ghost use Rattle.std.specs.Prelude.{◌≡◌, None};

    ghost is_default = { λ w. w ≡ None };

    fn default() -> WithSpec<T> {
        WithSpec { kept: None }
    }
}

impl<T> WithSpec<T> {
    ghost use Rattle.std.specs.Prelude.{◌≡◌, ◌++◌, ◌∷◌, [], List, option_copied};
    ghost use Rattle.html_render_dom_styles.specs.declared.updates.Update.{Update};
    ghost use Rattle.html_render_dom_styles.specs.Cascade.{rank_of, value_of, winner};
    ghost use Rattle.html_render_dom_styles.specs.Keeping.{yields_to};

    /// Reports whether an update with this key would win: whether its key is at least that of the winner so far, or there is
    /// none.
    pub fn yields_to(&self, important: bool, origin: StyleOrigin, specificity: Specificity) -> bool
        ensures { result ≡ yields_to self.now (record { important = important; origin_rank = rank_of important origin; specificity = specificity }) }
    {
        let Some(kept) = &self.kept else {
            return true;
        };
        kept.important
            .cmp(&important)
            .then(
                kept.origin
                    .rank(kept.important)
                    .cmp(&origin.rank(important)),
            )
            .then(kept.specificity.order(specificity))
            .is_le()
    }

    /// Takes an update. It becomes the winner if its key is at least that of the winner so far, or there is none.
    #[tactic(auto, using(crate::specs::laws::Keeps::keeps))]
    pub fn maybe_update(
        &mut self,
        important: bool,
        origin: StyleOrigin,
        specificity: Specificity,
        val: T,
    )
    where
        T: Drop,
        ensures { (updates : List (Update T)) → self.old ≡ winner updates
            → self.new ≡ winner (updates ++ record { important = important; origin = origin; specificity = specificity; value = val } ∷ []) }
    {
        if self.yields_to(important, origin, specificity) {
            self.kept = Some(Update {
                important,
                origin,
                specificity,
                value: val,
            });
        }
    }

    /// Returns the value of the winner; `None` before the first update.
    pub fn val(&self) -> Option<&T>
        ensures { option_copied result ≡ value_of self.now }
    {
        self.kept.as_ref().map(|update| &update.value)
    }

    /// Consumes this and returns the value of the winner; `None` before the first update.
    pub fn into_val(self) -> Option<T>
        ensures { result ≡ value_of self }
    {
        self.kept.map(|update| update.value)
    }
}
