//! Laws of cuts and of the meter. Each is the contract of an empty function.

ghost use Rattle.std.specs.Prelude.{◌≡◌, ◌≢◌, ℕ, ◌+◌, ◌-◌, ◌<◌, ◌≤◌, ◌↔◌, ◌⊎◌, List, All, length, map, sum, sum_by, slice_index, Some, None, IsTrue, IfSome, if◌then◌else◌};
ghost use Rattle.html_render_parts_widths.specs.Cuts.{cut_by_units, CutFits, GivesBefore, IsFairestCut};
ghost use Rattle.html_render_parts_widths.specs.ColumnCuts.{IsColumnCut};
ghost use Rattle.html_render_parts_widths.specs.LevelForm.{IsLevelForm};
ghost use Rattle.html_render_parts_widths.specs.Needs.{column_needs, AreCells, AreWithinSizes, HasRoom};
ghost use Rattle.html_render_parts_widths.specs.Shares.{least_widths, share, share_by_size, shares, stand_side_by_side, widths_across};
ghost use Rattle.html_render_parts_widths.specs.Shares.{whole_widths, word_minimums, word_shares, HaveShortWords};

use super::Meter;
use super::needs::CellNeed;
use super::shares::ColumnNeed;

/// States that the order in which columns give units is a strict order, and total on columns at different places.
fn columns_give_in_order()
    ensures never_itself { (slack width place : ℕ) → ¬ GivesBefore slack width place slack width place }
    ensures one_way { (slack width place slack' width' place' : ℕ) → GivesBefore slack width place slack' width' place'
        → ¬ GivesBefore slack' width' place' slack width place }
    ensures some_way { (slack width place slack' width' place' : ℕ) → place ≢ place'
        → GivesBefore slack width place slack' width' place' ⊎ GivesBefore slack' width' place' slack width place }
    ensures transitive { (slack width place slack' width' place' slack'' width'' place'' : ℕ) → GivesBefore slack width place slack' width' place'
        → GivesBefore slack' width' place' slack'' width'' place'' → GivesBefore slack width place slack'' width'' place'' }
{}

/// States that columns that fit have exactly one fairest cut, which the loop of single units computes.
fn fairest_cuts_are_one()
    ensures some { (minimums shares : List ℕ) (width : ℕ) → CutFits minimums shares width
        → IsFairestCut minimums shares width (cut_by_units minimums shares width) }
    ensures only { (minimums shares : List ℕ) (width : ℕ) (widths other : List ℕ) → IsFairestCut minimums shares width widths
        → IsFairestCut minimums shares width other → other ≡ widths }
{}

/// States that columns that fit have at most one level form, and that the cut of columns is that form.
///
/// Its widths, level and number of lowered columns are unique. The level is the least cap on the ranges of the columns at
/// which the widths use all available columns of text. The lowered columns are the first of those whose range reaches the
/// level, by greater width and then from the left; each is 1 narrower than its minimum plus the level.
fn level_forms_are_one()
    ensures cuts { (minimums shares : List ℕ) (width : ℕ) (widths : List ℕ) (level lowered : ℕ) → CutFits minimums shares width
        → IsColumnCut minimums shares width widths level lowered ↔ IsLevelForm minimums shares width widths level lowered }
    ensures only { (minimums shares : List ℕ) (width : ℕ) (widths other : List ℕ) (level lowered l d : ℕ) → CutFits minimums shares width
        → IsLevelForm minimums shares width widths level lowered → IsLevelForm minimums shares width other l d
        → (other ≡ widths) × (l ≡ level) × (d ≡ lowered) }
{}

/// States when columns can be side by side, and that their widths are then the fairest cut of their shares.
///
/// They can be side by side exactly if the width isn't 0 and their minimum widths, with a separator between neighbouring
/// columns, are within it. Their word minimums are then the fairest cut of the widths at which they cut no word, and their
/// shares can be cut to the width. The fairest cut is unique.
fn columns_are_cut_fairly()
    ensures side_by_side { (width : ℕ) (needs : List ColumnNeed)
        → IsTrue (stand_side_by_side width needs) ↔ ((0 < width) × (sum (least_widths needs) + (length needs - 1) ≤ width)) }
    ensures fit { (width : ℕ) (needs : List ColumnNeed) → IsTrue (stand_side_by_side width needs)
        → CutFits (word_minimums width needs) (word_shares width needs) width }
    ensures words { (width : ℕ) (needs : List ColumnNeed) → IsTrue (stand_side_by_side width needs)
        → IsFairestCut (least_widths needs) (whole_widths needs) width (word_minimums width needs) }
    ensures fairest { (width : ℕ) (needs : List ColumnNeed) (widths : List ℕ) → (widths_across width needs ≡ Some widths)
        ↔ (IsTrue (stand_side_by_side width needs) × IsFairestCut (word_minimums width needs) (word_shares width needs) width widths) }
    ensures none { (width : ℕ) (needs : List ColumnNeed) → (widths_across width needs ≡ None) ↔ ¬ IsTrue (stand_side_by_side width needs) }
{}

/// States the widths of columns without long words, as where words aren't measured: the fairest cut of their shares to their
/// minimum widths.
fn short_words_change_nothing()
    ensures { (width : ℕ) (needs : List ColumnNeed) → HaveShortWords needs → widths_across width needs
        ≡ (if stand_side_by_side width needs then Some (cut_by_units (least_widths needs) (shares width needs) width) else None) }
{}

/// States the share of a column whose minimum width is at most its preferred width.
///
/// It is 0 if the preferred width is 0. Otherwise it is to the width as the column's preferred width is to the sum of all
/// preferred widths, but at least the minimum width and at most the preferred width.
fn shares_are_by_size()
    ensures one { (width total : ℕ) (need : ColumnNeed) → need.min_width ≤ need.preferred_width → share width total need ≡ share_by_size width total need }
    ensures all { (width : ℕ) (needs : List ColumnNeed) → AreWithinSizes needs
        → shares width needs ≡ map (share_by_size width (sum_by (λ n. n.preferred_width) needs)) needs }
{}

/// States bounds on columns that are side by side.
///
/// The shares add up to at most the sum of the word minimums plus the width. So a cut takes at most `width` units from
/// them. Each column has at least its minimum width, and cuts no word if there is room for the words of all columns. Each
/// cell has at least its minimum width, over its columns and the separators between them.
fn columns_side_by_side()
    ensures shares { (width : ℕ) (needs : List ColumnNeed) → IsTrue (stand_side_by_side width needs)
        → sum (word_shares width needs) ≤ sum (word_minimums width needs) + width }
    ensures taken { (width : ℕ) (needs : List ColumnNeed)
        → IfSome (widths_across width needs) (λ widths. sum (word_shares width needs) - sum widths ≤ width) }
    ensures least { (width : ℕ) (needs : List ColumnNeed) → IfSome (widths_across width needs)
        (λ widths. (k : ℕ) → k < length needs → slice_index (least_widths needs) k ≤ slice_index widths k) }
    ensures whole { (width : ℕ) (needs : List ColumnNeed) → sum (whole_widths needs) + (length needs - 1) ≤ width
        → IfSome (widths_across width needs) (λ widths. (k : ℕ) → k < length needs → slice_index (whole_widths needs) k ≤ slice_index widths k) }
    ensures room { (columns : ℕ) (cells : List CellNeed) (width : ℕ) → AreCells columns cells
        → IfSome (widths_across width (column_needs columns cells)) (λ widths. All (HasRoom widths) cells) }
{}

/// States that all counts of a default meter are 0.
fn meters_start_at_zero(meter: Meter)
    ensures { ⟦<Meter as Default>⟧.is_default meter ↔ ((meter.probes ≡ 0) × (meter.entered ≡ 0) × (meter.left ≡ 0) × (meter.frames ≡ 0)) }
{}
