//! Checks column cuts in a few passes, without allocating.

ghost use Rattle.std.specs.Prelude.{◌≡◌, ◌≢◌, ℕ, ◌+◌, ◌-◌, ◌*◌, ◌^◌, ◌<◌, ◌≤◌, ◌↔◌, ◌⊎◌, length, min, sum, slice_index, IsTrue, IfSome, IfNone};
ghost use Rattle.html_render_parts_widths.specs.Cuts.{CutFits, slack};
ghost use Rattle.html_render_parts_widths.specs.ColumnCuts.{IsColumnCut};
ghost use Rattle.html_render_parts_widths.specs.LevelForm.{ranges, capped_sum, IsLowered, IsLevel, IsLevelForm};
ghost use Rattle.html_render_parts_widths.specs.CutSteps.{AreColumns, IsFull, LoweredBefore, LowersFirst};

use super::cut::ColumnCut;
use super::fit::{cut_fits, sum_up, wanted};
use super::levels::capped_sum;

/// Reports whether the columns can be cut to `width`, as [`cut_fits`] checks, and `cut` equals the result of
/// [`column_widths`](super::column_widths).
///
/// All widths are in columns of text. Checks without searching, and allocates nothing.
pub fn check_cut(minimums: &[usize], shares: &[usize], width: usize, cut: &ColumnCut) -> bool
    ensures { IsTrue result
        ↔ (CutFits minimums.now shares.now width × IsColumnCut minimums.now shares.now width cut.now.widths.items cut.now.level cut.now.lowered) }
{
    cut_fits(minimums, shares, width) && is_level_form(minimums, shares, width, cut)
}

/// Reports whether `cut` is the level form (`IsLevelForm`) of columns that fit.
fn is_level_form(minimums: &[usize], shares: &[usize], width: usize, cut: &ColumnCut) -> bool
    requires { CutFits minimums.now shares.now width }
    ensures { IsTrue result ↔ IsLevelForm minimums.now shares.now width cut.now.widths.items cut.now.level cut.now.lowered }
{
    let widths = cut.widths.as_slice();
    if widths.len() != minimums.len() {
        return false;
    }
    let totals = sum_up(minimums, shares);
    let needed = wanted(minimums, shares, width, totals);
    let full = capped_sum(minimums, shares, cut.level);
    let lowered = cut.lowered as u128;
    is_least_level(minimums, shares, cut.level, needed, full)
        && lowered + needed == full
        && are_full_or_lowered(minimums, shares, cut.level, widths)
        && total(widths) + lowered == totals.minimums + full
        && lowers_first(minimums, shares, cut.level, widths)
}

/// Returns the exact sum of the widths.
fn total(widths: &[usize]) -> u128
    ensures value { result ≡ sum widths.now }
    ensures small { result ≤ length widths.now * 2 ^ 64 }
{
    let mut all = 0u128;
    for width in widths {
        all += *width as u128;
    }
    all
}

/// Reports whether `level` is the least level whose capped ranges add up to at least `needed`. `full` is their sum at
/// `level`.
fn is_least_level(
    minimums: &[usize],
    shares: &[usize],
    level: usize,
    needed: u128,
    full: u128,
) -> bool
    requires columns { AreColumns minimums.now shares.now }
    requires full { full ≡ capped_sum level (ranges minimums.now shares.now) }
    ensures { IsTrue result ↔ IsLevel level (ranges minimums.now shares.now) needed }
{
    needed <= full && (level == 0 || capped_sum(minimums, shares, level - 1) < needed)
}

/// Reports whether a column's width is its minimum plus its range capped at `level`.
fn is_full(minimum: usize, share: usize, level: usize, width: usize) -> bool
    requires { minimum ≤ share }
    ensures { IsTrue result ↔ (width ≡ minimum + min (share - minimum) level) }
{
    width == minimum + (share - minimum).min(level)
}

/// Reports whether a column is lowered: its range reaches `level`, which is above 0, and its width is 1 less than its
/// minimum plus `level`.
fn is_lowered(minimum: usize, share: usize, level: usize, width: usize) -> bool
    requires { minimum ≤ share }
    ensures { IsTrue result ↔ ((0 < level) × (level ≤ share - minimum) × (width + 1 ≡ minimum + min (share - minimum) level)) }
{
    0 < level && level <= share - minimum && width == minimum + (level - 1)
}

/// Reports whether each column has its full width or is lowered.
fn are_full_or_lowered(minimums: &[usize], shares: &[usize], level: usize, widths: &[usize]) -> bool
    requires columns { AreColumns minimums.now shares.now }
    requires widths { length widths.now ≡ length minimums.now }
    ensures { IsTrue result ↔ ((k : ℕ) → k < length minimums.now
        → IsFull minimums.now shares.now widths.now level k ⊎ IsLowered minimums.now shares.now widths.now level k) }
{
    for (i, width) in widths.iter().enumerate() {
        let is_full = is_full(minimums[i], shares[i], level, *width);
        if !is_full && !is_lowered(minimums[i], shares[i], level, *width) {
            return false;
        }
    }
    true
}

/// Returns the lowered column that is last in the order of lowering: the narrowest, of these the rightmost. `None` if no
/// column is lowered.
fn last_lowered(
    minimums: &[usize],
    shares: &[usize],
    level: usize,
    widths: &[usize],
) -> Option<usize>
    requires columns { AreColumns minimums.now shares.now }
    requires widths { length widths.now ≡ length minimums.now }
    ensures found { IfSome result (λ i. (i < length minimums.now) × IsLowered minimums.now shares.now widths.now level i) }
    ensures last { IfSome result (λ i. (k : ℕ) → k < length minimums.now → k ≢ i → IsLowered minimums.now shares.now widths.now level k
        → LoweredBefore (slice_index minimums.now k) k (slice_index minimums.now i) i) }
    ensures none { IfNone result ((k : ℕ) → k < length minimums.now → ¬ IsLowered minimums.now shares.now widths.now level k) }
{
    let mut last = None;
    for (i, width) in widths.iter().enumerate() {
        if is_lowered(minimums[i], shares[i], level, *width) {
            match last {
                Some(l) if minimums[i] > minimums[l] => {}
                _ => last = Some(i),
            }
        }
    }
    last
}

/// Returns the column that would be lowered next: the widest among those at the level with their full width, of these the
/// leftmost. `None` if there is no such column.
fn next_lowered(
    minimums: &[usize],
    shares: &[usize],
    level: usize,
    widths: &[usize],
) -> Option<usize>
    requires columns { AreColumns minimums.now shares.now }
    requires widths { length widths.now ≡ length minimums.now }
    ensures found { IfSome result (λ i. (i < length minimums.now) × (level ≤ slack minimums.now shares.now i)
        × IsFull minimums.now shares.now widths.now level i) }
    ensures first { IfSome result (λ i. (k : ℕ) → k < length minimums.now → k ≢ i → level ≤ slack minimums.now shares.now k
        → IsFull minimums.now shares.now widths.now level k
        → LoweredBefore (slice_index minimums.now i) i (slice_index minimums.now k) k) }
    ensures none { IfNone result ((k : ℕ) → k < length minimums.now → level ≤ slack minimums.now shares.now k
        → ¬ IsFull minimums.now shares.now widths.now level k) }
{
    let mut next = None;
    for (i, width) in widths.iter().enumerate() {
        if shares[i] - minimums[i] >= level && is_full(minimums[i], shares[i], level, *width) {
            match next {
                Some(n) if minimums[i] <= minimums[n] => {}
                _ => next = Some(i),
            }
        }
    }
    next
}

/// Reports whether each lowered column precedes, in the order of lowering, each column at the level with its full width.
fn lowers_first(minimums: &[usize], shares: &[usize], level: usize, widths: &[usize]) -> bool
    requires columns { AreColumns minimums.now shares.now }
    requires widths { length widths.now ≡ length minimums.now }
    ensures { IsTrue result ↔ LowersFirst minimums.now shares.now widths.now level }
{
    let last = last_lowered(minimums, shares, level, widths);
    let next = next_lowered(minimums, shares, level, widths);
    match (last, next) {
        (Some(l), Some(n)) => { minimums[n] < minimums[l] || minimums[n] == minimums[l] && l < n }
        _ => true,
    }
}
