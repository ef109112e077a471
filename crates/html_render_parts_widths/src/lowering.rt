//! Lowering of the columns at the level: the first of them, by greater width and then from the left.

ghost use Rattle.std.specs.Prelude.{◌≡◌, ℕ, ◌+◌, ◌-◌, ◌<◌, ◌≤◌, All, map, length, slice_index, IfOk};
ghost use Rattle.html_render_parts_widths.specs.LevelForm.{ranges, capped_sum, full_width};
ghost use Rattle.html_render_parts_widths.specs.CutSteps.{AreColumns, AreAtLevel, AreInOrder, AreLowered};

use std::alloc::{AllocError, Global};
use std::cmp::Reverse;

/// A column at the level. The order of these values is the order in which columns are lowered.
#[derive(Clone, Copy, PartialEq, Eq, PartialOrd, Ord)]
struct AtLevel {
    /// Full width, reversed so that greater widths precede.
    width: Reverse<usize>,
    /// Index among all columns.
    place: usize,
}

/// Returns the columns whose range reaches `level`, from left to right.
fn columns_at_level(
    alloc: Global,
    minimums: &[usize],
    shares: &[usize],
    level: usize,
) -> Result<Vec<AtLevel>, AllocError>
    requires columns { AreColumns minimums.now shares.now }
    ensures places { IfOk result (λ v. AreAtLevel minimums.now shares.now level (length minimums.now) (map (λ c. c.place) v.items)) }
    ensures widths { IfOk result (λ v. All (λ c. c.width.0 ≡ slice_index minimums.now c.place + level) v.items) }
    ensures count { IfOk result (λ v. 0 < level
        → length v.items + capped_sum (level - 1) (ranges minimums.now shares.now) ≡ capped_sum level (ranges minimums.now shares.now)) }
{
    let mut columns = Vec::new(alloc);
    for (place, least) in minimums.iter().enumerate() {
        if shares[place] - *least >= level {
            let width = Reverse(*least + level);
            columns.push(AtLevel { width, place })?;
        }
    }
    Ok(columns)
}

/// Returns the columns whose range reaches `level`, in the order in which they are lowered.
fn columns_in_order(
    alloc: Global,
    minimums: &[usize],
    shares: &[usize],
    level: usize,
) -> Result<Vec<AtLevel>, AllocError>
    requires columns { AreColumns minimums.now shares.now }
    ensures places { IfOk result (λ v. AreInOrder minimums.now shares.now level (map (λ c. c.place) v.items)) }
    ensures count { IfOk result (λ v. 0 < level
        → length v.items + capped_sum (level - 1) (ranges minimums.now shares.now) ≡ capped_sum level (ranges minimums.now shares.now)) }
{
    let mut columns = columns_at_level(alloc, minimums, shares, level)?;
    columns.sort_unstable();
    Ok(columns)
}

/// Lowers the first `count` columns at the level: subtracts 1 from the full width of each.
pub(super) fn lowered(
    minimums: &[usize],
    shares: &[usize],
    level: usize,
    mut widths: Vec<usize>,
    count: usize,
) -> Result<Vec<usize>, AllocError>
    requires columns { AreColumns minimums.now shares.now }
    requires widths { length widths.items ≡ length minimums.now }
    requires full { (k : ℕ) → k < length minimums.now → slice_index widths.items k ≡ full_width minimums.now shares.now level k }
    requires above { 0 < level }
    requires enough { count + capped_sum (level - 1) (ranges minimums.now shares.now) ≤ capped_sum level (ranges minimums.now shares.now) }
    ensures { IfOk result (λ v. AreLowered minimums.now shares.now level count widths.items v.items) }
{
    let columns = columns_in_order(*widths.allocator(), minimums, shares, level)?;
    for column in &columns[..count] {
        widths[column.place] -= 1;
    }
    Ok(widths)
}
