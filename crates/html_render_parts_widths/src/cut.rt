//! Widths of a table's columns: the fairest cut of their shares.

ghost use Rattle.std.specs.Prelude.{◌≡◌, ℕ, ◌+◌, ◌-◌, ◌*◌, ◌^◌, ◌<◌, ◌≤◌, length, min, sum, slice_index, IfOk};
ghost use Rattle.html_render_dom_values.specs.Outcome.{OnlyOutOfMemory};
ghost use Rattle.html_render_parts_widths.specs.Cuts.{largest_slack, CutFits};
ghost use Rattle.html_render_parts_widths.specs.LevelForm.{ranges, capped_sum, full_width, wanted, IsLevel, IsLevelForm};
ghost use Rattle.html_render_parts_widths.specs.ColumnCuts.{IsColumnCut};
ghost use Rattle.html_render_parts_widths.specs.CutSteps.{AreColumns};

use super::Meter;
use super::fit::{sum_up, wanted};
use super::levels::{Level, find_level};
use super::lowering::lowered;
use html_render_dom_values::Error;
use std::alloc::{AllocError, Global};

/// Widths that columns are cut to, with their level form.
///
/// A column's range is its share minus its minimum. Its width is its minimum plus its range capped at `level`. The first
/// `lowered` of the columns whose range reaches `level`, by greater width and then from the left, are 1 column of text
/// narrower. Without columns, `level` and `lowered` are 0.
#[derive(Debug, PartialEq, Eq, Drop)]
pub struct ColumnCut {
    /// Width of each column, in columns of text.
    pub widths: Vec<usize>,
    /// Least cap on the ranges at which the widths use all available columns of text.
    pub level: usize,
    /// Number of columns that are 1 column of text narrower than their minimum plus their capped range.
    pub lowered: usize,
}

/// Cuts the shares of columns to `width`, as fairly as possible.
///
/// The result is that of this loop: while the widths and a separator of 1 between neighbouring columns pass `width`, take
/// 1 from the column with the greatest distance to its minimum, of these from the widest, and of these from the leftmost.
/// It is found by a binary search of at most 64 steps and one sort.
///
/// All widths are in columns of text. The caller ensures [`cut_fits`](super::cut_fits).
///
/// # Errors
///
/// `OutOfMemory` if an allocation is refused.
pub fn column_widths(
    alloc: Global,
    minimums: &[usize],
    shares: &[usize],
    width: usize,
) -> Result<ColumnCut, Error>
    requires { CutFits minimums.now shares.now width }
    ensures cut { IfOk result (λ c. IsColumnCut minimums.now shares.now width c.widths.items c.level c.lowered) }
    ensures err { OnlyOutOfMemory result }
{
    Ok(column_widths_in(Vec::new(alloc), minimums, shares, width)?)
}

/// Cuts like [`column_widths`]. The widths are in the memory of `memory`.
pub(crate) fn column_widths_in(
    memory: Vec<usize>,
    minimums: &[usize],
    shares: &[usize],
    width: usize,
) -> Result<ColumnCut, AllocError>
    requires { CutFits minimums.now shares.now width }
    ensures { IfOk result (λ c. IsColumnCut minimums.now shares.now width c.widths.items c.level c.lowered) }
{
    let mut meter = Meter::default();
    metered_in(memory, minimums, shares, width, &mut meter)
}

/// Cuts like [`column_widths`], and counts the steps of the search.
///
/// Sets the meter's `probes`, counted from 0, also on an error, and leaves its other fields unchanged. The caller ensures
/// [`cut_fits`](super::cut_fits).
///
/// # Errors
///
/// `OutOfMemory` if an allocation is refused. `probes` is set then, too.
pub fn column_widths_metered(
    alloc: Global,
    minimums: &[usize],
    shares: &[usize],
    width: usize,
    meter: &mut Meter,
) -> Result<ColumnCut, Error>
    requires { CutFits minimums.now shares.now width }
    ensures cut { IfOk result (λ c. IsColumnCut minimums.now shares.now width c.widths.items c.level c.lowered) }

    // A binary search of the levels up to the greatest range; each halving is one probe.
    ensures probes { meter.new.probes ≤ 64 }
    ensures probes_least { largest_slack minimums.now shares.now + 2 ≤ 2 * 2 ^ meter.new.probes }
    ensures probes_most { 2 ^ meter.new.probes ≤ 2 * largest_slack minimums.now shares.now + 1 }
    ensures others { meter.new ≡ record meter.old { probes = meter.new.probes } }

    ensures err { OnlyOutOfMemory result }
{
    Ok(metered_in(Vec::new(alloc), minimums, shares, width, meter)?)
}

/// Cuts like [`column_widths_metered`]. The widths are in the memory of `memory`.
fn metered_in(
    memory: Vec<usize>,
    minimums: &[usize],
    shares: &[usize],
    width: usize,
    meter: &mut Meter,
) -> Result<ColumnCut, AllocError>
    requires { CutFits minimums.now shares.now width }
    ensures cut { IfOk result (λ c. IsColumnCut minimums.now shares.now width c.widths.items c.level c.lowered) }
    ensures probes { meter.new.probes ≤ 64 }
    ensures probes_least { largest_slack minimums.now shares.now + 2 ≤ 2 * 2 ^ meter.new.probes }
    ensures probes_most { 2 ^ meter.new.probes ≤ 2 * largest_slack minimums.now shares.now + 1 }
    ensures others { meter.new ≡ record meter.old { probes = meter.new.probes } }
{
    let totals = sum_up(minimums, shares);
    let needed = wanted(minimums, shares, width, totals);
    let highest = Level {
        level: totals.greatest_range,
        sum: totals.shares - totals.minimums,
    };
    let (found, probes) = find_level(minimums, shares, highest, needed);
    meter.probes = probes;
    level_form(memory, minimums, shares, width, needed, found)
}

/// Returns the cut at the least level, `found`. The widths are in the memory of `memory`.
fn level_form(
    memory: Vec<usize>,
    minimums: &[usize],
    shares: &[usize],
    width: usize,
    needed: u128,
    found: Level,
) -> Result<ColumnCut, AllocError>
    requires fits { CutFits minimums.now shares.now width }
    requires needed { needed ≡ wanted minimums.now shares.now width }
    requires level { IsLevel found.level (ranges minimums.now shares.now) needed }
    requires sum { found.sum ≡ capped_sum found.level (ranges minimums.now shares.now) }
    ensures { IfOk result (λ c. IsLevelForm minimums.now shares.now width c.widths.items c.level c.lowered) }
{
    let count = excess(minimums, shares, needed, found);
    let full = full_widths(memory, minimums, shares, found.level)?;
    let widths = if count == 0 {
        full
    } else {
        lowered(minimums, shares, found.level, full, count)?
    };
    Ok(ColumnCut {
        widths,
        level: found.level,
        lowered: count,
    })
}

/// Returns the number of columns that are lowered: the sum of the capped ranges minus `needed`.
fn excess(minimums: &[usize], shares: &[usize], needed: u128, found: Level) -> usize
    requires lengths { length minimums.now ≡ length shares.now }
    requires level { IsLevel found.level (ranges minimums.now shares.now) needed }
    requires sum { found.sum ≡ capped_sum found.level (ranges minimums.now shares.now) }
    ensures value { result + needed ≡ capped_sum found.level (ranges minimums.now shares.now) }
    ensures above { 0 < result → 0 < found.level }
    ensures enough { 0 < result
        → result + capped_sum (found.level - 1) (ranges minimums.now shares.now) ≤ capped_sum found.level (ranges minimums.now shares.now) }
{
    (found.sum - needed) as usize
}

/// Returns the full width of each column, in the memory of `memory`: its minimum plus its range capped at `level`.
fn full_widths(
    memory: Vec<usize>,
    minimums: &[usize],
    shares: &[usize],
    level: usize,
) -> Result<Vec<usize>, AllocError>
    requires columns { AreColumns minimums.now shares.now }
    ensures len { IfOk result (λ v. length v.items ≡ length minimums.now) }
    ensures each { IfOk result (λ v. (k : ℕ) → k < length minimums.now → slice_index v.items k ≡ full_width minimums.now shares.now level k) }
{
    let mut widths = memory;
    widths.clear();
    widths.reserve_exact(minimums.len())?;
    for (i, least) in minimums.iter().enumerate() {
        widths.push(*least + (shares[i] - *least).min(level))?;
    }
    Ok(widths)
}
