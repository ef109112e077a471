//! Test whether columns can be cut to a width, and the sums that a cut needs.
//!
//! `cut_fits(&[3, 3], &[9, 4], 7)` is `true`: the minimums and the separator add up to 7.

ghost use Rattle.std.specs.Prelude.{◌≡◌, ◌+◌, ◌-◌, ◌≤◌, ◌↔◌, sum, IsTrue};
ghost use Rattle.html_render_parts_widths.specs.Cuts.{CutFits, largest_slack};
ghost use Rattle.html_render_parts_widths.specs.LevelForm.{ranges, wanted};
ghost use Rattle.html_render_parts_widths.specs.CutSteps.{AreColumns};

/// Reports whether columns of these minimums and shares can be cut to `width`.
///
/// They can if
///
/// - there are equally many minimums and shares,
/// - each minimum is at most its share, and
/// - the minimums and a separator of 1 between neighbouring columns add up to at most `width`.
///
/// All widths are in columns of text. Allocates nothing.
pub fn cut_fits(minimums: &[usize], shares: &[usize], width: usize) -> bool
    ensures { IsTrue result ↔ CutFits minimums.now shares.now width }
{
    if minimums.len() != shares.len() {
        return false;
    }
    let mut room = width;
    for (i, least) in minimums.iter().enumerate() {
        let separator = i.min(1);
        if *least > shares[i] || *least > room || separator > room - *least {
            return false;
        }
        room -= *least + separator;
    }
    true
}

/// Sums over all columns, and the greatest range.
#[derive(Clone, Copy)]
pub(super) struct Totals {
    /// Sum of the minimums.
    pub(super) minimums: u128,
    /// Sum of the shares.
    pub(super) shares: u128,
    /// Greatest difference between a share and its minimum; 0 without columns.
    pub(super) greatest_range: usize,
}

/// Returns the totals of all columns, in one pass.
pub(super) fn sum_up(minimums: &[usize], shares: &[usize]) -> Totals
    requires columns { AreColumns minimums.now shares.now }
    ensures minimums { result.minimums ≡ sum minimums.now }
    ensures shares { result.shares ≡ sum shares.now }
    ensures greatest_range { result.greatest_range ≡ largest_slack minimums.now shares.now }
{
    let mut least_widths = 0u128;
    let mut all_shares = 0u128;
    let mut greatest_range = 0usize;
    for (i, least) in minimums.iter().enumerate() {
        least_widths += *least as u128;
        all_shares += shares[i] as u128;
        greatest_range = greatest_range.max(shares[i] - *least);
    }
    Totals {
        minimums: least_widths,
        shares: all_shares,
        greatest_range,
    }
}

/// Returns the difference between the sum of a cut's widths and the sum of the minimums.
pub(super) fn wanted(minimums: &[usize], shares: &[usize], width: usize, totals: Totals) -> u128
    requires fits { CutFits minimums.now shares.now width }
    requires minimums { totals.minimums ≡ sum minimums.now }
    requires shares { totals.shares ≡ sum shares.now }
    ensures value { result ≡ wanted minimums.now shares.now width }
    ensures reachable { result ≤ sum (ranges minimums.now shares.now) }
{
    let separators = minimums.len().saturating_sub(1);
    totals.shares.min((width - separators) as u128) - totals.minimums
}
