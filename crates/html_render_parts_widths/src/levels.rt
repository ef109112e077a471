//! Binary search for the least level at which the capped ranges suffice.

ghost use Rattle.std.specs.Prelude.{◌≡◌, ◌+◌, ◌-◌, ◌*◌, ◌^◌, ◌<◌, ◌≤◌, sum};
ghost use Rattle.html_render_parts_widths.specs.LevelForm.{ranges, capped_sum, IsLevel};
ghost use Rattle.html_render_parts_widths.specs.CutSteps.{AreColumns};

/// A level and the sum of the ranges capped at it.
#[derive(Clone, Copy)]
pub(super) struct Level {
    /// Cap on each range.
    pub(super) level: usize,
    /// Sum of the capped ranges.
    pub(super) sum: u128,
}

/// Returns the sum of the ranges, each capped at `level`. One call is one probe of the search.
pub(super) fn capped_sum(minimums: &[usize], shares: &[usize], level: usize) -> u128
    requires columns { AreColumns minimums.now shares.now }
    ensures { result ≡ capped_sum level (ranges minimums.now shares.now) }
{
    let mut all = 0u128;
    for (i, least) in minimums.iter().enumerate() {
        all += (shares[i] - *least).min(level) as u128;
    }
    all
}

/// Returns the least level whose capped ranges add up to at least `wanted`, and the number of probes taken.
///
/// The caller ensures that the ranges capped at `highest` add up to at least `wanted`.
pub(super) fn find_level(
    minimums: &[usize],
    shares: &[usize],
    highest: Level,
    wanted: u128,
) -> (Level, usize)
    requires columns { AreColumns minimums.now shares.now }
    requires sum { highest.sum ≡ capped_sum highest.level (ranges minimums.now shares.now) }
    requires enough { wanted ≤ highest.sum }
    ensures level { IsLevel result.0.level (ranges minimums.now shares.now) wanted }
    ensures sum { result.0.sum ≡ capped_sum result.0.level (ranges minimums.now shares.now) }
    ensures probes { result.1 ≤ 64 }
    ensures probes_least { highest.level + 2 ≤ 2 * 2 ^ result.1 }
    ensures probes_most { 2 ^ result.1 ≤ 2 * highest.level + 1 }
{
    let mut low = 0usize;
    let mut high = highest.level;
    let mut sum = highest.sum;
    let mut probes = 0usize;
    while low < high {
        let middle = low + (high - low) / 2;
        let capped = capped_sum(minimums, shares, middle);
        probes += 1;
        if capped >= wanted {
            high = middle;
            sum = capped;
        } else {
            low = middle + 1;
        }
    }
    (Level { level: high, sum }, probes)
}
