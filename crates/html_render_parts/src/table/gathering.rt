//! Edges of a table's grid, gathered row by row.

ghost use Rattle.std.specs.Prelude.{◌≡◌, ◌++◌, ◌∷◌, [], Contains, IfOk, IfSome, OnOk};
ghost use Rattle.html_render_parts.specs.Placement.{rising};

use crate::table::numbering::make_rising;
use std::alloc::{AllocError, Global};
use std::marker::Model;

/// Minimum limit: fewer positions are only sorted at the end.
const FEWEST: usize = 16;

/// Maximum number of positions that a search reads.
const PROBES: usize = 8;

/// Searches a position from the index `start` on, among few positions. Returns its index.
fn index_near(positions: &[u128], start: usize, position: u128) -> Option<usize>
    ensures { IfSome result (λ at. Contains positions.now position) }
{
    let end = start.saturating_add(PROBES).min(positions.len());
    for at in start..end {
        if positions[at] == position {
            return Some(at);
        }
    }
    None
}

/// Appends a position, but not one that a search from `start` on finds. Returns where the search for a next one starts.
#[tactic(auto, using(crate::proofs::EdgeRanks::rising_again))]
fn push_unknown(gathered: &mut Vec<u128>, start: usize, position: u128) -> Result<usize, AllocError>
    ensures { OnOk result (rising gathered.new.items ≡ rising (gathered.old.items ++ position ∷ [])) }
{
    if let Some(at) = index_near(gathered, start, position) {
        return Ok(at.saturating_add(1));
    }
    gathered.push(position)?;
    Ok(start)
}

/// Appends positions, but only few of those that are there.
#[tactic(auto, using(crate::proofs::EdgeRanks::rising_next))]
#[inline(never)]
fn push_all_unknown(gathered: &mut Vec<u128>, positions: &[u128]) -> Result<(), AllocError>
    ensures { OnOk result (rising gathered.new.items ≡ rising (gathered.old.items ++ positions.now)) }
{
    // the cells of a row end at rising positions, and most of them at known ones
    let mut start = 0;
    for position in positions {
        start = push_unknown(gathered, start, *position)?;
    }
    Ok(())
}

/// Growing set of positions. Between two additions it holds fewer than 16, or than twice the distinct ones when it was last
/// sorted, whichever is more.
///
/// In contracts, it is the distinct positions, rising.
#[derive(Drop)]
pub(crate) struct Positions {
    /// Positions, unsorted and with duplicates.
    gathered: Vec<u128>,
    /// Number of positions at which they are sorted and duplicates removed.
    limit: usize,
}

impl Model for Positions {
    ghost use Rattle.std.specs.Prelude.{ℕ, List};

    ghost Value = { List ℕ };

    ghost use Rattle.html_render_parts.specs.Placement.{rising};

    ghost view = { λ p. rising p.gathered.items };
}

impl Positions {
    /// Returns the set of position 0 alone.
    pub(crate) fn zero(alloc: Global) -> Result<Positions, AllocError>
        ensures { IfOk result (λ p. p ≡ 0 ∷ []) }
    {
        let mut gathered = Vec::new(alloc);
        gathered.push(0)?;
        Ok(Positions {
            gathered,
            limit: FEWEST,
        })
    }

    /// Adds positions.
    pub(crate) fn add(&mut self, positions: &[u128]) -> Result<(), AllocError>
        ensures { OnOk result (self.new ≡ rising (self.old ++ positions.now)) }
    {
        // in most tables, the cells of a row end at the positions of the row before
        if self.gathered.as_slice().ends_with(positions) {
            return Ok(());
        }
        push_all_unknown(&mut self.gathered, positions)?;
        if self.gathered.len() >= self.limit {
            make_rising(&mut self.gathered)?;
            self.limit = self.gathered.len().saturating_mul(2).max(FEWEST);
        }
        Ok(())
    }

    /// Returns the positions, each once, rising.
    pub(crate) fn into_rising(self) -> Result<Vec<u128>, AllocError>
        ensures { IfOk result (λ v. v.items ≡ self) }
    {
        let mut gathered = self.gathered;
        make_rising(&mut gathered)?;
        Ok(gathered)
    }
}
