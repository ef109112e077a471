//! Edges of a table's grid, and the numbers of columns of its places.

ghost use Rattle.std.specs.Prelude.{◌≡◌, ◌≤◌, ◌∷◌, ◌++◌, All, map, IfOk, OnOk};
ghost use Rattle.std.specs.List.Sorted.{IsStrictlyIncreasing};
ghost use Rattle.html_render_parts.specs.Placement.{lists, rising};
ghost use Rattle.html_render_parts.specs.Grid.{edges_of, numbered, rank};
ghost use Rattle.html_render_parts.specs.Positions.{ends};

use crate::table::PlacedCell;
use crate::table::placement::Place;
use std::alloc::{AllocError, Global};

/// Appends the ends of a row's places.
fn push_ends(positions: &mut Vec<u128>, places: &[Place]) -> Result<(), AllocError>
    ensures { OnOk result (positions.new.items ≡ positions.old.items ++ map (λ p. p.end) places.now) }
{
    for place in places {
        positions.push(place.end)?;
    }
    Ok(())
}

/// Returns 0 and the ends of all places, in order of rows.
fn zero_and_ends(alloc: Global, placed: &[Vec<Place>]) -> Result<Vec<u128>, AllocError>
    ensures { IfOk result (λ v. v.items ≡ 0 ∷ ends (lists placed.now)) }
{
    let mut positions = Vec::new(alloc);
    positions.push(0)?;
    for places in placed {
        push_ends(&mut positions, places)?;
    }
    Ok(positions)
}

/// Sorts positions, rising, and removes duplicates.
pub(crate) fn make_rising(positions: &mut Vec<u128>) -> Result<(), AllocError>
    ensures { OnOk result (positions.new.items ≡ rising positions.old.items) }
{
    positions.sort()?;
    positions.dedup();
    Ok(())
}

/// Returns the edges of a grid: 0 and the ends of all places, each once, rising.
pub(crate) fn edges_of(alloc: Global, placed: &[Vec<Place>]) -> Result<Vec<u128>, AllocError>
    ensures edges { IfOk result (λ v. v.items ≡ edges_of (lists placed.now)) }
    ensures rising { IfOk result (λ v. IsStrictlyIncreasing v.items) }
{
    let mut edges = zero_and_ends(alloc, placed)?;
    make_rising(&mut edges)?;
    Ok(edges)
}

/// Returns the number of edges below a position.
pub(crate) fn rank(edges: &[u128], position: u128) -> usize
    requires { IsStrictlyIncreasing edges.now }
    ensures { result ≡ rank edges.now position }
{
    edges.partition_point(|edge| *edge < position)
}

/// Returns the number of edges below a position. `guess` is the expected result: it saves a search if it is right and below
/// the number of edges.
pub(crate) fn rank_near(edges: &[u128], position: u128, guess: usize) -> usize
    requires { IsStrictlyIncreasing edges.now }
    ensures { result ≡ rank edges.now position }
{
    if guess >= edges.len() {
        return rank(edges, position);
    }
    if position > edges[guess] {
        return rank(edges, position);
    }
    if guess == 0 {
        return 0;
    }
    if edges[guess - 1] < position {
        return guess;
    }
    rank(edges, position)
}

/// Replaces `cells` by a row's places, each with its number of columns.
pub(crate) fn put_numbered(
    cells: &mut Vec<PlacedCell>,
    edges: &[u128],
    places: &[Place],
) -> Result<(), AllocError>
    requires rising { IsStrictlyIncreasing edges.now }
    requires ordered { All (λ p. p.start ≤ p.end) places.now }
    ensures { OnOk result (cells.new.items ≡ map (numbered edges.now) places.now) }
{
    cells.clear();
    let mut behind = 0;
    for place in places {
        let first = rank_near(edges, place.start, behind);
        behind = rank_near(edges, place.end, first.saturating_add(1));
        cells.push(PlacedCell {
            kind: place.kind,
            start: place.start,
            end: place.end,
            columns: behind - first,
        })?;
    }
    Ok(())
}

/// Returns the places of all rows, each with its number of columns.
pub(crate) fn numbered_rows(
    alloc: Global,
    edges: &[u128],
    placed: &[Vec<Place>],
) -> Result<Vec<Vec<PlacedCell>>, AllocError>
    requires rising { IsStrictlyIncreasing edges.now }
    requires ordered { All (λ places. All (λ p. p.start ≤ p.end) places) (lists placed.now) }
    ensures { IfOk result (λ v. lists v.items ≡ map (map (numbered edges.now)) (lists placed.now)) }
{
    let mut rows = Vec::with_capacity(alloc, placed.len())?;
    for places in placed {
        let mut row = Vec::with_capacity(alloc, places.len())?;
        put_numbered(&mut row, edges, places)?;
        rows.push(row)?;
    }
    Ok(rows)
}
