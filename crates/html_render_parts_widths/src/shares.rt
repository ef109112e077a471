//! Widths of a table's columns that are side by side.
//!
//! `widths_across(&mut memory, Vec::new(alloc), &needs, 8)` returns 4 and 3 for two columns with a minimum width of 3, the
//! preferred widths 9 and 3, and words of 3 columns.

ghost use Rattle.std.specs.Prelude.{◌≡◌, ◌≤◌, true, length, option_map, sum_by, IfOk, OnOk};
ghost use Rattle.std.specs.Bool.{OnFalse};
ghost use Rattle.html_render_dom_values.specs.Outcome.{OnlyOutOfMemory};
ghost use Rattle.html_render_parts_widths.specs.Shares.{least_widths, share, shares, stand_side_by_side, widths_across};
ghost use Rattle.html_render_parts_widths.specs.Shares.{whole_widths, word_minimums, HaveShortWords};
ghost use Rattle.html_render_parts_widths.specs.CutSteps.{greater_ones};

use super::cut::column_widths_in;
use html_render_dom_values::Error;
use std::alloc::{AllocError, Global};

/// Widths that a column of a table needs for its content, in columns of text.
#[derive(Clone, Copy)]
pub struct ColumnNeed {
    /// Preferred width of its content.
    pub preferred_width: usize,
    /// Minimum width of its content.
    pub min_width: usize,
    /// Width of its longest word; 0 if words aren't measured.
    pub longest_word: usize,
}

/// Returns the sum of the preferred widths.
fn total_size(needs: &[ColumnNeed]) -> u128
    ensures { result ≡ sum_by (λ n. n.preferred_width) needs.now }
{
    let mut total = 0u128;
    for need in needs {
        total += need.preferred_width as u128;
    }
    total
}

/// Returns the share of a column in `width`. `total` is the sum of all columns' preferred widths.
fn share(need: ColumnNeed, width: usize, total: u128) -> usize
    requires { need.preferred_width ≤ total }
    ensures { result ≡ share width total need }
{
    if need.preferred_width == 0 {
        return need.min_width;
    }
    let part = need.preferred_width as u128 * width as u128 / total;
    part.min(need.preferred_width as u128)
        .max(need.min_width as u128) as usize
}

/// Replaces `all` by the share of each column in `width`, at least its minimum in `minimums`.
fn put_shares(
    all: &mut Vec<usize>,
    needs: &[ColumnNeed],
    minimums: &[usize],
    width: usize,
) -> Result<(), AllocError>
    requires { length minimums.now ≡ length needs.now }
    ensures { OnOk result (all.new.items ≡ greater_ones minimums.now (shares width needs.now)) }
{
    let total = total_size(needs);
    all.clear();
    all.reserve_exact(needs.len())?;
    for (at, need) in needs.iter().enumerate() {
        all.push(share(*need, width, total).max(minimums[at]))?;
    }
    Ok(())
}

/// Replaces `all` by the minimum width of each column.
fn put_least_widths(all: &mut Vec<usize>, needs: &[ColumnNeed]) -> Result<(), AllocError>
    ensures { OnOk result (all.new.items ≡ least_widths needs.now) }
{
    all.clear();
    all.reserve_exact(needs.len())?;
    for need in needs {
        all.push(need.min_width)?;
    }
    Ok(())
}

/// Returns the width at which each column cuts no word: that of its longest word, at least its minimum width.
fn whole_widths(alloc: Global, needs: &[ColumnNeed]) -> Result<Vec<usize>, AllocError>
    ensures { IfOk result (λ all. all.items ≡ whole_widths needs.now) }
{
    let mut all = Vec::with_capacity(alloc, needs.len())?;
    for need in needs {
        all.push(need.min_width.max(need.longest_word))?;
    }
    Ok(all)
}

/// Reports whether the longest word of a column passes its minimum width.
fn has_long_word(needs: &[ColumnNeed]) -> bool
    ensures { OnFalse result (HaveShortWords needs.now) }
{
    for need in needs {
        if need.longest_word > need.min_width {
            return true;
        }
    }
    false
}

/// Replaces `minimums` by the word minimum of each column: the fairest cut of the widths at which columns cut no word.
///
/// Without a long word these are the minimum widths. Nothing is searched or sorted then.
#[tactic(auto, using(crate::specs::laws::WordMinimums::whole_fit, crate::specs::laws::WordMinimums::short_minimums))]
fn put_word_minimums(
    minimums: &mut Vec<usize>,
    needs: &[ColumnNeed],
    width: usize,
) -> Result<(), AllocError>
    requires { stand_side_by_side width needs.now ≡ true }
    ensures { OnOk result (minimums.new.items ≡ word_minimums width needs.now) }
{
    put_least_widths(minimums, needs)?;
    if !has_long_word(needs) {
        return Ok(());
    }
    let alloc = *minimums.allocator();
    let whole = whole_widths(alloc, needs)?;
    let cut = column_widths_in(Vec::new(alloc), minimums.as_slice(), &whole, width)?;
    *minimums = cut.widths;
    Ok(())
}

/// Reports whether columns can be side by side in `width`: it isn't 0, and their minimum widths and a separator of 1
/// between neighbouring columns add up to at most `width`.
///
/// All widths are in columns of text. Allocates nothing.
pub fn stand_side_by_side(needs: &[ColumnNeed], width: usize) -> bool
    ensures { result ≡ stand_side_by_side width needs.now }
{
    let mut least = 0u128;
    for need in needs {
        least += need.min_width as u128;
    }
    let separators = needs.len().saturating_sub(1) as u128;
    width != 0 && least + separators <= width as u128
}

/// Memory for the widths of a table's columns, reused from table to table.
#[derive(Drop)]
pub struct WidthsMemory {
    /// Word minimum of each column.
    minimums: Vec<usize>,
    /// Share of each column.
    shares: Vec<usize>,
}

impl WidthsMemory {
    /// Returns memory for the widths of columns, without an allocation.
    pub fn new(alloc: Global) -> WidthsMemory {
        WidthsMemory {
            minimums: Vec::new(alloc),
            shares: Vec::new(alloc),
        }
    }
}

/// Returns the widths of a table's columns side by side in `width`; `None` if they can't be side by side.
///
/// A column's share is to `width` as its preferred width is to the sum of all preferred widths, rounded down, but at most
/// its preferred width and at least its minimum width. The minimum width counts if the two limits contradict. A share is
/// also at least the column's word minimum: the word minimums are the fairest cut of the longest words, which are at least
/// the minimum widths. The widths are the fairest cut of the shares to the word minimums, that of [`column_widths`]. All
/// widths are in columns of text. They are in the memory of `widths`.
///
/// # Errors
///
/// `OutOfMemory` if an allocation is refused.
#[tactic(auto, using(crate::specs::laws::WordMinimums::length_minimums, crate::specs::laws::WordMinimums::word_shares_fit))]
pub fn widths_across(
    memory: &mut WidthsMemory,
    widths: Vec<usize>,
    needs: &[ColumnNeed],
    width: usize,
) -> Result<Option<Vec<usize>>, Error>
    ensures ok { IfOk result (λ widths. option_map (λ all. all.items) widths ≡ widths_across width needs.now) }
    ensures err { OnlyOutOfMemory result }
{
    if !stand_side_by_side(needs, width) {
        return Ok(None);
    }
    let WidthsMemory { minimums, shares } = memory;
    put_word_minimums(minimums, needs, width)?;
    put_shares(shares, needs, minimums.as_slice(), width)?;
    let cut = column_widths_in(widths, minimums.as_slice(), shares.as_slice(), width)?;
    Ok(Some(cut.widths))
}
