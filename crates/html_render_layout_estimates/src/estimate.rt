//! Measuring of a render tree: the minimum and preferred width of each node.
//!
//! `measure(alloc, &decorator, &settings, tree)?` returns the tree with an estimate in each node: its minimum width, the
//! columns of the decorator's prefix and the number of children. If the tree has a table, each estimate has the preferred
//! width, too. docs/BEHAVIOUR.md has the rules for each kind of node under "Minimum and preferred width of a node".

ghost use Rattle.std.specs.Prelude.{◌≡◌, ◌+◌, ◌+ℤ◌, ◌-ℤ◌, pos, max, min, true, false, IfOk, OnOk, MatchBool};
ghost use Rattle.std.specs.Int.{saturate_signed, w64};
ghost use Rattle.html_render_dom_values.specs.Outcome.{OnlyOutOfMemory};
ghost use Rattle.html_render_layout_nodes.specs.Preorder.{flatten, forest_of};
ghost use Rattle.html_render_layout_estimates.specs.Estimates.{text_size, number_columns, prefix_of, behind};
ghost use Rattle.html_render_layout_estimates.specs.Children.{trees, greatest_least, total_size};
ghost use Rattle.html_render_layout_estimates.specs.TextSize.{saturated};
ghost use Rattle.html_render_layout_estimates.specs.Estimates.{measured_kind, estimate_of, measured};
ghost use Rattle.html_render_layout_estimates.specs.Passes.{is_table, has_table, with_needs, sized_if, with_needed_sizes};
ghost use Rattle.html_render_layout_estimates.specs.Words.{with_words};

use crate::settings::LayoutSettings;
use crate::sized::{Measure, TableMemory, measure_table};
use crate::text::{columns, size, size_within};
use crate::trees::first_tree;
use crate::whole_words::add_words;
use html_render_dom_values::Error;
use html_render_layout_nodes::tree::{Entry, Estimate, NodeKind, PreorderForest, RenderNode};
use html_render_parts::decorate::TextDecorator;
use std::alloc::{AllocError, Global};

/// Totals of the trees beside each other in a slice.
#[derive(Clone, Copy)]
struct Children {
    /// Number of trees.
    count: usize,
    /// Greatest minimum width of a tree; 0 without trees.
    min_width: usize,
    /// Sum of the trees' preferred widths, at most `usize::MAX`.
    preferred_width: usize,
}

/// Counts the trees in a slice of measured nodes. Finds the greatest of their minimum widths, and adds up their preferred
/// widths.
#[inline]
fn children_of(nodes: &[Entry<RenderNode>]) -> Children
    requires { flatten (forest_of nodes.now) ≡ nodes.now }
    ensures count { result.count ≡ trees (forest_of nodes.now) }
    ensures min_width { result.min_width ≡ greatest_least (forest_of nodes.now) }
    ensures preferred_width { result.preferred_width ≡ total_size (forest_of nodes.now) }
{
    let mut count = 0;
    let mut min_width: usize = 0;
    let mut preferred_width: usize = 0;
    let mut rest = nodes;
    while let Some(first) = first_tree(rest) {
        let estimate = &first.node.estimate;
        count += 1;
        min_width = min_width.max(estimate.min_width);
        preferred_width = preferred_width.saturating_add(estimate.preferred_width);
        rest = first.beside;
    }
    Children {
        count,
        min_width,
        preferred_width,
    }
}

/// Returns the number of the last of `items` items that are numbered from `first`, limited to the range of `i64`.
///
/// Without items it is `first - 1`.
fn last_number(first: i64, items: usize) -> i64
    ensures { result ≡ saturate_signed w64 (first +ℤ pos items -ℤ pos 1) }
{
    if items == 0 {
        first.saturating_sub(1)
    } else {
        first.saturating_add_unsigned((items - 1) as u64)
    }
}

/// Returns the columns of the widest prefix of a numbered list: that of its first item or of its last.
///
/// The list has `items` items, numbered from `first`. Numbers stop at the ends of `i64`.
///
/// # Errors
///
/// `OutOfMemory` if an allocation is refused.
pub fn number_columns<D: TextDecorator>(
    alloc: Global,
    decorator: &D,
    first: i64,
    items: usize,
) -> Result<usize, Error>
    ensures ok { IfOk result (λ columns. columns ≡ number_columns D.decoration decorator.now first items) }
    ensures err { OnlyOutOfMemory result }
{
    let first_prefix = decorator.ordered_item_prefix(alloc, first)?;
    let last_prefix = decorator.ordered_item_prefix(alloc, last_number(first, items))?;
    Ok(columns(first_prefix.as_str()).max(columns(last_prefix.as_str())))
}

/// Returns the columns of the prefix of a node with `children` children; 0 for a kind without a prefix.
fn prefix_of<D: TextDecorator>(
    alloc: Global,
    decorator: &D,
    settings: &LayoutSettings,
    kind: &NodeKind,
    children: usize,
) -> Result<usize, Error>
    ensures ok { IfOk result (λ columns. columns ≡ prefix_of D.decoration decorator.now settings.now kind.now children) }
    ensures err { OnlyOutOfMemory result }
{
    match kind {
        NodeKind::Header(level) => Ok(columns(decorator.header_prefix(alloc, *level)?.as_str())),
        NodeKind::BlockQuote => Ok(columns(decorator.quote_prefix(alloc)?.as_str())),
        NodeKind::Ul => Ok(columns(decorator.unordered_item_prefix(alloc)?.as_str())),
        NodeKind::Ol(first) => number_columns(alloc, decorator, *first, children),
        NodeKind::Dd => Ok(2),
        NodeKind::Text(_)
        | NodeKind::Container
        | NodeKind::Break
        | NodeKind::Block
        | NodeKind::Div
        | NodeKind::Emphasis(_)
        | NodeKind::ListItem
        | NodeKind::Dl
        | NodeKind::Dt
        | NodeKind::Strikeout
        | NodeKind::Superscript
        | NodeKind::Link(_)
        | NodeKind::Image(_)
        | NodeKind::Svg(_)
        | NodeKind::FragmentStart(_)
        | NodeKind::Table(_)
        | NodeKind::TableRow
        | NodeKind::TableCell => Ok(0),
    }
}

/// Returns the estimate of a node without children and without a prefix, of these widths.
///
/// The preferred width is 0 unless `with_sizes` is `true`.
#[inline]
fn leaf(with_sizes: bool, min_width: usize, preferred_width: usize) -> Estimate
    ensures { result ≡ sized_if with_sizes (record { min_width = min_width; preferred_width = preferred_width; prefix = 0; children = 0 }) }
{
    Estimate {
        min_width,
        preferred_width: if with_sizes { preferred_width } else { 0 },
        prefix: 0,
        children: 0,
    }
}

/// Returns the estimate of a text with `around` columns around it.
///
/// Reads the whole text only if `with_sizes` is `true`. Otherwise the preferred width is 0.
#[inline]
fn text_estimate(settings: &LayoutSettings, with_sizes: bool, text: &str, around: usize) -> Estimate
    ensures { result ≡ sized_if with_sizes (record {
      min_width = min (saturated (text_size text.now + around)) settings.now.min_wrap_width;
      preferred_width = saturated (text_size text.now + around);
      prefix = 0;
      children = 0;
    }) }
{
    let limit = settings.min_wrap_width;
    if with_sizes {
        let columns = size(text).saturating_add(around);
        return leaf(true, columns.min(limit), columns);
    }
    let columns = size_within(text, limit).saturating_add(around);
    leaf(false, columns.min(limit), columns)
}

/// Returns the estimate of a link over its measured children. Its preferred width is 0 unless `with_sizes` is `true`.
#[inline]
fn link_estimate(with_sizes: bool, children: Children) -> Estimate
    ensures { result ≡ sized_if with_sizes (record {
      min_width = max children.min_width 5;
      preferred_width = saturated (children.preferred_width + 5);
      prefix = 0;
      children = children.count;
    }) }
{
    Estimate {
        min_width: children.min_width.max(5),
        preferred_width: if with_sizes {
            children.preferred_width.saturating_add(5)
        } else {
            0
        },
        prefix: 0,
        children: children.count,
    }
}

/// Returns the estimate of a node over its measured children, after a prefix of `prefix` columns. Its preferred width is 0
/// unless `with_sizes` is `true`.
#[inline]
fn behind(with_sizes: bool, prefix: usize, children: Children) -> Estimate
    ensures { result ≡ sized_if with_sizes (behind prefix children.min_width children.preferred_width children.count) }
{
    Estimate {
        min_width: children.min_width.saturating_add(prefix),
        preferred_width: if with_sizes {
            children.preferred_width.saturating_add(prefix)
        } else {
            0
        },
        prefix,
        children: children.count,
    }
}

/// Returns the estimate of a node that isn't a table over its measured children.
///
/// The preferred width is computed if `with_sizes` is `true`, for which the children need theirs. Otherwise it is 0.
#[inline(always)]
fn estimate_of<D: TextDecorator>(
    alloc: Global,
    decorator: &D,
    settings: &LayoutSettings,
    with_sizes: bool,
    kind: &NodeKind,
    below: &[Entry<RenderNode>],
) -> Result<Estimate, Error>
    requires { flatten (forest_of below.now) ≡ below.now }
    ensures ok { IfOk result (λ e. is_table kind.now ≡ false →
        e ≡ sized_if with_sizes (estimate_of D.decoration decorator.now settings.now kind.now (forest_of below.now))) }
    ensures err { OnlyOutOfMemory result }
{
    match kind {
        NodeKind::Text(text) | NodeKind::Svg(text) => {
            Ok(text_estimate(settings, with_sizes, text.as_str(), 0))
        }
        NodeKind::Break => Ok(leaf(with_sizes, 1, 1)),
        NodeKind::Image(image) => {
            Ok(text_estimate(settings, with_sizes, image.title().as_str(), 2))
        }
        NodeKind::FragmentStart(_) => Ok(leaf(with_sizes, 0, 0)),
        NodeKind::Link(_) => Ok(link_estimate(with_sizes, children_of(below))),
        NodeKind::Container
        | NodeKind::Block
        | NodeKind::Div
        | NodeKind::Emphasis(_)
        | NodeKind::ListItem
        | NodeKind::Dl
        | NodeKind::Dt
        | NodeKind::Strikeout
        | NodeKind::Superscript
        | NodeKind::TableRow
        | NodeKind::TableCell => Ok(behind(with_sizes, 0, children_of(below))),
        NodeKind::Header(_)
        | NodeKind::BlockQuote
        | NodeKind::Ul
        | NodeKind::Ol(_)
        | NodeKind::Dd
        | NodeKind::Table(_) => {
            let children = children_of(below);
            let prefix = prefix_of(alloc, decorator, settings, kind, children.count)?;
            Ok(behind(with_sizes, prefix, children))
        }
    }
}

/// Measures a node over its measured children. The caller ensures that it is a table.
fn table_measure<D: TextDecorator>(
    alloc: Global,
    memory: &mut TableMemory,
    decorator: &D,
    settings: &LayoutSettings,
    kind: &NodeKind,
    below: &[Entry<RenderNode>],
) -> Result<Measure, AllocError>
    requires kept { flatten (forest_of below.now) ≡ below.now }
    requires table { is_table kind.now ≡ true }
    ensures estimate { IfOk result (λ m. m.estimate ≡ estimate_of D.decoration decorator.now settings.now kind.now (forest_of below.now)) }
    ensures needs { IfOk result (λ m. with_needs m.needs.items kind.now ≡ measured_kind kind.now (forest_of below.now)) }
{
    let NodeKind::Table(grid) = kind else {
        unreachable!();
    };
    measure_table(alloc, memory, grid.cells(), children_of(below).count, below)
}

/// Stores the measurement of a table in its node.
#[inline]
fn note(node: &mut RenderNode, measure: Measure)
    ensures { node.new ≡ record node.old { kind = with_needs measure.needs.items node.old.kind; estimate = measure.estimate } }
{
    node.estimate = measure.estimate;
    if let NodeKind::Table(grid) = &mut node.kind {
        grid.set_needs(measure.needs);
    }
}

/// Stores the estimate of a node that isn't a table.
#[inline]
fn set_estimate(node: &mut RenderNode, estimate: Estimate)
    ensures { node.new ≡ record node.old { estimate = estimate } }
{
    node.estimate = estimate;
}

/// Reports whether a node is a table.
#[inline]
pub(crate) fn is_table(kind: &NodeKind) -> bool
    ensures { result ≡ is_table kind.now }
{
    matches!(kind, NodeKind::Table(_))
}

/// Reports whether any of the nodes is a table.
fn any_table(entries: &[Entry<RenderNode>]) -> bool
    requires { flatten (forest_of entries.now) ≡ entries.now }
    ensures { result ≡ has_table (forest_of entries.now) }
{
    for entry in entries {
        if is_table(&entry.node.kind) {
            return true;
        }
    }
    false
}

/// Gives each node its estimate, from the last node to the first; with preferred widths if any node is a table.
fn measure_nodes<D: TextDecorator>(
    alloc: Global,
    decorator: &D,
    settings: &LayoutSettings,
    entries: &mut Vec<Entry<RenderNode>>,
) -> Result<(), Error>
    requires { flatten (forest_of entries.old.items) ≡ entries.old.items }
    ensures ok { OnOk result (entries.new.items
        ≡ flatten (with_needed_sizes (measured D.decoration decorator.now settings.now (forest_of entries.old.items)))) }
    ensures err { OnlyOutOfMemory result }
{
    let with_sizes = any_table(entries);
    let mut memory = TableMemory::new(alloc);
    let mut at = entries.len();
    while at > 0 {
        at -= 1;
        let all = entries.as_slice();
        let entry = &all[at];
        let below = &all[at + 1..at + entry.subtree_len];
        let kind = &entry.node.kind;
        if is_table(kind) {
            let measure = table_measure(alloc, &mut memory, decorator, settings, kind, below)?;
            note(&mut entries[at].node, measure);
        } else {
            let estimate = estimate_of(alloc, decorator, settings, with_sizes, kind, below)?;
            set_estimate(&mut entries[at].node, estimate);
        }
    }
    Ok(())
}

/// Sets the longest words of the columns of each table of measured nodes, under `whole_words`.
fn add_needed_words(
    alloc: Global,
    settings: &LayoutSettings,
    entries: &mut Vec<Entry<RenderNode>>,
) -> Result<(), AllocError>
    requires { flatten (forest_of entries.old.items) ≡ entries.old.items }
    ensures { OnOk result (entries.new.items ≡ flatten (with_words settings.now (forest_of entries.old.items))) }
{
    if settings.whole_words && any_table(entries) {
        add_words(alloc, settings, entries)?;
    }
    Ok(())
}

/// Measures a render tree. Returns it with an estimate in each node, and in each table the widths that its columns need.
///
/// Preferred widths are computed only if the tree has a table. Otherwise they are 0. Under `whole_words` each table's columns
/// also have their longest words.
///
/// # Errors
///
/// `OutOfMemory` if an allocation is refused.
pub fn measure<D: TextDecorator>(
    alloc: Global,
    decorator: &D,
    settings: &LayoutSettings,
    tree: PreorderForest<RenderNode>,
) -> Result<PreorderForest<RenderNode>, Error>
    ensures ok { IfOk result (λ t. t ≡ with_needed_sizes (with_words settings.now (measured D.decoration decorator.now settings.now tree))) }
    ensures err { OnlyOutOfMemory result }
{
    let mut entries = tree.into_entries();
    measure_nodes(alloc, decorator, settings, &mut entries)?;
    add_needed_words(alloc, settings, &mut entries)?;
    Ok(PreorderForest::from_entries(entries))
}
