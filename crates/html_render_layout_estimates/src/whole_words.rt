//! Longest words of the columns of each table, in a measured tree.

ghost use Rattle.std.specs.Prelude.{◌≡◌, ◌++◌, ◌<◌, length, slice_set, IfOk, OnOk};
ghost use Rattle.html_render_parts_widths.specs.Spans.{AreOver};
ghost use Rattle.html_render_parts.specs.TableCells.{columns_of};
ghost use Rattle.html_render_layout_nodes.specs.Preorder.{flatten, forest_of};
ghost use Rattle.html_render_layout_estimates.specs.Words.{column_words, with_longest, worded_kind, worded};
ghost use Rattle.html_render_layout_estimates.specs.CellSteps.{row_words, cell_words};
ghost use Rattle.html_render_layout_estimates.specs.WordSteps.{node_shape, worded_node};

use crate::estimate::is_table;
use crate::settings::LayoutSettings;
use crate::trees::first_tree;
use crate::words::{WordShape, node_shape};
use html_render_layout_nodes::tree::{Entry, NodeKind, RenderNode};
use html_render_parts::table::cells::{GridCell, TableCells};
use html_render_parts::table::row_list::RowList;
use html_render_parts_widths::{ColumnNeed, Span, greatest_values};
use std::alloc::{AllocError, Global};

/// Appends the longest words of a row's cells over their columns.
fn add_row(
    spans: &mut Vec<Span>,
    cells: &[GridCell],
    shapes: &[Entry<WordShape>],
) -> Result<(), AllocError>
    requires { flatten (forest_of shapes.now) ≡ shapes.now }
    ensures { OnOk result (spans.new.items ≡ spans.old.items ++ row_words cells.now (forest_of shapes.now)) }
{
    let mut rest = shapes;
    for cell in cells {
        let Some(tree) = first_tree(rest) else {
            return Ok(());
        };
        let word = tree.node.longest_word();
        spans.push(Span {
            start: cell.first,
            count: cell.columns,
            value: word.checked_div(cell.columns).unwrap_or(0),
        })?;
        rest = tree.beside;
    }
    Ok(())
}

/// Appends the longest words of the cells of these rows.
fn add_rows(
    spans: &mut Vec<Span>,
    rows: &RowList<GridCell>,
    shapes: &[Entry<WordShape>],
) -> Result<(), AllocError>
    requires { flatten (forest_of shapes.now) ≡ shapes.now }
    ensures { OnOk result (spans.new.items ≡ spans.old.items ++ cell_words rows.now (forest_of shapes.now)) }
{
    let mut rest = shapes;
    for at in 0..rows.len() {
        let Some(row) = first_tree(rest) else {
            return Ok(());
        };
        add_row(spans, rows.row(at), row.below)?;
        rest = row.beside;
    }
    Ok(())
}

/// Returns the longest words of a table's cells over their columns, row by row, by the shapes of its rows.
fn cell_words(
    alloc: Global,
    grid: &TableCells,
    rows: &[Entry<WordShape>],
) -> Result<Vec<Span>, AllocError>
    requires { flatten (forest_of rows.now) ≡ rows.now }
    ensures ok { IfOk result (λ spans. spans.items ≡ cell_words grid.now.rows (forest_of rows.now)) }
    ensures over { IfOk result (λ spans. AreOver (columns_of grid.now) spans.items) }
{
    let mut spans = Vec::new(alloc);
    add_rows(&mut spans, grid.rows(), rows)?;
    Ok(spans)
}

/// Returns the longest word of each column of a table, by the shapes of its rows.
fn column_words(
    alloc: Global,
    grid: &TableCells,
    rows: &[Entry<WordShape>],
) -> Result<Vec<usize>, AllocError>
    requires { flatten (forest_of rows.now) ≡ rows.now }
    ensures { IfOk result (λ words. words.items ≡ column_words grid.now (forest_of rows.now)) }
{
    let spans = cell_words(alloc, grid, rows)?;
    greatest_values(alloc, grid.columns(), spans.as_slice())
}

/// Returns needs of columns with these longest words.
fn with_longest(
    alloc: Global,
    needs: &[ColumnNeed],
    words: &[usize],
) -> Result<Vec<ColumnNeed>, AllocError>
    ensures { IfOk result (λ all. all.items ≡ with_longest needs.now words.now) }
{
    let mut all = Vec::with_capacity(alloc, needs.len())?;
    for (at, need) in needs.iter().enumerate() {
        let longest_word = if at < words.len() {
            words[at]
        } else {
            need.longest_word
        };
        all.push(ColumnNeed {
            preferred_width: need.preferred_width,
            min_width: need.min_width,
            longest_word,
        })?;
    }
    Ok(all)
}

/// Sets the longest word of each column of a node, if it is a table.
fn set_words(
    alloc: Global,
    kind: &mut NodeKind,
    below: &[Entry<WordShape>],
) -> Result<(), AllocError>
    requires { flatten (forest_of below.now) ≡ below.now }
    ensures { OnOk result (kind.new ≡ worded_kind kind.old (forest_of below.now)) }
{
    if let NodeKind::Table(grid) = kind {
        let words = column_words(alloc, grid.cells(), below)?;
        let needs = with_longest(alloc, grid.needs(), words.as_slice())?;
        grid.set_needs(needs);
    }
    Ok(())
}

/// Sets the longest words of a node's columns. Returns its shape over those of its children.
fn add_node_words(
    alloc: Global,
    settings: &LayoutSettings,
    node: &mut RenderNode,
    below: &[Entry<WordShape>],
) -> Result<WordShape, AllocError>
    requires { flatten (forest_of below.now) ≡ below.now }
    ensures node { OnOk result (node.new ≡ worded_node node.old (forest_of below.now)) }
    ensures shape { IfOk result (λ s. s ≡ node_shape settings.now (worded_node node.old (forest_of below.now)) (forest_of below.now)) }
{
    set_words(alloc, &mut node.kind, below)?;
    Ok(node_shape(settings, node, below))
}

/// Returns `count` entries, to be overwritten.
fn unknown_shapes(alloc: Global, count: usize) -> Result<Vec<Entry<WordShape>>, AllocError>
    ensures { IfOk result (λ shapes. length shapes.items ≡ count) }
{
    let mut shapes = Vec::with_capacity(alloc, count)?;
    for _ in 0..count {
        shapes.push(Entry {
            node: WordShape::Part(0),
            subtree_len: 1,
        })?;
    }
    Ok(shapes)
}

/// Sets the entry at `at`.
fn set_shape(shapes: &mut Vec<Entry<WordShape>>, at: usize, shape: WordShape, subtree_len: usize)
    requires { at < length shapes.old.items }
    ensures { shapes.new.items ≡ slice_set shapes.old.items at (record { node = shape; subtree_len = subtree_len }) }
{
    shapes[at] = Entry {
        node: shape,
        subtree_len,
    };
}

/// Sets the longest words of the columns of each table in a tree, from the last node to the first.
///
/// The shape of each node is kept beside the nodes, for the node around it.
fn add_tree_words(
    alloc: Global,
    settings: &LayoutSettings,
    tree: &mut [Entry<RenderNode>],
) -> Result<(), AllocError>
    requires { flatten (forest_of tree.old) ≡ tree.old }
    ensures { OnOk result (tree.new ≡ flatten (worded settings.now (forest_of tree.old))) }
{
    let mut at = tree.len();
    let mut shapes = unknown_shapes(alloc, at)?;
    while at > 0 {
        at -= 1;
        let subtree_len = tree[at].subtree_len;
        let all = shapes.as_slice();
        let below = &all[at + 1..at + subtree_len];
        let shape = add_node_words(alloc, settings, &mut tree[at].node, below)?;
        set_shape(&mut shapes, at, shape, subtree_len);
    }
    Ok(())
}

/// Sets the longest words of the columns of each table.
///
/// Computes shapes only inside tables: a table inside no other table gets its words together with all nodes below it.
pub fn add_words(
    alloc: Global,
    settings: &LayoutSettings,
    entries: &mut Vec<Entry<RenderNode>>,
) -> Result<(), AllocError>
    requires { flatten (forest_of entries.old.items) ≡ entries.old.items }
    ensures { OnOk result (entries.new.items ≡ flatten (worded settings.now (forest_of entries.old.items))) }
{
    let nodes = entries.as_mut_slice();
    let mut at = 0;
    while at < nodes.len() {
        let entry = &nodes[at];
        if is_table(&entry.node.kind) {
            let end = at + entry.subtree_len;
            add_tree_words(alloc, settings, &mut nodes[at..end])?;
            at = end;
        } else {
            at += 1;
        }
    }
    Ok(())
}
