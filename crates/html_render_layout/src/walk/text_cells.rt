//! Cells of one text, neither of which has a style. Such a cell is laid out at once, and its block doesn't become the
//! current one.
#![tactic(auto, using(html_render_dom_values::specs::laws::Outcome::refusals))]

ghost use Rattle.std.specs.Prelude.{◌≡◌, Some, IfOk, IfErr, IfSome, MatchBool, option_copied};
ghost use Rattle.std.specs.Bool.{OnTrue};
ghost use Rattle.html_render_dom_values.specs.Forest as forest;
ghost use Rattle.html_render_dom_values.specs.Outcome.{Gives};
ghost use Rattle.html_render_layout_nodes.specs.Preorder.{flatten, forest_of};
ghost use Rattle.html_render_layout_nodes.specs.Visits.{pair_at, RefusesPair};
ghost use Rattle.html_render_layout.specs.Opening.{opened, closed};
ghost use Rattle.html_render_layout.specs.TextCells.{IsTextCell, IsRow, IsOrdinary, cell_put};
ghost use Rattle.html_render_layout.specs.Working.{by_tags};

use super::tables::next_cell;
use crate::items::is_plain;
use crate::state::{CloseAction, TextContext};
use crate::tagging::Tagging;
use crate::working::{Kept, State};
use html_render_dom_values::Error;
use html_render_layout_blocks::held::BoxedBlock;
use html_render_layout_lines::character::TextStyle;
use html_render_layout_nodes::tree::{Entry, NodeKind, RenderNode};
use html_render_parts::decorate::TextDecorator;

/// Returns the only one of these nodes, if they are one tree of one node.
#[inline(always)]
fn only_node(nodes: &[Entry<RenderNode>]) -> Option<&RenderNode>
    requires { flatten (forest_of nodes.now) ≡ nodes.now }
    ensures { IfSome result (λ only. forest_of nodes.now ≡ forest.node only.now forest.none forest.none) }
{
    if nodes.len() == 1 {
        Some(&nodes[0].node)
    } else {
        None
    }
}

/// Returns the text of a cell of one text, if neither of them has a style.
#[inline(always)]
fn text_of_cell<'a>(node: &RenderNode, children: &'a [Entry<RenderNode>]) -> Option<&'a str>
    requires { flatten (forest_of children.now) ≡ children.now }
    ensures { IfSome result (λ text. IsTextCell node.now (forest_of children.now) text.now) }
{
    let NodeKind::TableCell = &node.kind else {
        return None;
    };
    let child = only_node(children)?;
    let NodeKind::Text(text) = &child.kind else {
        return None;
    };
    if is_plain(&node.style) && is_plain(&child.style) {
        Some(text.as_str())
    } else {
        None
    }
}

/// Reports whether texts are neither preformatted nor struck out.
#[inline(always)]
fn is_ordinary<T: Copy>(text: &TextContext<T>) -> bool
    ensures { OnTrue result (IsOrdinary text.now) }
{
    !text.preformatted && !text.struck_out
}

/// Reports whether the open node with this pending work is a row.
#[inline(always)]
fn is_row<D: TextDecorator, G: Tagging<D::Annotation>>(parent: Option<&Kept<D, G>>) -> bool
    ensures { OnTrue result (IsRow (option_copied parent.entry)) }
{
    let Some(parent) = parent else {
        return false;
    };
    match parent.kind {
        CloseAction::EndRow => true,
        _ => false,
    }
}

/// Adds an ordinary text to a block, and the block to the open row as the next cell.
#[inline(always)]
fn put_text_cell<D: TextDecorator, G: Tagging<D::Annotation>>(
    cell: BoxedBlock<G::Tag, usize>,
    text: &str,
    state: &mut State<D, G>,
) -> Result<(), Error>
    ensures { Gives result (cell_put (by_tags D.decoration G.annotated) cell text.now state.old) state.new }
{
    let style = TextStyle {
        mode: state.text.mode,
        tag: state.text.tag,
        continuation_tag: state.text.tag,
    };
    state.block.add_text_cell(cell, text, style)
}

/// Lays out a cell of one text at once. Returns `false`, without a change of the state, if it is skipped.
#[inline(always)]
#[tactic(auto, using(crate::proofs::TextCells::pair_memory))]
fn add_text_cell<D: TextDecorator, G: Tagging<D::Annotation>>(
    text: &str,
    node: &RenderNode,
    children: &[Entry<RenderNode>],
    parent: Option<&Kept<D, G>>,
    number: usize,
    state: &mut State<D, G>,
) -> Result<bool, Error>
    requires row { IsRow (option_copied parent) }
    requires is { IsTextCell node.now (forest_of children.now) text.now }
    requires ordinary { IsOrdinary state.old.text }
    ensures ok { IfOk result (λ found. MatchBool found
        (pair_at (opened (by_tags D.decoration G.annotated)) (closed (by_tags D.decoration G.annotated))
        (option_copied parent.entry) number node.now (forest_of children.now) state.old ≡ Some (Some state.new))
        (state.new ≡ state.old)) }
    ensures err { IfErr result (λ e. RefusesPair e (pair_at (opened (by_tags D.decoration G.annotated)) (closed (by_tags D.decoration G.annotated))
        (option_copied parent.entry) number node.now (forest_of children.now) state.old)) }
{
    let next = next_cell(state)?;
    let Some(cell) = next else {
        return Ok(false);
    };
    put_text_cell(cell, text, state)?;
    Ok(true)
}

/// Lays out a cell of one text at once, if neither of them has a style and texts are neither preformatted nor struck out.
/// Otherwise, or if the cell is skipped, returns `false`, without a change of the state.
///
/// # Errors
///
/// Those of [`open`](super::steps::open) and [`close`](super::steps::close).
#[inline(always)]
pub fn visit_pair<D: TextDecorator, G: Tagging<D::Annotation>>(
    node: &RenderNode,
    children: &[Entry<RenderNode>],
    parent: Option<&Kept<D, G>>,
    number: usize,
    state: &mut State<D, G>,
) -> Result<bool, Error>
    requires { flatten (forest_of children.now) ≡ children.now }
    ensures ok { IfOk result (λ found. MatchBool found
        (pair_at (opened (by_tags D.decoration G.annotated)) (closed (by_tags D.decoration G.annotated))
        (option_copied parent.entry) number node.now (forest_of children.now) state.old ≡ Some (Some state.new))
        (state.new ≡ state.old)) }
    ensures err { IfErr result (λ e. RefusesPair e (pair_at (opened (by_tags D.decoration G.annotated)) (closed (by_tags D.decoration G.annotated))
        (option_copied parent.entry) number node.now (forest_of children.now) state.old)) }
{
    let Some(text) = text_of_cell(node, children) else {
        return Ok(false);
    };
    if !is_row::<D, G>(parent) {
        return Ok(false);
    }
    if !is_ordinary(&state.text) {
        return Ok(false);
    }
    add_text_cell(text, node, children, parent, number, state)
}
