//! The walk over a tree: a node is opened before its children are visited, and closed after them. Most texts, and most cells
//! of one text, are laid out at once.

ghost use Rattle.std.specs.Prelude.{◌≡◌, Some, MatchBool, OnOk, IfOk, IfErr, option_copied};
ghost use Rattle.html_render_dom_values.specs.Outcome.{Gives, Refuses};
ghost use Rattle.html_render_layout_nodes.specs.Counts.{CountsNodes};
ghost use Rattle.html_render_layout_nodes.specs.Visits.{Past, run, way, pair_at, RefusesPair};
ghost use Rattle.html_render_layout_nodes.specs.Preorder.{flatten, forest_of};
ghost use Rattle.html_render_layout.specs.Opening.{walk_visits, walk_opened, walk_closed};
ghost use Rattle.html_render_layout.specs.Working.{by_tags};

use super::{steps, text_cells};
use crate::tagging::Tagging;
use crate::working::{Kept, State};
use html_render_dom_values::Error;
use html_render_layout_nodes::frames::{Frame, innermost, pop_over};
use html_render_layout_nodes::tree::{Entry, PreorderForest, RenderNode};
use html_render_parts::decorate::TextDecorator;
use html_render_parts_widths::Meter;
use std::alloc::Global;

/// Opens a node by its kind and its style.
#[inline(always)]
#[tactic(auto, unfolding(crate::specs::Opening::walk_opened))]
fn open<D: TextDecorator, G: Tagging<D::Annotation>>(
    alloc: Global,
    node: &RenderNode,
    children: &[Entry<RenderNode>],
    parent: Option<&Kept<D, G>>,
    number: usize,
    state: &mut State<D, G>,
) -> Result<Option<Kept<D, G>>, Error>
    requires { flatten (forest_of children.now) ≡ children.now }
    ensures ok { IfOk result (λ kept. walk_opened (by_tags D.decoration G.annotated) (option_copied parent.entry) number node.now (forest_of children.now) state.old
        ≡ Some (way state.new kept)) }
    ensures err { IfErr result (λ e. Refuses e (walk_opened (by_tags D.decoration G.annotated) (option_copied parent.entry) number node.now (forest_of children.now) state.old)) }
{
    steps::open(alloc, node, children, parent, number, state)
}

/// Lays out a node at once if it is a cell of one text, as [`text_cells::visit_pair`] does. Otherwise returns `false`, without a
/// change of the state.
#[inline(always)]
#[tactic(auto, unfolding(crate::specs::Opening::walk_opened, crate::specs::Opening::walk_closed))]
fn visit_pair<D: TextDecorator, G: Tagging<D::Annotation>>(
    node: &RenderNode,
    children: &[Entry<RenderNode>],
    parent: Option<&Kept<D, G>>,
    number: usize,
    state: &mut State<D, G>,
) -> Result<bool, Error>
    requires { flatten (forest_of children.now) ≡ children.now }
    ensures ok { IfOk result (λ found. MatchBool found
        (pair_at (walk_opened (by_tags D.decoration G.annotated)) (walk_closed (by_tags D.decoration G.annotated))
        (option_copied parent.entry) number node.now (forest_of children.now) state.old ≡ Some (Some state.new))
        (state.new ≡ state.old)) }
    ensures err { IfErr result (λ e. RefusesPair e (pair_at (walk_opened (by_tags D.decoration G.annotated)) (walk_closed (by_tags D.decoration G.annotated))
        (option_copied parent.entry) number node.now (forest_of children.now) state.old)) }
{
    text_cells::visit_pair(node, children, parent, number, state)
}

/// Lays out a node at once if it is a text outside of lists and rows. Otherwise returns `false`, without a change of the state.
#[inline(always)]
#[tactic(auto, unfolding(crate::specs::Opening::walk_opened))]
fn visit_text<D: TextDecorator, G: Tagging<D::Annotation>>(
    alloc: Global,
    node: &RenderNode,
    children: &[Entry<RenderNode>],
    parent: Option<&Kept<D, G>>,
    number: usize,
    state: &mut State<D, G>,
) -> Result<bool, Error>
    ensures ok { IfOk result (λ found. MatchBool found
        (walk_opened (by_tags D.decoration G.annotated) (option_copied parent.entry) number node.now (forest_of children.now) state.old ≡ Some (Past state.new))
        (state.new ≡ state.old)) }
    ensures err { IfErr result (λ e. Refuses e (walk_opened (by_tags D.decoration G.annotated) (option_copied parent.entry) number node.now (forest_of children.now) state.old)) }
{
    steps::visit_text(alloc, node, children, parent, number, state)
}

/// Closes a node.
#[inline(always)]
#[tactic(auto, unfolding(crate::specs::Opening::walk_closed))]
fn close<D: TextDecorator, G: Tagging<D::Annotation>>(
    alloc: Global,
    kept: Kept<D, G>,
    state: &mut State<D, G>,
) -> Result<(), Error>
    ensures { Gives result (walk_closed (by_tags D.decoration G.annotated) kept state.old) state.new }
{
    steps::close(alloc, kept, state)
}

/// Lays out a tree from a state, from the first node to the last, with a stack of the open nodes.
///
/// Nodes below a node whose children aren't visited are skipped. The meter's `entered`, `left` and `frames` are set, counted
/// from 0, also on an error. A cell that is laid out at once counts as open, though it isn't pushed on the stack. `probes` is
/// unchanged.
///
/// # Errors
///
/// Those of [`steps::open`] and [`steps::close`].
pub fn walk_tree<D: TextDecorator, G: Tagging<D::Annotation>>(
    alloc: Global,
    tree: &PreorderForest<RenderNode>,
    state: &mut State<D, G>,
    meter: &mut Meter,
) -> Result<(), Error>
    ensures ok { OnOk result (run (walk_visits (by_tags D.decoration G.annotated)) tree.now state.old ≡ Some state.new) }
    ensures err { IfErr result (λ e. Refuses e (run (walk_visits (by_tags D.decoration G.annotated)) tree.now state.old)) }

    // exact counts of a finished walk, bounds after an error
    ensures counts { CountsNodes result (walk_visits (by_tags D.decoration G.annotated)) tree.now state.old meter.old meter.new }
{
    meter.entered = 0;
    meter.left = 0;
    meter.frames = 0;
    let entries = tree.entries();
    let mut frames: Vec<Frame<Kept<D, G>>> = Vec::new(alloc);
    let mut next = 0;
    let mut number = 0;
    'walk: loop {
        match pop_over(&mut frames, next) {
            Some(frame) => {
                number = frame.next;
                close::<D, G>(alloc, frame.kept, state)?;
                meter.left += 1;
            }
            None => {
                if next == entries.len() {
                    return Ok(());
                }
                let entry = &entries[next];
                let end = next + entry.subtree_len;
                let children = &entries[next + 1..end];
                let parent = innermost(&frames);
                if visit_text::<D, G>(alloc, &entry.node, children, parent, number, state)? {
                    meter.entered += 1;
                    meter.left += 1;
                    next = end;
                    number += 1;
                    continue 'walk;
                }
                if visit_pair::<D, G>(&entry.node, children, parent, number, state)? {
                    meter.entered += entry.subtree_len;
                    meter.left += entry.subtree_len;
                    meter.frames = meter.frames.max(frames.len() + 1);
                    next = end;
                    number += 1;
                    continue 'walk;
                }
                match open::<D, G>(alloc, &entry.node, children, parent, number, state)? {
                    Some(kept) => {
                        let beside = number + 1;
                        frames.push(Frame {
                            end,
                            next: beside,
                            kept,
                        })?;
                        meter.entered += 1;
                        meter.frames = meter.frames.max(frames.len());
                        next += 1;
                        number = 0;
                    }
                    None => {
                        meter.entered += 1;
                        meter.left += 1;
                        next = end;
                        number += 1;
                    }
                }
            }
        }
    }
}
