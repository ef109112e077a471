//! Layout of a render tree into lines.
//!
//! `lay_out(alloc, &decorator, tree, block, &settings, &mut meter)?` returns the lines of the tree, wrapped to the columns
//! of a block.

ghost use Rattle.std.specs.Prelude.{◌≡◌, ◌≢◌, ◌<◌, Some, true, Err, OnOk, IfOk, IfErr};
ghost use Rattle.html_render_dom_values.specs.Outcome.{OnlyOutOfMemory, Refuses};
ghost use Rattle.html_render_layout_blocks.specs.Block.{empty_block};
ghost use Rattle.html_render_layout_blocks.specs.Ends.{ended_by};
ghost use Rattle.html_render_layout_blocks.specs.Machine as machine;
ghost use Rattle.html_render_layout_blocks.specs.Machine.{machine};
ghost use Rattle.html_render_layout_nodes.specs.Counts.{CountsNodes};
ghost use Rattle.html_render_layout_estimates.specs.Passes.{with_needed_sizes};
ghost use Rattle.html_render_layout.specs.Layout.{by_stacks, layout_of, shown_after, empty_state};
ghost use Rattle.html_render_layout.specs.Layout.{estimated, layout_lines, mark_names, unannotated};
ghost use Rattle.html_render_layout.specs.Promises.{AreLines, Lines, HasLines, LeavesTexts};
ghost use Rattle.html_render_layout.specs.Working.{begin_with, padding, by_tags, tabled, work_lines, work_names, untagged_work};
ghost use Rattle.html_render_layout_tagged.specs.LaidOut.{laid_out};

use crate::state::{LayoutState, TextContext};
use crate::tagging::{Tagging, Untagged};
use crate::working::State;
use html_render_dom_values::Error;
use html_render_dom_values::white_space::WhiteSpace;
use html_render_layout_blocks::block::{Block, BlockSetting};
use html_render_layout_blocks::held::CurrentBlock;
use html_render_layout_buffer::finished::FinishedLines;
use html_render_layout_estimates::estimate::measure;
use html_render_layout_estimates::settings::LayoutSettings;
use html_render_layout_lines::tag::Tag;
use html_render_layout_nodes::tree::{PreorderForest, RenderNode, RenderTree};
use html_render_layout_tagged::laid_out::{LaidOut, TextList};
use html_render_layout_tagged::stacks::Stacks;
use html_render_parts::decorate::TextDecorator;
use html_render_parts_widths::Meter;
use std::alloc::Global;
use tree::walk_tree;

mod emphasis;
mod ending;
mod images;
mod links;
mod steps;
mod superscripts;
mod tables;
mod text_cells;
mod texts;
mod tree;

/// Returns the state in which a layout begins.
fn begin_with<D: TextDecorator, G: Tagging<D::Annotation>>(
    alloc: Global,
    settings: LayoutSettings,
    decorator: D,
    stacks: G,
    tag: G::Tag,
    block: CurrentBlock<G::Tag, usize>,
) -> State<D, G>
    ensures { result ≡ begin_with settings decorator stacks tag block }
{
    LayoutState {
        settings,
        decorator,
        stacks,
        text: TextContext {
            tag,
            mode: WhiteSpace::Normal,
            preformatted: false,
            struck_out: false,
        },
        block,
        blank: tag,
        in_table: false,
        targets: TextList::new(alloc),
        names: TextList::new(alloc),
    }
}

/// Lays out a tree, and closes the document under the tag of its first texts.
#[tactic(auto, using(html_render_dom_values::specs::laws::Outcome::refusals), unfolding(crate::specs::Opening::walk_visits))]
fn lay_out_into<D: TextDecorator, G: Tagging<D::Annotation>>(
    alloc: Global,
    tree: &PreorderForest<RenderNode>,
    state: &mut State<D, G>,
    meter: &mut Meter,
) -> Result<(), Error>
    ensures ok { OnOk result (shown_after (by_tags D.decoration G.annotated) (ended_by machine.ending) (λ r. r) tree.now state.old ≡ Some state.new) }
    ensures err { IfErr result (λ e. Refuses e
        (shown_after (by_tags D.decoration G.annotated) (ended_by machine.ending) (λ r. r) tree.now state.old)) }
    ensures counts { CountsNodes result (layout_of (by_tags D.decoration G.annotated))
        tree.now state.old meter.old meter.new }
{
    let tag = state.text.tag;
    let link_footnotes = state.settings.link_footnotes;
    let wrap_links = state.settings.wrap_links;
    walk_tree(alloc, tree, state, meter)?;
    ending::end(alloc, link_footnotes, wrap_links, tag, state)
}

/// Returns the state after a tree is laid out and the document is closed.
fn laid_out_from<D: TextDecorator, G: Tagging<D::Annotation>>(
    alloc: Global,
    tree: &PreorderForest<RenderNode>,
    state: State<D, G>,
    meter: &mut Meter,
) -> Result<State<D, G>, Error>
    ensures ok { IfOk result (λ after.
        shown_after (by_tags D.decoration G.annotated) (ended_by machine.ending) (λ r. r) tree.now state ≡ Some after) }
    ensures err { IfErr result (λ e. Refuses e
        (shown_after (by_tags D.decoration G.annotated) (ended_by machine.ending) (λ r. r) tree.now state)) }
    ensures counts { CountsNodes result (layout_of (by_tags D.decoration G.annotated))
        tree.now state meter.old meter.new }
{
    let mut state = state;
    lay_out_into(alloc, tree, &mut state, meter)?;
    Ok(state)
}

/// Returns the lines of a tree from a state, with the annotation stacks of their tags and the names of their marks.
fn lines_from<D: TextDecorator>(
    alloc: Global,
    tree: &PreorderForest<RenderNode>,
    state: LayoutState<D, Stacks<D::Annotation>, usize, CurrentBlock<usize, usize>>,
    meter: &mut Meter,
) -> Result<LaidOut<D::Annotation>, Error>
    ensures ok { IfOk result (λ lines. work_lines D.decoration tree.now state ≡ Some (laid_out lines)) }
    ensures names { IfOk result (λ lines. work_names D.decoration tree.now state ≡ Some lines.names) }
    ensures err { IfErr result (λ e. Refuses e (work_lines D.decoration tree.now state)) }
    ensures counts { CountsNodes result (layout_of (by_tags D.decoration tabled))
        tree.now state meter.old meter.new }
{
    let mut state = laid_out_from(alloc, tree, state, meter)?;
    Ok(LaidOut {
        lines: state.block.take_lines(),
        stacks: state.stacks,
        names: state.names,
    })
}

/// Settings, decorator and measured tree, owned by a layout.
#[derive(Drop)]
struct Prepared<D> {
    settings: LayoutSettings,
    /// Decorator of the document's block.
    decorator: D,
    /// Tree with the estimate of each node, whose prefixes are those of a sub-block of the document's block. Without a table
    /// in the tree, preferred widths are left out.
    tree: PreorderForest<RenderNode>,
}

/// Copies the settings, makes the decorator of the document's block, and measures the tree.
fn prepare<D: TextDecorator>(
    alloc: Global,
    decorator: &D,
    settings: &LayoutSettings,
    tree: RenderTree,
) -> Result<Prepared<D>, Error>
    ensures settings { IfOk result (λ own. own.settings ≡ settings.now) }
    ensures decorator { IfOk result (λ own. own.decorator ≡ D.decoration.subblock decorator.now) }
    ensures tree { IfOk result (λ own. own.tree ≡ with_needed_sizes (estimated D.decoration settings.now decorator.now tree)) }
    ensures err { OnlyOutOfMemory result }
{
    let inner = decorator.make_subblock_decorator(alloc)?;
    let innermost = inner.make_subblock_decorator(alloc)?;
    Ok(Prepared {
        settings: settings.try_clone(alloc)?,
        decorator: inner,
        tree: measure(alloc, &innermost, settings, tree.into_nodes())?,
    })
}

/// Returns the tag of padding spaces; `None` without padding.
fn padding<T: Tag>(settings: &LayoutSettings, tag: T) -> Option<T>
    ensures { result ≡ padding settings.now tag }
{
    if settings.pad_block_width {
        Some(tag)
    } else {
        None
    }
}

/// Number of bytes of text for which memory is reserved for each node of a tree: those of a short line and part of its borders.
const NODE_BYTES: usize = 64;

/// Maximum number of nodes for whose lines memory is reserved in a document without a table. Its open nodes, of which a deep
/// document has many, need the memory too.
const NODES_MAX: usize = 32_768;

/// Returns the number of nodes for whose lines memory is reserved: at most [`NODES_MAX`], and all if a measured tree has a
/// table.
fn reserved_nodes(tree: &PreorderForest<RenderNode>) -> usize {
    let entries = tree.entries();
    match entries.first() {
        // without a table, no preferred width is measured
        Some(entry) if entry.node.estimate.preferred_width > 0 => entries.len(),
        _ => entries.len().min(NODES_MAX),
    }
}

/// Returns the empty block of a document, under the tag without annotations. Reserves memory for the lines of `nodes` nodes, a line
/// for each, so that the memory of many lines isn't copied as it grows.
fn document_block<T: Tag>(
    alloc: Global,
    setting: BlockSetting,
    padding: Option<T>,
    tag: T,
    nodes: usize,
) -> Result<CurrentBlock<T, usize>, Error>
    ensures ok { IfOk result (λ held. held ≡ empty_block machine setting padding) }
    ensures err { OnlyOutOfMemory result }
{
    let mut block = Block::new(alloc, setting, padding);
    block.reserve(nodes.saturating_mul(NODE_BYTES), nodes)?;
    CurrentBlock::new(alloc, block, tag)
}

/// Lays out a tree in a block. Returns its lines with their annotation stacks and the names of their marks.
///
/// The decorator of the document's block is the one that `decorator` returns for a sub-block. The document's closing lines
/// follow: a footnote with the number and the target of each link, if `settings.link_footnotes` is set, and then what the
/// decorator returns for all targets. If `settings.wrap_links` is set, they are cut at the width of the block.
///
/// With `block.overflow`, a character or a prefix without room passes the width. The meter's `entered`, `left` and `frames`
/// count from 0, also on an error; `probes` isn't changed.
///
/// # Errors
///
/// `TooNarrow` at width 0. With overflow off, also if a character is wider than a line, a prefix leaves too few columns, or
/// a line with its prefix is wider than its block. `OutOfMemory`.
#[tactic(auto, using(crate::specs::laws::Promises::lines_there, crate::specs::laws::Promises::texts_left))]
pub fn lay_out<D: TextDecorator>(
    alloc: Global,
    decorator: &D,
    tree: RenderTree,
    block: BlockSetting,
    settings: &LayoutSettings,
    meter: &mut Meter,
) -> Result<LaidOut<D::Annotation>, Error>
    // the lines are the definition's, with all promises; the result is `TooNarrow` exactly if there are none, unless memory
    // runs out
    ensures ok { IfOk result (λ lines. AreLines D.decoration settings.now tree decorator.now block (laid_out lines)) }
    ensures names { IfOk result (λ lines. mark_names D.decoration settings.now tree decorator.now block ≡ Some lines.names) }
    ensures err { IfErr result (λ e. Refuses e (layout_lines D.decoration settings.now tree decorator.now block)) }

    // with overflow on, only width 0 is too narrow, and it is refused before anything is allocated
    ensures never_too_narrow { 0 < block.width → block.overflow ≡ true → result ≢ Err Error.TooNarrow }
    ensures no_width { block.width ≡ 0 → result ≡ Err Error.TooNarrow }

    // laws of every tree: with overflow on there are lines, and after a tree texts are treated as before it
    ensures always_renders { HasLines D.decoration settings.now tree decorator.now block }
    ensures restores_context { LeavesTexts D.decoration }

    // counts of visited nodes and of nodes open at once, exact with lines and at most these without
    ensures counts { CountsNodes result (layout_of (by_stacks D.decoration))
        (estimated D.decoration settings.now decorator.now tree) (empty_state D.decoration settings.now decorator.now block) meter.old meter.new }
{
    meter.entered = 0;
    meter.left = 0;
    meter.frames = 0;
    if block.width == 0 {
        return Err(Error::TooNarrow);
    }
    let own = prepare(alloc, decorator, settings, tree)?;
    let nodes = reserved_nodes(&own.tree);
    let block = document_block(alloc, block, padding(settings, 0), 0, nodes)?;
    let state = begin_with(
        alloc,
        own.settings,
        own.decorator,
        Stacks::new(alloc),
        0,
        block,
    );
    lines_from(alloc, &own.tree, state, meter)
}

/// Returns the lines of a tree from a state without annotations.
fn untagged_lines_from<D: TextDecorator>(
    alloc: Global,
    tree: &PreorderForest<RenderNode>,
    state: LayoutState<D, Untagged, (), CurrentBlock<(), usize>>,
) -> Result<FinishedLines<(), usize>, Error>
    ensures ok { IfOk result (λ lines. untagged_work D.decoration tree.now state ≡ Some lines) }
    ensures err { IfErr result (λ e. Refuses e (untagged_work D.decoration tree.now state)) }
{
    let mut meter = Meter::default();
    let mut state = laid_out_from(alloc, tree, state, &mut meter)?;
    Ok(state.block.take_lines())
}

/// Lays out a tree in a block without storing annotations. Returns the lines of [`lay_out`] without their annotations.
///
/// # Errors
///
/// `TooNarrow` at width 0. With overflow off, also if a character is wider than a line, a prefix leaves too few columns, or
/// a line with its prefix is wider than its block. `OutOfMemory`.
#[tactic(auto, using(crate::specs::laws::Promises::lines_there, crate::specs::laws::Promises::texts_left))]
pub fn lay_out_untagged<D: TextDecorator>(
    alloc: Global,
    decorator: &D,
    tree: RenderTree,
    block: BlockSetting,
    settings: &LayoutSettings,
) -> Result<FinishedLines<(), usize>, Error>
    // the lines are the definition's without annotations; the clauses are those of `lay_out` without a meter
    ensures ok { IfOk result (λ answer. Lines D.decoration settings.now tree decorator.now block (λ lines. answer ≡ unannotated lines)) }
    ensures err { IfErr result (λ e. Refuses e (layout_lines D.decoration settings.now tree decorator.now block)) }
    ensures never_too_narrow { 0 < block.width → block.overflow ≡ true → result ≢ Err Error.TooNarrow }
    ensures no_width { block.width ≡ 0 → result ≡ Err Error.TooNarrow }
    ensures always_renders { HasLines D.decoration settings.now tree decorator.now block }
    ensures restores_context { LeavesTexts D.decoration }
{
    if block.width == 0 {
        return Err(Error::TooNarrow);
    }
    let own = prepare(alloc, decorator, settings, tree)?;
    let nodes = reserved_nodes(&own.tree);
    let block = document_block(alloc, block, padding(settings, ()), (), nodes)?;
    let state = begin_with(alloc, own.settings, own.decorator, Untagged, (), block);
    untagged_lines_from(alloc, &own.tree, state)
}
