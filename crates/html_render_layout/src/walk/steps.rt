//! Opening and closing of nodes, kind by kind.
#![tactic(auto, using(html_render_dom_values::specs::laws::Outcome::refusals))]

ghost use Rattle.std.specs.Prelude.{◌≡◌, ◌+◌, ◌-◌, ◌++◌, ◌∷◌, [], length, true, Some, OnOk, IfOk, IfErr, MatchBool, option_copied};
ghost use Rattle.std.specs.Option.{option_map_or};
ghost use Rattle.html_render_dom_values.specs.Outcome.{Gives, OnlyOutOfMemory, Refuses};
ghost use Rattle.html_render_layout_blocks.specs.Machine as machine;
ghost use Rattle.html_render_layout_nodes.specs.Visits.{Past, way};
ghost use Rattle.html_render_layout_nodes.specs.Preorder.{flatten, forest_of};
ghost use Rattle.html_render_parts.specs.Decoration.{link};
ghost use Rattle.html_render_layout_estimates.specs.Estimates.{number_columns};
ghost use Rattle.html_render_layout.specs.Layout.{AddTarget, BeginTable, Fence, NewLine, StartBlock, Strike, block_of, perform_all};
ghost use Rattle.html_render_layout.specs.Layout.{start};
ghost use Rattle.html_render_layout.specs.Opening.{child_block, children_share, block_entered, continued};
ghost use Rattle.html_render_layout.specs.Opening.{kind_opened, kind_closed, opened_in, text_opened, cell_opened, block_opened, keeping};
ghost use Rattle.html_render_layout.specs.Opening.{opened, closed};
ghost use Rattle.html_render_layout.specs.Working.{by_tags};

use super::emphasis::{begin_emphasis, begin_strikeout, begin_superscript, end_of};
use super::images::add_image;
use super::links::{add_mark, begin_link, close_link};
use super::superscripts::{digits_of, write_superscript};
use super::tables::{begin_cell, begin_table, end_cell, end_table, next_cell};
use super::texts::add_text;
use crate::bullet::Bullet;
use crate::items::{begin_item, indent_of, is_blank};
use crate::nesting::{begin_description, begin_prefixed, close_indent, close_quote};
use crate::state::{CloseAction, OpenNode, Suspended};
use crate::styles::begin_style;
use crate::tagging::Tagging;
use crate::working::{Interrupted, Kept, KindKept, State};
use html_render_dom_values::Error;
use html_render_layout_estimates::estimate::number_columns;
use html_render_layout_nodes::tree::{
    Emphasis, Entry, Estimate, Grid, NodeKind, NodeStyle, RenderNode,
};
use html_render_parts::decorate::TextDecorator;
use std::alloc::Global;
use std::mem;

/// Returns the minimum width of a node without its prefix, in columns.
fn inner_least(estimate: &Estimate) -> usize
    ensures { result ≡ estimate.now.min_width - estimate.now.prefix }
{
    estimate.min_width.saturating_sub(estimate.prefix)
}

/// Opens an unordered list. Returns its closing action, by which its children become items. Asks the decorator for the bullet
/// once.
fn open_bullets<D: TextDecorator, G: Tagging<D::Annotation>>(
    alloc: Global,
    decorator: &D,
    estimate: &Estimate,
) -> Result<Option<KindKept<D, G>>, Error>
    ensures ok { IfOk result (λ c. c ≡ Some (CloseAction.Bullets
        (D.decoration.unordered_item_prefix decorator.now) (estimate.now.min_width - estimate.now.prefix))) }
    ensures err { OnlyOutOfMemory result }
{
    let bullet = decorator.unordered_item_prefix(alloc)?;
    Ok(Some(CloseAction::Bullets {
        bullet: Bullet::new(alloc, bullet)?,
        min_width: inner_least(estimate),
    }))
}

/// Opens an ordered list, whose first item has the number `first`. Returns its closing action, by which its children become
/// items.
fn open_numbers<D: TextDecorator, G: Tagging<D::Annotation>>(
    alloc: Global,
    decorator: &D,
    first: i64,
    estimate: &Estimate,
) -> Result<Option<KindKept<D, G>>, Error>
    ensures ok { IfOk result (λ c. c ≡ Some (CloseAction.Numbers first
        (number_columns D.decoration decorator.now first estimate.now.children) (estimate.now.min_width - estimate.now.prefix))) }
    ensures err { OnlyOutOfMemory result }
{
    let columns = number_columns(alloc, decorator, first, estimate.children)?;
    Ok(Some(CloseAction::Numbers {
        first,
        columns,
        min_width: inner_least(estimate),
    }))
}

/// Begins a term of a list of descriptions: a new line, and then emphasis.
fn begin_term<D: TextDecorator, G: Tagging<D::Annotation>>(
    alloc: Global,
    state: &mut State<D, G>,
) -> Result<(), Error>
    ensures { Gives result (perform_all (by_tags D.decoration G.annotated) state.old (NewLine ∷ start D.decoration D.decoration.em) state.old) state.new }
{
    state.block.as_mut().new_line()?;
    begin_emphasis(alloc, Emphasis::Em, state)
}

/// Begins a struck-out part. If `unicode_strikeout` is on, U+0336 then follows the characters of texts.
fn strike<D: TextDecorator, G: Tagging<D::Annotation>>(
    alloc: Global,
    state: &mut State<D, G>,
) -> Result<(), Error>
    ensures { Gives result (perform_all (by_tags D.decoration G.annotated) state.old
        (start D.decoration D.decoration.strikeout ++ Strike ∷ []) state.old) state.new }
{
    begin_strikeout(alloc, state)?;
    state.text.struck_out = state.settings.unicode_strikeout;
    Ok(())
}

/// Opens a superscript: adds one of digits whole and returns `None`, and begins any other one.
fn open_superscript<D: TextDecorator, G: Tagging<D::Annotation>>(
    alloc: Global,
    own: &Interrupted<D, G>,
    estimate: &Estimate,
    children: &[Entry<RenderNode>],
    state: &mut State<D, G>,
) -> Result<Option<KindKept<D, G>>, Error>
    requires { flatten (forest_of children.now) ≡ children.now }
    ensures ok { IfOk result (λ c. kind_opened (by_tags D.decoration G.annotated) own.now NodeKind.Superscript estimate.now (forest_of children.now) state.old
        ≡ Some (way state.new c)) }
    ensures err { IfErr result (λ e. Refuses e (kind_opened (by_tags D.decoration G.annotated) own.now NodeKind.Superscript estimate.now (forest_of children.now) state.old)) }
{
    match digits_of(children) {
        Some(digits) => {
            write_superscript(alloc, digits, state)?;
            Ok(None)
        }
        None => {
            begin_superscript(alloc, state)?;
            Ok(Some(CloseAction::EndSuperscript))
        }
    }
}

/// Opens a link. Returns its closing action.
fn open_link<D: TextDecorator, G: Tagging<D::Annotation>>(
    alloc: Global,
    target: &str,
    state: &mut State<D, G>,
) -> Result<Option<KindKept<D, G>>, Error>
    ensures ok { OnOk result (perform_all (by_tags D.decoration G.annotated) state.old
        (AddTarget target.now ∷ start D.decoration (link D.decoration target.now)) state.old ≡ Some state.new) }
    ensures kept { IfOk result (λ c. c ≡ Some (CloseAction.EndLink state.old.text (length state.old.targets + 1))) }
    ensures err { IfErr result (λ e. Refuses e (perform_all (by_tags D.decoration G.annotated) state.old
        (AddTarget target.now ∷ start D.decoration (link D.decoration target.now)) state.old)) }
{
    let text = state.text;
    begin_link(alloc, target, state)?;
    Ok(Some(CloseAction::EndLink(text, state.targets.len())))
}

/// Opens a table, where `own` is the block that it suspends. Moves that block into its closing action, which it returns.
#[inline(never)]
fn open_table<D: TextDecorator, G: Tagging<D::Annotation>>(
    own: &mut Interrupted<D, G>,
    grid: &Grid,
    state: &mut State<D, G>,
) -> Result<Option<KindKept<D, G>>, Error>
    ensures ok { OnOk result (perform_all (by_tags D.decoration G.annotated) state.old
        (StartBlock ∷ (Fence ∷ (BeginTable grid.now.cells grid.now.needs ∷ []))) state.old ≡ Some state.new) }
    ensures kept { IfOk result (λ c. c ≡ Some (CloseAction.EndTable own.old state.old.in_table)) }
    ensures err { IfErr result (λ e. Refuses e (perform_all (by_tags D.decoration G.annotated) state.old
        (StartBlock ∷ (Fence ∷ (BeginTable grid.now.cells grid.now.needs ∷ []))) state.old)) }
{
    let in_table = state.in_table;
    begin_table(grid, state)?;
    Ok(Some(CloseAction::EndTable(mem::replace(own, Suspended::NoBlock), in_table)))
}

/// Opens the next row of a table. Returns its closing action.
fn open_row<D: TextDecorator, G: Tagging<D::Annotation>>(
    state: &mut State<D, G>,
) -> Result<Option<KindKept<D, G>>, Error>
    ensures ok { OnOk result (state.new ≡ record state.old { block = machine.operations.begin_row state.old.block }) }
    ensures kept { IfOk result (λ c. c ≡ Some CloseAction.EndRow) }
    ensures err { OnlyOutOfMemory result }
{
    state.block.as_mut().begin_row()?;
    Ok(Some(CloseAction::EndRow))
}

/// Begins the sub-block of a kind of node, if it has one. Returns the block that this suspends.
///
/// Few kinds have one, so this is a function of its own.
#[inline(never)]
fn begin_sub_block<D: TextDecorator, G: Tagging<D::Annotation>>(
    alloc: Global,
    kind: &NodeKind,
    estimate: &Estimate,
    state: &mut State<D, G>,
) -> Result<Interrupted<D, G>, Error>
    ensures ok { IfOk result (λ i. block_entered (by_tags D.decoration G.annotated)
        (block_of D.decoration state.old.settings state.old.decorator kind.now estimate.now) state.old ≡ Some (state.new, i)) }
    ensures err { IfErr result (λ e. Refuses e (block_entered (by_tags D.decoration G.annotated)
        (block_of D.decoration state.old.settings state.old.decorator kind.now estimate.now) state.old)) }
{
    let min_width = inner_least(estimate);
    match kind {
        NodeKind::Header(level) => {
            let prefix = state.decorator.header_prefix(alloc, *level)?;
            begin_prefixed(alloc, prefix, min_width, state)
        }
        NodeKind::BlockQuote => {
            let prefix = state.decorator.quote_prefix(alloc)?;
            begin_prefixed(alloc, prefix, min_width, state)
        }
        NodeKind::Dd => begin_description(alloc, min_width, state),
        _ => Ok(Suspended::NoBlock),
    }
}

/// Begins the sub-block of a kind of node, if it has one. Returns the block that this suspends. Most kinds have none: they
/// take no call.
#[inline(always)]
fn begin_block<D: TextDecorator, G: Tagging<D::Annotation>>(
    alloc: Global,
    kind: &NodeKind,
    estimate: &Estimate,
    state: &mut State<D, G>,
) -> Result<Interrupted<D, G>, Error>
    ensures ok { IfOk result (λ i. block_entered (by_tags D.decoration G.annotated)
        (block_of D.decoration state.old.settings state.old.decorator kind.now estimate.now) state.old ≡ Some (state.new, i)) }
    ensures err { IfErr result (λ e. Refuses e (block_entered (by_tags D.decoration G.annotated)
        (block_of D.decoration state.old.settings state.old.decorator kind.now estimate.now) state.old)) }
{
    match kind {
        NodeKind::Header(_) | NodeKind::BlockQuote | NodeKind::Dd => {
            begin_sub_block(alloc, kind, estimate, state)
        }
        _ => Ok(Suspended::NoBlock),
    }
}

/// Opens a node of a kind in its block, where `own` is the block that this suspends. Returns its closing action, into which
/// that block is moved. Returns `None` if the node is finished: the state is then the one after it, and its children are
/// skipped.
fn open_kind<D: TextDecorator, G: Tagging<D::Annotation>>(
    alloc: Global,
    own: &mut Interrupted<D, G>,
    kind: &NodeKind,
    estimate: &Estimate,
    children: &[Entry<RenderNode>],
    state: &mut State<D, G>,
) -> Result<Option<KindKept<D, G>>, Error>
    requires { flatten (forest_of children.now) ≡ children.now }
    ensures ok { IfOk result (λ c. kind_opened (by_tags D.decoration G.annotated) own.old kind.now estimate.now (forest_of children.now)
        state.old ≡ Some (way state.new c)) }
    ensures err { IfErr result (λ e. Refuses e (kind_opened (by_tags D.decoration G.annotated) own.old kind.now estimate.now (forest_of children.now)
        state.old)) }
{
    match kind {
        NodeKind::Text(text) => {
            add_text(alloc, text.as_str(), state)?;
            Ok(None)
        }
        NodeKind::Container
        | NodeKind::Header(_)
        | NodeKind::BlockQuote
        | NodeKind::Dd
        | NodeKind::TableCell => Ok(Some(CloseAction::Nothing(mem::replace(
            own,
            Suspended::NoBlock,
        )))),
        NodeKind::Table(grid) => open_table(own, grid, state),
        NodeKind::TableRow => open_row(state),
        NodeKind::Break => {
            state.block.as_mut().new_line_hard()?;
            Ok(None)
        }
        NodeKind::Block | NodeKind::ListItem => {
            state.block.as_mut().start_block()?;
            Ok(Some(CloseAction::EndBlock))
        }
        NodeKind::Div => {
            state.block.as_mut().new_line()?;
            Ok(Some(CloseAction::NewLine))
        }
        NodeKind::Emphasis(emphasis) => {
            begin_emphasis(alloc, *emphasis, state)?;
            Ok(Some(CloseAction::EndEmphasis(*emphasis)))
        }
        NodeKind::Ul => open_bullets::<D, G>(alloc, &state.decorator, estimate),
        NodeKind::Ol(first) => open_numbers::<D, G>(alloc, &state.decorator, *first, estimate),
        NodeKind::Dl => {
            state.block.as_mut().start_block()?;
            Ok(Some(CloseAction::Nothing(mem::replace(own, Suspended::NoBlock))))
        }
        NodeKind::Dt => {
            begin_term(alloc, state)?;
            Ok(Some(CloseAction::EndEmphasis(Emphasis::Em)))
        }
        NodeKind::Strikeout => {
            let before = state.text.struck_out;
            strike(alloc, state)?;
            Ok(Some(CloseAction::EndStrikeout(before)))
        }
        NodeKind::Superscript => open_superscript(alloc, own, estimate, children, state),
        NodeKind::Link(target) => open_link(alloc, target.as_str(), state),
        NodeKind::Image(image) => {
            add_image(
                alloc,
                image.source().as_str(),
                image.title().as_str(),
                state,
            )?;
            Ok(None)
        }
        NodeKind::Svg(title) => {
            add_image(alloc, "", title.as_str(), state)?;
            Ok(None)
        }
        NodeKind::FragmentStart(name) => {
            add_mark(name.as_str(), state)?;
            Ok(None)
        }
    }
}

/// Resumes a suspended block, if there is one.
#[inline(always)]
fn resume_block<D: TextDecorator, G: Tagging<D::Annotation>>(
    alloc: Global,
    interrupted: Interrupted<D, G>,
    state: &mut State<D, G>,
) -> Result<(), Error>
    ensures { Gives result (continued (by_tags D.decoration G.annotated) interrupted state.old) state.new }
{
    match interrupted {
        Suspended::NoBlock => Ok(()),
        Suspended::Quoted(outer) => close_quote(outer, state),
        Suspended::Indented(outer) => close_indent(alloc, outer, state),
        Suspended::Cell(outer) => end_cell(outer, state),
    }
}

/// Resumes a suspended block, if there is one. Most nodes suspend none: they take no call.
#[inline(always)]
fn resume_outer<D: TextDecorator, G: Tagging<D::Annotation>>(
    alloc: Global,
    interrupted: Interrupted<D, G>,
    state: &mut State<D, G>,
) -> Result<(), Error>
    ensures { Gives result (continued (by_tags D.decoration G.annotated) interrupted state.old) state.new }
{
    if let Suspended::NoBlock = interrupted {
        return Ok(());
    }
    resume_block(alloc, interrupted, state)
}

/// Does the closing action of a kind of node.
fn close_kind<D: TextDecorator, G: Tagging<D::Annotation>>(
    alloc: Global,
    closing: KindKept<D, G>,
    state: &mut State<D, G>,
) -> Result<(), Error>
    ensures { Gives result (kind_closed (by_tags D.decoration G.annotated) closing state.old) state.new }
{
    match closing {
        CloseAction::Nothing(own) => resume_outer(alloc, own, state),
        CloseAction::Bullets { .. } | CloseAction::Numbers { .. } => Ok(()),
        CloseAction::EndBlock => {
            state.block.as_mut().end_block();
            Ok(())
        }
        CloseAction::NewLine => {
            state.block.as_mut().new_line()?;
            Ok(())
        }
        CloseAction::EndEmphasis(emphasis) => {
            let end = end_of(alloc, &state.decorator, emphasis)?;
            add_text(alloc, end.as_str(), state)
        }
        CloseAction::EndStrikeout(struck_out) => {
            let end = state.decorator.decorate_strikeout_end(alloc)?;
            state.text.struck_out = struck_out;
            add_text(alloc, end.as_str(), state)
        }
        CloseAction::EndSuperscript => {
            let end = state.decorator.decorate_superscript_end(alloc)?;
            add_text(alloc, end.as_str(), state)
        }
        CloseAction::EndLink(text, number) => close_link(alloc, text, number, state),
        CloseAction::EndTable(own, in_table) => {
            end_table(in_table, state)?;
            resume_outer(alloc, own, state)
        }
        CloseAction::EndRow => {
            state.block.as_mut().end_row()?;
            Ok(())
        }
    }
}

/// Opens a node in its style and its block. Returns the closing action of its kind; `None` if the node is finished.
#[inline]
fn open_own<D: TextDecorator, G: Tagging<D::Annotation>>(
    alloc: Global,
    node: &RenderNode,
    children: &[Entry<RenderNode>],
    state: &mut State<D, G>,
) -> Result<Option<KindKept<D, G>>, Error>
    requires { flatten (forest_of children.now) ≡ children.now }
    ensures ok { IfOk result (λ c. (item : _) → opened_in (by_tags D.decoration G.annotated) item node.now (forest_of children.now) state.old
        ≡ keeping (by_tags D.decoration G.annotated) item state.old.text (way state.new c)) }
    ensures err { IfErr result (λ e. (item : _) → Refuses e (opened_in (by_tags D.decoration G.annotated) item node.now
        (forest_of children.now) state.old)) }
{
    begin_style(alloc, &node.style, state)?;
    let mut own = begin_block(alloc, &node.kind, &node.estimate, state)?;
    open_kind(alloc, &mut own, &node.kind, &node.estimate, children, state)
}

/// Opens a node in its style and its block, where `item` is the block that it suspends as an item or as a cell. Returns its
/// pending work. Returns `None` if the node is finished: the state is then the one after it, and its children are skipped.
#[inline]
fn open_in<D: TextDecorator, G: Tagging<D::Annotation>>(
    alloc: Global,
    item: Interrupted<D, G>,
    node: &RenderNode,
    children: &[Entry<RenderNode>],
    state: &mut State<D, G>,
) -> Result<Option<Kept<D, G>>, Error>
    requires { flatten (forest_of children.now) ≡ children.now }
    ensures ok { IfOk result (λ c. opened_in (by_tags D.decoration G.annotated) item node.now (forest_of children.now) state.old
        ≡ Some (way state.new c)) }
    ensures err { IfErr result (λ e. Refuses e (opened_in (by_tags D.decoration G.annotated) item node.now (forest_of children.now)
        state.old)) }
{
    let text = state.text;
    match open_own(alloc, node, children, state)? {
        Some(kind) => Ok(Some(OpenNode { item, text, kind })),
        None => {
            state.text = text;
            resume_outer(alloc, item, state)?;
            Ok(None)
        }
    }
}

/// Opens a node as the next cell of a row. If the cell is skipped, so are all nodes in it.
#[inline(always)]
fn open_cell<D: TextDecorator, G: Tagging<D::Annotation>>(
    alloc: Global,
    node: &RenderNode,
    children: &[Entry<RenderNode>],
    state: &mut State<D, G>,
) -> Result<Option<Kept<D, G>>, Error>
    requires { flatten (forest_of children.now) ≡ children.now }
    ensures ok { IfOk result (λ c. cell_opened (by_tags D.decoration G.annotated) node.now (forest_of children.now)
        (machine.operations.cell_block state.old.block) state.old ≡ Some (way state.new c)) }
    ensures err { IfErr result (λ e. Refuses e (cell_opened (by_tags D.decoration G.annotated) node.now (forest_of children.now)
        (machine.operations.cell_block state.old.block) state.old)) }
{
    let next = next_cell(state)?;
    let Some(cell) = next else {
        state.block.as_mut().skip_cell()?;
        return Ok(None);
    };
    let outer = begin_cell(alloc, cell, state)?;
    open_in(alloc, Suspended::Cell(outer), node, children, state)
}

/// Opens a node as the child number `number`, from 0, of a list with this closing action. White space alone begins a new line.
///
/// Few nodes are children of lists, so this is a function of its own.
#[inline(never)]
fn open_listed<D: TextDecorator, G: Tagging<D::Annotation>>(
    alloc: Global,
    node: &RenderNode,
    children: &[Entry<RenderNode>],
    list: &KindKept<D, G>,
    number: usize,
    state: &mut State<D, G>,
) -> Result<Option<Kept<D, G>>, Error>
    requires { flatten (forest_of children.now) ≡ children.now }
    ensures ok { IfOk result (λ c. block_opened (by_tags D.decoration G.annotated) node.now (forest_of children.now)
        (child_block (by_tags D.decoration G.annotated) state.old.decorator list.now number) state.old ≡ Some (way state.new c)) }
    ensures err { IfErr result (λ e. Refuses e (block_opened (by_tags D.decoration G.annotated) node.now (forest_of children.now)
        (child_block (by_tags D.decoration G.annotated) state.old.decorator list.now number) state.old)) }
{
    if let Some(indent) = indent_of::<D, G>(list) {
        if is_blank(node, &state.text) {
            state
                .block
                .skip_sub_block(indent.columns, indent.min_width)?;
            return Ok(None);
        }
    }
    let item = begin_item(alloc, list, number, state)?;
    open_in(alloc, item, node, children, state)
}

/// Opens a node as the child number `number`, from 0, of the open node with the pending work `parent`, or as a root.
///
/// Returns its pending work, and the state becomes that of its children. Returns `None` if the node is finished: the state
/// is then the one after it, and its children are skipped.
///
/// # Errors
///
/// `TooNarrow` if overflow is off and a character of a paragraph that is flushed is wider than a line, a prefix leaves too
/// few columns, or a line with its prefix is wider than its block. `OutOfMemory`.
pub fn open<D: TextDecorator, G: Tagging<D::Annotation>>(
    alloc: Global,
    node: &RenderNode,
    children: &[Entry<RenderNode>],
    parent: Option<&Kept<D, G>>,
    number: usize,
    state: &mut State<D, G>,
) -> Result<Option<Kept<D, G>>, Error>
    requires { flatten (forest_of children.now) ≡ children.now }
    ensures ok { IfOk result (λ c. opened (by_tags D.decoration G.annotated) (option_copied parent.entry) number node.now (forest_of children.now) state.old
        ≡ Some (way state.new c)) }
    ensures err { IfErr result (λ e. Refuses e (opened (by_tags D.decoration G.annotated) (option_copied parent.entry) number node.now (forest_of children.now) state.old)) }
{
    if let Some(parent) = parent {
        match parent.kind {
            CloseAction::EndRow => return open_cell(alloc, node, children, state),
            CloseAction::Bullets { .. } | CloseAction::Numbers { .. } => {
                return open_listed(alloc, node, children, &parent.kind, number, state);
            }
            _ => {}
        }
    }
    open_in(alloc, Suspended::NoBlock, node, children, state)
}

/// Adds a text in its style.
#[inline(always)]
fn add_node_text<D: TextDecorator, G: Tagging<D::Annotation>>(
    alloc: Global,
    text: &str,
    style: &NodeStyle,
    state: &mut State<D, G>,
) -> Result<(), Error>
    ensures { Gives result (text_opened (by_tags D.decoration G.annotated) text.now style.now state.old) (Past state.new) }
{
    let context = begin_style(alloc, style, state)?;
    add_text(alloc, text, state)?;
    state.text = context;
    Ok(())
}

/// Reports whether the children of an open node share a block. Those of a row are cells, those of a list are items, and all
/// others share one, as roots do.
#[inline(always)]
fn children_share<D: TextDecorator, G: Tagging<D::Annotation>>(parent: Option<&Kept<D, G>>) -> bool
    ensures { result ≡ option_map_or (λ c. children_share c.kind) (option_copied parent.entry) true }
{
    let Some(parent) = parent else {
        return true;
    };
    match parent.kind {
        CloseAction::EndRow | CloseAction::Bullets { .. } | CloseAction::Numbers { .. } => false,
        _ => true,
    }
}

/// Lays out a text that is neither a child of a list nor of a row. Returns `false`, without a change of the state, for any
/// other node.
///
/// About half of the nodes are such texts. They keep nothing for their end, so they aren't opened as other nodes are.
///
/// # Errors
///
/// Those of [`open`].
#[inline(always)]
pub fn visit_text<D: TextDecorator, G: Tagging<D::Annotation>>(
    alloc: Global,
    node: &RenderNode,
    children: &[Entry<RenderNode>],
    parent: Option<&Kept<D, G>>,
    number: usize,
    state: &mut State<D, G>,
) -> Result<bool, Error>
    ensures ok { IfOk result (λ found. MatchBool found
        (opened (by_tags D.decoration G.annotated) (option_copied parent.entry) number node.now (forest_of children.now) state.old ≡ Some (Past state.new))
        (state.new ≡ state.old)) }
    ensures err { IfErr result (λ e. Refuses e (opened (by_tags D.decoration G.annotated) (option_copied parent.entry) number node.now (forest_of children.now) state.old)) }
{
    let NodeKind::Text(text) = &node.kind else {
        return Ok(false);
    };
    if !children_share::<D, G>(parent) {
        return Ok(false);
    }
    add_node_text(alloc, text.as_str(), &node.style, state)?;
    Ok(true)
}

/// Closes a node with this pending work: the state becomes the one after it.
///
/// # Errors
///
/// `TooNarrow` if overflow is off and a character of a paragraph that is flushed is wider than a line, or a line with its
/// prefix is wider than its block. `OutOfMemory`.
pub fn close<D: TextDecorator, G: Tagging<D::Annotation>>(
    alloc: Global,
    closing: Kept<D, G>,
    state: &mut State<D, G>,
) -> Result<(), Error>
    ensures { Gives result (closed (by_tags D.decoration G.annotated) closing state.old) state.new }
{
    close_kind(alloc, closing.kind, state)?;
    state.text = closing.text;
    resume_outer(alloc, closing.item, state)
}
