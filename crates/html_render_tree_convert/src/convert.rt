//! Conversion of a document into a render tree.

ghost use Rattle.std.specs.Prelude.{◌≡◌, IfErr, IfOk, None, OnOk, Some, map, true};
ghost use Rattle.html_render_dom_styles.specs.Rules.{rule_of};
ghost use Rattle.html_render_parts.specs.Refusal.{Builds, Makes};
ghost use Rattle.html_render_dom.specs.Dom.{IsForest, IsNode, tree_of};
ghost use Rattle.html_render_dom.specs.RuleIndex.{Finds};
ghost use Rattle.html_render_tree_convert.specs.Plans.{plan_at};
ghost use Rattle.html_render_tree_convert.specs.Results.{render_tree_of};
ghost use Rattle.html_render_tree_convert.specs.Events.{element_events, nothing_inside};
ghost use Rattle.html_render_tree_convert.specs.KnownElements.{known_element, named_plan, plain_cell, plain_plan};
ghost use Rattle.html_render_tree_convert.specs.Steps.{converted, run};
ghost use Rattle.html_render_tree_convert.specs.Visits.{done_at_once, first_pick, followed};

use crate::conversion::Conversion;
use crate::mapping::{ElementKind, IfEmpty, Mapping};
use crate::plans::{
    Element, KnownElement, Plan, is_plain_cell, known_name, plain_mapping, plain_name, plan_of,
    text_at,
};
use crate::tables::{CellSpan, Part};
use html_render_dom::dom::{Handle, RcDom};
use html_render_dom::style::{RuleIndex, StyleRule};
use html_render_dom_values::Error;
use html_render_layout_nodes::tree::{Entry, NodeStyle, PreorderForest, RenderNode};
use html_render_tree_walk::cursor::{Cursor, Pick, Visit};
use std::alloc::{AllocError, Global};

/// Returns the children that come first in an element.
fn first_pick(kind: &ElementKind) -> Pick
    ensures { result ≡ first_pick kind.now }
{
    match kind {
        ElementKind::Part(Part::Table) => Pick::Captions,
        _ => Pick::All,
    }
}

/// Opens an element and closes it, without its children.
///
/// # Errors
///
/// Those of [`Conversion::close`].
fn convert_alone(alloc: Global, element: Element, conversion: &mut Conversion) -> Result<(), Error>
    ensures { Makes result (run (element_events element nothing_inside) conversion.old) conversion.new }
{
    let pick = first_pick(&element.kind);
    conversion.open(alloc, element)?;
    if let Pick::Captions = pick {
        conversion.part(alloc)?;
    }
    conversion.close(alloc)
}

/// Converts a node of a plan as far as can be without its children, which come next if they are converted.
///
/// # Errors
///
/// Those of [`Conversion::close`].
fn follow(
    alloc: Global,
    plan: Plan,
    node: Handle,
    cursor: &mut Cursor,
    conversion: &mut Conversion,
) -> Result<(), Error>
    ensures done { Makes result (run (done_at_once plan) conversion.old) conversion.new }
    ensures cursor { OnOk result (cursor.new ≡ followed plan node cursor.old) }
{
    match plan {
        Plan::Nothing => Ok(()),
        Plan::Alone(alone) => Ok(conversion.put(alone)?),
        Plan::Over {
            element,
            has_children,
        } => {
            if !has_children {
                return convert_alone(alloc, element, conversion);
            }
            let pick = first_pick(&element.kind);
            conversion.open(alloc, element)?;
            cursor.enter(node, pick)?;
            Ok(())
        }
    }
}

/// Opens an element whose plan is known by its name. Its children come next.
#[inline(always)]
fn enter(
    known: KnownElement<'_>,
    node: Handle,
    cursor: &mut Cursor,
    conversion: &mut Conversion,
) -> Result<(), AllocError>
    ensures ok { OnOk result (run (done_at_once (Plan.Over (known_element known.entry) true)) conversion.old ≡ Some conversion.new) }
    ensures cursor { OnOk result (cursor.new ≡ followed (Plan.Over (known_element known.entry) true) node cursor.old) }
{
    let KnownElement {
        kind,
        if_empty,
        style,
    } = known;
    let pick = first_pick(&kind);
    match style {
        None => {
            let alloc = conversion.allocator();
            conversion.open_plain(alloc, kind, NodeStyle::default(), if_empty)?
        }
        Some(style) => conversion.open_styled(kind, if_empty, style)?,
    }
    cursor.enter(node, pick)
}

/// Opens a cell of one column and one row that has no style and inserts nothing. Its children come next.
#[inline(always)]
fn enter_cell(
    node: Handle,
    cursor: &mut Cursor,
    conversion: &mut Conversion,
) -> Result<(), AllocError>
    ensures ok { OnOk result (run (done_at_once (Plan.Over plain_cell true)) conversion.old ≡ Some conversion.new) }
    ensures cursor { OnOk result (cursor.new ≡ followed (Plan.Over plain_cell true) node cursor.old) }
{
    let alloc = conversion.allocator();
    let span = CellSpan {
        colspan: 1,
        rowspan: 1,
    };
    let cell = ElementKind::Part(Part::Cell(span));
    conversion.open_plain(alloc, cell, NodeStyle::default(), IfEmpty::Stands)?;
    cursor.enter(node, Pick::All)
}

/// Converts a node of this mapping that inserts nothing and has no style, as far as can be without its children, which come next
/// if they are converted.
#[inline(always)]
fn convert_plain(
    mapping: Mapping,
    node: Handle,
    cursor: &mut Cursor,
    conversion: &mut Conversion,
) -> Result<(), AllocError>
    ensures ok { OnOk result (run (done_at_once (plain_plan mapping)) conversion.old ≡ Some conversion.new) }
    ensures cursor { OnOk result (cursor.new ≡ followed (plain_plan mapping) node cursor.old) }
{
    match mapping {
        Mapping::Nothing => Ok(()),
        Mapping::Leaf(kind) => conversion.put(RenderNode::from(kind)),
        Mapping::Parent(kind, if_empty) => {
            let alloc = conversion.allocator();
            let pick = first_pick(&kind);
            conversion.open_plain(alloc, kind, NodeStyle::default(), if_empty)?;
            cursor.enter(node, pick)
        }
    }
}

/// Converts a node by its plan as far as can be without its children, which come next if they are converted.
///
/// # Errors
///
/// Those of [`Conversion::close`].
#[inline(never)]
fn convert_planned(
    rules: &[StyleRule],
    index: &RuleIndex,
    dom: &RcDom,
    node: Handle,
    cursor: &mut Cursor,
    conversion: &mut Conversion,
) -> Result<(), Error>
    requires index { Finds index.now (map rule_of rules.now) }
    requires forest { IsForest dom.now }
    requires node { IsNode dom.now node }
    ensures done { Makes result (run (done_at_once (plan_at (map rule_of rules.now) dom.now node)) conversion.old) conversion.new }
    ensures cursor { OnOk result (cursor.new ≡ followed (plan_at (map rule_of rules.now) dom.now node) node cursor.old) }
{
    let alloc = conversion.allocator();
    let plan = plan_of(alloc, rules, index, dom, node)?;
    follow(alloc, plan, node, cursor, conversion)
}

/// Converts a node as far as can be without its children, which come next if they are converted. Elements without a mark and
/// without a style need no plan.
///
/// # Errors
///
/// Those of [`Conversion::close`].
#[inline(never)]
fn convert_other(
    rules: &[StyleRule],
    index: &RuleIndex,
    dom: &RcDom,
    node: Handle,
    cursor: &mut Cursor,
    conversion: &mut Conversion,
) -> Result<(), Error>
    requires index { Finds index.now (map rule_of rules.now) }
    requires forest { IsForest dom.now }
    requires node { IsNode dom.now node }
    ensures done { Makes result (run (done_at_once (plan_at (map rule_of rules.now) dom.now node)) conversion.old) conversion.new }
    ensures cursor { OnOk result (cursor.new ≡ followed (plan_at (map rule_of rules.now) dom.now node) node cursor.old) }
{
    let alloc = conversion.allocator();
    if let Some(mapping) = plain_mapping(alloc, rules, index, dom, node)? {
        return Ok(convert_plain(mapping, node, cursor, conversion)?);
    }
    convert_planned(rules, index, dom, node, cursor, conversion)
}

/// Converts an element of HTML without attributes, by its local name, as far as can be without its children, which come next if
/// they are converted.
///
/// # Errors
///
/// Those of [`Conversion::close`].
#[inline(never)]
fn convert_named(
    rules: &[StyleRule],
    index: &RuleIndex,
    dom: &RcDom,
    node: Handle,
    name: &str,
    cursor: &mut Cursor,
    conversion: &mut Conversion,
) -> Result<(), Error>
    requires index { Finds index.now (map rule_of rules.now) }
    requires forest { IsForest dom.now }
    requires node { IsNode dom.now node }
    requires name { plan_at (map rule_of rules.now) dom.now node ≡ named_plan (map rule_of rules.now) name.now }
    ensures done { Makes result (run (done_at_once (plan_at (map rule_of rules.now) dom.now node)) conversion.old) conversion.new }
    ensures cursor { OnOk result (cursor.new ≡ followed (plan_at (map rule_of rules.now) dom.now node) node cursor.old) }
{
    if let Some(known) = known_name(rules, index, name) {
        return Ok(enter(known, node, cursor, conversion)?);
    }
    convert_other(rules, index, dom, node, cursor, conversion)
}

/// Converts a node as far as can be without its children, which come next if they are converted. Texts, and elements without
/// attributes, take the shortest way, since most nodes are these.
///
/// # Errors
///
/// Those of [`Conversion::close`].
#[inline(always)]
fn convert_node(
    rules: &[StyleRule],
    index: &RuleIndex,
    dom: &RcDom,
    node: Handle,
    cursor: &mut Cursor,
    conversion: &mut Conversion,
) -> Result<(), Error>
    requires index { Finds index.now (map rule_of rules.now) }
    requires forest { IsForest dom.now }
    requires node { IsNode dom.now node }
    ensures done { Makes result (run (done_at_once (plan_at (map rule_of rules.now) dom.now node)) conversion.old) conversion.new }
    ensures cursor { OnOk result (cursor.new ≡ followed (plan_at (map rule_of rules.now) dom.now node) node cursor.old) }
{
    if let Some(text) = text_at(dom, node) {
        return Ok(conversion.put_text(text)?);
    }
    if let Some(name) = plain_name(dom, node) {
        if is_plain_cell(rules, index, name) {
            return Ok(enter_cell(node, cursor, conversion)?);
        }
        return convert_named(rules, index, dom, node, name, cursor, conversion);
    }
    convert_other(rules, index, dom, node, cursor, conversion)
}

/// Returns the nodes of a document in pre-order. It takes no more stack for a deep document than for a flat one.
///
/// # Errors
///
/// `Fail` exactly if a cell of a table ends after column or row `u128::MAX`, or a part of a table is in no table, and
/// `OutOfMemory` if an allocation is refused.
fn entries_of(
    alloc: Global,
    rules: &[StyleRule],
    dom: &RcDom,
) -> Result<Vec<Entry<RenderNode>>, Error>
    ensures { Builds result (converted (map rule_of rules.now) (tree_of dom.now 0)) (λ entries. entries.items) }
{
    let index = RuleIndex::of(alloc, rules)?;
    let mut cursor = Cursor::new(alloc);
    let mut conversion = Conversion::new(alloc, dom.node_count())?;
    convert_other(
        rules,
        &index,
        dom,
        dom.get_document(),
        &mut cursor,
        &mut conversion,
    )?;
    'visits: while let Some(visit) = cursor.next(dom) {
        match visit {
            Visit::Node(node) => {
                convert_node(rules, &index, dom, node, &mut cursor, &mut conversion)?
            }
            Visit::Parts => conversion.part(alloc)?,
            Visit::Close => conversion.close(alloc)?,
        }
    }
    conversion.into_entries()
}

/// Converts a document into its render tree. Its elements are styled by rules in the order in which these were added.
///
/// # Errors
///
/// `Fail` exactly if a cell of a table ends after column or row `u128::MAX`, or a part of a table is in no table, and
/// `OutOfMemory` if an allocation is refused.
pub fn dom_to_render_tree(
    alloc: Global,
    rules: &[StyleRule],
    dom: &RcDom,
) -> Result<PreorderForest<RenderNode>, Error>
    ensures { Builds result (render_tree_of (map rule_of rules.now) dom.now) (λ tree. tree) }
{
    let entries = entries_of(alloc, rules, dom)?;
    Ok(PreorderForest::from_entries(entries))
}

/// Converts a document that is given away, as [`dom_to_render_tree`] does.
///
/// # Errors
///
/// Those of [`dom_to_render_tree`].
pub fn dom_into_render_tree(
    alloc: Global,
    rules: &[StyleRule],
    dom: RcDom,
) -> Result<PreorderForest<RenderNode>, Error>
    ensures { Builds result (render_tree_of (map rule_of rules.now) dom) (λ tree. tree) }
{
    dom_to_render_tree(alloc, rules, &dom)
}
