//! Plans of nodes: which render node a node of a document becomes, its children aside.

ghost use Rattle.std.specs.Prelude.{◌≡◌, ◌||◌, [], false, true, List, None, IfOk, IfSome, codes, map, option_copied};
ghost use Rattle.std.specs.Bool.{OnTrue};
ghost use Rattle.std.specs.Str.{bytes_eq};
ghost use Rattle.std.specs.Option.{option_map_or};
ghost use Rattle.html_render_dom_values.specs.Outcome.{OnlyOutOfMemory};
ghost use Rattle.html_render_dom_nodes.specs.Content.{name_of, property_of};
ghost use Rattle.html_render_dom.specs.Applying.{style_by};
ghost use Rattle.html_render_dom.specs.Dom.{IsForest, IsNode};
ghost use Rattle.html_render_dom.specs.ElementStyle.{element_style};
ghost use Rattle.html_render_dom.specs.declared.style.computed.ComputedStyle.{ComputedStyle as TheStyle};
ghost use Rattle.html_render_dom.specs.RuleIndex.{Finds};
ghost use Rattle.html_render_dom_styles.specs.Rules.{Rule, rule_of};
ghost use Rattle.html_render_layout_nodes.specs.RenderNodes.{without_style};
ghost use Rattle.html_render_tree_convert.specs.Conversion.{node_style, own_style};
ghost use Rattle.html_render_tree_convert.specs.ElementTexts.{has_any, no_texts};
ghost use Rattle.html_render_tree_convert.specs.Marks.{mark_of};
ghost use Rattle.html_render_tree_convert.specs.Plans.{displayed_plan, element_plan, plan_at, texts_of};
ghost use Rattle.html_render_tree_convert.specs.KnownElements.{document_element, known_element, known_style, named_plan, plain_cell, plain_plan};

use crate::attributes::{mark_attribute, mark_of};
use crate::mapping::{
    ElementKind, IfEmpty, Mapping, element_mapping, html_mapping, is, is_mapped_apart,
    is_preformatted, node_style, preformat,
};
use html_render_dom::Error;
use html_render_dom::dom::{Attribute, Handle, Namespace, NodeData, QualName, RcDom};
use html_render_dom::style::{ComputedStyle, RuleIndex, StyleRule};
use html_render_layout_nodes::text::NodeText;
use html_render_layout_nodes::tree::{NodeKind, NodeStyle, RenderNode};
use std::alloc::{AllocError, Global};

/// Texts that an element inserts.
#[derive(Drop)]
pub struct ElementTexts {
    /// Name of its fragment mark.
    pub mark: Option<NodeText>,
    /// Content in front of its children.
    pub before: Option<NodeText>,
    /// Content after its children.
    pub after: Option<NodeText>,
}

impl ElementTexts {
    /// Returns no texts.
    pub fn none() -> ElementTexts
        ensures { result ≡ no_texts }
    {
        ElementTexts {
            mark: None,
            before: None,
            after: None,
        }
    }

    /// Creates the texts of an element with this mark and this style.
    ///
    /// # Errors
    ///
    /// `AllocError` if an allocation is refused.
    pub fn of(mark: Option<NodeText>, style: &ComputedStyle) -> Result<ElementTexts, AllocError>
        ensures { IfOk result (λ texts. texts ≡ texts_of mark style.now) }
    {
        Ok(ElementTexts {
            mark,
            before: copy_of(style.content_before.val())?,
            after: copy_of(style.content_after.val())?,
        })
    }

    /// Reports whether there is a text.
    pub fn has_any(&self) -> bool
        ensures { result ≡ has_any self.now }
    {
        self.mark.is_some() || self.before.is_some() || self.after.is_some()
    }
}

/// An element that becomes a node or a part of a table.
#[derive(Drop)]
pub struct Element {
    /// What it becomes.
    pub kind: ElementKind,
    /// Style of its node.
    pub style: NodeStyle,
    /// What becomes of it if its children have no results that count.
    pub if_empty: IfEmpty,
    /// Texts that it inserts.
    pub texts: ElementTexts,
}

/// Plan of a node of a document.
#[derive(Drop)]
pub enum Plan {
    /// It becomes nothing, and its children aren't converted.
    Nothing,
    /// It becomes this node, and its children aren't converted.
    Alone(RenderNode),
    /// It is an element.
    Over {
        /// The element.
        element: Element,
        /// Whether its children are converted.
        has_children: bool,
    },
}

/// Returns the plan of an element that becomes nothing: its mark is left.
fn mark_plan(mark: Option<NodeText>) -> Plan
    ensures { result ≡ option_map_or (λ name. Plan.Alone (without_style (NodeKind.FragmentStart name))) mark Plan.Nothing }
{
    match mark {
        Some(name) => Plan::Alone(RenderNode::from(NodeKind::FragmentStart(name))),
        None => Plan::Nothing,
    }
}

/// Returns a copy of a text, if there is one.
///
/// # Errors
///
/// `AllocError` if an allocation is refused.
pub fn copy_of(text: Option<&NodeText>) -> Result<Option<NodeText>, AllocError>
    ensures { IfOk result (λ copy. copy ≡ option_copied text.entry) }
{
    match text {
        Some(text) => Ok(Some(text.clone()?)),
        None => Ok(None),
    }
}

/// Returns the plan of an element that is displayed.
fn displayed_plan(mapping: Mapping, style: NodeStyle, texts: ElementTexts) -> Plan
    ensures { (own : TheStyle) → style ≡ node_style own → texts ≡ texts_of texts.mark own → result ≡ displayed_plan mapping texts.mark own }
{
    let (kind, if_empty, has_children) = match mapping {
        Mapping::Nothing => return mark_plan(texts.mark),
        Mapping::Leaf(kind) => (ElementKind::Node(kind), IfEmpty::Stands, false),
        Mapping::Parent(kind, if_empty) => (kind, if_empty, true),
    };
    let element = Element {
        kind,
        style,
        if_empty,
        texts,
    };
    Plan::Over {
        element,
        has_children,
    }
}

/// Returns the plan of an element that has a style.
///
/// # Errors
///
/// `AllocError` if an allocation is refused.
fn styled_plan(
    mapping: Mapping,
    mark: Option<NodeText>,
    style: &ComputedStyle,
) -> Result<Plan, AllocError>
    ensures { IfOk result (λ plan. plan ≡ element_plan mapping mark style.now) }
{
    if style.display.val().is_some() {
        return Ok(Plan::Nothing);
    }
    let texts = ElementTexts::of(mark, style)?;
    Ok(displayed_plan(mapping, node_style(style), texts))
}

/// Returns the style of an element of its own: what the rules state of it, and for `pre` that white space is preserved.
#[inline(never)]
fn own_style(
    alloc: Global,
    rules: &[StyleRule],
    index: &RuleIndex,
    name: &QualName,
    attributes: &[Attribute],
) -> Result<ComputedStyle, Error>
    requires { Finds index.now (map rule_of rules.now) }
    ensures ok { IfOk result (λ style. style ≡ own_style (map rule_of rules.now) (name_of name.now) (map property_of attributes.now)) }
    ensures err { OnlyOutOfMemory result }
{
    let mut style = index.computed_style(alloc, rules, name.local.as_str(), attributes)?;
    if is_preformatted(name) {
        preformat(&mut style);
    }
    Ok(style)
}

/// Returns the plan of an element with this mapping. Its style is computed only where a rule may select it.
#[inline(never)]
fn element_plan(
    alloc: Global,
    rules: &[StyleRule],
    index: &RuleIndex,
    mapping: Mapping,
    name: &QualName,
    attributes: &[Attribute],
) -> Result<Plan, Error>
    requires { Finds index.now (map rule_of rules.now) }
    ensures ok { IfOk result (λ plan. plan ≡ element_plan mapping (mark_of (name_of name.now) (map property_of attributes.now))
        (own_style (map rule_of rules.now) (name_of name.now) (map property_of attributes.now))) }
    ensures err { OnlyOutOfMemory result }
{
    let mark = mark_of(alloc, name, attributes)?;
    if is_preformatted(name) || index.may_select(name.local.as_str(), attributes) {
        let style = own_style(alloc, rules, index, name, attributes)?;
        return Ok(styled_plan(mapping, mark, &style)?);
    }
    let texts = ElementTexts {
        mark,
        ..ElementTexts::none()
    };
    Ok(displayed_plan(mapping, NodeStyle::default(), texts))
}

/// An element whose plan is known by its name, and whose children are converted.
pub struct KnownElement<'a> {
    /// What it becomes.
    pub kind: ElementKind,
    /// What becomes of it if its children have no results that count.
    pub if_empty: IfEmpty,
    /// Its style; `None` for that without any declaration.
    pub style: Option<&'a ComputedStyle>,
}

/// Reports whether an element of this name without attributes has the style without any declaration, unless it is `pre`. Returns
/// `false` where that needs more to be known.
#[inline(always)]
fn is_unstyled(rules: &[StyleRule], index: &RuleIndex, name: &str) -> bool
    requires { Finds index.now (map rule_of rules.now) }
    ensures { OnTrue result (style_by [] ≡ element_style (map rule_of rules.now) name.now []) }
{
    rules.is_empty() || !index.may_select(name, &[])
}

/// Returns the style of an element of this name without attributes that isn't `pre`; `None` where that needs more to be known, or
/// it is not displayed.
#[inline(always)]
fn known_style<'a>(
    rules: &[StyleRule],
    index: &'a RuleIndex,
    name: &str,
) -> Option<Option<&'a ComputedStyle>>
    requires { Finds index.now (map rule_of rules.now) }
    ensures style { IfSome result (λ style. known_style style ≡ element_style (map rule_of rules.now) name.now []) }
    ensures displayed { IfSome result (λ style. (known_style style).display ≡ None) }
{
    if is_unstyled(rules, index, name) {
        return Some(None);
    }
    match index.plain_style(name) {
        Some(style) if style.display.val().is_none() => Some(Some(style)),
        _ => None,
    }
}

/// Returns the element of HTML that an element of this local name is without attributes; `None` where that needs more to be known,
/// it is not displayed, or its children aren't converted. `index` is that of the rules.
#[inline(always)]
pub fn known_name<'a>(
    rules: &[StyleRule],
    index: &'a RuleIndex,
    name: &str,
) -> Option<KnownElement<'a>>
    requires { Finds index.now (map rule_of rules.now) }
    ensures { IfSome result (λ known. named_plan (map rule_of rules.now) name.now ≡ Plan.Over (known_element known) true) }
{
    if is_mapped_apart(name) || is(name, "pre") {
        return None;
    }
    let style = known_style(rules, index, name)?;
    match html_mapping(name, &[]) {
        Mapping::Parent(kind, if_empty) => Some(KnownElement {
            kind,
            if_empty,
            style,
        }),
        _ => None,
    }
}

/// Reports whether elements of HTML of this local name are cells.
#[inline(always)]
fn is_cell(name: &str) -> bool
    ensures { result ≡ (bytes_eq name.now (codes "td") || bytes_eq name.now (codes "th")) }
{
    is(name, "td") || is(name, "th")
}

/// Reports whether an element of HTML of this local name without attributes is a cell without a style. Returns `false` where that
/// needs more to be known. `index` is that of the rules.
#[inline(always)]
pub fn is_plain_cell(rules: &[StyleRule], index: &RuleIndex, name: &str) -> bool
    requires { Finds index.now (map rule_of rules.now) }
    ensures { OnTrue result (named_plan (map rule_of rules.now) name.now ≡ Plan.Over plain_cell true) }
{
    is_cell(name) && is_unstyled(rules, index, name)
}

/// Returns the local name of an element of HTML without attributes; `None` for any other node.
#[inline(always)]
pub fn plain_name<'a>(dom: &'a RcDom, node: Handle) -> Option<&'a str>
    requires { IsNode dom.now node }
    ensures { IfSome result (λ name. (rules : List Rule) → plan_at rules dom.now node ≡ named_plan rules name.now) }
{
    match dom.data(node) {
        NodeData::Element { name, attrs, .. } if attrs.as_slice().is_empty() => match name.ns {
            Namespace::Html => Some(name.local.as_str()),
            _ => None,
        },
        _ => None,
    }
}

/// Returns the text of a node of a document; `None` if it is no text.
#[inline(always)]
pub fn text_at<'a>(dom: &'a RcDom, node: Handle) -> Option<&'a NodeText>
    requires { IsNode dom.now node }
    ensures { IfSome result (λ text. (rules : List Rule) → plan_at rules dom.now node ≡ Plan.Alone (without_style (NodeKind.Text text.now))) }
{
    match dom.data(node) {
        NodeData::Text { contents } => Some(contents),
        _ => None,
    }
}

/// Returns the plan of the document's node.
fn document_plan() -> Plan
    ensures { result ≡ Plan.Over document_element true }
{
    Plan::Over {
        element: Element {
            kind: ElementKind::Node(NodeKind::Container),
            style: NodeStyle::default(),
            if_empty: IfEmpty::Stands,
            texts: ElementTexts::none(),
        },
        has_children: true,
    }
}

/// Returns the node of a text.
fn text_node(alloc: Global, contents: &str) -> Result<RenderNode, AllocError>
    ensures { IfOk result (λ node. node ≡ without_style (NodeKind.Text contents.now)) }
{
    let text = NodeText::from_str(alloc, contents)?;
    Ok(RenderNode::from(NodeKind::Text(text)))
}

/// Reports whether an element has no mark.
#[tactic(auto, using(crate::proofs::Numbers::starts))]
#[inline(always)]
fn is_unmarked(name: &QualName, attributes: &[Attribute]) -> bool
    ensures { OnTrue result (mark_of (name_of name.now) (map property_of attributes.now) ≡ None) }
{
    match mark_attribute(name, attributes) {
        Some(_) => false,
        None => true,
    }
}

/// Reports whether an element has no mark, and the style without any declaration. Returns `false` where that needs more to be known.
#[inline(always)]
fn is_plain(
    rules: &[StyleRule],
    index: &RuleIndex,
    name: &QualName,
    attributes: &[Attribute],
) -> bool
    requires { Finds index.now (map rule_of rules.now) }
    ensures mark { OnTrue result (mark_of (name_of name.now) (map property_of attributes.now) ≡ None) }
    ensures style { OnTrue result (own_style (map rule_of rules.now) (name_of name.now) (map property_of attributes.now) ≡ style_by []) }
{
    !is_preformatted(name)
        && (rules.is_empty() || !index.may_select(name.local.as_str(), attributes))
        && is_unmarked(name, attributes)
}

/// Returns the mapping of a node of a document that inserts nothing and has no style; `None` for a text and the document's node, and
/// where more needs to be known. `index` is that of the rules.
///
/// # Errors
///
/// `AllocError` if an allocation for a target, a source or a title is refused.
#[inline(always)]
pub fn plain_mapping(
    alloc: Global,
    rules: &[StyleRule],
    index: &RuleIndex,
    dom: &RcDom,
    node: Handle,
) -> Result<Option<Mapping>, AllocError>
    requires index { Finds index.now (map rule_of rules.now) }
    requires forest { IsForest dom.now }
    requires node { IsNode dom.now node }
    ensures { IfOk result (λ found. IfSome found (λ mapping. plan_at (map rule_of rules.now) dom.now node ≡ plain_plan mapping)) }
{
    match dom.data(node) {
        NodeData::Element { name, attrs, .. } => {
            let attributes = attrs.as_slice();
            if !is_plain(rules, index, name, attributes) {
                return Ok(None);
            }
            let mapping = element_mapping(alloc, dom, node, name, attributes)?;
            Ok(Some(mapping))
        }
        NodeData::Doctype { .. }
        | NodeData::Comment { .. }
        | NodeData::ProcessingInstruction { .. } => Ok(Some(Mapping::Nothing)),
        NodeData::Document | NodeData::Text { .. } => Ok(None),
    }
}

/// Returns the plan of a node of a document. `index` is that of the rules.
///
/// # Errors
///
/// `OutOfMemory` if an allocation for a text, a target, a source, a title, a name of a mark or a content is refused.
pub fn plan_of(
    alloc: Global,
    rules: &[StyleRule],
    index: &RuleIndex,
    dom: &RcDom,
    node: Handle,
) -> Result<Plan, Error>
    requires index { Finds index.now (map rule_of rules.now) }
    requires forest { IsForest dom.now }
    requires node { IsNode dom.now node }
    ensures ok { IfOk result (λ plan. plan ≡ plan_at (map rule_of rules.now) dom.now node) }
    ensures err { OnlyOutOfMemory result }
{
    match dom.data(node) {
        NodeData::Document => Ok(document_plan()),
        NodeData::Text { contents } => Ok(Plan::Alone(text_node(alloc, contents.as_str())?)),
        NodeData::Element { name, attrs, .. } => {
            let mapping = element_mapping(alloc, dom, node, name, attrs.as_slice())?;
            element_plan(alloc, rules, index, mapping, name, attrs.as_slice())
        }
        NodeData::Doctype { .. }
        | NodeData::Comment { .. }
        | NodeData::ProcessingInstruction { .. } => Ok(Plan::Nothing),
    }
}
