//! Which render node a node of a document becomes.

ghost use Rattle.std.specs.Prelude.{◌≡◌, ◌&&◌, ◌||◌, false, IfOk, codes, if◌then◌else◌, map};
ghost use Rattle.std.specs.Option.{option_map_or};
ghost use Rattle.std.specs.Str.{bytes_eq};
ghost use Rattle.html_render_dom_nodes.specs.Content.{name_of, property_of, space_of, is_html};
ghost use Rattle.html_render_dom.specs.Dom.{IsForest, IsNode, children_at, trees_of};
ghost use Rattle.html_render_dom.specs.Attributes.{first_value};
ghost use Rattle.html_render_dom_styles.specs.Selectors.{is_filled};
ghost use Rattle.html_render_tree_convert.specs.Images.{image_parts};
ghost use Rattle.html_render_tree_convert.specs.Conversion.{html_mapping, element_mapping, preformatted_style, node_style};
ghost use Rattle.html_render_tree_convert.specs.KnownElements.{html_element_mapping, is_preformatted};

use crate::attributes::{first_value, span_of, start_of};
use crate::images::{drawing_title, image_parts};
use crate::tables::Part;
use html_render_dom::Error;
use html_render_dom::dom::{Attribute, AttributeValue, Handle, Namespace, QualName, RcDom};
use html_render_dom::style::{ComputedStyle, Specificity, StyleOrigin, WhiteSpace};
use html_render_dom_nodes::is_same_name;
use html_render_layout_nodes::text::NodeText;
use html_render_layout_nodes::tree::{Emphasis, Image, NodeKind, NodeStyle};
use std::alloc::{AllocError, Global};

/// The end of an element whose children have no results that count.
#[derive(Clone, Copy)]
pub enum IfEmpty {
    /// A node without children.
    Stands,
    /// Nothing.
    Vanishes,
}

/// Kind of an element over the results of its children.
#[derive(Drop)]
pub enum ElementKind {
    /// A node of this kind.
    Node(NodeKind),
    /// A part of a table.
    Part(Part),
}

/// The conversion of an element, its style aside.
#[derive(Drop)]
pub enum Mapping {
    /// It becomes nothing, and its children aren't converted.
    Nothing,
    /// It becomes a node without children; its own aren't converted.
    Leaf(NodeKind),
    /// It becomes a node, or a part of a table, over the results of its children.
    Parent(ElementKind, IfEmpty),
}

/// Returns the mapping to a node over the results of its children, where some of them count.
fn vanishing(kind: NodeKind) -> Mapping
    ensures { result ≡ Mapping.Parent (ElementKind.Node kind) IfEmpty.Vanishes }
{
    Mapping::Parent(ElementKind::Node(kind), IfEmpty::Vanishes)
}

/// Returns the mapping to a node over the results of its children.
fn standing(kind: NodeKind) -> Mapping
    ensures { result ≡ Mapping.Parent (ElementKind.Node kind) IfEmpty.Stands }
{
    Mapping::Parent(ElementKind::Node(kind), IfEmpty::Stands)
}

/// Returns the mapping to a part of a table.
fn table_part(part: Part, if_empty: IfEmpty) -> Mapping
    ensures { result ≡ Mapping.Parent (ElementKind.Part part) if_empty }
{
    Mapping::Parent(ElementKind::Part(part), if_empty)
}

/// Reports whether a name is `other`, a constant. Compares the bytes in place: a `match` would call a comparison of texts for
/// each name that it lists.
#[inline(always)]
pub(crate) fn is(name: &str, other: &str) -> bool
    ensures { result ≡ bytes_eq name.now other.now }
{
    let bytes = name.as_bytes();
    let others = other.as_bytes();
    if bytes.len() != others.len() {
        return false;
    }
    for at in 0..others.len() {
        if bytes[at] != others[at] {
            return false;
        }
    }
    true
}

/// Returns the mapping of an element of HTML whose node holds no text, by its local name and its attributes. Cells, rows and
/// `div`, of which large documents have most, are mapped in place.
#[inline(always)]
pub(crate) fn html_mapping(name: &str, attributes: &[Attribute]) -> Mapping
    ensures { result ≡ html_mapping name.now (map property_of attributes.now) }
{
    if is(name, "td") || is(name, "th") {
        return table_part(Part::Cell(span_of(attributes)), IfEmpty::Stands);
    }
    if is(name, "tr") {
        return table_part(Part::Row, IfEmpty::Stands);
    }
    if is(name, "div") {
        return vanishing(NodeKind::Div);
    }
    other_mapping(name, attributes)
}

/// Returns the mapping of an element of HTML that is no cell, row or `div` and whose node holds no text, by its local name and
/// its attributes.
#[inline(never)]
fn other_mapping(name: &str, attributes: &[Attribute]) -> Mapping
    requires cell { bytes_eq name.now (codes "td") ≡ false }
    requires header { bytes_eq name.now (codes "th") ≡ false }
    requires row { bytes_eq name.now (codes "tr") ≡ false }
    requires div { bytes_eq name.now (codes "div") ≡ false }
    ensures { result ≡ html_mapping name.now (map property_of attributes.now) }
{
    match name {
        _ if is_same_name(name, "p") => vanishing(NodeKind::Block),
        _ if is_same_name(name, "pre") => standing(NodeKind::Block),
        _ if is_same_name(name, "li") => standing(NodeKind::ListItem),
        _ if is_same_name(name, "em") || is_same_name(name, "i") || is_same_name(name, "ins") =>
            standing(NodeKind::Emphasis(Emphasis::Em)),
        _ if is_same_name(name, "strong") || is_same_name(name, "b") => standing(NodeKind::Emphasis(
            Emphasis::Strong,
        )),
        _ if is_same_name(name, "code") => standing(NodeKind::Emphasis(Emphasis::Code)),
        _ if is_same_name(name, "br") => Mapping::Leaf(NodeKind::Break),
        _ if is_same_name(name, "ul") => vanishing(NodeKind::Ul),
        _ if is_same_name(name, "ol") => vanishing(NodeKind::Ol(start_of(attributes))),
        _ if is_same_name(name, "h1") => standing(NodeKind::Header(1)),
        _ if is_same_name(name, "h2") => standing(NodeKind::Header(2)),
        _ if is_same_name(name, "h3") => standing(NodeKind::Header(3)),
        _ if is_same_name(name, "h4") => standing(NodeKind::Header(4)),
        _ if is_same_name(name, "h5") => standing(NodeKind::Header(5)),
        _ if is_same_name(name, "h6") => standing(NodeKind::Header(6)),
        _ if is_same_name(name, "blockquote") => vanishing(NodeKind::BlockQuote),
        _ if is_same_name(name, "s") || is_same_name(name, "del") => standing(NodeKind::Strikeout),
        _ if is_same_name(name, "sup") => standing(NodeKind::Superscript),
        _ if is_same_name(name, "dl") => vanishing(NodeKind::Dl),
        _ if is_same_name(name, "dt") => standing(NodeKind::Dt),
        _ if is_same_name(name, "dd") => standing(NodeKind::Dd),
        _ if is_same_name(name, "table") => table_part(Part::Table, IfEmpty::Vanishes),
        _
            if is_same_name(name, "thead")
                || is_same_name(name, "tbody")
                || is_same_name(name, "tfoot") => table_part(Part::Body, IfEmpty::Vanishes),
        _ if is_same_name(name, "caption") => table_part(Part::Caption, IfEmpty::Vanishes),
        _ if is_same_name(name, "html") || is_same_name(name, "body") => standing(
            NodeKind::Container,
        ),
        _
            if is_same_name(name, "head")
                || is_same_name(name, "link")
                || is_same_name(name, "meta")
                || is_same_name(name, "hr")
                || is_same_name(name, "script")
                || is_same_name(name, "style") => Mapping::Nothing,
        _ => vanishing(NodeKind::Container),
    }
}

/// Returns the mapping of an `a`, by its attributes: a link to its first `href`, if it has one.
fn link_mapping(attributes: &[Attribute]) -> Result<Mapping, AllocError>
    ensures { IfOk result (λ mapping. mapping ≡ option_map_or (λ t. Mapping.Parent (ElementKind.Node (NodeKind.Link t)) IfEmpty.Vanishes)
        (first_value (codes "href") (map property_of attributes.now)) (Mapping.Parent (ElementKind.Node NodeKind.Container) IfEmpty.Stands)) }
{
    match first_value(attributes, "href") {
        Some(target) => {
            let target = target.clone()?;
            Ok(vanishing(NodeKind::Link(target)))
        }
        None => Ok(standing(NodeKind::Container)),
    }
}

/// Returns the mapping of an `img`, by its source and its title: nothing without a source.
fn image_mapping(
    alloc: Global,
    source: &AttributeValue,
    title: &AttributeValue,
) -> Result<Mapping, AllocError>
    ensures { IfOk result (λ mapping. mapping ≡ (if is_filled source.now
        then Mapping.Leaf (NodeKind.Image (record { source = source.now; title = title.now })) else Mapping.Nothing)) }
{
    if source.as_str().is_empty() {
        return Ok(Mapping::Nothing);
    }
    let image = Image::new(alloc, source.clone()?, title.clone()?)?;
    Ok(Mapping::Leaf(NodeKind::Image(image)))
}

/// Reports whether the node of an element of HTML of this name may have a text of its own.
#[inline(always)]
pub(crate) fn is_mapped_apart(name: &str) -> bool
    ensures { result ≡ (bytes_eq name.now (codes "a") || (bytes_eq name.now (codes "img") || bytes_eq name.now (codes "wbr"))) }
{
    is(name, "a") || (is(name, "img") || is(name, "wbr"))
}

/// Returns the mapping of an element of HTML, by its local name and its attributes.
fn html_element_mapping(
    alloc: Global,
    name: &str,
    attributes: &[Attribute],
) -> Result<Mapping, AllocError>
    ensures { IfOk result (λ mapping. mapping ≡ html_element_mapping name.now (map property_of attributes.now)) }
{
    match name {
        _ if is(name, "a") => link_mapping(attributes),
        _ if is(name, "img") => {
            let nothing = AttributeValue::new();
            let (source, title) = image_parts(attributes, &nothing);
            image_mapping(alloc, source, title)
        }
        _ if is(name, "wbr") => {
            let space = NodeText::from_str(alloc, "\u{200b}")?;
            Ok(Mapping::Leaf(NodeKind::Text(space)))
        }
        _ => Ok(html_mapping(name, attributes)),
    }
}

/// Returns the mapping of an element of this name and with these attributes. Outside HTML's namespace no name but SVG's `svg`
/// is special.
pub(crate) fn element_mapping(
    alloc: Global,
    dom: &RcDom,
    element: Handle,
    name: &QualName,
    attributes: &[Attribute],
) -> Result<Mapping, AllocError>
    requires forest { IsForest dom.now }
    requires node { IsNode dom.now element }
    ensures { IfOk result (λ mapping. mapping ≡ element_mapping (space_of name.now.ns) name.now.local
        (map property_of attributes.now) (trees_of dom.now (children_at dom.now element))) }
{
    match name.ns {
        Namespace::Html => html_element_mapping(alloc, name.local.as_str(), attributes),
        Namespace::Svg if is(name.local.as_str(), "svg") => {
            let title = drawing_title(alloc, dom, element)?;
            Ok(Mapping::Leaf(NodeKind::Svg(title)))
        }
        _ => Ok(vanishing(NodeKind::Container)),
    }
}

/// Reports whether an element is a `pre` of HTML.
#[inline(always)]
pub(crate) fn is_preformatted(name: &QualName) -> bool
    ensures { result ≡ is_preformatted (name_of name.now) }
{
    match name.ns {
        Namespace::Html => is(name.local.as_str(), "pre"),
        _ => false,
    }
}

/// Gives the style of a `pre` its last update: it keeps white space, unless a rule that wins over this says otherwise.
pub(crate) fn preformat(style: &mut ComputedStyle)
    ensures { style.new ≡ preformatted_style style.old }
{
    let no_specificity = Specificity::default();
    style
        .white_space
        .maybe_update(false, StyleOrigin::Agent, no_specificity, WhiteSpace::Pre);
    style.internal_pre = true;
}

/// Returns the style that an element's style gives its node.
pub fn node_style(style: &ComputedStyle) -> NodeStyle
    ensures { result ≡ node_style style.now }
{
    NodeStyle {
        colour: style.colour.val().copied(),
        background: style.bg_colour.val().copied(),
        white_space: style.white_space.val().copied().unwrap_or_default(),
        preformatted: style.internal_pre,
    }
}
