//! What an image and a drawing are called, and where an image lies.

ghost use Rattle.std.specs.Prelude.{◌≡◌, [], IfOk, IfSome, map, option_map, unwrap_or, string_bytes};
ghost use Rattle.html_render_dom_nodes.specs.Content.{content_of, property_of};
ghost use Rattle.html_render_dom.specs.Dom.{IsForest, IsNode, below, children_at, node_count, trees_of};
ghost use Rattle.html_render_dom_values.specs.Forest.{none};
ghost use Rattle.html_render_tree_convert.specs.Images.{read, image_parts, direct_texts, in_last_title, drawing_title};
ghost use Rattle.html_render_tree_convert.specs.Drawings.{is_title_node, text_in};

use html_render_dom::Error;
use html_render_dom::dom::{Attribute, AttributeValue, Handle, Namespace, NodeData, RcDom};
use html_render_layout_nodes::text::NodeText;
use std::alloc::{AllocError, Global};

/// Returns an image's source and title once one more attribute is read, which changes neither where there are both.
fn read<'a>(
    attribute: &'a Attribute,
    source: &'a AttributeValue,
    title: &'a AttributeValue,
) -> (&'a AttributeValue, &'a AttributeValue)
    ensures { record { source = result.0.now; title = result.1.now }
        ≡ read (record { source = source.now; title = title.now }) (property_of attribute.now) }
{
    let value = attribute.value.as_str();
    if value.is_empty() || (!source.as_str().is_empty() && !title.as_str().is_empty()) {
        return (source, title);
    }
    match attribute.name.local.as_str() {
        "alt" => (source, &attribute.value),
        "src" => (&attribute.value, title),
        _ => (source, title),
    }
}

/// Returns the source and the title of an image, each `nothing` where it isn't given.
pub(crate) fn image_parts<'a>(
    attributes: &'a [Attribute],
    nothing: &'a AttributeValue,
) -> (&'a AttributeValue, &'a AttributeValue)
    requires { nothing.now ≡ [] }
    ensures { record { source = result.0.now; title = result.1.now } ≡ image_parts (map property_of attributes.now) }
{
    let mut source = nothing;
    let mut title = nothing;
    for attribute in attributes {
        let (next_source, next_title) = read(attribute, source, title);
        source = next_source;
        title = next_title;
    }
    (source, title)
}

/// Reports whether a node is a `title` of SVG.
fn is_title(node: &NodeData) -> bool
    ensures { result ≡ is_title_node (content_of node.now) }
{
    match node {
        NodeData::Element { name, .. } => match name.ns {
            Namespace::Svg => name.local.as_str() == "title",
            _ => false,
        },
        _ => false,
    }
}

/// Returns the last of the titles in a node that come before any other element.
#[tactic(auto, using(crate::proofs::Drawings::children))]
fn last_title(dom: &RcDom, node: Handle) -> Option<Handle>
    requires { IsNode dom.now node }
    ensures node { IfSome result (IsNode dom.now) }
    ensures title { unwrap_or (option_map (below (node_count dom.now) dom.now) result) none
        ≡ in_last_title none (trees_of dom.now (children_at dom.now node)) }
{
    let mut title = None;
    for child in dom.child_list(node) {
        if is_title(dom.data(*child)) {
            title = Some(*child);
        } else if dom.is_element(*child) {
            return title;
        }
    }
    title
}

/// Returns the contents of a text; an empty text for any other node.
fn text_in(node: &NodeData) -> &str
    ensures { result.now ≡ text_in (content_of node.now) }
{
    match node {
        NodeData::Text { contents } => contents.as_str(),
        _ => "",
    }
}

/// Returns the texts that are children of a node, joined.
#[tactic(auto, using(crate::proofs::Drawings::children))]
fn direct_texts(alloc: Global, dom: &RcDom, node: Handle) -> Result<String, AllocError>
    requires { IsNode dom.now node }
    ensures { IfOk result (λ texts. string_bytes texts ≡ direct_texts (trees_of dom.now (children_at dom.now node))) }
{
    let mut texts = String::new(alloc);
    for child in dom.child_list(node) {
        texts.push_str(text_in(dom.data(*child)))?;
    }
    Ok(texts)
}

/// Returns the title of a drawing.
pub fn drawing_title(alloc: Global, dom: &RcDom, node: Handle) -> Result<NodeText, AllocError>
    requires forest { IsForest dom.now }
    requires node { IsNode dom.now node }
    ensures { IfOk result (λ title. title ≡ drawing_title (trees_of dom.now (children_at dom.now node))) }
{
    match last_title(dom, node) {
        Some(title) => Ok(NodeText::from(direct_texts(alloc, dom, title)?)),
        None => Ok(NodeText::from(String::new(alloc))),
    }
}
