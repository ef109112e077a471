//! The vector of nodes, and single edits of it.

ghost use Rattle.std.specs.Prelude.{◌≡◌, ◌+◌, ◌^◌, ◌<◌, ◌≤◌, ◌++◌, ◌∷◌, [], None, Some, false, OnOk, OnErr, vec_len, vec_capacity, map, string_bytes};
ghost use Rattle.std.specs.Option.{ForSome};
ghost use Rattle.html_render_dom_nodes.specs.Content.{content_of, element, name_of, property_of, text};
ghost use Rattle.html_render_dom_nodes.specs.Elements.{completed};
ghost use Rattle.html_render_dom_nodes.specs.Nodes.{lone, node_in, node_of, nodes_of};
ghost use Rattle.html_render_dom_nodes.specs.Room.{KeepsRoom};
ghost use Rattle.html_render_dom_nodes.specs.Edits.{attached, attached_new, element_created, joined, with_children, text_put, with_content, with_parent};

use crate::attributes::Attributes;
use crate::contents::{NodeData, TextContents};
use crate::flags::ElementFlags;
use crate::handles::{Handle, OptionalHandle};
use crate::names::{Attribute, QualName};
use smallvec::SmallVec;
use std::alloc::{AllocError, Global};
use std::mem::size_of;

/// Number of children that a node stores without an allocation.
const FEW_CHILDREN: usize = 2;

/// Number of children that memory is reserved for at a node's first one without room.
const MORE_CHILDREN: usize = 6;

/// A node of the document: its data, and its place in the forest.
#[derive(Drop)]
pub struct Node {
    /// Data of the node.
    pub data: NodeData,
    /// Children, in order. Up to two are stored without an allocation.
    pub children: SmallVec<Handle, 2>,
    /// Node whose list of children has this node; none if it is in no list.
    pub parent: OptionalHandle,
}

const _: () = prove!(size_of::<Node>() == 104);

impl Node {
    /// Creates a node without a parent or children.
    pub fn lone(alloc: Global, contents: NodeData) -> Node
        ensures { node_of result ≡ lone (content_of contents) }
    {
        Node {
            data: contents,
            children: SmallVec::new(alloc),
            parent: OptionalHandle::none(),
        }
    }

    /// Creates a node with a parent and without children.
    #[inline(always)]
    fn below(alloc: Global, parent: Handle, contents: NodeData) -> Node
        requires { parent + 1 < 2 ^ 64 }
        ensures { node_of result ≡ record { content = content_of contents; children = []; parent = Some parent } }
    {
        Node {
            data: contents,
            children: SmallVec::new(alloc),
            parent: OptionalHandle::some(parent),
        }
    }

    /// Creates a text node with a parent.
    #[inline(always)]
    fn text_below(alloc: Global, parent: Handle, contents: TextContents) -> Node
        requires { parent + 1 < 2 ^ 64 }
        ensures { node_of result ≡ record { content = text contents; children = []; parent = Some parent } }
    {
        Node {
            data: NodeData::Text { contents },
            children: SmallVec::new(alloc),
            parent: OptionalHandle::some(parent),
        }
    }

    /// Creates an element with a parent and without attributes or children.
    #[inline(always)]
    fn element_below(alloc: Global, parent: Handle, name: QualName) -> Node
        requires { parent + 1 < 2 ^ 64 }
        ensures { node_of result ≡ record { content = element (name_of name) [] None false; children = []; parent = Some parent } }
    {
        Node {
            data: NodeData::Element {
                name,
                attrs: Attributes::new(),
                template_contents: OptionalHandle::none(),
                mathml_annotation_xml_integration_point: false,
            },
            children: SmallVec::new(alloc),
            parent: OptionalHandle::some(parent),
        }
    }
}

/// Appends a child to a list of children. An error leaves the children as they are.
#[inline]
fn put_last(children: &mut SmallVec<Handle, 2>, child: Handle) -> Result<(), AllocError>
    ensures ok { OnOk result (children.new.items ≡ children.old.items ++ child ∷ []) }
    ensures err { OnErr result (children.new.items ≡ children.old.items) }
{
    if children.len() == FEW_CHILDREN {
        children.reserve(MORE_CHILDREN)?;
    }
    children.push(child)?;
    Ok(())
}

/// Appends the child to the parent's list.
fn push_child(nodes: &mut Vec<Node>, parent: Handle, child: Handle) -> Result<(), AllocError>
    requires { parent < vec_len nodes.old }
    ensures len { vec_len nodes.new ≡ vec_len nodes.old }
    ensures capacity { vec_capacity nodes.new ≡ vec_capacity nodes.old }
    ensures ok { let old = nodes_of nodes.old.items in
        OnOk result (nodes_of nodes.new.items ≡ with_children old parent ((node_in old parent).children ++ child ∷ [])) }
    ensures err { OnErr result (nodes_of nodes.new.items ≡ nodes_of nodes.old.items) }
{
    put_last(&mut nodes[parent.number()].children, child)?;
    Ok(())
}

/// Appends the text to that of a text node. Does nothing for another node.
///
/// # Errors
///
/// Returns an error if an allocation is refused. The nodes are then unchanged.
pub fn extend_text(nodes: &mut Vec<Node>, node: Handle, more: &str) -> Result<(), AllocError>
    requires { node < vec_len nodes.old }
    ensures len { vec_len nodes.new ≡ vec_len nodes.old }
    ensures ok { let old = nodes_of nodes.old.items in
        OnOk result (nodes_of nodes.new.items ≡ with_content old node (joined (node_in old node).content more.now)) }
    ensures err { OnErr result (nodes_of nodes.new.items ≡ nodes_of nodes.old.items) }
{
    let alloc = *nodes.allocator();
    if let NodeData::Text { contents } = &mut nodes[node.number()].data {
        contents.push_str(alloc, more)?;
    }
    Ok(())
}

/// Creates a node with the next number as the parent's last child.
///
/// # Errors
///
/// Returns an error if an allocation is refused. The nodes are then unchanged.
pub fn attach_new(
    alloc: Global,
    nodes: &mut Vec<Node>,
    parent: Handle,
    contents: NodeData,
) -> Result<(), AllocError>
    requires { parent < vec_len nodes.old }
    ensures len { OnOk result (vec_len nodes.new ≡ vec_len nodes.old + 1) }
    ensures ok { OnOk result (nodes_of nodes.new.items
        ≡ attached_new (nodes_of nodes.old.items) (content_of contents) parent) }
    ensures err { OnErr result (nodes_of nodes.new.items ≡ nodes_of nodes.old.items) }
{
    let node = Handle::new(nodes.len());
    nodes.reserve(1)?;
    push_child(nodes, parent, node)?;
    let made = Node::below(alloc, parent, contents);
    nodes.push_reserved(made);
    Ok(())
}

/// Creates an element without attributes, with the next number, as the parent's last child.
///
/// # Errors
///
/// Returns an error if an allocation is refused. The nodes are then unchanged.
pub fn attach_element(
    alloc: Global,
    nodes: &mut Vec<Node>,
    parent: Handle,
    name: QualName,
) -> Result<(), AllocError>
    requires { parent < vec_len nodes.old }
    ensures len { OnOk result (vec_len nodes.new ≡ vec_len nodes.old + 1) }
    ensures ok { OnOk result (nodes_of nodes.new.items
        ≡ attached_new (nodes_of nodes.old.items) (element (name_of name) [] None false) parent) }
    ensures err { OnErr result (nodes_of nodes.new.items ≡ nodes_of nodes.old.items) }
{
    let element = Handle::new(nodes.len());
    nodes.reserve(1)?;
    push_child(nodes, parent, element)?;
    let below = Node::element_below(alloc, parent, name);
    nodes.push_reserved(below);
    Ok(())
}

/// Creates a text node with a copy of the text, with the next number, as the parent's last child.
///
/// # Errors
///
/// Returns an error if an allocation is refused. The nodes are then unchanged.
#[inline]
fn attach_text(
    alloc: Global,
    nodes: &mut Vec<Node>,
    parent: Handle,
    contents: &str,
) -> Result<(), AllocError>
    requires { parent < vec_len nodes.old }
    ensures len { OnOk result (vec_len nodes.new ≡ vec_len nodes.old + 1) }
    ensures ok { OnOk result (nodes_of nodes.new.items
        ≡ attached_new (nodes_of nodes.old.items) (text contents.now) parent) }
    ensures err { OnErr result (nodes_of nodes.new.items ≡ nodes_of nodes.old.items) }
{
    let text = Handle::new(nodes.len());
    nodes.reserve(1)?;
    let contents = TextContents::from_str(alloc, contents)?;
    push_child(nodes, parent, text)?;
    let below = Node::text_below(alloc, parent, contents);
    nodes.push_reserved(below);
    Ok(())
}

/// Joins the text to the text node `before`. Without one, creates a text node as the parent's last child.
///
/// # Errors
///
/// Returns an error if an allocation is refused. The nodes are then unchanged.
pub fn put_text(
    alloc: Global,
    nodes: &mut Vec<Node>,
    parent: Handle,
    before: Option<Handle>,
    contents: String,
) -> Result<(), AllocError>
    requires parent { parent < vec_len nodes.old }
    requires before { ForSome before (λ node. node < vec_len nodes.old) }
    ensures len { OnOk result (vec_len nodes.old ≤ vec_len nodes.new) }
    ensures ok { OnOk result (nodes_of nodes.new.items
        ≡ text_put (nodes_of nodes.old.items) parent before (string_bytes contents)) }
    ensures err { OnErr result (nodes_of nodes.new.items ≡ nodes_of nodes.old.items) }
{
    match before {
        Some(node) => extend_text(nodes, node, contents.as_str()),
        None => attach_new(alloc, nodes, parent, NodeData::text(contents)),
    }
}

/// Joins a copy of the text to the text node `before`. Without one, creates a text node as the parent's last child.
///
/// # Errors
///
/// Returns an error if an allocation is refused. The nodes are then unchanged.
#[inline]
pub fn put_str(
    alloc: Global,
    nodes: &mut Vec<Node>,
    parent: Handle,
    before: Option<Handle>,
    contents: &str,
) -> Result<(), AllocError>
    requires parent { parent < vec_len nodes.old }
    requires before { ForSome before (λ node. node < vec_len nodes.old) }
    ensures len { OnOk result (vec_len nodes.old ≤ vec_len nodes.new) }
    ensures ok { OnOk result (nodes_of nodes.new.items ≡ text_put (nodes_of nodes.old.items) parent before contents.now) }
    ensures err { OnErr result (nodes_of nodes.new.items ≡ nodes_of nodes.old.items) }
{
    match before {
        Some(node) => extend_text(nodes, node, contents),
        None => attach_text(alloc, nodes, parent, contents),
    }
}

/// Sets the node's parent, without changing a list of children.
pub(crate) fn set_parent(nodes: &mut Vec<Node>, node: Handle, parent: Option<Handle>)
    requires node { node < vec_len nodes.old }
    requires parent { ForSome parent (λ p. p < vec_len nodes.old) }
    ensures len { vec_len nodes.new ≡ vec_len nodes.old }
    ensures parent { nodes_of nodes.new.items ≡ with_parent (nodes_of nodes.old.items) node parent }
    ensures room { KeepsRoom nodes.old.items nodes.new.items }
{
    nodes[node.number()].parent = OptionalHandle::of(parent);
}

/// Appends the child to the parent's list, and sets its parent.
///
/// # Errors
///
/// Returns an error if an allocation is refused. The nodes are then unchanged.
pub fn attach(nodes: &mut Vec<Node>, parent: Handle, child: Handle) -> Result<(), AllocError>
    requires parent { parent < vec_len nodes.old }
    requires child { child < vec_len nodes.old }
    ensures len { vec_len nodes.new ≡ vec_len nodes.old }
    ensures ok { OnOk result (nodes_of nodes.new.items ≡ attached (nodes_of nodes.old.items) parent child) }
    ensures err { OnErr result (nodes_of nodes.new.items ≡ nodes_of nodes.old.items) }
{
    push_child(nodes, parent, child)?;
    set_parent(nodes, child, Some(parent));
    Ok(())
}

/// Creates an element with the next number, without a parent. A template's contents have the number after it.
///
/// # Errors
///
/// Returns an error if an allocation is refused. The nodes are then unchanged.
pub fn push_element(
    alloc: Global,
    nodes: &mut Vec<Node>,
    name: QualName,
    attrs: Vec<Attribute>,
    flags: ElementFlags,
) -> Result<(), AllocError>
    ensures ok { OnOk result (nodes_of nodes.new.items
        ≡ element_created (nodes_of nodes.old.items) (name_of name) (map property_of attrs.items) flags) }
    ensures err { OnErr result (nodes_of nodes.new.items ≡ nodes_of nodes.old.items) }
{
    nodes.reserve(if flags.template { 2 } else { 1 })?;
    let attrs = Attributes::of(alloc, attrs)?;
    let template_contents = if flags.template {
        OptionalHandle::some(Handle::new(nodes.len() + 1))
    } else {
        OptionalHandle::none()
    };
    nodes.push(Node::lone(
        alloc,
        NodeData::Element {
            name,
            attrs,
            template_contents,
            mathml_annotation_xml_integration_point: flags.mathml_annotation_xml_integration_point,
        },
    ))?;
    if flags.template {
        nodes.push(Node::lone(alloc, NodeData::Document))?;
    }
    Ok(())
}

/// Appends, in order, the given attributes with a name that the element doesn't have yet. Does nothing for another node.
///
/// # Errors
///
/// Returns an error if an allocation is refused. The nodes are then unchanged.
pub fn complete(
    nodes: &mut Vec<Node>,
    node: Handle,
    given: Vec<Attribute>,
) -> Result<(), AllocError>
    requires { node < vec_len nodes.old }
    ensures len { vec_len nodes.new ≡ vec_len nodes.old }
    ensures ok { let old = nodes_of nodes.old.items in OnOk result (nodes_of nodes.new.items
        ≡ with_content old node (completed (node_in old node).content (map property_of given.items))) }
    ensures err { OnErr result (nodes_of nodes.new.items ≡ nodes_of nodes.old.items) }
{
    if let NodeData::Element { attrs, .. } = &mut nodes[node.number()].data {
        attrs.add_missing(given)?;
    }
    Ok(())
}

/// Appends an attribute to those of the element, unless it has one with its name. Does nothing for another node.
///
/// # Errors
///
/// Returns an error if an allocation is refused. The nodes are then unchanged.
#[inline]
pub fn complete_one(
    alloc: Global,
    nodes: &mut Vec<Node>,
    node: Handle,
    given: Attribute,
) -> Result<(), AllocError>
    requires { node < vec_len nodes.old }
    ensures len { vec_len nodes.new ≡ vec_len nodes.old }
    ensures ok { let old = nodes_of nodes.old.items in OnOk result (nodes_of nodes.new.items
        ≡ with_content old node (completed (node_in old node).content (property_of given ∷ []))) }
    ensures err { OnErr result (nodes_of nodes.new.items ≡ nodes_of nodes.old.items) }
{
    if let NodeData::Element { attrs, .. } = &mut nodes[node.number()].data {
        attrs.add_one_missing(alloc, given)?;
    }
    Ok(())
}
