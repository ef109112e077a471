//! [`RcDom`], the arena of a document's nodes, with queries of its structure.

ghost use Rattle.std.specs.Prelude.{◌≡◌, ◌↔◌, map, string_bytes, IsTrue, IsSome, IfOk, IfSome, All};
ghost use Rattle.html_render_dom_values.specs.Outcome.{OnlyOutOfMemory};
ghost use Rattle.html_render_dom_nodes.specs.Content.{content_of};
ghost use Rattle.html_render_dom.specs.Dom.{empty_dom, IsForest, IsNode, IsElement, IsInclusiveAncestor, content_at, children_at, parent_at};
ghost use Rattle.html_render_dom_nodes.specs.Nodes.{node_in, node_of};
ghost use Rattle.html_render_dom_nodes.specs.Edits.{last_text};

use super::settings::QuirksMode;
use html_render_dom_nodes::nodes::Node;
use html_render_dom_nodes::{Handle, NodeData};
use html_render_dom_values::Error;
use std::alloc::Global;
use std::marker::Model;

/// A document: an arena of nodes, the messages of parse errors, and the quirks mode.
///
/// Each node has an ordered list of children. A node is in at most one list, once, and isn't its own ancestor. The
/// contents of a template are a document node in this arena. Nodes are freed only with the document.
///
/// A handle that is passed to a call must be that of a node of this document ([`is_node`](RcDom::is_node)), unless the call
/// says what it returns for others.
#[derive(Drop)]
pub struct RcDom {
    pub(super) nodes: Vec<Node>,
    pub(super) errors: Vec<String>,
    pub(super) quirks_mode: QuirksMode,
}

impl Model for RcDom {
    ghost use Rattle.html_render_dom.specs.Dom.{Dom, IsForest};

    ghost Value = { Dom };

    ghost use Rattle.html_render_dom.specs.Documents.{dom_of};

    ghost view = { dom_of };

    ghost invariant = { λ d. IsForest (dom_of d) };
}

impl RcDom {
    /// Creates a document without children or errors, in `NoQuirks` mode.
    ///
    /// # Errors
    ///
    /// Returns `OutOfMemory` if an allocation is refused.
    pub fn new(alloc: Global) -> Result<RcDom, Error>
        ensures ok { IfOk result (λ dom. dom ≡ empty_dom) }
        ensures err { OnlyOutOfMemory result }
    {
        let mut nodes = Vec::new(alloc);
        nodes.push(Node::lone(alloc, NodeData::Document))?;
        Ok(RcDom {
            nodes,
            errors: Vec::new(alloc),
            quirks_mode: QuirksMode::NoQuirks,
        })
    }

    /// Returns the document node, which has the number 0.
    pub fn get_document(&self) -> Handle
        ensures document { result ≡ 0 }
        ensures forest { IsForest self.now }
    {
        // naming a field gives the proof the invariant that the nodes are a forest
        let _ = &self.nodes;
        Handle::new(0)
    }

    /// Returns the messages of parse errors, in the order in which [`parse_error`](RcDom::parse_error) added them.
    pub fn errors(&self) -> &[String]
        ensures { map string_bytes result.now ≡ self.now.messages }
    {
        self.errors.as_slice()
    }

    /// Returns the quirks mode, which is `NoQuirks` in a new document.
    pub fn quirks_mode(&self) -> QuirksMode
        ensures { result ≡ self.now.mode }
    {
        self.quirks_mode
    }

    /// Reports whether the document has a node with this number.
    pub fn is_node(&self, node: Handle) -> bool
        ensures { IsTrue result ↔ IsNode self.now node }
    {
        node.number() < self.nodes.len()
    }

    /// Reports whether the node has a parent; `false` if there is no such node.
    pub fn has_parent(&self, node: Handle) -> bool
        ensures { IsTrue result ↔ IsSome (parent_at self.now node) }
    {
        self.is_node(node) && self.get_parent(node).is_some()
    }

    /// Reports whether the node is an element; `false` if there is no such node.
    pub fn is_element(&self, node: Handle) -> bool
        ensures { IsTrue result ↔ IsElement (content_at self.now node) }
    {
        self.is_node(node) && matches!(self.data(node), NodeData::Element { .. })
    }

    /// Reports whether `ancestor` is `node` itself or an ancestor of it; `false` if one of them is no node.
    pub fn is_inclusive_ancestor(&self, ancestor: Handle, node: Handle) -> bool
        ensures { IsTrue result ↔ (IsNode self.now node × IsInclusiveAncestor self.now ancestor node) }
    {
        if !self.is_node(node) {
            return false;
        }
        // naming a field gives the proof the invariant that the nodes are a forest
        let _ = &self.nodes;
        let mut at = node;
        while at != ancestor {
            match self.get_parent(at) {
                Some(parent) => at = parent,
                None => return false,
            }
        }
        true
    }

    /// Returns the node's data.
    pub fn data(&self, node: Handle) -> &NodeData
        requires { IsNode self.now node }
        ensures { content_of result.now ≡ content_at self.now node }
    {
        &self.entry(node).data
    }

    /// Returns a slice of the node's children, in order.
    pub fn child_list(&self, node: Handle) -> &[Handle]
        requires { IsNode self.now node }
        ensures list { result.now ≡ children_at self.now node }
        ensures nodes { All (IsNode self.now) result.now }
    {
        self.entry(node).children.as_slice()
    }

    /// Returns a vector of the node's children, in order.
    ///
    /// # Errors
    ///
    /// Returns `OutOfMemory` if an allocation is refused.
    pub fn children(&self, alloc: Global, node: Handle) -> Result<Vec<Handle>, Error>
        requires { IsNode self.now node }
        ensures ok { IfOk result (λ list. list.items ≡ children_at self.now node) }
        ensures err { OnlyOutOfMemory result }
    {
        Ok(Vec::from_slice(alloc, self.child_list(node))?)
    }

    /// Returns the node whose list of children has this node; `None` if it is in no list.
    pub fn get_parent(&self, node: Handle) -> Option<Handle>
        requires { IsNode self.now node }
        ensures parent { result ≡ parent_at self.now node }
        ensures is_node { IfSome result (IsNode self.now) }
    {
        self.entry(node).parent.get()
    }

    /// Returns the arena's entry of the node.
    pub(super) fn entry(&self, node: Handle) -> &Node
        requires { IsNode self.now node }
        ensures node { node_of result.now ≡ node_in self.now.nodes node }
        ensures forest { IsForest self.now }
    {
        &self.nodes[node.number()]
    }

    /// Returns the last child if it is a text node, and `None` otherwise.
    pub(super) fn last_text(&self, parent: Handle) -> Option<Handle>
        requires { IsNode self.now parent }
        ensures text { result ≡ last_text self.now.nodes parent }
        ensures is_node { IfSome result (IsNode self.now) }
    {
        let last = *self.child_list(parent).last()?;
        matches!(self.data(last), NodeData::Text { .. }).then_some(last)
    }
}
