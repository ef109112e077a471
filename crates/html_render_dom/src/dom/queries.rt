//! Queries of handles and single nodes: identity, the number of nodes, names of elements, contents of templates, and
//! integration points.

ghost use Rattle.std.specs.Prelude.{◌≡◌, ◌↔◌, IsTrue, IsSome, IfOk, Some, string_bytes};
ghost use Rattle.std.specs.Option.{option_map};
ghost use Rattle.html_render_dom_values.specs.Outcome.{OnlyOutOfMemory};
ghost use Rattle.html_render_dom_nodes.specs.Content.{name_of};
ghost use Rattle.html_render_dom.specs.Dom.{IsNode, IsElement, content_at, node_count};
ghost use Rattle.html_render_dom_nodes.specs.Elements.{name_in, local_name_in, contents_in, is_integration_point};

use super::documents::RcDom;
use html_render_dom_nodes::{Handle, NodeData, QualName};
use html_render_dom_values::Error;
use std::alloc::Global;

impl RcDom {
    /// Reports whether two handles are those of one node.
    pub fn same_node(&self, x: Handle, y: Handle) -> bool
        ensures { IsTrue result ↔ (x ≡ y) }
    {
        x == y
    }

    /// Returns the number of nodes, those without a parent included. The next node that is created gets this number.
    pub fn node_count(&self) -> usize
        ensures { result ≡ node_count self.now }
    {
        self.nodes.len()
    }

    /// Reports whether the node is a template, an element with contents; `false` if there is no such node.
    pub fn is_template(&self, node: Handle) -> bool
        ensures { IsTrue result ↔ IsSome (contents_in (content_at self.now node)) }
    {
        if !self.is_node(node) {
            return false;
        }
        match self.data(node) {
            NodeData::Element {
                template_contents,
                ..
            } => template_contents.get().is_some(),
            _ => false,
        }
    }

    /// Returns the document node that holds the template's contents. The node must be a template.
    pub fn get_template_contents(&self, node: Handle) -> Handle
        requires { IsSome (contents_in (content_at self.now node)) }
        ensures contents { contents_in (content_at self.now node) ≡ Some result }
        ensures is_node { IsNode self.now result }
    {
        match &self.entry(node).data {
            NodeData::Element {
                template_contents,
                ..
            } => match template_contents.get() {
                Some(contents) => contents,
                None => unreachable!(),
            },
            _ => unreachable!(),
        }
    }

    /// Returns the element's name. The node must be an element.
    pub fn elem_name(&self, node: Handle) -> &QualName
        requires { IsElement (content_at self.now node) }
        ensures { name_in (content_at self.now node) ≡ Some (name_of result.now) }
    {
        match self.data(node) {
            NodeData::Element { name, .. } => name,
            _ => unreachable!(),
        }
    }

    /// Returns a copy of the element's local name; `None` if the node isn't an element.
    ///
    /// # Errors
    ///
    /// Returns `OutOfMemory` if an allocation is refused.
    pub fn element_name(&self, alloc: Global, node: Handle) -> Result<Option<String>, Error>
        requires { IsNode self.now node }
        ensures ok { IfOk result
            (λ name. option_map string_bytes name ≡ local_name_in (content_at self.now node)) }
        ensures err { OnlyOutOfMemory result }
    {
        match self.data(node) {
            NodeData::Element { name, .. } => Ok(Some(String::from_str(
                alloc,
                name.local.as_str(),
            )?)),
            _ => Ok(None),
        }
    }

    /// Reports whether the element was created as an HTML integration point of MathML's `annotation-xml`.
    ///
    /// The node must be an element.
    pub fn is_mathml_annotation_xml_integration_point(&self, node: Handle) -> bool
        requires { IsElement (content_at self.now node) }
        ensures { result ≡ is_integration_point (content_at self.now node) }
    {
        match self.data(node) {
            NodeData::Element {
                mathml_annotation_xml_integration_point,
                ..
            } => *mathml_annotation_xml_integration_point,
            _ => unreachable!(),
        }
    }
}
