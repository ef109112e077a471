//! Calls that add nodes, attributes and messages to a document. Each makes its allocations before it changes anything, so a
//! refused call leaves the document unchanged.

ghost use Rattle.std.specs.Prelude.{◌≡◌, ◌++◌, ◌∷◌, [], None, IfOk, map, string_bytes};
ghost use Rattle.html_render_dom_nodes.specs.Content.{name_of, property_of, content_of, doctype, comment, instruction};
ghost use Rattle.html_render_dom.specs.Dom.{IsNode, IsElement, content_at};
ghost use Rattle.html_render_dom_nodes.specs.Elements.{completed, contents_in};
ghost use Rattle.html_render_dom.specs.Edits.{CanAppend, Creates, Edits, IsFresh, appended, element_appended, html_name, text_appended};
ghost use Rattle.html_render_dom_nodes.specs.Edits.{attached_new, created, element_created, with_content};

use super::documents::RcDom;
use super::settings::QuirksMode;
use html_render_dom_nodes::nodes::{self, Node};
use html_render_dom_nodes::{
    Attribute, ElementFlags, Handle, LocalName, NodeData, NodeOrText, QualName,
};
use html_render_dom_values::Error;
use std::alloc::Global;

impl RcDom {
    /// Appends a node or a text to the children of `parent`.
    ///
    /// A text is joined to the last child if that is a text node. Otherwise it becomes a text node with the next number. A
    /// node must not have a parent, and must not be an inclusive ancestor of `parent`.
    ///
    /// # Errors
    ///
    /// Returns `OutOfMemory` if an allocation is refused. The document is then unchanged, and a text that was passed in is
    /// dropped.
    pub fn append(&mut self, alloc: Global, parent: Handle, child: NodeOrText) -> Result<(), Error>
        requires parent { IsNode self.old parent }
        requires child { CanAppend self.old parent child }
        ensures { Edits result self.old (appended self.old parent child) self.new }
    {
        match child {
            NodeOrText::AppendNode(child) => Ok(nodes::attach(&mut self.nodes, parent, child)?),
            NodeOrText::AppendText(text) => {
                let last = self.last_text(parent);
                Ok(nodes::put_text(alloc, &mut self.nodes, parent, last, text)?)
            }
        }
    }

    /// Appends a copy of a text to the children of `parent`.
    ///
    /// As in [`append`](RcDom::append), the text is joined to the last child if that is a text node. A new text node stores
    /// up to 30 bytes without a further allocation.
    ///
    /// # Errors
    ///
    /// Returns `OutOfMemory` if an allocation is refused. The document is then unchanged.
    pub fn append_str(&mut self, alloc: Global, parent: Handle, text: &str) -> Result<(), Error>
        requires { IsNode self.old parent }
        ensures { Edits result self.old (text_appended self.old parent text.now) self.new }
    {
        let last = self.last_text(parent);
        nodes::put_str(alloc, &mut self.nodes, parent, last, text)?;
        Ok(())
    }

    /// Appends a new HTML element with the local name `name`, without attributes, to the children of `parent`.
    ///
    /// Returns its handle, which is the next number. A `template` gets no contents.
    ///
    /// # Errors
    ///
    /// Returns `OutOfMemory` if an allocation is refused. The document is then unchanged.
    pub fn append_element(
        &mut self,
        alloc: Global,
        parent: Handle,
        name: &str,
    ) -> Result<Handle, Error>
        requires { IsNode self.old parent }
        ensures created { Creates result self.old (element_appended self.old parent (html_name name.now)) self.new }
        ensures is_node { IfOk result (λ made. IsNode self.new made) }
    {
        let name = QualName::html(LocalName::from_str(alloc, name)?);
        self.append_named(alloc, parent, name)
    }

    /// Appends a new element as [`append_element`](RcDom::append_element) does, with a name of any namespace.
    pub(crate) fn append_named(
        &mut self,
        alloc: Global,
        parent: Handle,
        name: QualName,
    ) -> Result<Handle, Error>
        requires { IsNode self.old parent }
        ensures created { Creates result self.old (element_appended self.old parent (name_of name)) self.new }
        ensures is_node { IfOk result (λ made. IsNode self.new made) }
    {
        let appended = Handle::new(self.nodes.len());
        nodes::attach_element(alloc, &mut self.nodes, parent, name)?;
        Ok(appended)
    }

    /// Creates an element without a parent or children, and returns its handle, which is the next number.
    ///
    /// If `flags.template` is set, the element gets contents: a document node without a parent, with the number after the
    /// element's.
    ///
    /// # Errors
    ///
    /// Returns `OutOfMemory` if an allocation is refused. The document is then unchanged; the name and the attributes are
    /// dropped.
    pub fn create_element(
        &mut self,
        alloc: Global,
        name: QualName,
        attrs: Vec<Attribute>,
        flags: ElementFlags,
    ) -> Result<Handle, Error>
        ensures created { Creates result self.old
            (record self.old { nodes = element_created self.old.nodes (name_of name) (map property_of attrs.items) flags }) self.new }
        ensures fresh { IfOk result (IsFresh self.old self.new) }
    {
        let number = self.nodes.len();
        nodes::push_element(alloc, &mut self.nodes, name, attrs, flags)?;
        Ok(Handle::new(number))
    }

    /// Creates a comment without a parent, and returns its handle, which is the next number.
    ///
    /// # Errors
    ///
    /// Returns `OutOfMemory` if an allocation is refused. The document is then unchanged, and the text is dropped.
    pub fn create_comment(&mut self, alloc: Global, contents: String) -> Result<Handle, Error>
        ensures created { Creates result self.old
            (record self.old { nodes = created self.old.nodes (comment (string_bytes contents)) }) self.new }
        ensures fresh { IfOk result (IsFresh self.old self.new) }
    {
        self.create(alloc, NodeData::Comment { contents })
    }

    /// Creates a processing instruction without a parent, and returns its handle, which is the next number.
    ///
    /// # Errors
    ///
    /// Returns `OutOfMemory` if an allocation is refused. The document is then unchanged, and the texts are dropped.
    pub fn create_pi(
        &mut self,
        alloc: Global,
        target: String,
        contents: String,
    ) -> Result<Handle, Error>
        ensures created { Creates result self.old
            (record self.old { nodes = created self.old.nodes (instruction (string_bytes target) (string_bytes contents)) }) self.new }
        ensures fresh { IfOk result (IsFresh self.old self.new) }
    {
        self.create(alloc, NodeData::ProcessingInstruction { target, contents })
    }

    /// Creates a node without a parent or children, and returns its handle, which is the next number. It isn't a template.
    fn create(&mut self, alloc: Global, contents: NodeData) -> Result<Handle, Error>
        requires { contents_in (content_of contents) ≡ None }
        ensures created { Creates result self.old
            (record self.old { nodes = created self.old.nodes (content_of contents) }) self.new }
        ensures fresh { IfOk result (IsFresh self.old self.new) }
    {
        let made = Handle::new(self.nodes.len());
        self.nodes.push(Node::lone(alloc, contents))?;
        Ok(made)
    }

    /// Appends a new doctype, with the next number, to the children of the document node.
    ///
    /// # Errors
    ///
    /// Returns `OutOfMemory` if an allocation is refused. The document is then unchanged, and the texts are dropped.
    pub fn append_doctype_to_document(
        &mut self,
        alloc: Global,
        name: String,
        public_id: String,
        system_id: String,
    ) -> Result<(), Error>
        ensures { let made = doctype (string_bytes name) (string_bytes public_id) (string_bytes system_id) in
            Edits result self.old (record self.old { nodes = attached_new self.old.nodes made 0 }) self.new }
    {
        let doctype = NodeData::doctype(alloc, name, public_id, system_id)?;
        let document = self.get_document();
        nodes::attach_new(alloc, &mut self.nodes, document, doctype)?;
        Ok(())
    }

    /// Appends to the element's attributes, in order, those of `attrs` with a name that the element doesn't have yet.
    ///
    /// Names are compared by namespace and local name. Two new attributes with one name are both added.
    ///
    /// # Errors
    ///
    /// Returns `OutOfMemory` if an allocation is refused. The document is then unchanged, and `attrs` is dropped.
    pub fn add_attrs_if_missing(
        &mut self,
        _alloc: Global,
        node: Handle,
        attrs: Vec<Attribute>,
    ) -> Result<(), Error>
        requires { IsElement (content_at self.old node) }
        ensures { Edits result self.old (record self.old
            { nodes = with_content self.old.nodes node (completed (content_at self.old node) (map property_of attrs.items)) }) self.new }
    {
        nodes::complete(&mut self.nodes, node, attrs)?;
        Ok(())
    }

    /// Appends `attr` to the element's attributes, unless the element has one with its name.
    ///
    /// Names are compared as in [`add_attrs_if_missing`](RcDom::add_attrs_if_missing). No vector is needed.
    ///
    /// # Errors
    ///
    /// Returns `OutOfMemory` if an allocation is refused. The document is then unchanged, and `attr` is dropped.
    pub fn add_attr_if_missing(
        &mut self,
        alloc: Global,
        node: Handle,
        attr: Attribute,
    ) -> Result<(), Error>
        requires { IsElement (content_at self.old node) }
        ensures { Edits result self.old (record self.old
            { nodes = with_content self.old.nodes node (completed (content_at self.old node) (property_of attr ∷ [])) }) self.new }
    {
        nodes::complete_one(alloc, &mut self.nodes, node, attr)?;
        Ok(())
    }

    /// Appends the message of a parse error to [`errors`](RcDom::errors).
    ///
    /// # Errors
    ///
    /// Returns `OutOfMemory` if an allocation is refused. The document is then unchanged, and the message is dropped.
    pub fn parse_error(&mut self, _alloc: Global, message: String) -> Result<(), Error>
        ensures { Edits result self.old
            (record self.old { messages = self.old.messages ++ string_bytes message ∷ [] }) self.new }
    {
        self.errors.push(message)?;
        Ok(())
    }

    /// Sets the quirks mode.
    pub fn set_quirks_mode(&mut self, mode: QuirksMode)
        ensures { self.new ≡ record self.old { mode = mode } }
    {
        self.quirks_mode = mode;
    }
}
